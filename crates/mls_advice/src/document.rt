//! What is told of a policy or of schemes that are refused.
use crate::advice::advice_of;
use crate::columns::Told;
use crate::excerpts::{cut_off, excerpt, file_line};
use crate::keys::{Known, POLICY, SCHEMES, Thing, known_at};
use crate::nearest::{label_names, nearest_line, push_name};
use crate::shown::{bytes_to, text_to};
use mls_lattice::{Policy, PolicyFault, Step, Str};
use mls_tokens::spot_at;
use std::alloc::{AllocError, Global};
use toml::{Table, Value};

/// How many bytes of a value are shown.
const SHOWN: usize = 80;

const MODES: [&str; 4] = ["execute", "read", "append", "write"];

const KINDS: [&str; 2] = ["int", "text"];

// ---- the way to a field, and what stands there

/// The value at a step below a table.
fn value_below<'a>(table: Option<&'a Table>, step: &Step) -> Option<&'a Value> {
    let value = table?.get(step.field)?;
    match step.item {
        None => Some(value),
        Some(number) => value.as_array()?.get(number.saturating_sub(1)),
    }
}

fn table_in(value: Option<&Value>) -> Option<&Table> {
    value?.as_table()
}

/// The value at the end of some steps, and the table that has it.
fn value_at<'a>(document: &'a Table, steps: &[Step]) -> (Option<&'a Value>, Option<&'a Table>) {
    let mut table = Some(document);
    let mut value = None;
    for (depth, step) in steps.iter().enumerate() {
        if depth > 0 {
            table = table_in(value);
        }
        value = value_below(table, step);
    }
    (value, table)
}

/// Appends a step: the item of an array of tables at the top has brackets, as its heading has.
fn step_to(text: &mut String, is_top: bool, step: &Step) -> Told {
    let field = step.field;
    match step.item {
        None => write!(text, "{field}"),
        Some(number) if is_top && field != "levels" && field != "categories" => write!(
            text,
            "[[{field}]] {number}"
        ),
        Some(number) => write!(text, "{field} {number}"),
    }
}

fn way_to(text: &mut String, steps: &[Step]) -> Told {
    for (depth, step) in steps.iter().enumerate() {
        if depth > 0 {
            text.push_str(", ")?;
        }
        step_to(text, depth == 0, step)?;
    }
    Ok(())
}

/// What stands in an array.
pub(crate) fn items_of(value: Option<&Value>) -> &[Value] {
    match value {
        Some(Value::Array(items)) => items.as_slice(),
        _ => &[],
    }
}

/// Appends a value inside of another one.
fn inner_to(text: &mut String, value: &Value) -> Told {
    match value {
        Value::String(words) => write!(text, "\"{words}\""),
        Value::Integer(number) => write!(text, "{number}"),
        Value::Array(_) => text.push_str("[..]"),
        Value::Table(_) => text.push_str("{..}"),
        _ => text.push_str(value.type_str()),
    }
}

fn list_to(text: &mut String, items: &[Value]) -> Told {
    text.push_str("[")?;
    for (place, item) in items.iter().enumerate() {
        if place > 0 {
            text.push_str(", ")?;
        }
        inner_to(text, item)?;
    }
    text.push_str("]")
}

fn member_to(text: &mut String, key: &str, value: &Value) -> Told {
    write!(text, "{key} = ")?;
    match value {
        Value::Array(items) => list_to(text, items.as_slice()),
        _ => inner_to(text, value),
    }
}

fn table_to(text: &mut String, table: &Table) -> Told {
    let mut is_first = true;
    text.push_str("{ ")?;
    for (key, value) in table.iter() {
        if !is_first {
            text.push_str(", ")?;
        }
        member_to(text, key, value)?;
        is_first = false;
    }
    text.push_str(" }")
}

/// A value as a text of one line, but for its control characters.
fn value_of(alloc: Global, value: &Value) -> Result<String, AllocError> {
    let mut text = String::new(alloc);
    match value {
        Value::Array(items) => list_to(&mut text, items.as_slice())?,
        Value::Table(table) => table_to(&mut text, table)?,
        _ => inner_to(&mut text, value)?,
    }
    Ok(text)
}

/// Appends what stands at a field. Of a long list its length is told.
fn standing_to(alloc: Global, text: &mut String, value: Option<&Value>) -> Told {
    let Some(value) = value else {
        return text.push_str("  Nothing stands there.\n");
    };
    let count = items_of(Some(value)).len();
    if count > 4 {
        return writeln!(text, "  There stand {count} items.");
    }
    let shown = value_of(alloc, value)?;
    text.push_str("  There stands `")?;
    bytes_to(text, cut_off(shown.as_bytes(), SHOWN))?;
    text.push_str("`.\n")
}

// ---- the names that could stand there

fn words_of(alloc: Global, words: &[&str]) -> Result<Vec<Str>, AllocError> {
    let mut names = Vec::new(alloc);
    for word in words {
        push_name(alloc, &mut names, word)?;
    }
    Ok(names)
}

/// The text that a value is, or that a table has at its key `name`.
fn name_in(value: &Value) -> Option<&str> {
    match value {
        Value::Table(table) => table.get("name")?.as_str(),
        _ => value.as_str(),
    }
}

/// The names that an array of a document declares.
fn names_declared(alloc: Global, document: &Table, key: &str) -> Result<Vec<Str>, AllocError> {
    let mut names = Vec::new(alloc);
    for item in items_of(document.get(key)) {
        if let Some(name) = name_in(item) {
            push_name(alloc, &mut names, name)?;
        }
    }
    Ok(names)
}

/// The names of the things of a kind.
fn names_of(
    alloc: Global,
    policy: Option<&Policy>,
    document: &Table,
    thing: Thing,
) -> Result<Vec<Str>, AllocError> {
    match (thing, policy) {
        (Thing::Level, _) => names_declared(alloc, document, "levels"),
        (Thing::Category, _) => names_declared(alloc, document, "categories"),
        (Thing::Label, Some(policy)) => label_names(alloc, policy),
        (Thing::Label, None) => names_declared(alloc, document, "label"),
        (Thing::User, _) => names_declared(alloc, document, "user"),
        (Thing::Mode, _) => words_of(alloc, &MODES),
        (Thing::Kind, _) => words_of(alloc, &KINDS),
        (Thing::Other, _) => Ok(Vec::new(alloc)),
    }
}

/// Appends the nearest name to a text, or to the first of a list that has one.
fn nearest_to(alloc: Global, text: &mut String, value: &Value, names: &[Str]) -> Told {
    if let Some(name) = value.as_str() {
        return text.push_str(&nearest_line(alloc, name.as_bytes(), names)?);
    }
    for item in items_of(Some(value)) {
        if let Some(name) = item.as_str() {
            text.push_str(&nearest_line(alloc, name.as_bytes(), names)?)?;
        }
    }
    Ok(())
}

// ---- all of it

/// A file that is refused: of schemes, where a policy is given. The number of its fault, and the steps to where reading
/// stopped.
#[derive(Clone, Copy)]
struct RefusedField<'a> {
    alloc: Global,
    path: &'a str,
    policy: Option<&'a Policy>,
    code: u8,
    steps: &'a [Step],
}

impl RefusedField<'_> {
    /// What is known of the field.
    fn known(&self) -> Option<&'static Known> {
        let keys: &[Known] = if self.policy.is_some() {
            &SCHEMES
        } else {
            &POLICY
        };
        let last = self.steps.last()?;
        if last.item.is_some()
            && let Some(known) = known_at(keys, last.field, "")
        {
            return Some(known);
        }
        match self.steps {
            [.., above, _] => known_at(keys, above.field, last.field),
            _ => known_at(keys, "", last.field),
        }
    }

    /// Appends what stands at the field, and what could.
    fn field_to(&self, text: &mut String, document: &Table) -> Told {
        let (value, table) = value_at(document, self.steps);
        standing_to(self.alloc, text, value)?;
        if self.code == PolicyFault::EmptyInterval.code() {
            low_to(text, table)?;
        }
        let Some(known) = self.known() else {
            return Ok(());
        };
        if self.code == PolicyFault::UnknownName.code()
            && let Some(value) = value
        {
            let names = names_of(self.alloc, self.policy, document, known.names)?;
            nearest_to(self.alloc, text, value, &names)?;
        }
        let wanted = known.wanted;
        writeln!(text, "  Wanted: {wanted}.")
    }

    /// The field at which reading stopped.
    fn field_lines(&self, document: &Table) -> Result<String, AllocError> {
        if self.steps.is_empty() {
            return file_line(self.alloc, self.path);
        }
        let mut text = String::from_str(self.alloc, "  ")?;
        text_to(&mut text, self.path)?;
        text.push_str(": ")?;
        way_to(&mut text, self.steps)?;
        text.push_str("\n")?;
        self.field_to(&mut text, document)?;
        Ok(text)
    }

    /// The place at which the reader of TOML stopped, and what it says.
    fn toml_lines(&self, bytes: &[u8], fault: &toml::de::Error) -> Result<String, AllocError> {
        let Some(span) = fault.span() else {
            return Err(AllocError);
        };
        let spot = spot_at(bytes, span.start);
        let (line, column) = (spot.line, Some(spot.column));
        let mut text = excerpt(self.alloc, self.path, line, column, false, bytes)?;
        let message = fault.message();
        text.push_str("  The reader of TOML says: ")?;
        text_to(&mut text, message)?;
        text.push_str(".\n")?;
        Ok(text)
    }

    fn lines_of(&self, bytes: &[u8]) -> Result<String, AllocError> {
        let mut text = match toml::table_from_slice(self.alloc, bytes) {
            Err(fault) => self.toml_lines(bytes, &fault)?,
            Ok(document) => self.field_lines(&document)?,
        };
        text.push_str(advice_of(self.code))?;
        Ok(text)
    }
}

/// Appends the lower end of an interval, whose other end stands beside it.
fn low_to(text: &mut String, table: Option<&Table>) -> Told {
    if let Some(table) = table
        && let Some(Value::String(low)) = table.get("low")
    {
        text.push_str("  At low stands `\"")?;
        bytes_to(text, cut_off(low.as_bytes(), SHOWN))?;
        text.push_str("\"`.\n")?;
    }
    Ok(())
}

/// What is told of a policy, or of schemes under a policy, that are refused with the number of a fault, where reading
/// stopped at the end of
/// some steps: where that is, what stands there, what is wanted, and what to do.
pub fn refused_lines<'a>(
    alloc: Global,
    path: &'a str,
    policy: Option<&'a Policy>,
    bytes: &[u8],
    code: u8,
    steps: &'a [Step],
) -> Result<String, AllocError> {
    let site = RefusedField {
        alloc,
        path,
        policy,
        code,
        steps,
    };
    site.lines_of(bytes)
}
