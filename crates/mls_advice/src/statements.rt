//! What is told of a text of transactions that is refused.
use crate::advice::advice_of;
use crate::columns::Told;
use crate::forms::{KINDS, beginning_form, statement_form};
use crate::habits::habit_at;
use crate::listing::{COMPARED, OF_KEY, kind_in, kind_to, listed_to, operands_of};
use crate::names::Names;
use crate::nearest::{nearest_line, push_name};
use crate::shown::bytes_to;
use crate::slip::{Around, Slip};
use crate::words::{is, is_in};
use mls_lattice::Str;
use mls_scheme::Scheme;
use std::alloc::AllocError;

const SET: &str = "  A variable is set by `:=`.\n";

const OPERANDS: &str =
    "  Each operation has two operands and parentheses of its own: `((a + 1) + 2)`, `((a = 1) and (b = 2))`.\n";

const VARIABLE: &str = "  `var` stands before the first statement of a transaction.\n";

const CALL: &str = "  A transaction calls no other one.\n";

const ELSE: &str = "  Behind `else` stands a block: `else { if .. }`.\n";

const BLOCK: &str = "  No `;` stands behind a block.\n";

const PARAMETER: &str = "  It is a parameter. Only what `var` declares can be set.\n";

const ROW: &str = "  It is a row. Name an attribute of it, behind a `.`.\n";

const ENDED: &str = "  It is the row of a loop that ends before this. Use it inside of its loop.\n";

const UNDECLARED: &str =
    "  No parameter and no variable has this name. Declare it, as in `var NAME: int;`.\n";

const TEST: &str = "  Wanted: a test, as in `(a = 1)`.\n";

const NO_TEST: &str =
    "  Wanted: a number or a text. A test can stand behind `if`, and in another test.\n";

const OUTCOME: &str = "  Wanted: a variable that is an int.\n";

/// A text of transactions up to a place, and from there on: which word begins the transaction, and which one the
/// statement.
#[derive(Drop)]
struct Place<'n, 'a> {
    names: Names<'n>,
    around: Around<'a>,
    transaction: usize,
    statement: usize,
}

impl<'n, 'a> Place<'n, 'a> {
    fn of(names: Names<'n>, around: Around<'a>) -> Place<'n, 'a> {
        let mut transaction = 0;
        let mut statement = 0;
        for (place, word) in around.before.iter().enumerate() {
            if is(*word, "transaction") {
                transaction = place;
                statement = place;
            } else if is_in(*word, &["{", "}", ";"]) {
                statement = place.saturating_add(1);
            }
        }
        Place {
            names,
            around,
            transaction,
            statement,
        }
    }

    /// Whether the statement begins at the place.
    fn is_first(&self) -> bool {
        self.statement >= self.around.before.len()
    }

    /// How many `{` of the transaction are not closed.
    fn depth(&self) -> usize {
        let mut depth = 0_usize;
        for word in self.around.before.iter().skip(self.transaction) {
            if is(*word, "{") {
                depth = depth.saturating_add(1);
            } else if is(*word, "}") {
                depth = depth.saturating_sub(1);
            }
        }
        depth
    }

    // ---- what is declared

    /// The number of the word that declares a name, as a parameter or a variable.
    fn declared(&self, name: &[u8]) -> Option<usize> {
        let before = &self.around.before;
        (self.transaction..before.len()).find(|place| {
            self.around.word(*place) == name && is(self.around.word(place.saturating_add(1)), ":")
        })
    }

    /// The relation of the last loop whose row has a name.
    fn relation_of(&self, name: &[u8]) -> Option<&'a [u8]> {
        let mut relation = None;
        for place in self.transaction..self.around.before.len() {
            if is(self.around.word(place), "for")
                && self.around.word(place.saturating_add(1)) == name
            {
                relation = Some(self.around.word(place.saturating_add(3)));
            }
        }
        relation
    }

    /// The parameters and variables.
    fn variables(&self) -> Result<Vec<Str>, AllocError> {
        let mut names = Vec::new(self.names.alloc);
        for place in self.transaction..self.around.before.len() {
            if is(self.around.word(place.saturating_add(1)), ":")
                && let Ok(name) = std::str::from_utf8(self.around.word(place))
            {
                push_name(self.names.alloc, &mut names, name)?;
            }
        }
        Ok(names)
    }

    // ---- 22

    /// What is wrong where something else is wanted, where it is known.
    fn slip_line(&self) -> Option<&'static str> {
        let (here, back) = (self.around.here(), self.around.back(1));
        let is_second = self.statement.saturating_add(1) == self.around.before.len();
        if is(back, ":") {
            return Some(KINDS);
        }
        if is(here, "=") && is_second {
            return Some(SET);
        }
        if is_in(here, &COMPARED) && !is(back, "=") || is_in(here, &["+", "-", "*", "and", "or"]) {
            return Some(OPERANDS);
        }
        let is_header = is(self.around.word(self.statement), "transaction");
        if is(here, ")") && is(self.around.back(2), "(") && !is_header {
            return Some(OPERANDS);
        }
        if is(here, "var") && self.is_first() {
            return Some(VARIABLE);
        }
        if is(here, "call") && self.is_first() {
            return Some(CALL);
        }
        if is(here, "if") && is(back, "else") {
            return Some(ELSE);
        }
        if is(here, ";") && is(back, "}") {
            return Some(BLOCK);
        }
        None
    }

    fn form(&self) -> &'static str {
        if self.is_first() {
            return beginning_form(self.around.here(), self.depth() > 0);
        }
        statement_form(self.around.word(self.statement))
    }

    /// Appends what is wanted where a text goes on otherwise.
    fn form_to(&self, text: &mut String) -> Told {
        text.push_str(self.form())?;
        let depth = self.depth();
        let ends = self.around.rest.is_empty() || is(self.around.here(), "transaction");
        if ends && depth > 0 {
            return match depth {
                1 => text.push_str("  1 `{` is not closed. Close it with `}`.\n"),
                _ => writeln!(text, "  {depth} `{{` are not closed. Close each with `}}`."),
            };
        }
        match self.slip_line() {
            Some(line) => text.push_str(line),
            None => text.push_str(advice_of(22)),
        }
    }

    // ---- 23

    /// The scheme of the relation that a statement writes.
    fn written(&self) -> Option<&'n Scheme> {
        if is_in(
            self.around.word(self.statement),
            &["insert", "update", "delete"],
        ) {
            self.names
                .scheme_named(self.around.word(self.statement.saturating_add(1)))
        } else {
            None
        }
    }

    /// Whether an update sets what stands before a `=`.
    fn is_set(&self) -> bool {
        let words = self.around.before.iter().skip(self.statement);
        is(self.around.word(self.statement), "update")
            && words.filter(|word| is(**word, "set")).count() > 0
    }

    /// Appends the attributes that a row has, or that an update can set.
    fn attributes_to(&self, text: &mut String) -> Result<bool, AllocError> {
        let here = self.around.here();
        if is(self.around.back(1), ".") {
            let scheme = match self.relation_of(self.around.back(2)) {
                Some(relation) => self.names.scheme_named(relation),
                None => None,
            };
            let Some(scheme) = scheme else {
                return Ok(false);
            };
            self.names.attributes_to(text, scheme, true, here)?;
            text.push_str(advice_of(23))?;
            return Ok(true);
        }
        match self.written() {
            Some(scheme) if self.is_set() && is(self.around.next(), "=") => {
                if kind_in(scheme, here).is_some() {
                    text.push_str(OF_KEY)?;
                    return Ok(true);
                }
                self.names.attributes_to(text, scheme, false, here)?;
                text.push_str(advice_of(23))?;
                Ok(true)
            }
            _ => Ok(false),
        }
    }

    /// Appends what a name can be that is none of an attribute.
    fn variable_to(&self, text: &mut String) -> Told {
        let here = self.around.here();
        if self.declared(here).is_some() {
            return text.push_str(PARAMETER);
        }
        if self.relation_of(here).is_some() {
            let is_row = !is(self.around.next(), ".");
            return text.push_str(if is_row { ROW } else { ENDED });
        }
        text.push_str(&nearest_line(self.names.alloc, here, &self.variables()?)?)?;
        text.push_str(UNDECLARED)
    }

    /// Appends which names can stand where another one does.
    fn names_to(&self, text: &mut String) -> Told {
        let (here, back) = (self.around.here(), self.around.back(1));
        if is_in(back, &["levels", "to", "at", "class", "from"]) {
            self.names.labels_to(text, here)?;
            return text.push_str(advice_of(23));
        }
        if is_in(back, &["in", "insert", "update", "delete"]) {
            self.names.relations_to(text, here)?;
            return text.push_str(advice_of(23));
        }
        if self.attributes_to(text)? {
            return Ok(());
        }
        self.variable_to(text)
    }

    // ---- 24

    /// Appends the kind of a variable that gets what is none of it.
    fn target_to(&self, text: &mut String) -> Told {
        let here = self.around.here();
        let kind = match self.declared(here) {
            Some(place) => self.around.word(place.saturating_add(2)),
            None => return Ok(()),
        };
        text.push_str("  What `")?;
        bytes_to(text, here)?;
        text.push_str("` gets is not of its kind, which is ")?;
        bytes_to(text, kind)?;
        text.push_str(".\n")
    }

    /// Appends which kind is wanted where another one stands, or how many values.
    fn kind_to(&self, text: &mut String) -> Told {
        let (here, back) = (self.around.here(), self.around.back(1));
        if is(back, "as") {
            return text.push_str(OUTCOME);
        }
        if self.is_first() || is(back, "into") {
            return self.target_to(text);
        }
        if let Some(scheme) = self.written() {
            if listed_to(self.names.alloc, text, &self.around, scheme)? {
                return Ok(());
            }
            let name = self.around.back(2);
            if self.is_set()
                && is(back, "=")
                && let Some(kind) = kind_in(scheme, name)
            {
                return kind_to(text, name, kind);
            }
        }
        if is(back, "if") {
            return text.push_str(TEST);
        }
        match operands_of(here) {
            Some(wanted) => text.push_str(wanted),
            None if is_in(back, &["emit", "release"]) => text.push_str(NO_TEST),
            None => Ok(()),
        }
    }

    // ---- 28

    /// Appends which label the upper one of a transaction does not dominate, where it is its lower one.
    fn order_to(&self, text: &mut String) -> Told {
        if !is(self.around.back(1), "to") || !is(self.around.back(3), "levels") {
            return Ok(());
        }
        text.push_str("  This upper label does not dominate the lower one, `")?;
        bytes_to(text, self.around.back(2))?;
        text.push_str("`. Exchange them, or take others.\n")
    }

    /// Appends what is wanted, by the number of a fault.
    fn wanted_to(&self, text: &mut String, code: u8) -> Told {
        match code {
            22 => self.form_to(text),
            23 => self.names_to(text),
            24 => self.kind_to(text),
            28 => self.order_to(text),
            _ => Ok(()),
        }
    }
}

/// What is told of a text of transactions that is refused, behind its excerpt: what could stand at the place, and
/// what to do.
pub fn transaction_advice(names: Names<'_>, slip: Slip<'_>) -> Result<String, AllocError> {
    let around = Around::of(names.alloc, slip.all_before(), slip.rest())?;
    let mut text = String::new(names.alloc);
    let place = Place::of(names, around);
    let habit = match slip.code {
        22 if place.slip_line().is_some() => None,
        code => habit_at(code, &place.around),
    };
    match habit {
        Some(habit) => text.push_str(habit)?,
        None => place.wanted_to(&mut text, slip.code)?,
    }
    if text.is_empty() {
        text.push_str(advice_of(slip.code))?;
    }
    Ok(text)
}
