//! Which names, which kinds and how many values are wanted at a place.
use crate::columns::Told;
use crate::names::Names;
use crate::nearest::{label_names, nearest_line, push_name};
use crate::shown::bytes_to;
use crate::slip::Around;
use crate::words::{is, is_in};
use mls_lattice::Str;
use mls_scheme::{Attributes, Kind, RelNo, Scheme};
use std::alloc::{AllocError, Global};

/// The signs that compare.
pub(crate) const COMPARED: [&str; 6] = ["=", "<>", "<", "<=", ">", ">="];

pub(crate) const OF_KEY: &str =
    "  It is of the key, which no update sets: delete the tuple, and insert another one.\n";

/// So many names are listed at most.
const MOST: usize = 16;

/// Appends names with a comma between each two.
pub(crate) fn list_to(text: &mut String, names: &[Str]) -> Told {
    for (place, name) in names.iter().enumerate() {
        if place > 0 {
            text.push_str(", ")?;
        }
        text.push_str(name.as_str())?;
    }
    Ok(())
}

/// Appends names, if they are not too many.
fn all_to(text: &mut String, what: &str, names: &[Str]) -> Told {
    if names.is_empty() || names.len() > MOST {
        return Ok(());
    }
    write!(text, "  {what} ")?;
    list_to(text, names)?;
    text.push_str(".\n")
}

/// Appends the name that is the nearest to a word, or all where none is near.
fn choice_to(alloc: Global, text: &mut String, what: &str, word: &[u8], names: &[Str]) -> Told {
    let nearest = nearest_line(alloc, word, names)?;
    if nearest.is_empty() {
        return all_to(text, what, names);
    }
    text.push_str(&nearest)
}

/// The names of some attributes.
pub(crate) fn attribute_names(
    alloc: Global,
    names: &mut Vec<Str>,
    attributes: &Attributes,
) -> Result<(), AllocError> {
    for place in 0..attributes.len() {
        push_name(alloc, names, attributes.name(place))?;
    }
    Ok(())
}

/// A kind in a sentence.
fn kind_words(kind: Kind) -> &'static str {
    match kind {
        Kind::Int => "a number",
        Kind::Text => "a text",
    }
}

/// The kind of the attribute of a name among some.
fn kind_among(attributes: &Attributes, word: &[u8]) -> Option<Kind> {
    for place in 0..attributes.len() {
        if attributes.name(place).as_bytes() == word {
            return Some(attributes.get(place).kind);
        }
    }
    None
}

/// The kind of an attribute of a relation.
pub(crate) fn kind_in(scheme: &Scheme, word: &[u8]) -> Option<Kind> {
    match kind_among(scheme.keys(), word) {
        Some(kind) => Some(kind),
        None => kind_among(scheme.others(), word),
    }
}

/// Appends which kind is wanted for a name.
pub(crate) fn kind_to(text: &mut String, name: &[u8], kind: Kind) -> Told {
    let words = kind_words(kind);
    text.push_str("  Wanted for ")?;
    bytes_to(text, name)?;
    writeln!(text, ": {words}.")
}

impl<'a> Names<'a> {
    /// The scheme of a relation of a name.
    pub(crate) fn scheme_named(&self, word: &[u8]) -> Option<&'a Scheme> {
        self.schemes.use_invariant();
        for place in 0..self.schemes.count() {
            let scheme = self.schemes.scheme(RelNo::new(place as u8));
            if scheme.name().as_bytes() == word {
                return Some(scheme);
            }
        }
        None
    }

    /// Appends the labels.
    pub(crate) fn labels_to(&self, text: &mut String, word: &[u8]) -> Told {
        let names = label_names(self.alloc, self.policy)?;
        choice_to(self.alloc, text, "The labels are", word, &names)
    }

    /// The names of the relations.
    fn relation_names(&self) -> Result<Vec<Str>, AllocError> {
        let mut names = Vec::new(self.alloc);
        self.schemes.use_invariant();
        for place in 0..self.schemes.count() {
            let scheme = self.schemes.scheme(RelNo::new(place as u8));
            push_name(self.alloc, &mut names, scheme.name())?;
        }
        Ok(names)
    }

    /// Appends the relations.
    pub(crate) fn relations_to(&self, text: &mut String, word: &[u8]) -> Told {
        choice_to(
            self.alloc,
            text,
            "The relations are",
            word,
            &self.relation_names()?,
        )
    }

    /// Appends the attributes of a relation, those of its key first, or those outside of it alone.
    pub(crate) fn attributes_to(
        &self,
        text: &mut String,
        scheme: &Scheme,
        with_key: bool,
        word: &[u8],
    ) -> Told {
        let mut names = Vec::new(self.alloc);
        if with_key {
            attribute_names(self.alloc, &mut names, scheme.keys())?;
        }
        attribute_names(self.alloc, &mut names, scheme.others())?;
        let name = scheme.name();
        let what = format!(in self.alloc; "{name} has")?;
        text.push_str(&nearest_line(self.alloc, word, &names)?)?;
        all_to(text, &what, &names)
    }
}

/// Whether a name is among some.
fn has(names: &[Str], name: &str) -> bool {
    names.iter().any(|other| other.as_str() == name)
}

/// A line for each object of a right that is neither a relation nor one of some transactions, with the nearest name
/// of all these.
pub fn unnamed_objects(names: Names<'_>, transactions: &[&str]) -> Result<String, AllocError> {
    let mut text = String::new(names.alloc);
    let mut told = Vec::new(names.alloc);
    let mut known = names.relation_names()?;
    for name in transactions {
        push_name(names.alloc, &mut known, *name)?;
    }
    for place in 0..names.policy.right_count() {
        let object = names.policy.object(place);
        if !has(&known, object) && !has(&told, object) {
            writeln!(
                text,
                "  {object}: no relation and no transaction of these files has this name."
            )?;
            text.push_str(&nearest_line(names.alloc, object.as_bytes(), &known)?)?;
            push_name(names.alloc, &mut told, object)?;
        }
    }
    Ok(text)
}

// ---- values

/// The attributes that a list is for, whose `(` is a word of a number: those of the key, or the others.
fn listed<'a>(around: &Around<'_>, scheme: &'a Scheme, opener: usize) -> Option<&'a Attributes> {
    let before = around.word(opener.checked_sub(1)?);
    if is(before, "key") {
        Some(scheme.keys())
    } else if is(before, "values") {
        Some(scheme.others())
    } else {
        None
    }
}

/// Appends how many values a list has to have, and how many it has.
fn count_to(alloc: Global, text: &mut String, attributes: &Attributes, there: usize) -> Told {
    let mut names = Vec::new(alloc);
    attribute_names(alloc, &mut names, attributes)?;
    let count = names.len();
    match count {
        0 => text.push_str("  Wanted: no value")?,
        1 => text.push_str("  Wanted: 1 value, for ")?,
        _ => write!(text, "  Wanted: {count} values, for ")?,
    }
    list_to(text, &names)?;
    match there {
        0 => text.push_str(". There is none.\n"),
        1 => text.push_str(". There is 1.\n"),
        _ => writeln!(text, ". There are {there}."),
    }
}

/// How many values stand between the `(` of a list and the place.
fn count_of(around: &Around<'_>, opener: usize) -> usize {
    if is(around.back(1), "(") {
        0
    } else {
        around.commas(opener).saturating_add(1)
    }
}

/// Appends what a list of the values of a relation wants at the place, where that is in one: as many values as
/// attributes, each of its kind.
pub(crate) fn listed_to(
    alloc: Global,
    text: &mut String,
    around: &Around<'_>,
    scheme: &Scheme,
) -> Result<bool, AllocError> {
    let Some(opener) = around.opener(alloc)? else {
        return Ok(false);
    };
    let Some(attributes) = listed(around, scheme, opener) else {
        return Ok(false);
    };
    if is(around.here(), ")") {
        count_to(alloc, text, attributes, count_of(around, opener))?;
        return Ok(true);
    }
    let place = around.commas(opener);
    if !is_in(around.back(1), &["(", ","]) || place >= attributes.len() {
        return Ok(false);
    }
    let kind = attributes.get(place).kind;
    kind_to(text, attributes.name(place).as_bytes(), kind)?;
    Ok(true)
}

const NOT: &str = "  Behind `not` stands a test in parentheses: `not (A = 1)`.\n";

const NUMBERS: &str = "  Wanted: a number on each side.\n";

const TRUTHS: &str = "  Wanted: a test on each side.\n";

const LIKE: &str = "  Wanted: two numbers, or two texts.\n";

/// What an operator at the place wants.
pub(crate) fn operands_of(here: &[u8]) -> Option<&'static str> {
    if is(here, "not") {
        return Some(NOT);
    }
    if is_in(here, &["+", "-", "*"]) {
        return Some(NUMBERS);
    }
    if is_in(here, &["and", "or"]) {
        return Some(TRUTHS);
    }
    if is_in(here, &COMPARED) {
        return Some(LIKE);
    }
    None
}
