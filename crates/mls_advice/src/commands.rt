//! What is told of a line of a script that is refused.
use crate::advice::advice_of;
use crate::columns::Told;
use crate::habits::{QUOTES, habit_at};
use crate::listing::{COMPARED, OF_KEY, kind_in, kind_to, listed_to, operands_of};
use crate::names::Names;
use crate::slip::{Around, Slip};
use crate::words::{behind_time, is, is_in};
use mls_lattice::is_name_byte;
use mls_scheme::Scheme;
use std::alloc::AllocError;

const ROWS: &str = "  Wanted: a number of rows, 0 or more.\n";

const END: &str = "  The end of the line ends a command. Take the `;` out.\n";

const TIME: &str = "  Wanted: a time, as `\"2026-11-30T20:01:02Z\"`.\n";

const TEST: &str = "  Wanted: a test, as in `A = 1`.\n";

/// The verbs that a relation stands behind.
const ON_RELATIONS: [&str; 6] = ["view", "count", "dump", "insert", "update", "delete"];

/// The number of the word behind the last brace or semicolon.
fn behind_mark(words: &[&[u8]]) -> usize {
    let mut place = 3;
    for (number, word) in words.iter().enumerate() {
        if is(*word, "{") || is(*word, ";") {
            place = number.saturating_add(1);
        }
    }
    place
}

/// The number of the verb of a command, the last one of a batch: behind what is expected stands that of a count.
fn verb_place(around: &Around<'_>) -> usize {
    if !is(around.word(2), "all") {
        return 2;
    }
    let place = behind_mark(&around.before);
    if is(around.word(place), "expect") {
        place.saturating_add(2)
    } else {
        place
    }
}

/// A line of a script up to a place, and from there on. Its words are a label, a session, a verb and what that is for;
/// of a batch the verb is that of the command in which the place is.
#[derive(Drop)]
struct Line<'n, 'a> {
    names: Names<'n>,
    around: Around<'a>,
    verb_at: usize,
}

impl<'n, 'a> Line<'n, 'a> {
    fn verb(&self) -> &'a [u8] {
        self.around.word(self.verb_at)
    }

    /// Whether a semicolon may stand in the line.
    fn is_batch(&self) -> bool {
        is(self.around.word(2), "all")
    }

    /// The scheme of the relation that the command is for.
    fn scheme(&self) -> Option<&'n Scheme> {
        if is_in(self.verb(), &ON_RELATIONS) {
            self.names
                .scheme_named(self.around.word(self.verb_at.saturating_add(1)))
        } else {
            None
        }
    }

    fn is_at_label(&self) -> bool {
        let is_compared = is_in(self.around.back(1), &COMPARED) && is(self.around.back(2), "class");
        self.around.before.is_empty()
            || is_in(self.around.back(1), &["at", "class", "from"])
            || is_compared
    }

    /// Whether an attribute stands at the place that an update sets.
    fn is_set(&self) -> bool {
        is(self.verb(), "update")
            && self
                .around
                .before
                .iter()
                .skip(self.verb_at)
                .any(|word| is(*word, "set"))
    }

    /// Appends which names can stand where another one does.
    fn names_to(&self, text: &mut String) -> Told {
        let here = self.around.here();
        if self.is_at_label() {
            self.names.labels_to(text, here)?;
            return text.push_str(advice_of(23));
        }
        let is_next = self.around.before.len() == self.verb_at.saturating_add(1);
        if is_next && is_in(self.verb(), &ON_RELATIONS) {
            self.names.relations_to(text, here)?;
            return text.push_str(advice_of(23));
        }
        match self.scheme() {
            Some(scheme) => self.attribute_to(text, scheme),
            None => Ok(()),
        }
    }

    fn attribute_to(&self, text: &mut String, scheme: &Scheme) -> Told {
        let here = self.around.here();
        if self.is_set() && kind_in(scheme, here).is_some() {
            return text.push_str(OF_KEY);
        }
        if is_in(self.around.back(1), &COMPARED) {
            text.push_str(QUOTES)?;
        }
        self.names
            .attributes_to(text, scheme, !self.is_set(), here)?;
        text.push_str(advice_of(23))
    }

    /// Whether a name stands where a value is wanted.
    fn is_bare(&self) -> bool {
        let is_name = self
            .around
            .here()
            .first()
            .is_some_and(|byte| is_name_byte(*byte));
        is_name && is_in(self.around.back(1), &["(", ",", "="])
    }

    /// Appends what is wanted, by the number of a fault.
    fn wanted_to(&self, text: &mut String, code: u8) -> Told {
        match code {
            22 if self.is_bare() => text.push_str(QUOTES),
            22 if is(self.around.here(), ";") && !self.is_batch() => text.push_str(END),
            23 => self.names_to(text),
            24 => self.kind_to(text),
            _ => Ok(()),
        }
    }

    /// Appends which kind is wanted where another one stands, or how many values.
    fn kind_to(&self, text: &mut String) -> Told {
        if self.around.before.is_empty() {
            return text.push_str(TIME);
        }
        if is_in(self.around.back(1), &["first", "expect"]) {
            return text.push_str(ROWS);
        }
        let Some(scheme) = self.scheme() else {
            return Ok(());
        };
        if listed_to(self.names.alloc, text, &self.around, scheme)? {
            return Ok(());
        }
        let (name, here) = (self.around.back(2), self.around.here());
        if self.is_set()
            && let Some(kind) = kind_in(scheme, name)
        {
            return kind_to(text, name, kind);
        }
        match operands_of(here) {
            Some(wanted) => text.push_str(wanted)?,
            None => return text.push_str(TEST),
        }
        self.operand_to(text, scheme)
    }

    /// Appends which kind the attribute before an operator has.
    fn operand_to(&self, text: &mut String, scheme: &Scheme) -> Told {
        let name = self.around.back(1);
        match kind_in(scheme, name) {
            Some(kind) => kind_to(text, name, kind),
            None => Ok(()),
        }
    }
}

/// What is told of a line of a script that is refused, behind its excerpt and the form of its command: what could
/// stand at the place, and what to do.
pub fn command_advice(names: Names<'_>, slip: Slip<'_>) -> Result<String, AllocError> {
    let around = Around::of(names.alloc, behind_time(slip.line_before()), slip.rest())?;
    let mut text = String::new(names.alloc);
    let verb_at = verb_place(&around);
    let line = Line {
        names,
        around,
        verb_at,
    };
    match habit_at(slip.code, &line.around) {
        Some(habit) => text.push_str(habit)?,
        None => line.wanted_to(&mut text, slip.code)?,
    }
    if text.is_empty() {
        text.push_str(advice_of(slip.code))?;
    }
    Ok(text)
}
