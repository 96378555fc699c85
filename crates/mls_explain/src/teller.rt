//! Names of what numbers stand for, and the order of declared labels.
ghost use Rattle.std.specs.Prelude.{◌≡◌, [], slice_get, option_map, unwrap_or};

use crate::numbering::four_to;
use crate::statements::Statement;
use mls_advice::label_name;
use mls_lattice::{LabelNo, Policy};
use mls_scheme::{Kind, RelNo, Schemes};
use mls_translang::{Stmt, Tx};
use std::alloc::{AllocError, Global};

/// That something was added to a text, or that memory lacks.
pub(crate) type Told = Result<(), AllocError>;

/// A transaction under a policy and schemes: its statements by number, its heading, and the line of each statement.
#[derive(Drop)]
pub(crate) struct Teller<'a> {
    pub alloc: Global,
    pub policy: &'a Policy,
    pub schemes: &'a Schemes,
    pub tx: &'a Tx,
    pub statements: &'a [Statement<'a>],
    pub lines: &'a [&'a str],
}

impl<'a> Teller<'a> {
    // ---- names

    pub(crate) fn label(&self, label: LabelNo) -> &'a str {
        label_name(self.policy, label)
    }

    pub(crate) fn variable(&self, place: usize) -> &'a str
        ensures { result.now ≡ unwrap_or (option_map (λ v. v.0) (slice_get self.now.tx.now.vars place)) [] }
    {
        let vars = self.tx.vars();
        if place < vars.len() {
            vars.name(place)
        } else {
            ""
        }
    }

    /// The kind of a variable.
    pub(crate) fn kind(&self, place: usize) -> Kind {
        let vars = self.tx.vars();
        if place < vars.len() {
            *vars.get(place)
        } else {
            Kind::Int
        }
    }

    pub(crate) fn parameter(&self, place: usize) -> &'a str {
        let params = self.tx.params();
        if place < params.len() {
            params.name(place)
        } else {
            ""
        }
    }

    pub(crate) fn parameter_label(&self, place: usize) -> LabelNo {
        let params = self.tx.params();
        if place < params.len() {
            params.get(place).label
        } else {
            self.tx.lo()
        }
    }

    pub(crate) fn relation(&self, relation: RelNo) -> &'a str {
        if relation.index() < self.schemes.count() {
            self.schemes.scheme(relation).name()
        } else {
            ""
        }
    }

    /// An attribute by its number, the key first.
    pub(crate) fn attribute(&self, relation: RelNo, place: usize) -> &'a str {
        if relation.index() >= self.schemes.count() {
            return "";
        }
        let scheme = self.schemes.scheme(relation);
        let keys = scheme.keys();
        let others = scheme.others();
        if place < keys.len() {
            keys.name(place)
        } else if place - keys.len() < others.len() {
            others.name(place - keys.len())
        } else {
            ""
        }
    }

    // ---- labels

    /// Whether one label is seen at another.
    pub(crate) fn is_seen(&self, low: LabelNo, high: LabelNo) -> bool {
        let count = self.policy.label_count();
        low.index() < count && high.index() < count && self.policy.dominates(high, low)
    }

    /// Whether a label sees both of two.
    fn sees_both(&self, label: LabelNo, one: LabelNo, other: LabelNo) -> bool {
        self.is_seen(one, label) && self.is_seen(other, label)
    }

    /// A lowest declared label that sees both: below the ceiling, where that sees them.
    pub(crate) fn lowest_that_sees(&self, one: LabelNo, other: LabelNo) -> Option<LabelNo> {
        let mut lowest = Some(self.tx.hi()).filter(|high| self.sees_both(*high, one, other));
        for place in 0..self.policy.label_count() {
            let label = LabelNo::new(place as u8);
            let is_lower = match lowest {
                Some(high) => self.is_seen(label, high),
                None => true,
            };
            if is_lower && self.sees_both(label, one, other) {
                lowest = Some(label);
            }
        }
        lowest
    }

    /// A highest declared label that both see.
    pub(crate) fn highest_seen(&self, one: LabelNo, other: LabelNo) -> Option<LabelNo> {
        let mut highest = None;
        for place in 0..self.policy.label_count() {
            let label = LabelNo::new(place as u8);
            let is_higher = match highest {
                Some(low) => self.is_seen(low, label),
                None => true,
            };
            if is_higher && self.is_seen(label, one) && self.is_seen(label, other) {
                highest = Some(label);
            }
        }
        highest
    }

    // ---- statements

    pub(crate) fn statement(&self, number: usize) -> Option<Statement<'a>> {
        self.statements.get(number.checked_sub(1)?).copied()
    }

    pub(crate) fn stmt(&self, number: usize) -> Option<&'a Stmt> {
        Some(self.statement(number)?.stmt)
    }

    /// The number of what is around a statement: 0 is the transaction itself.
    pub(crate) fn around(&self, number: usize) -> usize {
        self.statement(number)
            .map_or(0, |statement| statement.around)
    }

    /// The numbers of the loops and branches around a statement, the innermost first.
    pub(crate) fn all_around(&self, number: usize) -> Result<Vec<usize>, AllocError> {
        let mut all = Vec::new(self.alloc);
        let mut around = self.around(number);
        for _ in 0..self.statements.len() {
            if around == 0 {
                break;
            }
            all.push(around)?;
            around = self.around(around);
        }
        Ok(all)
    }

    /// Adds the line of a statement, with its number in front. 0 is the heading.
    pub(crate) fn line_to(&self, text: &mut String, number: usize) -> Told {
        let line = self.lines.get(number).copied().unwrap_or("");
        four_to(text, number)?;
        write!(text, "  {line}")
    }
}
