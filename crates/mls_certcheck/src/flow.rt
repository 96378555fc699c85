//! What a line of the rules asks for.

use crate::refusal::Refusal;
use mls_lattice::{Items, LabelNo};

/// What a certificate has a label for: a variable, by its place, after a statement, or a statement, by its number.
/// Number 0 is the
/// transaction itself, whose label is the lower end, and after which its body begins.
#[derive(Clone, Copy, PartialEq, Eq)]
pub enum Slot {
    /// A variable after a statement.
    Variable { after: usize, place: usize },
    /// A statement.
    Statement(usize),
}

/// What has a label: a slot, a parameter by its place, or what is declared to have it.
#[derive(Clone, Copy, PartialEq, Eq)]
pub enum Source {
    /// The label is the certificate's.
    Held(Slot),
    /// The label is the parameter's.
    Parameter(u8),
    /// The label is this.
    Declared(LabelNo),
}

/// What flows.
#[derive(Drop)]
pub enum Flow {
    /// Each source flows into each target: the label of the target dominates that of the source. Sources and
    /// targets stand apart, so that a long guard over many statements does not multiply out.
    Into {
        targets: Items<Slot>,
        sources: Items<Source>,
    },
    /// What each variable (but one) holds after the one statement, it may hold after the other.
    Kept {
        from: usize,
        to: usize,
        but: Option<u8>,
    },
    /// Each source flows out to a declared label, which dominates that of the source.
    Within {
        limit: LabelNo,
        sources: Items<Source>,
    },
    /// Each source is used: the ceiling dominates its label.
    Under {
        sources: Items<Source>,
    },
}

/// What flows, and what is said where it must not.
#[derive(Drop)]
pub struct Line {
    pub flow: Flow,
    pub refusal: Refusal,
}
