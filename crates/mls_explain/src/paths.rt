//! A chain of flows, step by step.

use crate::chain::Chain;
use crate::step::Step;
use crate::teller::{Teller, Told};
use mls_certcheck::{Slot, Source};
use mls_lattice::LabelNo;
use mls_translang::Stmt;
use std::alloc::AllocError;

/// What a chain comes to: the label where it begins, what it ends in, what decides how often that runs, where it is a
/// statement, and the
/// steps that are told.
#[derive(Drop)]
pub(crate) struct Path {
    pub root: LabelNo,
    pub end: Source,
    pub cause: Option<usize>,
    pub steps: Vec<Step>,
}

impl Teller<'_> {
    /// The label of what begins a chain.
    fn root_label(&self, root: Source) -> LabelNo {
        match root {
            Source::Held(_) => self.tx.lo(),
            Source::Parameter(place) => self.parameter_label(usize::from(place)),
            Source::Declared(label) => label,
        }
    }

    /// The number of the statement by which something flows into a slot.
    fn by(&self, slot: Slot) -> usize {
        match slot {
            Slot::Statement(number) => self.around(number),
            Slot::Variable { after, .. } => after,
        }
    }

    /// Whether a step is worth no line: a variable keeps what it held, and not for the next turn of a loop.
    fn is_silent(&self, step: Step, next: usize) -> Result<bool, AllocError> {
        let number = self.by(step.target);
        let turns = self.is_loop(number) && self.all_around(next)?.contains(&number);
        Ok(match (step.source, step.target) {
            (Source::Held(Slot::Variable { place, .. }), Slot::Variable { place: to, .. }) => {
                place == to && !turns
            }
            _ => false,
        })
    }

    /// The steps of a chain to a statement.
    fn steps_of(&self, chain: &Chain, last: usize) -> Result<Vec<Step>, AllocError> {
        let mut steps = Vec::new(self.alloc);
        let mut source = chain.root;
        for (place, slot) in chain.slots.iter().enumerate() {
            let step = Step {
                source,
                target: *slot,
            };
            let next = chain
                .slots
                .get(place + 1)
                .map_or(last, |next| self.by(*next));
            if !self.is_silent(step, next)? {
                steps.push(step)?;
            }
            source = Source::Held(*slot);
        }
        Ok(steps)
    }

    /// What decides how often the last slots run, where these are statements inside one another.
    fn cause_of(&self, slots: &[Slot]) -> Option<usize> {
        let mut cause = None;
        for slot in slots {
            cause = match (slot, cause) {
                (Slot::Variable { .. }, _) => None,
                (Slot::Statement(number), None) => Some(self.around(*number)),
                (Slot::Statement(_), Some(cause)) => Some(cause),
            };
        }
        cause
    }

    fn is_loop(&self, number: usize) -> bool {
        matches!(self.stmt(number), Some(Stmt::For { .. }))
    }

    /// Whether something runs as often as a loop turns.
    pub(crate) fn turns(&self, path: &Path) -> bool {
        path.cause.is_some_and(|cause| self.is_loop(cause))
    }

    /// The path of a chain to a statement.
    pub(crate) fn path_of(&self, chain: &Chain, last: usize) -> Result<Path, AllocError> {
        let end = chain
            .slots
            .last()
            .map_or(chain.root, |slot| Source::Held(*slot));
        let cause = self.cause_of(&chain.slots);
        let steps = match cause {
            Some(0) => Vec::new(self.alloc),
            _ => self.steps_of(chain, last)?,
        };
        Ok(Path {
            root: self.root_label(chain.root),
            end,
            cause,
            steps,
        })
    }

    /// Adds how it comes to be known whether a statement runs.
    fn runs_to(&self, text: &mut String, step: Step, inside: usize, at: &str) -> Told {
        let number = self.around(inside);
        match (self.stmt(number), step.source) {
            (None, _) => {
                let floor = self.label(self.tx.lo());
                write!(text, "the levels begin at {floor}")
            }
            (
                Some(
                    Stmt::For {
                        relation,
                        label,
                        ..
                    },
                ),
                Source::Declared(_),
            ) => {
                let relation = self.relation(*relation);
                let label = self.label(*label);
                write!(text, "the loop{at} goes over the rows of {relation}")?;
                write!(text, " that {label} sees")
            }
            (_, Source::Held(Slot::Statement(_))) => {
                write!(text, "{inside} runs only where this does")
            }
            (_, source) => {
                write!(text, "the guard{at} reads ")?;
                self.value_to(text, number, source)
            }
        }
    }

    /// Adds how a variable comes to hold something.
    fn held_to(&self, text: &mut String, step: Step, name: &str, at: &str) -> Told {
        if let Source::Held(Slot::Statement(_)) = step.source {
            return write!(text, "{name} tells whether this runs");
        }
        let number = self.by(step.target);
        match self.stmt(number) {
            Some(Stmt::Assign { .. }) => {
                write!(text, "{name} gets ")?;
                self.value_to(text, number, step.source)
            }
            Some(Stmt::Release { to, .. }) => {
                let label = self.label(*to);
                write!(text, "{name} gets what is released to {label}")
            }
            _ => self.written_to(text, step.source, name, at),
        }
    }

    /// Adds how a variable comes to hold what a write tells, or what it held before.
    fn written_to(&self, text: &mut String, source: Source, name: &str, at: &str) -> Told {
        let Source::Declared(label) = source else {
            return write!(text, "{name} keeps it for the next turn");
        };
        let label = self.label(label);
        write!(text, "the write{at} puts its outcome into {name}")?;
        write!(text, ", which tells what {label} sees")
    }

    /// Adds why something flows, with the number of the statement or without.
    fn reason_to(&self, text: &mut String, step: Step, at: &str) -> Told {
        match step.target {
            Slot::Statement(inside) => self.runs_to(text, step, inside, at),
            Slot::Variable { place, .. } => self.held_to(text, step, self.variable(place), at),
        }
    }

    /// Adds why something is known, behind a colon, where that is one step.
    pub(crate) fn one_reason_to(&self, text: &mut String, path: &Path) -> Told {
        if let [step] = path.steps.as_slice() {
            let number = self.by(step.target);
            let at = format!(in self.alloc; " at {number}")?;
            text.push_str(": ")?;
            if let Some(Stmt::Assign { .. } | Stmt::Release { .. }) = self.stmt(number) {
                write!(text, "at {number} ")?;
            }
            self.reason_to(text, *step, &at)?;
        }
        text.push_str(".")
    }

    /// Ends the sentence, and adds a line for each step, where there are more than one.
    pub(crate) fn steps_to(&self, text: &mut String, path: &Path) -> Told {
        if path.steps.len() < 2 {
            return text.push_str("\n");
        }
        text.push_str(" Here is how:\n")?;
        for step in &path.steps {
            self.line_to(text, self.by(step.target))?;
            text.push_str("  # ")?;
            self.reason_to(text, *step, "")?;
            text.push_str("\n")?;
        }
        Ok(())
    }
}
