//! How a transaction is mended, so that it has labels.

use crate::paths::Path;
use crate::teller::{Teller, Told};
use mls_certcheck::{Slot, Source};
use mls_lattice::LabelNo;
use mls_translang::Stmt;
use std::alloc::AllocError;

const FOR_EACH: &str =
    "   To let something down for each low row, loop over low rows outside, over high ones inside, and release between.\n";

/// How something comes out of a statement.
#[derive(Clone, Copy, PartialEq, Eq)]
pub(crate) enum SinkKind {
    Emit,
    Write,
    Release,
}

impl SinkKind {
    pub(crate) fn verb(self) -> &'static str {
        match self {
            SinkKind::Emit => "emit",
            SinkKind::Write => "write",
            SinkKind::Release => "release",
        }
    }
}

/// How something comes out of the statement of a number, and the label at which it does.
#[derive(Clone, Copy)]
pub(crate) struct Sink {
    pub number: usize,
    pub kind: SinkKind,
    pub label: LabelNo,
}

impl Teller<'_> {
    /// Ends the ways to mend with a higher ceiling, which sees a label.
    pub(crate) fn ceiling_way_to(&self, text: &mut String, label: LabelNo) -> Told {
        if let Some(high) = self.lowest_that_sees(self.tx.hi(), label) {
            let low = self.label(self.tx.lo());
            let high = self.label(high);
            write!(text, "; or raise the ceiling (`levels {low} to {high}`)")?;
        }
        text.push_str(".\n")
    }

    /// Ends them with levels that begin lower, at what a label sees.
    pub(crate) fn floor_way_to(&self, text: &mut String, label: LabelNo) -> Told {
        if let Some(low) = self.highest_seen(self.tx.lo(), label) {
            let low = self.label(low);
            let high = self.label(self.tx.hi());
            write!(text, "; or begin the levels at {low}")?;
            write!(text, " (`levels {low} to {high}`)")?;
        }
        text.push_str(".\n")
    }

    /// The outermost loop or branch around a statement that tells more than a label sees.
    fn outermost(
        &self,
        number: usize,
        label: LabelNo,
        cause: Option<usize>,
    ) -> Result<Option<usize>, AllocError> {
        let mut outermost = None;
        let around = self.all_around(number)?;
        for around in &around {
            if cause == Some(*around) || !self.sees_inside(label, *around)? {
                outermost = Some(*around);
            }
        }
        Ok(outermost)
    }

    /// Ends them with a release behind a loop or a branch. Where nothing is read, a number of turns stands for what
    /// comes out.
    fn behind_way_to(&self, text: &mut String, around: usize, out: &Sink, path: &Path) -> Told {
        let is_write = out.kind == SinkKind::Write;
        let how = if self.turns(path) && !is_write && self.names_at(out.number)?.is_empty() {
            "count in a variable"
        } else {
            "set a variable here"
        };
        let kind = match self.stmt(around) {
            Some(Stmt::For { .. }) => "loop",
            _ => "`if`",
        };
        let label = self.label(out.label);
        let (release, to, then) = match out.kind {
            SinkKind::Release => ("and release that", "", ""),
            SinkKind::Emit => ("release that to ", label, ", and emit it there"),
            SinkKind::Write => ("release that to ", label, ", and write there"),
        };
        write!(text, "; or {how}, {release}{to} behind the {kind}")?;
        writeln!(text, " at {around}{then}.")?;
        if out.kind == SinkKind::Release && kind == "loop" {
            text.push_str(FOR_EACH)?;
        }
        Ok(())
    }

    /// Ends them with a release of the value in front of the statement.
    fn before_way_to(&self, text: &mut String, out: &Sink, end: Source) -> Told {
        let (what, into) = match (out.kind, end) {
            (SinkKind::Emit, _) => ("the value", "a variable"),
            (SinkKind::Write, Source::Held(Slot::Variable { place, .. })) => {
                (self.variable(place), "another variable")
            }
            (SinkKind::Write, Source::Parameter(place)) => {
                (self.parameter(usize::from(place)), "a variable")
            }
            _ => return text.push_str(".\n"),
        };
        let label = self.label(out.label);
        let verb = out.kind.verb();
        write!(text, "; or release {what} to {label} into {into}")?;
        writeln!(text, ", and {verb} that.")
    }

    /// Adds how what comes out of a statement at a label is mended.
    pub(crate) fn out_ways_to(&self, text: &mut String, out: &Sink, path: &Path) -> Told {
        let verb = out.kind.verb();
        let to = match out.kind {
            SinkKind::Release => "to",
            SinkKind::Emit | SinkKind::Write => "at",
        };
        let over = self.lowest_that_sees(out.label, path.root);
        let higher = self.label(over.unwrap_or(self.tx.hi()));
        write!(text, "   To mend it: {verb} {to} {higher}")?;
        if path.cause == Some(0) {
            return self.floor_way_to(text, out.label);
        }
        match self.outermost(out.number, out.label, path.cause)? {
            Some(around) => self.behind_way_to(text, around, out, path),
            None => self.before_way_to(text, out, path.end),
        }
    }
}
