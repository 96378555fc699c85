//! Where the judging of a store's rows stands.
ghost use Rattle.std.specs.Prelude.{◌≡◌, ◌⊎◌, ◌+◌, ◌^◌, ◌-◌, ◌<◌};

use mls_scheme::RelNo;

/// What of the rows of a store is judged.
#[derive(Clone, Copy)]
pub enum Step {
    /// The rows together.
    Rows,
    /// Whether the classes of a node are labels that the store knows.
    Classes,
    /// Whether a node can be read.
    Node,
    /// Whether a cell can be read.
    Cell,
    /// Whether a tuple of a relation keeps the rules of stored tuples. Tuples are counted in the order of their places.
    Tuple(RelNo),
    /// Whether a node is that of a tuple.
    LooseNode,
    /// Whether a cell is that of a tuple.
    LooseCell,
    /// Whether the cells of the tuples are all there. The cells before this place are.
    MissingCell,
    /// Whether an entry has the next number.
    Number,
    /// Whether an entry can be read, and has a label that the store knows.
    Entry,
}

/// Where the judging of a store's rows stands: a step of it, and the place of a row among the sorted ones of its table.
/// Nothing
/// else depends on it.
#[derive(Clone, Copy)]
pub struct Where {
    pub step: Step,
    pub row: usize,
}

impl Where {
    /// Before the first step.
    pub fn start() -> Where {
        Where {
            step: Step::Rows,
            row: 0,
        }
    }

    /// At the first row of a step.
    pub(crate) fn begin(&mut self, step: Step)
        ensures step { self.new.step ≡ step }
        ensures row { self.new.row ≡ 0 }
    {
        self.step = step;
        self.row = 0;
    }

    /// At the next row.
    pub(crate) fn pass(&mut self)
        ensures step { self.new.step ≡ self.old.step }
        ensures row { self.old.row < 2 ^ 64 - 1 → self.new.row ≡ self.old.row + 1 }
    {
        self.row = self.row.saturating_add(1);
    }

    /// At the first row that is not one of those wanted, or before which one of those is missing. Both lists are
    /// sorted.
    pub(crate) fn compare<T: PartialOrd>(
        &mut self,
        loose: Step,
        missing: Step,
        rows: &[T],
        wanted: &[T],
    )
        ensures { (self.new.step ≡ loose) ⊎ (self.new.step ≡ missing) }
    {
        self.begin(if rows.len() < wanted.len() {
            missing
        } else {
            loose
        });
        for (row, other) in rows.iter().zip(wanted) {
            if row != other {
                self.step = if row < other { loose } else { missing };
                return;
            }
            self.pass();
        }
    }
}
