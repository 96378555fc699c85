//! The rows of loops, one inside another.
ghost use Rattle.std.specs.Prelude.{◌≡◌, ◌∷◌, IfOk};

use mls_lattice::Str;
use mls_scheme::RelNo;
use std::alloc::{AllocError, Global};

/// The row of a loop: its name, and the relation that it is of.
#[derive(Clone, Drop)]
pub struct LoopRow {
    pub name: Str,
    pub relation: RelNo,
}

impl LoopRow {
    /// An equal row.
    pub fn copy(&self) -> Result<LoopRow, AllocError>
        ensures { IfOk result (λ r. r ≡ self.now) }
    {
        self.clone()
    }
}

/// The rows inside a loop: its own, and those around.
pub(crate) fn rows_inside(
    alloc: Global,
    row: LoopRow,
    rows: &[LoopRow],
) -> Result<Vec<LoopRow>, AllocError>
    ensures { IfOk result (λ v. v.items ≡ row ∷ rows.now) }
{
    let mut inside = Vec::new(alloc);
    inside.push(row)?;
    for around in rows {
        inside.push(around.copy()?)?;
    }
    Ok(inside)
}
