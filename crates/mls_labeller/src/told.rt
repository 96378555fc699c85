//! What is told of the releases of a transaction.
ghost use Rattle.std.specs.Prelude.{ℕ, ◌<◌, ◌≤◌, List, length, IfOk};
ghost use Rattle.mls_lattice.specs.Policy.{Policy};
ghost use Rattle.mls_scheme.specs.Scheme.{Schemes};
ghost use Rattle.mls_certcheck.specs.Meaning.{Item};
ghost use Rattle.mls_labeller.specs.Releases.{AreTold, HasAll, uncounted};

use crate::range::Range;
use crate::ranges::Ranges;
use crate::walking::{TURNS, Walk};
use mls_lattice::{Items, LabelNo};
use mls_translang::Tx;
use std::alloc::{AllocError, Global};

/// What is told of a release.
#[derive(Drop)]
pub struct Told {
    /// The label that it is to.
    pub to: LabelNo,
    /// The variable that it goes into.
    pub into: u8,
    /// What values it can have.
    pub range: Range,
    /// Whether it stands in a loop, and so may be done for each of many rows.
    pub looped: bool,
}

/// What is told of each release of a transaction, in the order of its text, and how many lists of values they can have
/// together at
/// most, as far as these can be counted.
#[derive(Drop)]
pub struct Releases {
    pub told: Items<Told>,
    pub lists: u64,
}

/// What is told of the releases of a transaction.
pub fn ranges_of(alloc: Global, tx: &Tx) -> Result<Releases, AllocError>
    ensures told { IfOk result (λ r. AreTold tx.now r.told) }
    ensures counted { IfOk result (λ r. r.lists < uncounted → (policy : Policy) (schemes : Schemes) (c : ℕ)
        → (lists : List (List Item)) × (length lists ≤ r.lists) × HasAll policy schemes tx.now c r.told lists) }
{
    let ranges = Ranges::nulls(alloc, tx.vars().len())?;
    let walk = Walk {
        alloc,
        looped: false,
        turns: TURNS,
    };
    let walked = walk.block(&ranges, tx.body())?;
    Ok(Releases {
        told: Items::from(walked.told),
        lists: walked.lists,
    })
}
