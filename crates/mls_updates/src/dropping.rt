//! Tuples of an entity removed one after another.
ghost use Rattle.std.specs.Prelude.{◌≡◌, true, OnOk};
ghost use Rattle.std.specs.FinMap.{remove};
ghost use Rattle.mls_scheme.specs.Spelling.{IsSpelledKey};
ghost use Rattle.mls_filterview.specs.Content.{with_relation};
ghost use Rattle.mls_filterview.specs.Calls.{IsStep, ChangesAt, ChangesAmong};
ghost use Rattle.mls_filterview.specs.Fragment.{IsAlone};
ghost use Rattle.mls_updates.specs.Steps.{drop_each, AreAlone};

use mls_filterview::{Base, BaseFault};
use mls_lattice::LabelNo;
use mls_scheme::{Place, RelNo};

/// Removes the tuple at a place, if there is one. Nothing is read: whether there is one at a higher class is not asked.
fn drop_one<B: Base>(base: &mut B, relation: RelNo, place: &Place) -> Result<(), BaseFault>
    requires begun { (B.seen base.old).state.begun ≡ true }
    requires key { IsSpelledKey place.now.key }
    requires alone { (B.seen base.old).is_clean → IsAlone ((B.seen base.old).state.now.db relation) place.now }
    ensures step { IsStep B.seen base.old base.new result }
    ensures access { ChangesAt B.seen place.now.class base.old base.new }
    ensures done { (B.seen base.new).is_clean → OnOk result ((B.seen base.new).state
        ≡ with_relation (B.seen base.old).state relation (remove ((B.seen base.old).state.now.db relation) place.now)) }
{
    base.drop_at(relation, place)
}

/// Removes the tuples of these classes, where there are such, of the entity of a place.
pub(crate) fn drop_each<B: Base>(
    base: &mut B,
    relation: RelNo,
    place: Place,
    classes: &[LabelNo],
) -> Result<(), BaseFault>
    requires begun { (B.seen base.old).state.begun ≡ true }
    requires key { IsSpelledKey place.key }
    requires alone { (B.seen base.old).is_clean → AreAlone place classes.now ((B.seen base.old).state.now.db relation) }
    ensures step { IsStep B.seen base.old base.new result }
    ensures access { ChangesAmong B.seen classes.now base.old base.new }
    ensures done { (B.seen base.new).is_clean → OnOk result ((B.seen base.new).state
        ≡ with_relation (B.seen base.old).state relation (drop_each place classes.now
        ((B.seen base.old).state.now.db relation))) }
{
    let mut place = place;
    for class in classes {
        place.class = *class;
        drop_one(base, relation, &place)?;
    }
    Ok(())
}
