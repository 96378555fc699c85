//! Cells of an entity set one after another.
ghost use Rattle.std.specs.Prelude.{◌≡◌, true, OnOk};
ghost use Rattle.mls_scheme.specs.Table.{change};
ghost use Rattle.mls_filterview.specs.Content.{with_relation};
ghost use Rattle.mls_filterview.specs.Calls.{IsStep, CanSet, ChangesAt};
ghost use Rattle.mls_filterview.specs.Fragment.{set_in};
ghost use Rattle.mls_updates.specs.Steps.{set_each, CanSetEach};

use crate::sets::copy_value;
use mls_filterview::{Base, BaseFault, settle};
use mls_scheme::{Place, RelNo, Value};

/// Sets the value of a cell, in every tuple of the entity that has it.
fn set_one<B: Base>(
    base: &mut B,
    relation: RelNo,
    place: &Place,
    attr: usize,
    value: &Option<Value>,
) -> Result<(), BaseFault>
    requires begun { (B.seen base.old).state.begun ≡ true }
    requires can { CanSet B.seen base.old relation place.now attr value.now }
    ensures step { IsStep B.seen base.old base.new result }
    ensures access { ChangesAt B.seen place.now.class base.old base.new }
    ensures done { (B.seen base.new).is_clean → OnOk result ((B.seen base.new).state
        ≡ with_relation (B.seen base.old).state relation
        (change (set_in place.now attr value.now) ((B.seen base.old).state.now.db relation))) }
{
    let value = settle(base, copy_value(value))?;
    base.set(relation, place, attr, value)
}

/// Sets cells of the class of a place, the last one first: of two at one attribute the first stands.
pub(crate) fn set_each<B: Base>(
    base: &mut B,
    relation: RelNo,
    place: &Place,
    sets: &[(usize, Option<Value>)],
) -> Result<(), BaseFault>
    requires { CanSetEach B.seen base.old relation place.now sets.now }
    ensures step { IsStep B.seen base.old base.new result }
    ensures access { ChangesAt B.seen place.now.class base.old base.new }
    ensures done { (B.seen base.new).is_clean → OnOk result ((B.seen base.new).state
        ≡ with_relation (B.seen base.old).state relation (set_each place.now sets.now
        ((B.seen base.old).state.now.db relation))) }
{
    for left in (0..sets.len()).rev() {
        let (attr, value) = &sets[left];
        set_one(base, relation, place, *attr, value)?;
    }
    Ok(())
}
