//! Tuples of an entity removed.
ghost use Rattle.std.specs.Prelude.{◌≡◌, ℕ, not, length, IfOk, OnOk};
ghost use Rattle.std.specs.FinMap.{retain_keys};
ghost use Rattle.mls_lattice.specs.Policy.{labels_of};
ghost use Rattle.mls_scheme.specs.Scheme.{Scheme as SpecScheme};
ghost use Rattle.mls_filterview.specs.Calls.{IsStep, NoWriteDown};
ghost use Rattle.mls_filterview.specs.Content.{with_relation};
ghost use Rattle.mls_filterview.specs.Stored.{IsStored};
ghost use Rattle.mls_updates.specs.Writes.{Delete, is_above};
ghost use Rattle.mls_updates.specs.Steps.{IsBegunAt};
ghost use Rattle.mls_updates.specs.Calls.{CanDelete, IsDeleted, HasWritten};

use crate::deciding::drop_outcome;
use crate::dropping::drop_each;
use crate::finding::has_tuple;
use crate::key::{has_null, place_of};
use crate::order::downwards;
use crate::outcome::Outcome;
use mls_filterview::{Base, BaseFault, settle};
use mls_lattice::{LabelNo, Policy};
use mls_scheme::{Place, RelNo, Schemes, Value};
use std::alloc::Global;

/// Removes the tuples of the entity of a place whose class dominates that of the place.
fn drop_above<B: Base>(
    alloc: Global,
    base: &mut B,
    policy: &Policy,
    relation: RelNo,
    place: Place,
) -> Result<(), BaseFault>
    requires at { IsBegunAt B.seen base.old (length policy.now.labels) place }
    requires stored { (B.seen base.old).is_clean → (n : ℕ)
        × IsStored (labels_of policy.now) n ((B.seen base.old).state.now.db relation) }
    ensures step { IsStep B.seen base.old base.new result }
    ensures access { NoWriteDown B.seen (labels_of policy.now) place.class place.class base.old base.new }
    ensures done { (B.seen base.new).is_clean → OnOk result ((B.seen base.new).state
        ≡ with_relation (B.seen base.old).state relation
        (retain_keys ((B.seen base.old).state.now.db relation) (λ q. not (is_above (labels_of policy.now) place q)))) }
{
    let order = settle(base, downwards(alloc, policy, place.class))?;
    drop_each(base, relation, place, &order)
}

/// Removes the tuple at a place and the entity's tuples above it.
fn delete_at<B: Base>(
    alloc: Global,
    base: &mut B,
    policy: &Policy,
    relation: RelNo,
    place: Place,
) -> Result<Outcome, BaseFault>
    requires at { IsBegunAt B.seen base.old (length policy.now.labels) place }
    requires stored { (B.seen base.old).is_clean → (n : ℕ)
        × IsStored (labels_of policy.now) n ((B.seen base.old).state.now.db relation) }
    ensures step { IsStep B.seen base.old base.new result }
    ensures access { NoWriteDown B.seen (labels_of policy.now) place.class place.class base.old base.new }
    ensures done { (B.seen base.new).is_clean → IfOk result (λ o. (scheme : SpecScheme)
        → IsDeleted (labels_of policy.now) scheme relation place (B.seen base.old).state (B.seen base.new).state o) }
{
    let found = has_tuple(base, relation, &place)?;
    let outcome = drop_outcome(policy, &place, found);
    if !outcome.is_done() {
        return Ok(outcome);
    }
    drop_above(alloc, base, policy, relation, place)?;
    Ok(outcome)
}

/// Removes the entity's tuple of class `w` and each of its tuples whose class dominates `w`, inside a change:
/// from the highest class down, since `drop_at` asks that no other tuple has one of the cells.
///
/// `NotBegun` comes before any outcome. After `Store` or `Memory` the change has ended.
pub fn delete<B: Base>(
    alloc: Global,
    base: &mut B,
    policy: &Policy,
    schemes: &Schemes,
    relation: RelNo,
    w: LabelNo,
    key: &[Option<Value>],
    key_class: LabelNo,
) -> Result<Outcome, BaseFault>
    requires { CanDelete B.seen base.old policy.now schemes.now relation w key.now key_class }
    ensures { HasWritten B.seen policy.now schemes.now relation w (Delete key.now key_class)
        base.old base.new result }
{
    if !base.is_begun() {
        return Err(BaseFault::NotBegun);
    }
    policy.use_invariant();
    let _scheme = schemes.scheme(relation);
    if has_null(key) {
        return Ok(Outcome::KeyNull);
    }
    let place = settle(base, place_of(alloc, key, key_class, w))?;
    delete_at(alloc, base, policy, relation, place)
}
