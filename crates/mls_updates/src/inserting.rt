//! The first tuple of an entity.
ghost use Rattle.std.specs.Prelude.{length, IfOk, IfSome};
ghost use Rattle.std.specs.List.{AllByRecursion};
ghost use Rattle.mls_lattice.specs.Policy.{labels_of};
ghost use Rattle.mls_scheme.specs.Scheme.{IsUnder};
ghost use Rattle.mls_scheme.specs.Spelling.{HasSpelling};
ghost use Rattle.mls_filterview.specs.Calls.{IsStep, NoWriteDown};
ghost use Rattle.mls_updates.specs.Writes.{Insert};
ghost use Rattle.mls_updates.specs.Steps.{IsBegunAt};
ghost use Rattle.mls_updates.specs.Calls.{CanInsert, IsInserted, HasWritten};

use crate::deciding::root_outcome;
use crate::finding::has_tuple;
use crate::key::{has_null, place_of};
use crate::outcome::Outcome;
use crate::root::add_root;
use mls_filterview::{Base, BaseFault, settle};
use mls_lattice::{LabelNo, Policy};
use mls_scheme::{Place, RelNo, Scheme, Schemes, Value};
use std::alloc::Global;

/// Adds the root at a place, unless its entity is there or an attribute refuses its class.
fn insert_at<B: Base>(
    alloc: Global,
    base: &mut B,
    policy: &Policy,
    scheme: &Scheme,
    relation: RelNo,
    place: Place,
    values: &[Option<Value>],
) -> Result<Outcome, BaseFault>
    requires at { IsBegunAt B.seen base.old (length policy.now.labels) place }
    requires under { IsUnder (length policy.now.labels) scheme.now }
    requires values { AllByRecursion (λ v. IfSome v HasSpelling) values.now }
    ensures step { IsStep B.seen base.old base.new result }
    ensures access { NoWriteDown B.seen (labels_of policy.now) place.class place.class base.old base.new }
    ensures done { (B.seen base.new).is_clean → IfOk result
        (IsInserted (labels_of policy.now) scheme.now relation place values.now (B.seen base.old).state
        (B.seen base.new).state) }
{
    let found = has_tuple(base, relation, &place)?;
    let outcome = root_outcome(policy, scheme, place.class, found);
    if !outcome.is_done() {
        return Ok(outcome);
    }
    add_root(alloc, base, relation, place, values)?;
    Ok(outcome)
}

/// Adds a root of class `w` with these values, inside a change.
///
/// `NotBegun` comes before any outcome. After `Store` or `Memory` the change has ended.
pub fn insert<B: Base>(
    alloc: Global,
    base: &mut B,
    policy: &Policy,
    schemes: &Schemes,
    relation: RelNo,
    w: LabelNo,
    key: &[Option<Value>],
    values: &[Option<Value>],
) -> Result<Outcome, BaseFault>
    requires { CanInsert B.seen base.old policy.now schemes.now relation w key.now values.now }
    ensures { HasWritten B.seen policy.now schemes.now relation w (Insert key.now values.now)
        base.old base.new result }
{
    if !base.is_begun() {
        return Err(BaseFault::NotBegun);
    }
    policy.use_invariant();
    let scheme = schemes.scheme(relation);
    if has_null(key) {
        return Ok(Outcome::KeyNull);
    }
    let place = settle(base, place_of(alloc, key, w, w))?;
    insert_at(alloc, base, policy, scheme, relation, place, values)
}
