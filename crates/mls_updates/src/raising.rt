//! A tuple of an entity made from a lower one.
ghost use Rattle.std.specs.Prelude.{◌≡◌, ◌<◌, length, IfOk};
ghost use Rattle.mls_lattice.specs.Policy.{labels_of};
ghost use Rattle.mls_filterview.specs.Calls.{IsRead, IsStep, NoReadUp, NoWriteDown};
ghost use Rattle.mls_filterview.specs.Stored.{with_class};
ghost use Rattle.mls_updates.specs.Steps.{IsBegunAt, CanDerive};
ghost use Rattle.mls_updates.specs.Calls.{IsDerived, classes_below};

use crate::deciding::below_outcome;
use crate::finding::has_tuple;
use crate::outcome::Outcome;
use crate::outline::add_outline;
use mls_filterview::{Base, BaseFault};
use mls_lattice::{Items, LabelNo, Policy};
use mls_scheme::{Place, RelNo, Scheme, Value};
use std::alloc::Global;

/// The classes of the tuple at a place, if there is one and its class lies between the key class and `w`; nothing is
/// read
/// where it doesn't.
fn pattern_below<B: Base>(
    base: &mut B,
    policy: &Policy,
    relation: RelNo,
    place: &Place,
    w: LabelNo,
) -> Result<Option<Items<LabelNo>>, BaseFault>
    requires label { w < length policy.now.labels }
    requires at { IsBegunAt B.seen base.old (length policy.now.labels) place.now }
    ensures read { IsRead B.seen base.old base.new result }
    ensures access { NoReadUp B.seen (labels_of policy.now) w base.old base.new }
    ensures found { (B.seen base.new).is_clean → IfOk result (λ pattern. pattern
        ≡ classes_below (labels_of policy.now) relation (with_class place.now w) place.now.class
        (B.seen base.old).state) }
{
    if !policy.dominates(place.class, place.key_class) {
        return Ok(None);
    }
    if !policy.dominates(w, place.class) {
        return Ok(None);
    }
    base.pattern(relation, place)
}

/// Adds a tuple at a place: that of class `from`, of which the classes were found, with the named attributes new.
fn derive<B: Base>(
    alloc: Global,
    base: &mut B,
    policy: &Policy,
    scheme: &Scheme,
    relation: RelNo,
    place: Place,
    from: LabelNo,
    sets: &[(usize, Option<Value>)],
    pattern: Option<Items<LabelNo>>,
) -> Result<Outcome, BaseFault>
    requires can { CanDerive B.seen base.old relation place policy.now scheme.now from sets.now }
    requires found { (B.seen base.old).is_clean → pattern
        ≡ classes_below (labels_of policy.now) relation place from (B.seen base.old).state }
    ensures step { IsStep B.seen base.old base.new result }
    ensures access { NoWriteDown B.seen (labels_of policy.now) place.class place.class base.old base.new }
    ensures done { (B.seen base.new).is_clean → IfOk result
        (IsDerived (labels_of policy.now) scheme.now relation place from sets.now (B.seen base.old).state
        (B.seen base.new).state) }
{
    policy.use_invariant();
    let is_there = has_tuple(base, relation, &place)?;
    let outcome = below_outcome(
        policy,
        scheme,
        place.class,
        sets,
        pattern.is_some(),
        is_there,
    );
    let Some(pattern) = pattern else {
        return Ok(outcome);
    };
    if !outcome.is_done() {
        return Ok(outcome);
    }
    add_outline(alloc, base, relation, place, sets, &pattern)?;
    Ok(outcome)
}

/// Adds a tuple of class `w`: the one at a place, with the named attributes new.
pub(crate) fn update_below<B: Base>(
    alloc: Global,
    base: &mut B,
    policy: &Policy,
    scheme: &Scheme,
    relation: RelNo,
    w: LabelNo,
    place: Place,
    sets: &[(usize, Option<Value>)],
) -> Result<Outcome, BaseFault>
    requires { CanDerive B.seen base.old relation (with_class place w) policy.now scheme.now place.class sets.now }
    ensures step { IsStep B.seen base.old base.new result }
    ensures access { NoWriteDown B.seen (labels_of policy.now) w w base.old base.new }
    ensures done { (B.seen base.new).is_clean → IfOk result
        (IsDerived (labels_of policy.now) scheme.now relation (with_class place w) place.class sets.now
        (B.seen base.old).state
        (B.seen base.new).state) }
{
    let pattern = pattern_below(base, policy, relation, &place, w)?;
    let from = place.class;
    let mut place = place;
    place.class = w;
    derive(
        alloc, base, policy, scheme, relation, place, from, sets, pattern,
    )
}
