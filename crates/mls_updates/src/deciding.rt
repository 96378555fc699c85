//! What a write answers, from what was found.
ghost use Rattle.std.specs.Prelude.{◌≡◌, ◌<◌, ◌&&◌, ℕ, false, is_some, List, length, Option, option_map};
ghost use Rattle.std.specs.List.{AllByRecursion};
ghost use Rattle.mls_lattice.specs.Labels.{below};
ghost use Rattle.mls_lattice.specs.Policy.{labels_of};
ghost use Rattle.mls_scheme.specs.Scheme.{Scheme as SpecScheme, IsUnder};
ghost use Rattle.mls_scheme.specs.declared.tuple.Element.{Element as SpecElement};
ghost use Rattle.mls_filterview.specs.Fragment.{classes};
ghost use Rattle.mls_updates.specs.Outcome.{is_done};
ghost use Rattle.mls_updates.specs.Writes.{first_refusal, root_refusals, own_refusals, below_refusals, drop_refusals};

use crate::interval::is_within;
use crate::outcome::Outcome;
use crate::sets::{has_null_above, has_null_value, is_any_outside, names_inherited};
use mls_lattice::{Items, LabelNo, Policy};
use mls_scheme::{Place, Scheme, Value};

/// The outcome of an insert at `w`, where the entity is there or not.
#[tactic(auto, unfolding(crate::specs::Writes::first_refusal))]
pub(crate) fn root_outcome(policy: &Policy, scheme: &Scheme, w: LabelNo, found: bool) -> Outcome
    requires class { w < length policy.now.labels }
    requires under { IsUnder (length policy.now.labels) scheme.now }
    ensures { (es : Option (List SpecElement)) → is_some es ≡ found
        → result ≡ first_refusal (root_refusals (labels_of policy.now) scheme.now w es) }
{
    if found {
        return Outcome::Duplicate;
    }
    if !is_within(policy, w, scheme) {
        return Outcome::OutOfInterval;
    }
    Outcome::Done
}

/// The outcome of a delete of the tuple at a place, where there is one or not.
#[tactic(auto, unfolding(crate::specs::Writes::first_refusal))]
pub(crate) fn drop_outcome(policy: &Policy, place: &Place, found: bool) -> Outcome
    requires class { place.now.class < length policy.now.labels }
    requires key_class { place.now.key_class < length policy.now.labels }
    ensures { (scheme : SpecScheme) (es : Option (List SpecElement)) → is_some es ≡ found
        → result ≡ first_refusal (drop_refusals (labels_of policy.now) scheme place.now.class place.now.key_class es) }
{
    if !found {
        return Outcome::NoTuple;
    }
    if !policy.dominates(place.class, place.key_class) {
        return Outcome::NoTuple;
    }
    Outcome::Done
}

/// The outcome of an update of the tuple at a place, of which the classes were found.
#[tactic(auto, unfolding(crate::specs::Writes::first_refusal))]
pub(crate) fn own_outcome(
    policy: &Policy,
    place: &Place,
    sets: &[(usize, Option<Value>)],
    found: &Option<Items<LabelNo>>,
) -> Outcome
    requires class { place.now.class < length policy.now.labels }
    requires key_class { place.now.key_class < length policy.now.labels }
    ensures { (scheme : SpecScheme) (es : Option (List SpecElement)) → found.now ≡ option_map classes es
        → result ≡ first_refusal (own_refusals
        (labels_of policy.now) scheme place.now.class place.now.key_class sets.now es) }
{
    let Some(pattern) = found else {
        return Outcome::NoTuple;
    };
    if !policy.dominates(place.class, place.key_class) {
        return Outcome::NoTuple;
    }
    if names_inherited(pattern, place.class, sets) {
        return Outcome::Inherited;
    }
    if has_null_above(place.class, place.key_class, sets) {
        return Outcome::NullAboveKey;
    }
    Outcome::Done
}

/// The outcome of an update at `w` from below, where a lower tuple was found or not, and one of class `w` is there or
/// not.
#[tactic(auto, unfolding(crate::specs::Writes::first_refusal))]
pub(crate) fn below_outcome(
    policy: &Policy,
    scheme: &Scheme,
    w: LabelNo,
    sets: &[(usize, Option<Value>)],
    found: bool,
    is_there: bool,
) -> Outcome
    requires class { w < length policy.now.labels }
    requires under { IsUnder (length policy.now.labels) scheme.now }
    requires fits { AllByRecursion (λ s. s.0 < length scheme.now.others) sets.now }
    ensures first { (key_class from : ℕ) (es own : Option (List SpecElement))
        → (is_some es && (below (labels_of policy.now) key_class from && below (labels_of policy.now) from w)) ≡ found
        → is_some own ≡ is_there → result
        ≡ first_refusal (below_refusals (labels_of policy.now) scheme.now w key_class from sets.now es own) }
    ensures missing { found ≡ false → is_done result ≡ false }
{
    if !found {
        return Outcome::NoTuple;
    }
    if is_there {
        return Outcome::AlreadyDerived;
    }
    if has_null_value(sets) {
        return Outcome::NullAboveKey;
    }
    if is_any_outside(policy, scheme, w, sets) {
        return Outcome::OutOfInterval;
    }
    Outcome::Done
}
