//! Elements of an entity changed at their class.
ghost use Rattle.std.specs.Prelude.{◌≡◌, ◌<◌, List, length, IfOk, IfSome, Some};
ghost use Rattle.std.specs.List.{AllByRecursion};
ghost use Rattle.std.specs.FinMap.{get};
ghost use Rattle.mls_lattice.specs.Policy.{labels_of};
ghost use Rattle.mls_scheme.specs.Scheme.{Scheme};
ghost use Rattle.mls_scheme.specs.Spelling.{HasSpelling};
ghost use Rattle.mls_scheme.specs.declared.tuple.Element.{Element as SpecElement};
ghost use Rattle.mls_filterview.specs.Calls.{IsStep, NoWriteDown};
ghost use Rattle.mls_updates.specs.Steps.{IsBegunAt};
ghost use Rattle.mls_updates.specs.Calls.{IsChanged};

use crate::deciding::own_outcome;
use crate::outcome::Outcome;
use crate::setting::set_each;
use mls_filterview::{Base, BaseFault};
use mls_lattice::Policy;
use mls_scheme::{Place, RelNo, Value};

/// Gives named elements of the tuple at a place new values, in each tuple of the entity that has them.
pub(crate) fn update_own<B: Base>(
    base: &mut B,
    policy: &Policy,
    relation: RelNo,
    place: &Place,
    sets: &[(usize, Option<Value>)],
) -> Result<Outcome, BaseFault>
    requires at { IsBegunAt B.seen base.old (length policy.now.labels) place.now }
    requires sets { AllByRecursion (λ s. (s.0 < 15) × IfSome s.1 HasSpelling) sets.now }
    requires fits { (B.seen base.old).is_clean → (es : List SpecElement)
        → get ((B.seen base.old).state.now.db relation) place.now ≡ Some es
        → AllByRecursion (λ s. s.0 < length es) sets.now }
    ensures step { IsStep B.seen base.old base.new result }
    ensures access { NoWriteDown B.seen (labels_of policy.now) place.now.class place.now.class base.old base.new }
    ensures done { (B.seen base.new).is_clean → IfOk result (λ o. (scheme : Scheme)
        → IsChanged (labels_of policy.now) scheme relation place.now sets.now (B.seen base.old).state
        (B.seen base.new).state o) }
{
    let found = base.pattern(relation, place)?;
    let outcome = own_outcome(policy, place, sets, &found);
    if !outcome.is_done() {
        return Ok(outcome);
    }
    set_each(base, relation, place, sets)?;
    Ok(outcome)
}
