//! Elements of an entity changed at their class, or a tuple made from a lower one.
ghost use Rattle.mls_updates.specs.Writes.{Update};
ghost use Rattle.mls_updates.specs.Calls.{CanUpdate, HasWritten};

use crate::changing::update_own;
use crate::key::{has_null, place_of};
use crate::outcome::Outcome;
use crate::raising::update_below;
use mls_filterview::{Base, BaseFault, settle};
use mls_lattice::{LabelNo, Policy};
use mls_scheme::{RelNo, Schemes, Value};
use std::alloc::Global;

/// Gives attributes outside the key new values at `w`, inside a change; each is named by its number, from 0.
///
/// Where `from` is `w` the elements of class `w` are changed in each tuple of the entity that has them. Else the entity
/// gets a tuple of class `w`: that of class `from` with the named attributes new. Where an attribute is named twice
/// its first value counts. `NotBegun` comes before any outcome. After `Store` or `Memory` the change has ended.
pub fn update<B: Base>(
    alloc: Global,
    base: &mut B,
    policy: &Policy,
    schemes: &Schemes,
    relation: RelNo,
    w: LabelNo,
    key: &[Option<Value>],
    key_class: LabelNo,
    from: LabelNo,
    sets: &[(usize, Option<Value>)],
) -> Result<Outcome, BaseFault>
    requires { CanUpdate B.seen base.old policy.now schemes.now relation w key.now key_class from sets.now }
    ensures { HasWritten B.seen policy.now schemes.now relation w (Update key.now key_class from sets.now)
        base.old base.new result }
{
    if !base.is_begun() {
        return Err(BaseFault::NotBegun);
    }
    if has_null(key) {
        return Ok(Outcome::KeyNull);
    }
    policy.use_invariant();
    let scheme = schemes.scheme(relation);
    let place = settle(base, place_of(alloc, key, key_class, from))?;
    if from == w {
        return update_own(base, policy, relation, &place, sets);
    }
    update_below(alloc, base, policy, scheme, relation, w, place, sets)
}
