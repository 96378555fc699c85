//! Rows of a view, with those of one entity as they are now.
ghost use Rattle.std.specs.Prelude.{◌≡◌, ◌<◌, ◌∷◌, ◌++◌, [], length, IfOk, OnOk, filter};
ghost use Rattle.mls_lattice.specs.Policy.{labels_of};
ghost use Rattle.mls_scheme.specs.Spelling.{IsSpelledKey};
ghost use Rattle.mls_scheme.specs.Table.{place_of};
ghost use Rattle.mls_filterview.specs.View.{rows};
ghost use Rattle.mls_filterview.specs.Calls.{IsRead, CanSee, NoReadUp};
ghost use Rattle.mls_filterview.specs.Subsumption.{entity_cmp};
ghost use Rattle.mls_filterview.specs.Entities.{of_entity, is_before, is_behind, mended};

use crate::base::{Base, BaseFault, settle};
use crate::parts::entity_parts;
use crate::viewing::tuples_of;
use mls_lattice::{LabelNo, Policy};
use mls_scheme::{Place, RelNo, Tuple, order_keys};
use std::alloc::{AllocError, Global};
use std::cmp::Ordering;

/// How the entity of a row stands to that of a place: by key and number of the key class.
fn order_entity(row: &Tuple, place: &Place) -> Ordering
    ensures { result ≡ entity_cmp (place_of 0 row.now) place.now }
{
    order_keys(&row.key, &place.key).then(row.key_class.index().cmp(&place.key_class.index()))
}

/// Puts a row to those before the entity of a place, or to those behind it. One of the entity is let go.
fn put_row(
    front: &mut Vec<Tuple>,
    back: &mut Vec<Tuple>,
    place: &Place,
    row: Tuple,
) -> Result<(), AllocError>
    ensures front { OnOk result (front.new.items ≡ front.old.items ++ filter (is_before place.now) (row ∷ [])) }
    ensures back { OnOk result (back.new.items ≡ back.old.items ++ filter (is_behind place.now) (row ∷ [])) }
{
    match order_entity(&row, place) {
        Ordering::Less => front.push(row)?,
        Ordering::Equal => {}
        Ordering::Greater => back.push(row)?,
    }
    Ok(())
}

/// Rows, with others in place of those of the entity of a place.
fn put_own(
    alloc: Global,
    place: &Place,
    mut own: Vec<Tuple>,
    rows: Vec<Tuple>,
) -> Result<Vec<Tuple>, AllocError>
    ensures { IfOk result (λ v. v.items ≡ mended place.now own.items rows.items) }
{
    let mut front = Vec::with_capacity(alloc, rows.len())?;
    let mut back = Vec::new(alloc);
    for row in rows {
        put_row(&mut front, &mut back, place, row)?;
    }
    front.append(&mut own)?;
    front.append(&mut back)?;
    Ok(front)
}

/// What a level sees of the entity of a place. No fragment is read. The class of the place is changed.
fn own_rows<B: Base>(
    alloc: Global,
    base: &mut B,
    policy: &Policy,
    relation: RelNo,
    label: LabelNo,
    place: &mut Place,
) -> Result<Vec<Tuple>, BaseFault>
    requires see { CanSee B.seen base.old relation policy.now label }
    requires key_class { place.old.key_class < length policy.now.labels }
    requires key { IsSpelledKey place.old.key }
    ensures read { IsRead B.seen base.old base.new result }
    ensures access { NoReadUp B.seen (labels_of policy.now) label base.old base.new }
    ensures rows { (B.seen base.new).is_clean → IfOk result (λ v. v.items ≡ rows (labels_of policy.now) label
        (of_entity place.old ((B.seen base.old).state.now.db relation))) }
    ensures key { place.new.key ≡ place.old.key }
    ensures entity { OnOk result (place.new.key_class ≡ place.old.key_class) }
{
    let key_class = place.key_class;
    let parts = entity_parts(alloc, base, policy, relation, label, key_class, place)?;
    let own = settle(base, tuples_of(alloc, parts))?;
    Ok(own)
}

/// Rows of a level, with those of the entity of a place as the level sees them now.
///
/// What the entity's classes hold of it is read, and no fragment. Where the store fails or a growth is refused, a
/// change
/// that is begun has ended.
pub fn mend<B: Base>(
    alloc: Global,
    base: &mut B,
    policy: &Policy,
    relation: RelNo,
    label: LabelNo,
    place: Place,
    seen: Vec<Tuple>,
) -> Result<Vec<Tuple>, BaseFault>
    requires see { CanSee B.seen base.old relation policy.now label }
    requires key_class { place.key_class < length policy.now.labels }
    requires key { IsSpelledKey place.key }
    ensures read { IsRead B.seen base.old base.new result }
    ensures access { NoReadUp B.seen (labels_of policy.now) label base.old base.new }
    ensures rows { (B.seen base.new).is_clean → IfOk result (λ v. v.items
        ≡ mended place (rows (labels_of policy.now) label
        (of_entity place ((B.seen base.old).state.now.db relation))) seen.items) }
{
    let mut place = place;
    let own = own_rows(alloc, base, policy, relation, label, &mut place)?;
    let mended = settle(base, put_own(alloc, &place, own, seen))?;
    Ok(mended)
}
