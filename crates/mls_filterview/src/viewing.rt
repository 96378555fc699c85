//! What a level sees of a relation, read from the fragments of the labels that it dominates.
ghost use Rattle.std.specs.Prelude.{◌≡◌, ◌↔◌, ◌<◌, ℕ, length, IfOk, filter};
ghost use Rattle.std.specs.List.{AllByRecursion};
ghost use Rattle.mls_lattice.specs.Labels.{Labels, AreDistinct, below};
ghost use Rattle.mls_lattice.specs.Policy.{labels_of};
ghost use Rattle.mls_scheme.specs.Table.{Table, IsIn};
ghost use Rattle.mls_scheme.specs.declared.tuple.Tuple.{Tuple as SpecTuple};
ghost use Rattle.mls_filterview.specs.View.{View, rows, IsAmong, AreInOrder};
ghost use Rattle.mls_filterview.specs.Stored.{IsStored};
ghost use Rattle.mls_filterview.specs.Calls.{IsRead, CanSee, NoReadUp};
ghost use Rattle.mls_filterview.specs.Assembly.{AreLow};
ghost use Rattle.mls_filterview.specs.Reach.{numbers, low_tuples};

use crate::assembly::{rows_of, values_of};
use crate::base::{Base, BaseFault, settle};
use crate::fragment::Fragment;
use crate::maximal::maximal_tuples;
use crate::reach::in_order_of_reach;
use crate::tuple_map::entries_of;
use mls_lattice::{LabelNo, Policy};
use mls_scheme::{RelNo, Tuple};
use std::alloc::{AllocError, Global};

/// The labels that a label dominates, by number.
fn low_labels(alloc: Global, policy: &Policy, label: LabelNo) -> Result<Vec<LabelNo>, AllocError>
    requires { label < length policy.now.labels }
    ensures labels { IfOk result (λ v. v.items
        ≡ filter (λ m. below (labels_of policy.now) m label) (numbers (length policy.now.labels))) }
    ensures few { IfOk result (λ v. AllByRecursion (λ m. m < 64) v.items) }
{
    let mut labels = Vec::new(alloc);
    for number in 0..policy.label_count() {
        let low = LabelNo::new(number as u8);
        if policy.dominates(label, low) {
            labels.push(low)?;
        }
    }
    Ok(labels)
}

/// The fragments of the labels that a label dominates, as one.
fn low_fragment<B: Base>(
    alloc: Global,
    base: &mut B,
    policy: &Policy,
    relation: RelNo,
    label: LabelNo,
) -> Result<Fragment, BaseFault>
    requires { label < length policy.now.labels }
    ensures distinct { AreDistinct (labels_of policy.now) }
    ensures read { IsRead B.seen base.old base.new result }
    ensures access { NoReadUp B.seen (labels_of policy.now) label base.old base.new }
    ensures low { (B.seen base.new).is_clean → IfOk result
        (λ f. AreLow (labels_of policy.now) ((B.seen base.old).state.now.db relation) label
        (length policy.now.labels) f.nodes f.cells) }
{
    policy.use_invariant();
    let labels = settle(base, low_labels(alloc, policy, label))?;
    base.fragments(relation, &labels)
}

/// What a level sees of the relation whose low fragments these are.
pub(crate) fn tuples_of(alloc: Global, low: Fragment) -> Result<Vec<Tuple>, AllocError>
    ensures { IfOk result (λ v. (ls : Labels) (n : ℕ) (T : Table) (c : ℕ) → IsStored ls n T
        → AreLow ls T c (length ls) low.nodes low.cells → v.items ≡ rows ls c T) }
{
    let values = values_of(alloc, low.cells)?;
    let found = rows_of(alloc, low.nodes, &values)?;
    let rows = entries_of(alloc, found)?;
    maximal_tuples(alloc, rows)
}

/// The tuples, class by class, that a level may see of the relation whose low fragments these are.
fn tuples_by_reach(alloc: Global, policy: &Policy, low: Fragment) -> Result<Vec<Tuple>, AllocError>
    ensures { IfOk result (λ v. (n : ℕ) (T : Table) (c : ℕ) → IsStored (labels_of policy.now) n T
        → AreLow (labels_of policy.now) T c (length (labels_of policy.now)) low.nodes low.cells
        → v.items ≡ low_tuples (labels_of policy.now) c T) }
{
    let values = values_of(alloc, low.cells)?;
    let found = rows_of(alloc, low.nodes, &values)?;
    let rows = entries_of(alloc, found)?;
    in_order_of_reach(alloc, policy, &rows)
}

/// The tuples of a relation whose classes a level dominates, also those that others subsume: class by class, those
/// classes
/// first that dominate the fewest declared labels, and within one in the order of places.
///
/// It reads the fragments of the labels that the level dominates at once, and no other. Where the store fails or a
/// growth is
/// refused, a change that is begun has ended.
pub fn low_tuples<B: Base>(
    alloc: Global,
    base: &mut B,
    policy: &Policy,
    relation: RelNo,
    label: LabelNo,
) -> Result<Vec<Tuple>, BaseFault>
    requires { CanSee B.seen base.old relation policy.now label }
    ensures read { IsRead B.seen base.old base.new result }
    ensures access { NoReadUp B.seen (labels_of policy.now) label base.old base.new }
    ensures tuples { (B.seen base.new).is_clean → IfOk result (λ v. v.items
        ≡ low_tuples (labels_of policy.now) label ((B.seen base.old).state.now.db relation)) }
{
    let low = low_fragment(alloc, base, policy, relation, label)?;
    let tuples = settle(base, tuples_by_reach(alloc, policy, low))?;
    Ok(tuples)
}

/// What a level sees of a relation, in the order of key, number of the key class and number of the class.
///
/// It reads the fragments of the labels that the level dominates at once, and no other. Where the store fails or a
/// growth is
/// refused, a change that is begun has ended.
pub fn view<B: Base>(
    alloc: Global,
    base: &mut B,
    policy: &Policy,
    relation: RelNo,
    label: LabelNo,
) -> Result<Vec<Tuple>, BaseFault>
    requires { CanSee B.seen base.old relation policy.now label }
    ensures read { IsRead B.seen base.old base.new result }
    ensures access { NoReadUp B.seen (labels_of policy.now) label base.old base.new }
    ensures rows { (B.seen base.new).is_clean → IfOk result (λ v. v.items
        ≡ rows (labels_of policy.now) label ((B.seen base.old).state.now.db relation)) }
    ensures seen { (B.seen base.new).is_clean → IfOk result (λ v. (t : SpecTuple)
        → IsAmong t v.items ↔ View (labels_of policy.now) (IsIn ((B.seen base.old).state.now.db relation)) label t) }
    ensures ordered { (B.seen base.new).is_clean → IfOk result (λ v. AreInOrder
        ((B.seen base.old).state.now.db relation) v.items) }
{
    let low = low_fragment(alloc, base, policy, relation, label)?;
    let tuples = settle(base, tuples_of(alloc, low))?;
    Ok(tuples)
}
