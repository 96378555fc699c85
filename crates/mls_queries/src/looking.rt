//! What a level sees of the tuples of one key.
ghost use Rattle.std.specs.Prelude.{◌≡◌, ◌<◌, ℕ, map, length, IfOk, filter};
ghost use Rattle.std.specs.BTreeMap.{IsOrdered};
ghost use Rattle.mls_lattice.specs.Policy.{labels_of};
ghost use Rattle.mls_scheme.specs.Spelling.{IsSpelledKey};
ghost use Rattle.mls_scheme.specs.Table.{Table, place_cmp, tuple_at};
ghost use Rattle.mls_filterview.specs.View.{rows};
ghost use Rattle.mls_filterview.specs.Stored.{IsStored};
ghost use Rattle.mls_filterview.specs.Calls.{IsRead, CanSee, NoReadUp};
ghost use Rattle.mls_filterview.specs.Assembly.{AreLow};
ghost use Rattle.mls_queries.specs.Demanded.{of_key};
ghost use Rattle.mls_filterview.specs.Checking.{are_declared};
ghost use Rattle.mls_queries.specs.Parts.{has_known};

use crate::parts::key_parts;
use mls_filterview::{Base, BaseFault, Fragment, TupleMap, filter, rows_of, settle, values_of};
use mls_lattice::{Items, LabelNo, Policy};
use mls_scheme::{Element, Place, RelNo, Tuple, Value};
use std::alloc::{AllocError, Global};

/// Whether the classes of elements are declared.
fn are_declared(count: usize, elements: &[Element]) -> bool
    ensures { result ≡ are_declared count elements.now }
{
    elements.iter().all(|element| element.class.index() < count)
}

/// Whether the classes of a tuple are declared, as they are over a clean store.
fn is_known(policy: &Policy, tuple: &Tuple) -> bool
    ensures { result ≡ has_known (length policy.now.labels) tuple.now }
{
    let count = policy.label_count();
    tuple.key_class.index() < count && are_declared(count, &tuple.elements)
}

/// The tuples of a map, in the order of places, but for those whose classes are not declared.
fn tuples_of(alloc: Global, policy: &Policy, found: TupleMap) -> Result<Vec<Tuple>, AllocError>
    ensures tuples { IfOk result (λ v. v.items ≡ filter (has_known (length policy.now.labels))
        (map (λ e. tuple_at e.0 e.1) found.entries)) }
    ensures ordered { IsOrdered place_cmp found }
{
    let pairs: Vec<(Place, Items<Element>)> = found.into_iter().collect(alloc)?;
    let mut tuples = Vec::new(alloc);
    for (place, elements) in pairs {
        let tuple = Tuple {
            key: place.key,
            key_class: place.key_class,
            elements,
        };
        if is_known(policy, &tuple) {
            tuples.push(tuple)?;
        }
    }
    Ok(tuples)
}

/// What a level sees of the tuples whose low parts these are.
fn seen(
    alloc: Global,
    policy: &Policy,
    parts: Fragment,
    label: LabelNo,
) -> Result<Vec<Tuple>, AllocError>
    requires { label < length policy.now.labels }
    ensures { IfOk result (λ v. (n : ℕ) (T : Table) → IsStored (labels_of policy.now) n T
        → AreLow (labels_of policy.now) T label (length (labels_of policy.now)) parts.nodes parts.cells
        → v.items ≡ rows (labels_of policy.now) label T) }
{
    let values = values_of(alloc, parts.cells)?;
    let found = rows_of(alloc, parts.nodes, &values)?;
    let tuples = tuples_of(alloc, policy, found)?;
    filter(alloc, policy, &tuples, label)
}

/// What a level sees of the tuples of a key of a relation. No fragment is read.
pub(crate) fn look_up<B: Base>(
    alloc: Global,
    base: &mut B,
    policy: &Policy,
    relation: RelNo,
    label: LabelNo,
    key: Items<Value>,
) -> Result<Vec<Tuple>, BaseFault>
    requires see { CanSee B.seen base.old relation policy.now label }
    requires key { IsSpelledKey key }
    ensures read { IsRead B.seen base.old base.new result }
    ensures access { NoReadUp B.seen (labels_of policy.now) label base.old base.new }
    ensures rows { (B.seen base.new).is_clean → IfOk result (λ v. v.items ≡ rows (labels_of policy.now) label
        (of_key key ((B.seen base.old).state.now.db relation))) }
{
    let parts = key_parts(alloc, base, policy, relation, label, key)?;
    let tuples = settle(base, seen(alloc, policy, parts, label))?;
    Ok(tuples)
}
