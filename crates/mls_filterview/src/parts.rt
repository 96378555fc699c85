//! What a level may see of one entity, read class by class.
ghost use Rattle.std.specs.Prelude.{◌≡◌, ◌<◌, ◌++◌, ◌&&◌, length, IfOk, OnOk};
ghost use Rattle.mls_lattice.specs.Labels.{below};
ghost use Rattle.mls_lattice.specs.Policy.{labels_of};
ghost use Rattle.mls_scheme.specs.Spelling.{IsSpelledKey};
ghost use Rattle.mls_filterview.specs.Calls.{IsRead, CanSee, NoReadUp};
ghost use Rattle.mls_filterview.specs.Assembly.{AreOf};
ghost use Rattle.mls_filterview.specs.Entities.{IsOfEntity};

use crate::base::{Base, BaseFault, settle};
use crate::fragment::{Cell, Fragment, Node};
use mls_lattice::{Items, LabelNo, Policy};
use mls_scheme::{Place, RelNo};
use std::alloc::{AllocError, Global};

/// Puts a fragment behind what was gathered.
pub fn gather(
    nodes: &mut Vec<Node>,
    cells: &mut Vec<Cell>,
    fragment: Fragment,
) -> Result<(), AllocError>
    ensures nodes { OnOk result (nodes.new.items ≡ nodes.old.items ++ fragment.nodes) }
    ensures cells { OnOk result (cells.new.items ≡ cells.old.items ++ fragment.cells) }
{
    nodes.append(&mut fragment.nodes.into_vec())?;
    cells.append(&mut fragment.cells.into_vec())?;
    Ok(())
}

/// Whether a tuple of a key class can have a class, and a level may see it.
fn is_between(policy: &Policy, key_class: LabelNo, class: LabelNo, label: LabelNo) -> bool
    requires key_class { key_class < length policy.now.labels }
    requires class { class < length policy.now.labels }
    requires label { label < length policy.now.labels }
    ensures { result ≡ (below (labels_of policy.now) key_class class && below (labels_of policy.now) class label) }
{
    policy.dominates(class, key_class) && policy.dominates(label, class)
}

/// What a level may see of the entity of a key class, whose key is that of the place. No fragment is read. The class of
/// the
/// place is changed.
pub fn entity_parts<B: Base>(
    alloc: Global,
    base: &mut B,
    policy: &Policy,
    relation: RelNo,
    label: LabelNo,
    key_class: LabelNo,
    place: &mut Place,
) -> Result<Fragment, BaseFault>
    requires see { CanSee B.seen base.old relation policy.now label }
    requires key_class { key_class < length policy.now.labels }
    requires key { IsSpelledKey place.old.key }
    ensures read { IsRead B.seen base.old base.new result }
    ensures access { NoReadUp B.seen (labels_of policy.now) label base.old base.new }
    ensures parts { (B.seen base.new).is_clean → IfOk result (λ f. AreOf (IsOfEntity (labels_of policy.now)
        ((B.seen base.old).state.now.db relation) label place.old.key key_class (length (labels_of policy.now)))
        f.nodes f.cells) }
    ensures key { place.new.key ≡ place.old.key }
    ensures entity { OnOk result (place.new.key_class ≡ key_class) }
{
    place.key_class = key_class;
    let mut nodes = Vec::new(alloc);
    let mut cells = Vec::new(alloc);
    for number in 0..policy.label_count() {
        let class = LabelNo::new(number as u8);
        if !is_between(policy, key_class, class, label) {
            continue;
        }
        place.class = class;
        let part = base.entity(relation, place)?;
        settle(base, gather(&mut nodes, &mut cells, part))?;
    }
    Ok(Fragment {
        nodes: Items::from(nodes),
        cells: Items::from(cells),
    })
}
