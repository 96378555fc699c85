//! What a store has of the entities of one key.
ghost use Rattle.std.specs.Prelude.{◌<◌, length, IfOk};
ghost use Rattle.mls_lattice.specs.Policy.{labels_of};
ghost use Rattle.mls_scheme.specs.Spelling.{IsSpelledKey};
ghost use Rattle.mls_filterview.specs.Calls.{IsRead, CanSee, NoReadUp};
ghost use Rattle.mls_filterview.specs.Assembly.{AreLow};
ghost use Rattle.mls_queries.specs.Demanded.{of_key};

use mls_filterview::{Base, BaseFault, Fragment, entity_parts, gather, settle};
use mls_lattice::{Items, LabelNo, Policy};
use mls_scheme::{Place, RelNo, Value};
use std::alloc::Global;

/// What a level may see of the entities of a key.
pub(crate) fn key_parts<B: Base>(
    alloc: Global,
    base: &mut B,
    policy: &Policy,
    relation: RelNo,
    label: LabelNo,
    key: Items<Value>,
) -> Result<Fragment, BaseFault>
    requires see { CanSee B.seen base.old relation policy.now label }
    requires key { IsSpelledKey key }
    ensures read { IsRead B.seen base.old base.new result }
    ensures access { NoReadUp B.seen (labels_of policy.now) label base.old base.new }
    ensures parts { (B.seen base.new).is_clean → IfOk result (λ f. AreLow (labels_of policy.now)
        (of_key key ((B.seen base.old).state.now.db relation)) label (length (labels_of policy.now)) f.nodes f.cells) }
{
    let mut nodes = Vec::new(alloc);
    let mut cells = Vec::new(alloc);
    let mut place = Place {
        key,
        key_class: label,
        class: label,
    };
    for number in 0..policy.label_count() {
        let key_class = LabelNo::new(number as u8);
        if !policy.dominates(label, key_class) {
            continue;
        }
        let parts = entity_parts(alloc, base, policy, relation, label, key_class, &mut place)?;
        settle(base, gather(&mut nodes, &mut cells, parts))?;
    }
    Ok(Fragment {
        nodes: Items::from(nodes),
        cells: Items::from(cells),
    })
}
