//! What stands behind the verbs of what looks at a relation and of what writes it.
ghost use Rattle.std.specs.Prelude.{◌<◌, length, IfOk};
ghost use Rattle.mls_parser.specs.Noted.{GivesPlaced};
ghost use Rattle.mls_script.specs.ReadParts.{look_at, keyed_at, insert_at, update_at, delete_at};

use crate::lists::{list, sets};
use crate::query::query;
use mls_lattice::{Items, LabelNo, Policy};
use mls_parser::{PlacedFault, Reader};
use mls_scheme::{RelNo, Schemes, Value, Write};
use mls_translang::Query;
use std::alloc::Global;

/// What is looked at, at which label, and what is asked of it.
#[derive(Drop)]
pub(crate) struct Look {
    pub relation: RelNo,
    pub label: LabelNo,
    pub query: Query,
}

/// A relation, and a write of it.
pub(crate) type Written = (RelNo, Write<Option<Value>>);

#[tactic(auto, unfolding(crate::specs::ReadParts::look_at))]
pub(crate) fn looking(
    alloc: Global,
    policy: &Policy,
    schemes: &Schemes,
    counts: bool,
    reader: &mut Reader,
) -> Result<Look, PlacedFault>
    ensures { GivesPlaced (λ l. (l, reader.new)) result (look_at policy.now schemes.now counts reader.old) }
{
    let relation = reader.relation(schemes)?;
    let label = reader.label_behind(policy, "at")?;
    let query = query(alloc, policy, schemes, counts, relation, reader)?;
    Ok(Look {
        relation,
        label,
        query,
    })
}

/// A relation, and a key of it.
#[tactic(auto, unfolding(crate::specs::ReadParts::keyed_at))]
fn keyed(
    alloc: Global,
    schemes: &Schemes,
    reader: &mut Reader,
) -> Result<(RelNo, Items<Option<Value>>), PlacedFault>
    ensures exact { GivesPlaced (λ x. ((x.0, x.1), reader.new)) result (keyed_at schemes.now reader.old) }
    ensures within { IfOk result (λ x. x.0 < length schemes.now) }
{
    let relation = reader.relation(schemes)?;
    reader.word("key")?;
    let key = list(alloc, reader, Some(schemes.scheme(relation).keys()))?;
    Ok((relation, key))
}

#[tactic(auto, unfolding(crate::specs::ReadParts::insert_at))]
pub(crate) fn insert(
    alloc: Global,
    schemes: &Schemes,
    reader: &mut Reader,
) -> Result<Written, PlacedFault>
    ensures { GivesPlaced (λ x. ((x.0, x.1), reader.new)) result (insert_at schemes.now reader.old) }
{
    let (relation, key) = keyed(alloc, schemes, reader)?;
    reader.word("values")?;
    let values = list(alloc, reader, Some(schemes.scheme(relation).others()))?;
    Ok((relation, Write::Insert { key, values }))
}

#[tactic(auto, unfolding(crate::specs::ReadParts::update_at))]
pub(crate) fn update(
    alloc: Global,
    policy: &Policy,
    schemes: &Schemes,
    reader: &mut Reader,
) -> Result<Written, PlacedFault>
    ensures { GivesPlaced (λ x. ((x.0, x.1), reader.new)) result (update_at policy.now schemes.now reader.old) }
{
    let (relation, key) = keyed(alloc, schemes, reader)?;
    let key_class = reader.label_behind(policy, "class")?;
    let from = reader.label_behind(policy, "from")?;
    let sets = sets(alloc, reader, schemes.scheme(relation))?;
    let write = Write::Update {
        key,
        key_class,
        from,
        sets,
    };
    Ok((relation, write))
}

#[tactic(auto, unfolding(crate::specs::ReadParts::delete_at))]
pub(crate) fn delete(
    alloc: Global,
    policy: &Policy,
    schemes: &Schemes,
    reader: &mut Reader,
) -> Result<Written, PlacedFault>
    ensures { GivesPlaced (λ x. ((x.0, x.1), reader.new)) result (delete_at policy.now schemes.now reader.old) }
{
    let (relation, key) = keyed(alloc, schemes, reader)?;
    let key_class = reader.label_behind(policy, "class")?;
    Ok((relation, Write::Delete { key, key_class }))
}
