//! The three writes as one call.
ghost use Rattle.mls_updates.specs.Calls.{CanWrite, HasWritten};

use crate::deleting::delete;
use crate::inserting::insert;
use crate::outcome::Outcome;
use crate::updating::update;
use mls_filterview::{Base, BaseFault};
use mls_lattice::{LabelNo, Policy};
use mls_scheme::{RelNo, Schemes, Value, Write};
use std::alloc::Global;

/// Makes a write at `w`, inside a change: `insert`, `update` or `delete`.
pub fn write<B: Base>(
    alloc: Global,
    base: &mut B,
    policy: &Policy,
    schemes: &Schemes,
    relation: RelNo,
    w: LabelNo,
    write: &Write<Option<Value>>,
) -> Result<Outcome, BaseFault>
    requires { CanWrite B.seen base.old policy.now schemes.now relation w write.now }
    ensures { HasWritten B.seen policy.now schemes.now relation w write.now base.old base.new result }
{
    match write {
        Write::Insert { key, values } => {
            insert(alloc, base, policy, schemes, relation, w, key, values)
        }
        Write::Update {
            key,
            key_class,
            from,
            sets,
        } => update(
            alloc, base, policy, schemes, relation, w, key, *key_class, *from, sets,
        ),
        Write::Delete { key, key_class } => {
            delete(alloc, base, policy, schemes, relation, w, key, *key_class)
        }
    }
}
