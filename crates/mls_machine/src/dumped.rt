//! The events that make tuples again.
ghost use Rattle.std.specs.Prelude.{◌≡◌, ◌<◌, Some, map, length, IfOk};
ghost use Rattle.mls_lattice.specs.Policy.{labels_of};
ghost use Rattle.mls_scheme.specs.Tuple.{HasClassesBelow};
ghost use Rattle.mls_machine.specs.Dumping.{own_sets, class_below, dump_command, dump_event};
ghost use Rattle.mls_machine.specs.Under.{site_under};

use mls_filterview::class_number;
use mls_lattice::{Items, LabelNo, Policy, Str};
use mls_scheme::{Element, RelNo, Schemes, Tuple, Value, Write};
use mls_translang::{Command, Event};
use std::alloc::{AllocError, Global};

/// The values of a key, each one there.
fn key_of(alloc: Global, key: &[Value]) -> Result<Items<Option<Value>>, AllocError>
    ensures { IfOk result (λ v. v ≡ map Some key.now) }
{
    let mut values = Vec::new(alloc);
    for value in key {
        values.push(Some(value.copy()?))?;
    }
    Ok(Items::from(values))
}

/// The values of elements.
fn values_of(alloc: Global, elements: &[Element]) -> Result<Items<Option<Value>>, AllocError>
    ensures { IfOk result (λ v. v ≡ map (λ e. e.value) elements.now) }
{
    let mut values = Vec::new(alloc);
    for element in elements {
        values.push(element.copy()?.value)?;
    }
    Ok(Items::from(values))
}

/// The values of a class, with the numbers of their attributes. A store that is not clean may give more elements than
/// there are attributes.
fn own_sets(
    alloc: Global,
    class: LabelNo,
    attributes: usize,
    elements: &[Element],
) -> Result<Items<(usize, Option<Value>)>, AllocError>
    ensures { IfOk result (λ v. v ≡ own_sets class attributes 0 elements.now) }
{
    let mut sets = Vec::new(alloc);
    for (number, element) in elements.iter().enumerate() {
        if element.class != class {
            continue;
        }
        if number < attributes {
            sets.push((number, element.copy()?.value))?;
        }
    }
    Ok(Items::from(sets))
}

/// The greatest of the classes of a tuple but for one.
fn class_below(policy: &Policy, class: LabelNo, tuple: &Tuple) -> LabelNo
    requires { HasClassesBelow (length policy.now.labels) tuple.now }
    ensures class { result ≡ class_below (labels_of policy.now) class tuple.now }
    ensures known { result < length policy.now.labels }
{
    let mut greatest = tuple.key_class;
    for element in tuple.elements.as_slice() {
        if element.class == class {
            continue;
        }
        if policy.dominates(element.class, greatest) {
            greatest = element.class;
        }
    }
    greatest
}

/// The command that makes a tuple of a class.
fn dump_command(
    alloc: Global,
    policy: &Policy,
    schemes: &Schemes,
    relation: RelNo,
    class: LabelNo,
    tuple: &Tuple,
) -> Result<Command, AllocError>
    requires classes { HasClassesBelow (length policy.now.labels) tuple.now }
    requires relation { relation < length schemes.now }
    ensures { IfOk result (λ c. c ≡ dump_command (site_under policy.now schemes.now) relation class tuple.now) }
{
    let key = key_of(alloc, &tuple.key)?;
    if class == tuple.key_class {
        let values = values_of(alloc, &tuple.elements)?;
        let write = Write::Insert { key, values };
        return Ok(Command::Write { relation, write });
    }
    let attributes = schemes.scheme(relation).others().len();
    let write = Write::Update {
        key,
        key_class: tuple.key_class,
        from: class_below(policy, class, tuple),
        sets: own_sets(alloc, class, attributes, &tuple.elements)?,
    };
    Ok(Command::Write { relation, write })
}

/// The event that makes a tuple, in a session of a name.
pub(crate) fn dump_event(
    alloc: Global,
    policy: &Policy,
    schemes: &Schemes,
    session: &str,
    relation: RelNo,
    tuple: &Tuple,
) -> Result<Event, AllocError>
    requires classes { HasClassesBelow (length policy.now.labels) tuple.now }
    requires relation { relation < length schemes.now }
    ensures { IfOk result (λ e. e ≡ dump_event (site_under policy.now schemes.now) session.now relation tuple.now) }
{
    let level = class_number(policy, tuple);
    Ok(Event {
        level,
        session: Str::copy_of(alloc, session)?,
        time: None,
        command: dump_command(alloc, policy, schemes, relation, level, tuple)?,
    })
}
