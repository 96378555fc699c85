//! Events, as lines of scripts.
ghost use Rattle.std.specs.Prelude.{◌≡◌, ◌<◌, ◌++◌, length, OnOk, flat_map};
ghost use Rattle.std.specs.List.{list_all, AllByRecursion};
ghost use Rattle.mls_translang.specs.Writing.{value_text, cell_text, behind_comma, listed, list_text, set_text, keyed};
ghost use Rattle.mls_translang.specs.Writing.{command_text, line_text, HasKnownNumbers, IsKnown, is_writable_text};
ghost use Rattle.mls_translang.specs.Writing.{is_writable_value, are_writable, is_writable_command, is_writable};

use crate::event::{Command, Event};
use mls_lattice::{LabelNo, Policy};
use mls_scheme::{RelNo, Scheme, Schemes, Value, Write};
use mls_tokens::{push_int, push_quoted, push_str};
use std::alloc::{AllocError, Global};

/// The most bytes of a text between quotes.
const MAX_TEXT: usize = 8192;

// ---- values

/// Appends a value, a text between quotes.
pub fn push_value(alloc: Global, text: &mut Vec<u8>, value: &Value) -> Result<(), AllocError>
    ensures { OnOk result (text.new.items ≡ text.old.items ++ value_text value.now) }
{
    match value {
        Value::Int(number) => push_int(alloc, text, *number),
        Value::Text(inside) => push_quoted(text, inside),
    }
}

/// Appends a value, or `null`.
pub fn push_cell(alloc: Global, text: &mut Vec<u8>, value: &Option<Value>) -> Result<(), AllocError>
    ensures { OnOk result (text.new.items ≡ text.old.items ++ cell_text value.now) }
{
    match value {
        None => push_str(text, "null"),
        Some(value) => push_value(alloc, text, value),
    }
}

/// Appends values, a comma before each.
fn push_more_values(
    alloc: Global,
    text: &mut Vec<u8>,
    values: &[Option<Value>],
) -> Result<(), AllocError>
    ensures { OnOk result (text.new.items ≡ text.old.items ++ flat_map (behind_comma cell_text) values.now) }
{
    for value in values {
        push_str(text, ", ")?;
        push_cell(alloc, text, value)?;
    }
    Ok(())
}

fn push_values(
    alloc: Global,
    text: &mut Vec<u8>,
    values: &[Option<Value>],
) -> Result<(), AllocError>
    ensures { OnOk result (text.new.items ≡ text.old.items ++ listed cell_text values.now) }
{
    match values {
        [] => Ok(()),
        [first, rest @ ..] => {
            push_cell(alloc, text, first)?;
            push_more_values(alloc, text, rest)
        }
    }
}

fn push_list(alloc: Global, text: &mut Vec<u8>, values: &[Option<Value>]) -> Result<(), AllocError>
    ensures { OnOk result (text.new.items ≡ text.old.items ++ list_text values.now) }
{
    push_str(text, "(")?;
    push_values(alloc, text, values)?;
    push_str(text, ")")
}

// ---- new values

fn push_set(
    alloc: Global,
    text: &mut Vec<u8>,
    scheme: &Scheme,
    set: &(usize, Option<Value>),
) -> Result<(), AllocError>
    requires { set.now.0 < length scheme.now.others }
    ensures { OnOk result (text.new.items ≡ text.old.items ++ set_text scheme.now set.now) }
{
    push_str(text, scheme.others().name(set.0))?;
    push_str(text, " = ")?;
    push_cell(alloc, text, &set.1)
}

/// Appends new values, a comma before each.
fn push_more_sets(
    alloc: Global,
    text: &mut Vec<u8>,
    scheme: &Scheme,
    sets: &[(usize, Option<Value>)],
) -> Result<(), AllocError>
    requires { AllByRecursion (λ s. s.0 < length scheme.now.others) sets.now }
    ensures { OnOk result (text.new.items ≡ text.old.items ++ flat_map (behind_comma (set_text scheme.now)) sets.now) }
{
    for set in sets {
        push_str(text, ", ")?;
        push_set(alloc, text, scheme, set)?;
    }
    Ok(())
}

fn push_sets(
    alloc: Global,
    text: &mut Vec<u8>,
    scheme: &Scheme,
    sets: &[(usize, Option<Value>)],
) -> Result<(), AllocError>
    requires { AllByRecursion (λ s. s.0 < length scheme.now.others) sets.now }
    ensures { OnOk result (text.new.items ≡ text.old.items ++ listed (set_text scheme.now) sets.now) }
{
    match sets {
        [] => Ok(()),
        [first, rest @ ..] => {
            push_set(alloc, text, scheme, first)?;
            push_more_sets(alloc, text, scheme, rest)
        }
    }
}

// ---- commands

/// Appends a word, and a name behind it.
fn push_named(text: &mut Vec<u8>, word: &str, name: &str) -> Result<(), AllocError>
    ensures { OnOk result (text.new.items ≡ text.old.items ++ word.now ++ name.now) }
{
    push_str(text, word)?;
    push_str(text, name)
}

/// Appends a verb, a relation and a key.
fn push_keyed(
    alloc: Global,
    text: &mut Vec<u8>,
    schemes: &Schemes,
    verb: &str,
    relation: RelNo,
    key: &[Option<Value>],
) -> Result<(), AllocError>
    requires { relation < length schemes.now }
    ensures { OnOk result (text.new.items ≡ text.old.items ++ keyed schemes.now verb.now relation key.now) }
{
    push_named(text, verb, schemes.scheme(relation).name())?;
    push_str(text, " key ")?;
    push_list(alloc, text, key)
}

fn push_command(
    alloc: Global,
    text: &mut Vec<u8>,
    policy: &Policy,
    schemes: &Schemes,
    command: &Command,
) -> Result<(), AllocError>
    requires { HasKnownNumbers policy.now schemes.now command.now }
    ensures { OnOk result (text.new.items ≡ text.old.items ++ command_text policy.now schemes.now command.now) }
{
    match command {
        Command::Write {
            relation,
            write: Write::Insert { key, values },
        } => {
            push_keyed(alloc, text, schemes, "insert ", *relation, key)?;
            push_str(text, " values ")?;
            push_list(alloc, text, values)
        }
        Command::Write {
            relation,
            write: Write::Update {
                key,
                key_class,
                from,
                sets,
            },
        } => {
            push_keyed(alloc, text, schemes, "update ", *relation, key)?;
            push_named(text, " class ", policy.name(*key_class))?;
            push_named(text, " from ", policy.name(*from))?;
            push_str(text, " set ")?;
            push_sets(alloc, text, schemes.scheme(*relation), sets)
        }
        _ => Ok(()),
    }
}

/// Appends the line of an event, as a person would write it, without its line feed. Behind the session, nothing is
/// written of
/// commands other than inserts and updates.
pub fn push_event(
    alloc: Global,
    text: &mut Vec<u8>,
    policy: &Policy,
    schemes: &Schemes,
    event: &Event,
) -> Result<(), AllocError>
    requires { IsKnown policy.now schemes.now event.now }
    ensures { OnOk result (text.new.items ≡ text.old.items ++ line_text policy.now schemes.now event.now) }
{
    push_named(text, policy.name(event.level), " ")?;
    push_named(text, &event.session, " ")?;
    push_command(alloc, text, policy, schemes, &event.command)
}

// ---- what a script can hold

fn is_writable_text(text: &str) -> bool
    ensures { result ≡ is_writable_text text.now }
{
    text.len() <= MAX_TEXT
}

fn is_writable_value(value: &Option<Value>) -> bool
    ensures { result ≡ is_writable_value value.now }
{
    match value {
        Some(Value::Text(text)) => is_writable_text(text.as_str()),
        _ => true,
    }
}

fn are_writable(values: &[Option<Value>]) -> bool
    ensures { result ≡ are_writable values.now }
{
    values.iter().all(is_writable_value)
}

fn are_writable_sets(sets: &[(usize, Option<Value>)]) -> bool
    ensures { result ≡ list_all (λ s. is_writable_value s.1) sets.now }
{
    sets.iter().all(|set| is_writable_value(&set.1))
}

/// Whether it is an insert or an update, and no text has more than 8,192 bytes.
fn is_writable_command(command: &Command) -> bool
    ensures { result ≡ is_writable_command command.now }
{
    match command {
        Command::Write {
            write: Write::Insert { key, values },
            ..
        } => are_writable(key) && are_writable(values),
        Command::Write {
            write: Write::Update { key, sets, .. },
            ..
        } => are_writable(key) && are_writable_sets(sets),
        _ => false,
    }
}

/// Whether a script can hold an event that fits, as it is written: it is an insert or an update without a time, and no
/// text has more than 8,192 bytes.
pub fn is_writable(event: &Event) -> bool
    ensures { result ≡ is_writable event.now }
{
    event.time.is_none() && is_writable_command(&event.command)
}
