//! Entries from bytes, which are read from left to right.
ghost use Rattle.std.specs.Prelude.{◌≡◌, IfOk, Ok};
ghost use Rattle.mls_scheme.specs.KeyReading.{GivesKey, utf8_at, value_at};
ghost use Rattle.mls_audit.specs.declared.entry.Entry.{Entry as SpecEntry};
ghost use Rattle.mls_audit.specs.Spelling.{entry_spelling, HasSpelling};
ghost use Rattle.mls_audit.specs.Reading.{byte_at, name_at, time_at, head_at, nullable_at, deed_at, tag_at, front_at};
ghost use Rattle.mls_audit.specs.Reading.{entry_at};

use crate::entry::{Deed, Entry};
use mls_lattice::{LabelNo, Str, TIME_BYTES, is_time};
use mls_scheme::{KeyFault as EntryFault, Value, value_of};
use std::alloc::Global;

/// What kinds of entries there are.
#[derive(Clone, Copy)]
enum Kind {
    Called,
    Denied,
    Released,
}

/// What every entry has.
#[derive(Drop)]
struct Head {
    label: LabelNo,
    time: Option<Str>,
    user: Str,
    session: Str,
}

fn byte_of(bytes: &[u8]) -> Result<(u8, &[u8]), EntryFault>
    ensures { GivesKey (λ x. (x.0, x.1.now)) result (byte_at bytes.now) }
{
    match bytes {
        [] => Err(EntryFault::Short),
        [byte, rest @ ..] => Ok((*byte, rest)),
    }
}

#[tactic(auto, using(crate::proofs::ReadingSteps::utf8_steps))]
fn utf8_of(bytes: &[u8]) -> Result<&str, EntryFault>
    ensures { GivesKey (λ s. s.now) result (utf8_at bytes.now) }
{
    match std::str::from_utf8(bytes) {
        Ok(text) => Ok(text),
        Err(_) => Err(EntryFault::BadText),
    }
}

#[tactic(auto, unfolding(crate::specs::Reading::name_at))]
fn name_of(alloc: Global, bytes: &[u8]) -> Result<(Str, &[u8]), EntryFault>
    ensures { GivesKey (λ x. (x.0, x.1.now)) result (name_at bytes.now) }
{
    let (len, rest) = byte_of(bytes)?;
    let len = len as usize;
    if rest.len() < len {
        return Err(EntryFault::Short);
    }
    let (name, rest) = rest.split_at(len);
    Ok((Str::copy_of(alloc, utf8_of(name)?)?, rest))
}

/// A time, where there is one.
fn time_of(alloc: Global, timed: bool, bytes: &[u8]) -> Result<(Option<Str>, &[u8]), EntryFault>
    ensures { GivesKey (λ x. (x.0, x.1.now)) result (time_at timed bytes.now) }
{
    if !timed {
        return Ok((None, bytes));
    }
    if bytes.len() < TIME_BYTES {
        return Err(EntryFault::Short);
    }
    let (time, rest) = bytes.split_at(TIME_BYTES);
    let time = utf8_of(time)?;
    if !is_time(time.as_bytes()) {
        return Err(EntryFault::BadText);
    }
    Ok((Some(Str::copy_of(alloc, time)?), rest))
}

#[tactic(auto, unfolding(crate::specs::Reading::head_at))]
fn head_of(alloc: Global, timed: bool, bytes: &[u8]) -> Result<(Head, &[u8]), EntryFault>
    ensures { GivesKey (λ x. (x.0, x.1.now)) result (head_at timed bytes.now) }
{
    let (label, rest) = byte_of(bytes)?;
    let (time, rest) = time_of(alloc, timed, rest)?;
    let (user, rest) = name_of(alloc, rest)?;
    let (session, rest) = name_of(alloc, rest)?;
    let head = Head {
        label: LabelNo::new(label),
        time,
        user,
        session,
    };
    Ok((head, rest))
}

fn some_of(alloc: Global, bytes: &[u8]) -> Result<(Value, &[u8]), EntryFault>
    ensures { GivesKey (λ x. (x.0, x.1.now)) result (value_at bytes.now) }
{
    let (value, count) = value_of(alloc, bytes)?;
    Ok((value, &bytes[count..]))
}

#[tactic(auto, unfolding(crate::specs::Reading::nullable_at))]
fn nullable_of(alloc: Global, bytes: &[u8]) -> Result<(Option<Value>, &[u8]), EntryFault>
    ensures { GivesKey (λ x. (x.0, x.1.now)) result (nullable_at bytes.now) }
{
    match bytes {
        [] => Err(EntryFault::Short),
        [0, rest @ ..] => Ok((None, rest)),
        [_, ..] => {
            let (value, rest) = some_of(alloc, bytes)?;
            Ok((Some(value), rest))
        }
    }
}

fn deed_of(alloc: Global, kind: Kind, bytes: &[u8]) -> Result<(Deed, &[u8]), EntryFault>
    ensures { GivesKey (λ x. (x.0, x.1.now)) result (deed_at kind bytes.now) }
{
    match kind {
        Kind::Called => {
            let (transaction, rest) = name_of(alloc, bytes)?;
            Ok((Deed::Called(transaction), rest))
        }
        Kind::Denied => {
            let (code, rest) = byte_of(bytes)?;
            Ok((Deed::Denied(code), rest))
        }
        Kind::Released => {
            let (value, rest) = nullable_of(alloc, bytes)?;
            Ok((Deed::Released(value), rest))
        }
    }
}

/// Whether an entry of a tag has a time, and what it tells.
fn tag_of(tag: u8) -> Result<(bool, Kind), EntryFault>
    ensures { GivesKey (λ k. (k.0, k.1)) result (tag_at tag) }
{
    match tag {
        1 => Ok((false, Kind::Called)),
        2 => Ok((false, Kind::Denied)),
        3 => Ok((false, Kind::Released)),
        4 => Ok((true, Kind::Called)),
        5 => Ok((true, Kind::Denied)),
        6 => Ok((true, Kind::Released)),
        _ => Err(EntryFault::BadTag),
    }
}

#[tactic(auto, unfolding(crate::specs::Reading::front_at))]
fn front_of(alloc: Global, bytes: &[u8]) -> Result<(Entry, &[u8]), EntryFault>
    ensures { GivesKey (λ x. (x.0, x.1.now)) result (front_at bytes.now) }
{
    let (tag, rest) = byte_of(bytes)?;
    let (timed, kind) = tag_of(tag)?;
    let (head, rest) = head_of(alloc, timed, rest)?;
    let (deed, rest) = deed_of(alloc, kind, rest)?;
    let entry = Entry {
        label: head.label,
        time: head.time,
        user: head.user,
        session: head.session,
        deed,
    };
    Ok((entry, rest))
}

#[tactic(auto, unfolding(crate::specs::Reading::entry_at))]
fn all_of(alloc: Global, bytes: &[u8]) -> Result<Entry, EntryFault>
    ensures { GivesKey (λ e. e) result (entry_at bytes.now) }
{
    let (entry, rest) = front_of(alloc, bytes)?;
    if !rest.is_empty() {
        return Err(EntryFault::Trailing);
    }
    Ok(entry)
}

/// The entry that the bytes spell, all of the bytes. Its label, its names and its code may be any that bytes
/// can hold: who knows the policy asks whether the label is declared. No memory is asked for a length that the
/// bytes don't have.
pub fn entry_of(alloc: Global, bytes: &[u8]) -> Result<Entry, EntryFault>
    // What is read is spelled so.
    ensures found { IfOk result (λ e. HasSpelling e × (bytes.now ≡ entry_spelling e)) }
    // What is spelled so is read, unless memory runs out.
    ensures only { (e : SpecEntry) → HasSpelling e → bytes.now ≡ entry_spelling e → GivesKey (λ x. x) result (Ok e) }
    // Which fault it is.
    ensures exact { GivesKey (λ e. e) result (entry_at bytes.now) }
{
    all_of(alloc, bytes)
}
