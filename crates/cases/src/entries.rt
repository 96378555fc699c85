//! Entries of the audit list, and what a level sees of them.
ghost use Rattle.std.specs.Prelude.{◌<◌, length, IfSome};
ghost use Rattle.std.specs.List.{AllByRecursion};
ghost use Rattle.mls_audit.specs.Entry.{label_of as label_in};
ghost use Rattle.mls_audit.specs.Spelling.{HasSpelling};

use crate::show::{push_value, push_word};
use crate::spellings;
use crate::table::Subject;
use crate::tuples::label_of;
use case_tables::{Told, inner};
use mls_audit::{Deed, Entry, entry_bytes, entry_of, visible};
use mls_lattice::{LabelNo, Policy};
use std::alloc::{AllocError, Global};

/// Adds what was called, the code of a denial or the value that was released.
fn push_deed(deed: &Deed, out: &mut Told) {
    match deed {
        Deed::Called(transaction) => push_word(transaction.as_str(), out),
        Deed::Denied(code) => {
            out.push(" ");
            out.push_count(*code as usize);
        }
        Deed::Released(Some(value)) => push_value(value, out),
        Deed::Released(None) => out.push(" null"),
    }
}

fn word_of(deed: &Deed) -> &'static str {
    match deed {
        Deed::Called(_) => "called",
        Deed::Denied(_) => "denied",
        Deed::Released(_) => "released",
    }
}

/// Adds an entry.
pub fn push_entry(entry: &Entry, out: &mut Told) {
    out.push("label ");
    out.push_count(entry.label().index());
    push_word(word_of(&entry.deed), out);
    push_word(entry.user.as_str(), out);
    push_word(entry.session.as_str(), out);
    push_deed(&entry.deed, out);
    if let Some(time) = &entry.time {
        push_word(time.as_str(), out);
    }
}

/// The bytes of a call at U, whose user, session and transaction have names of so many letters.
fn call_of(alloc: Global, count: u8) -> Result<Vec<u8>, AllocError> {
    let mut bytes = Vec::new(alloc);
    bytes.extend_from_slice(&[1, 0])?;
    for _ in 0..3 {
        bytes.push(count)?;
        let length = bytes.len();
        bytes.resize(length.saturating_add(usize::from(count)), b'x')?;
    }
    Ok(bytes)
}

/// Adds how long the names of a call are.
fn push_lengths(entry: &Entry, out: &mut Told) {
    match &entry.deed {
        Deed::Called(transaction) => {
            for name in [&entry.user, &entry.session, transaction] {
                out.push(" ");
                out.push_count(name.as_str().len());
            }
        }
        _ => out.push(" no call"),
    }
}

/// Adds how long the names of a call are, and whether the bytes that are written for it are those that were read.
fn push_again(alloc: Global, entry: &Entry, bytes: &[u8], out: &mut Told)
    requires { HasSpelling entry.now }
{
    push_lengths(entry, out);
    match entry_bytes(alloc, entry) {
        Ok(again) if again.as_slice() == bytes => out.push(", given back"),
        Ok(_) => out.push(", not given back"),
        Err(_) => out.fail(),
    }
}

fn push_call(alloc: Global, bytes: &[u8], out: &mut Told) {
    match entry_of(alloc, bytes) {
        Ok(entry) => push_again(alloc, &entry, bytes, out),
        Err(fault) => push_word(fault.word(), out),
    }
}

/// Adds what is read of a call with names of so many letters.
fn push_names(alloc: Global, count: &str, out: &mut Told) {
    match call_of(alloc, count.parse::<u8>().unwrap_or(0)) {
        Ok(bytes) => push_call(alloc, &bytes, out),
        Err(_) => out.fail(),
    }
}

/// The entry that a line spells, where it has a label of the policy.
fn entry_at(alloc: Global, policy: &Policy, line: &str) -> Option<Entry>
    ensures { IfSome result (λ e. label_in e < length policy.now.labels) }
{
    let bytes = hex::decode(alloc, line).ok()?;
    match entry_of(alloc, &bytes) {
        Ok(entry) if entry.label().index() < policy.label_count() => Some(entry),
        _ => None,
    }
}

fn entries_of(alloc: Global, policy: &Policy, lines: &[&str]) -> Option<Vec<Entry>>
    ensures { IfSome result (λ v. AllByRecursion (λ e. label_in e < length policy.now.labels) v.items) }
{
    let mut entries = Vec::new(alloc);
    for line in lines {
        entries.push(entry_at(alloc, policy, inner(line))?).ok()?;
    }
    Some(entries)
}

fn push_entries(entries: &[Entry], out: &mut Told) {
    for entry in entries {
        out.push("\n  ");
        push_entry(entry, out);
    }
}

fn push_seen(alloc: Global, policy: &Policy, entries: &[Entry], level: LabelNo, out: &mut Told)
    requires entries { AllByRecursion (λ e. label_in e < length policy.now.labels) entries.now }
    requires level { level < length policy.now.labels }
{
    match visible(alloc, policy, entries, level) {
        Ok(seen) => push_entries(&seen, out),
        Err(_) => out.fail(),
    }
}

/// Adds the entries of a body that a level sees.
fn push_visible(alloc: Global, policy: &Policy, level: &str, body: &[&str], out: &mut Told) {
    let Some(level) = label_of(policy, level) else {
        return out.push(" no level");
    };
    match entries_of(alloc, policy, body) {
        Some(entries) => push_seen(alloc, policy, &entries, level, out),
        None => out.push(" no entries"),
    }
}

/// Adds what bytes spell: a line is `entry` or `prefixes`, and the bytes; or `names`, and how long they are. `visible`,
/// and a label, has lines of bytes below.
pub fn push(alloc: Global, policy: &Policy, kind: &str, rest: &str, body: &[&str], out: &mut Told) {
    match kind {
        "visible" => push_visible(alloc, policy, rest, body, out),
        "names" => push_names(alloc, rest, out),
        _ => spellings::push(alloc, Subject::Entries, kind, rest, out),
    }
}
