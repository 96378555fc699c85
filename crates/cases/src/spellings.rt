//! Keys, values and entries of the audit list in hexadecimal.
ghost use Rattle.mls_audit.specs.Spelling.{HasSpelling as HasEntrySpelling};
ghost use Rattle.mls_scheme.specs.Spelling.{HasSpelling, IsSpelledKey};

use crate::entries::push_entry;
use crate::show::{push_value, push_word, push_written};
use crate::table::Subject;
use case_tables::Told;
use mls_audit::{Entry, entry_bytes, entry_of};
use mls_scheme::{Value, key_bytes, key_of, value_bytes, value_of};
use std::alloc::Global;

/// Adds the values of a key, and the bytes that are written for these.
fn push_key(alloc: Global, key: &[Value], out: &mut Told)
    requires { IsSpelledKey key.now }
{
    for value in key {
        push_value(value, out);
    }
    push_written(alloc, key_bytes(alloc, key), out);
}

/// Adds a value, how many bytes it takes, and the bytes that are written for it.
fn push_counted(alloc: Global, value: &Value, count: usize, out: &mut Told)
    requires { HasSpelling value.now }
{
    push_value(value, out);
    out.push(" of ");
    out.push_count(count);
    push_written(alloc, value_bytes(alloc, value), out);
}

/// Adds an entry, and the bytes that are written for it.
fn push_read(alloc: Global, entry: &Entry, out: &mut Told)
    requires { HasEntrySpelling entry.now }
{
    out.push(" ");
    push_entry(entry, out);
    push_written(alloc, entry_bytes(alloc, entry), out);
}

/// Adds what a key, a value or an entry is that bytes spell, or why they spell none.
fn push_spelled(alloc: Global, kind: &str, bytes: &[u8], out: &mut Told) {
    match kind {
        "key" => match key_of(alloc, bytes) {
            Ok(key) => push_key(alloc, &key, out),
            Err(fault) => push_word(fault.word(), out),
        },
        "value" => match value_of(alloc, bytes) {
            Ok((value, count)) => push_counted(alloc, &value, count, out),
            Err(fault) => push_word(fault.word(), out),
        },
        _ => match entry_of(alloc, bytes) {
            Ok(entry) => push_read(alloc, &entry, out),
            Err(fault) => push_word(fault.word(), out),
        },
    }
}

/// How bytes are read, as a key or an entry.
fn word_of(alloc: Global, subject: Subject, bytes: &[u8]) -> &'static str {
    if matches!(subject, Subject::Keys) {
        return match key_of(alloc, bytes) {
            Ok(_) => "read",
            Err(fault) => fault.word(),
        };
    }
    match entry_of(alloc, bytes) {
        Ok(_) => "read",
        Err(fault) => fault.word(),
    }
}

/// Adds what each part of the bytes that is shorter is read as.
fn push_prefixes(alloc: Global, subject: Subject, bytes: &[u8], out: &mut Told) {
    for count in 0..bytes.len() {
        push_word(word_of(alloc, subject, &bytes[..count]), out);
    }
}

/// Adds what bytes spell: a line is `key`, `value`, `entry` or `prefixes`, and the bytes.
pub fn push(alloc: Global, subject: Subject, kind: &str, digits: &str, out: &mut Told) {
    match hex::decode(alloc, digits) {
        Ok(bytes) if kind == "prefixes" => push_prefixes(alloc, subject, &bytes, out),
        Ok(bytes) => push_spelled(alloc, kind, &bytes, out),
        Err(_) => out.push(" no hexadecimal digits"),
    }
}
