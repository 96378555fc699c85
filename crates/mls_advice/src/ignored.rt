//! The fields of a policy and of schemes that nobody reads.
use crate::columns::Told;
use crate::document::items_of;
use crate::keys::{Known, POLICY, SCHEMES, known_at};
use crate::nearest::{nearest, push_name};
use crate::shown::text_to;
use mls_lattice::Str;
use std::alloc::{AllocError, Global};
use toml::{Table, Value};

/// Which document is looked through, and for which keys.
#[derive(Clone, Copy)]
struct Search<'a> {
    alloc: Global,
    path: &'a str,
    keys: &'a [Known],
}

/// The keys that a table has.
fn keys_of(alloc: Global, keys: &[Known], table: &str) -> Result<Vec<Str>, AllocError> {
    let mut names = Vec::new(alloc);
    for known in keys {
        if known.table == table && !known.key.is_empty() {
            push_name(alloc, &mut names, known.key)?;
        }
    }
    Ok(names)
}

impl Search<'_> {
    /// Appends a line for a field of a table, which stands at a place.
    fn line_to(&self, text: &mut String, table: &str, place: &str, key: &str) -> Told {
        text_to(text, self.path)?;
        write!(text, ": {place}")?;
        text_to(text, key)?;
        text.push_str(": no one reads this field.")?;
        let names = keys_of(self.alloc, self.keys, table)?;
        if let Some(name) = nearest(self.alloc, key.as_bytes(), &names)? {
            write!(text, " Did you mean {name}?")?;
        }
        text.push_str("\n")
    }

    /// Appends a line for each field of a table that nobody reads.
    fn fields_to(&self, text: &mut String, table: &str, place: &str, fields: &Table) -> Told {
        for (key, _value) in fields.iter() {
            if key.is_empty() || known_at(self.keys, table, key).is_none() {
                self.line_to(text, table, place, key)?;
            }
        }
        Ok(())
    }

    /// The same for each table of an array, whose heading stands before its number.
    fn items_to(&self, text: &mut String, table: &str, heading: &str, items: &[Value]) -> Told {
        for (place, item) in items.iter().enumerate() {
            if let Value::Table(fields) = item {
                let number = place + 1;
                let place = format!(in self.alloc; "{heading} {number}, ")?;
                self.fields_to(text, table, &place, fields)?;
            }
        }
        Ok(())
    }

    /// The same for the key and the attributes of each relation.
    fn attributes_to(&self, text: &mut String, relations: &[Value]) -> Told {
        for (place, relation) in relations.iter().enumerate() {
            if let Value::Table(fields) = relation {
                let number = place + 1;
                let key = format!(in self.alloc; "[[relation]] {number}, key")?;
                self.items_to(text, "key", &key, items_of(fields.get("key")))?;
                let other = format!(in self.alloc; "[[relation]] {number}, attribute")?;
                self.items_to(text, "attribute", &other, items_of(fields.get("attribute")))?;
            }
        }
        Ok(())
    }
}

/// A line for each field of a document that nobody reads, whose tables have these names. Where they are relations, also
/// of their parts.
fn ignored(search: Search, tables: &[&str], bytes: &[u8]) -> Result<String, AllocError> {
    let mut text = String::new(search.alloc);
    let document = match toml::table_from_slice(search.alloc, bytes) {
        Ok(document) => document,
        Err(fault) if fault.is_memory() => return Err(AllocError),
        Err(_) => return Ok(text),
    };
    search.fields_to(&mut text, "", "", &document)?;
    for table in tables {
        let heading = format!(in search.alloc; "[[{table}]]")?;
        let items = items_of(document.get(*table));
        search.items_to(&mut text, table, &heading, items)?;
        if *table == "relation" {
            search.attributes_to(&mut text, items)?;
        }
    }
    Ok(text)
}

/// A line for each field of a policy that nobody reads, with the nearest key that is read; no text where there is none,
/// and of bytes
/// that are no document.
pub fn ignored_in_policy(alloc: Global, path: &str, bytes: &[u8]) -> Result<String, AllocError> {
    let keys: &[Known] = &POLICY;
    ignored(
        Search { alloc, path, keys },
        &["label", "user", "matrix"],
        bytes,
    )
}

/// The same of schemes.
pub fn ignored_in_schemes(alloc: Global, path: &str, bytes: &[u8]) -> Result<String, AllocError> {
    let keys: &[Known] = &SCHEMES;
    ignored(Search { alloc, path, keys }, &["relation"], bytes)
}
