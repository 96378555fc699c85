//! What the numbers and bytes of a row of a store stand for. What nothing stands for is written as it is.
use crate::columns::Told;
use mls_lattice::{LabelNo, Policy};
use mls_scheme::{KeyFault, RelNo, Scheme, Schemes, Value, key_of};
use std::alloc::{AllocError, Global};

/// The name of a label; none of one that is not declared.
pub fn label_name(policy: &Policy, label: LabelNo) -> &str {
    if label.index() < policy.label_count() {
        policy.name(label)
    } else {
        ""
    }
}

/// A policy and schemes, which name what a store has as numbers.
#[derive(Clone, Copy)]
pub struct Names<'a> {
    pub alloc: Global,
    pub policy: &'a Policy,
    pub schemes: &'a Schemes,
}

impl<'a> Names<'a> {
    /// The scheme of a relation, if it has one.
    pub fn scheme(&self, rel: u32) -> Option<&'a Scheme> {
        self.schemes.use_invariant();
        if (rel as usize) < self.schemes.count() {
            Some(self.schemes.scheme(RelNo::new(rel as u8)))
        } else {
            None
        }
    }

    fn label_to(&self, text: &mut String, label: u32) -> Told {
        if (label as usize) < self.policy.label_count() {
            text.push_str(self.policy.name(LabelNo::new(label as u8)))
        } else {
            write!(text, "{label}")
        }
    }

    /// Appends which attribute outside the key it is.
    pub fn attribute_to(&self, text: &mut String, rel: u32, attr: u32) -> Told {
        match self.scheme(rel) {
            Some(scheme) if (attr as usize) < scheme.others().len() => {
                let name = scheme.others().name(attr as usize);
                write!(text, ", attribute {name}")
            }
            _ => write!(text, ", attribute {attr}"),
        }
    }

    /// Appends which row of a table it is.
    pub fn row_to(
        &self,
        text: &mut String,
        table: &str,
        rel: u32,
        key: &str,
        key_class: u32,
        label: u32,
    ) -> Told {
        match self.scheme(rel) {
            Some(scheme) => {
                let name = scheme.name();
                write!(text, "  Table {table}: relation {name}")?;
            }
            None => write!(text, "  Table {table}: relation {rel}")?,
        }
        write!(text, ", key {key}, key class ")?;
        self.label_to(text, key_class)?;
        text.push_str(", label ")?;
        self.label_to(text, label)
    }

    /// The values of a key, in parentheses.
    pub fn values_of(&self, key: &[Value]) -> Result<String, AllocError> {
        let mut text = String::new(self.alloc);
        let mut before = "(";
        for value in key {
            text.push_str(before)?;
            match value {
                Value::Int(number) => write!(text, "{number}")?,
                Value::Text(inside) => quoted_to(&mut text, inside.as_str())?,
            }
            before = ", ";
        }
        text.push(')')?;
        Ok(text)
    }

    /// The same of a key that has these bytes, or the bytes as a blob of SQL.
    pub fn key_of(&self, bytes: &[u8]) -> Result<String, AllocError> {
        match key_of(self.alloc, bytes) {
            Ok(key) => self.values_of(&key),
            Err(KeyFault::Memory) => Err(AllocError),
            Err(_) => self.blob_of(bytes),
        }
    }

    fn blob_of(&self, bytes: &[u8]) -> Result<String, AllocError> {
        let mut text = String::from_str(self.alloc, "x'")?;
        for byte in bytes {
            write!(text, "{byte:02x}")?;
        }
        text.push('\'')?;
        Ok(text)
    }
}

/// Appends a text between quotes, on one line.
fn quoted_to(text: &mut String, inside: &str) -> Told {
    text.push('"')?;
    for c in inside.chars() {
        match c {
            '\n' => text.push_str("\\x0a")?,
            '"' | '\\' => write!(text, "\\{c}")?,
            _ => text.push(c)?,
        }
    }
    text.push('"')
}
