//! The nearest of some names, where one is used that nothing declares.
use crate::excerpts::{behind, from_line, token_of};
use crate::shown::text_to;
use mls_lattice::{LabelNo, Policy, Str};
use mls_scheme::{Attributes, RelNo, Scheme, Schemes};
use std::alloc::{AllocError, Global};
use strsim::osa_distance;

/// No name has more bytes.
const LONGEST: usize = 32;

// ---- names

/// Adds a copy of a name.
pub(crate) fn push_name(alloc: Global, names: &mut Vec<Str>, name: &str) -> Result<(), AllocError> {
    names.push(Str::copy_of(alloc, name)?)?;
    Ok(())
}

/// The names of the labels, in the order of the policy.
pub(crate) fn label_names(alloc: Global, policy: &Policy) -> Result<Vec<Str>, AllocError> {
    let mut names = Vec::new(alloc);
    for place in 0..policy.label_count() {
        push_name(alloc, &mut names, policy.name(LabelNo::new(place as u8)))?;
    }
    Ok(names)
}

fn push_attributes(
    alloc: Global,
    names: &mut Vec<Str>,
    attributes: &Attributes,
) -> Result<(), AllocError> {
    for place in 0..attributes.len() {
        push_name(alloc, names, attributes.name(place))?;
    }
    Ok(())
}

fn push_relation(alloc: Global, names: &mut Vec<Str>, scheme: &Scheme) -> Result<(), AllocError> {
    push_name(alloc, names, scheme.name())?;
    push_attributes(alloc, names, scheme.keys())?;
    push_attributes(alloc, names, scheme.others())
}

/// The names that scripts and transactions may use: of labels, relations and attributes, in the order of the files.
pub fn declared_names(
    alloc: Global,
    policy: &Policy,
    schemes: &Schemes,
) -> Result<Vec<Str>, AllocError> {
    let mut names = label_names(alloc, policy)?;
    schemes.use_invariant();
    for place in 0..schemes.count() {
        push_relation(alloc, &mut names, schemes.scheme(RelNo::new(place as u8)))?;
    }
    Ok(names)
}

// ---- the nearest one

/// The nearest of some names, whatever the case of letters, the first where several are as near. A near name differs in
/// a third of the
/// length of the given one at most, or in 1; two neighbours that are swapped are one difference.
pub(crate) fn nearest<'a>(
    alloc: Global,
    name: &[u8],
    names: &'a [Str],
) -> Result<Option<&'a str>, AllocError> {
    if name.len() > LONGEST + 1 {
        return Ok(None);
    }
    let name = String::from_utf8_lossy(alloc, name)?.to_ascii_lowercase(alloc)?;
    let mut found = None;
    let mut bound = name.len().max(3) / 3 + 1;
    for other in names {
        let folded = other.as_str().to_ascii_lowercase(alloc)?;
        let apart = osa_distance(alloc, &name, &folded)?;
        if apart < bound {
            found = Some(other.as_str());
            bound = apart;
        }
    }
    Ok(found)
}

/// A line that tells the nearest name; no text where none is near, or where the name itself is among them.
pub fn nearest_line(alloc: Global, name: &[u8], names: &[Str]) -> Result<String, AllocError> {
    let mut text = String::new(alloc);
    if names.iter().any(|other| other.as_str().as_bytes() == name) {
        return Ok(text);
    }
    if let Some(other) = nearest(alloc, name, names)? {
        text.push_str("  The nearest declared name is `")?;
        text_to(&mut text, other)?;
        text.push_str("`.\n")?;
    }
    Ok(text)
}

/// What stands at a place of a text: letters, digits and `_`, or one character. Columns count bytes from 1.
pub fn token_at(bytes: &[u8], line: usize, column: usize) -> &[u8] {
    token_of(behind(from_line(bytes, line), column.saturating_sub(1)))
}
