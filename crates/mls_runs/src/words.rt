//! What is told by its name: labels, relations, attributes and keys.
use mls_lattice::{LabelNo, Policy};
use mls_scheme::{Attributes, RelNo, Scheme, Schemes, Value};
use std::alloc::AllocError;

// ---- labels and users

pub(crate) fn label_name(policy: &Policy, label: LabelNo) -> &str {
    if label.index() < policy.label_count() {
        policy.name(label)
    } else {
        ""
    }
}

pub(crate) fn is_dominated(policy: &Policy, low: LabelNo, high: LabelNo) -> bool {
    let count = policy.label_count();
    if low.index() >= count || high.index() >= count {
        return false;
    }
    policy.dominates(high, low)
}

/// The first of some labels that a limit does not dominate.
pub(crate) fn first_beyond(policy: &Policy, limit: LabelNo, labels: &[LabelNo]) -> Option<LabelNo> {
    for label in labels {
        if !is_dominated(policy, *label, limit) {
            return Some(*label);
        }
    }
    None
}

/// Up to which label the user of a name may look.
pub(crate) fn clearance(policy: &Policy, user: &str) -> Option<LabelNo> {
    match policy.user(user) {
        Some(user) => Some(policy.clearance(user)),
        None => None,
    }
}

/// The interval in which the user of a name is trusted.
pub(crate) fn trusted(policy: &Policy, user: &str) -> Option<(LabelNo, LabelNo)> {
    match policy.user(user) {
        Some(user) => policy.trusted(user),
        None => None,
    }
}

// ---- relations and attributes

pub(crate) fn relation_of(schemes: &Schemes, relation: RelNo) -> Option<&Scheme> {
    if relation.index() < schemes.count() {
        Some(schemes.scheme(relation))
    } else {
        None
    }
}

pub(crate) fn relation_name(schemes: &Schemes, relation: RelNo) -> &str {
    match relation_of(schemes, relation) {
        Some(scheme) => scheme.name(),
        None => "",
    }
}

pub(crate) fn attribute_name(attributes: &Attributes, place: usize) -> &str {
    if place < attributes.len() {
        attributes.name(place)
    } else {
        ""
    }
}

/// Whether a class lies outside the interval of an attribute.
pub(crate) fn is_outside(
    policy: &Policy,
    class: LabelNo,
    attributes: &Attributes,
    place: usize,
) -> bool {
    if place >= attributes.len() {
        return false;
    }
    let column = attributes.get(place);
    !is_dominated(policy, column.low, class) || !is_dominated(policy, class, column.high)
}

/// The first attribute in whose interval a class does not lie.
pub(crate) fn first_outside(
    policy: &Policy,
    class: LabelNo,
    attributes: &Attributes,
) -> Option<usize> {
    for place in 0..attributes.len() {
        if is_outside(policy, class, attributes, place) {
            return Some(place);
        }
    }
    None
}

// ---- values

/// Whether a character is invisible, or turns a line round.
fn is_unseen(character: char) -> bool {
    match character {
        '\u{61c}' | '\u{feff}' => true,
        '\u{200b}'..='\u{200f}' | '\u{202a}'..='\u{202e}' | '\u{2060}'..='\u{2069}' => true,
        _ => false,
    }
}

/// Appends a character of a text between quotes. No control character is one of a screen, nor is one that is not seen
/// there.
fn char_to(text: &mut String, character: char) -> Result<(), AllocError> {
    match character {
        '"' | '\\' => {
            text.push('\\')?;
            text.push(character)
        }
        _ if character.is_control() => {
            let number = u32::from(character);
            write!(text, "\\x{number:02x}")
        }
        _ if is_unseen(character) => {
            let number = u32::from(character);
            let (high, low) = (number / 256, number % 256);
            write!(text, "\\u{high:02x}{low:02x}")
        }
        _ => text.push(character),
    }
}

fn quoted_to(text: &mut String, inside: &str) -> Result<(), AllocError> {
    text.push('"')?;
    for character in inside.chars() {
        char_to(text, character)?;
    }
    text.push('"')
}

fn value_to(text: &mut String, value: &Option<Value>) -> Result<(), AllocError> {
    match value {
        None => text.push_str("null"),
        Some(Value::Int(number)) => write!(text, "{number}"),
        Some(Value::Text(inside)) => quoted_to(text, inside.as_str()),
    }
}

/// Appends the values of a key, as they are typed.
pub(crate) fn key_to(text: &mut String, key: &[Option<Value>]) -> Result<(), AllocError> {
    let mut is_first = true;
    text.push_str("(")?;
    for value in key {
        if !is_first {
            text.push_str(", ")?;
        }
        value_to(text, value)?;
        is_first = false;
    }
    text.push(')')
}
