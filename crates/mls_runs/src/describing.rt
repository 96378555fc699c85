//! What is told where a line asks how a command is typed, or what is declared.
//! It leaves out what the session does not see. It advises, and is no contract.
use crate::explaining::{Listener, MORE_HELP};
use crate::help::{HELP, TOPICS};
use crate::words::{attribute_name, is_dominated, label_name, relation_of};
use bitflags::Flags;
use mls_lattice::{LabelNo, Modes, Policy, is_name_byte};
use mls_scheme::{Attributes, Column, RelNo, Scheme};
use mls_sessions::Stored;
use mls_translang::Tx;
use std::alloc::AllocError;

const NO_TOPIC: &str =
    "  No command is called so. There are view, count, dump, insert, update, delete,
  all, call, audit, describe, help, close, quit and exit.
";

const NO_OBJECT: &str =
    "  No relation that you see, and no transaction that you may call, is called so. `describe` shows them all.
";

/// What is told of a line that asks for more.
pub(crate) fn asked_text(to: &Listener<'_>, line: &[u8]) -> Result<String, AllocError> {
    if let Some(words) = line.strip_prefix(b"help ") {
        return help_text(to, name_in(words));
    }
    match line.strip_prefix(b"describe ") {
        Some(words) => described(to, name_in(words)),
        None => description(to),
    }
}

// ---- help with a command

fn behind_blanks(words: &[u8]) -> &[u8] {
    let blanks = words.iter().take_while(|byte| **byte == b' ').count();
    words.get(blanks..).unwrap_or(&[])
}

fn first_word(words: &[u8]) -> &[u8] {
    let count = words.iter().take_while(|byte| is_name_byte(**byte)).count();
    words.get(..count).unwrap_or(&[])
}

/// The first name among some words.
fn name_in(words: &[u8]) -> &[u8] {
    first_word(behind_blanks(words))
}

/// How the command of a name is typed, or, without a name, which commands there are.
fn help_text(to: &Listener<'_>, name: &[u8]) -> Result<String, AllocError> {
    let mut text = String::new(to.alloc);
    if name.is_empty() {
        text.push_str(HELP)?;
        text.push_str(MORE_HELP)?;
    } else {
        text.push_str(topic_of(name))?;
    }
    Ok(text)
}

/// How the command of a name is typed.
fn topic_of(name: &[u8]) -> &'static str {
    match TOPICS.iter().find(|topic| topic.0.as_bytes() == name) {
        Some(topic) => topic.1,
        None => NO_TOPIC,
    }
}

// ---- what is declared, as far as the session sees it

fn description(to: &Listener<'_>) -> Result<String, AllocError> {
    let mut text = String::new(to.alloc);
    relations_to(&mut text, to)?;
    transactions_to(&mut text, to)?;
    rights_to(&mut text, to)?;
    labels_to(&mut text, to)?;
    Ok(text)
}

/// The relation or the transaction of a name, or, without one, all that is declared.
fn described(to: &Listener<'_>, name: &[u8]) -> Result<String, AllocError> {
    if name.is_empty() {
        return description(to);
    }
    let mut text = String::new(to.alloc);
    relation_named_to(&mut text, to, name)?;
    transaction_named_to(&mut text, to, name)?;
    if text.as_bytes().is_empty() {
        text.push_str(NO_OBJECT)?;
    }
    Ok(text)
}

/// Appends a word, and blanks up to a width.
fn padded_to(text: &mut String, word: &str, width: usize) -> Result<(), AllocError> {
    text.push_str(word)?;
    for _ in 0..width.saturating_sub(word.len()) {
        text.push_str(" ")?;
    }
    Ok(())
}

/// Whether the session sees a label.
fn is_seen(to: &Listener<'_>, label: LabelNo) -> bool {
    is_dominated(to.policy, label, to.session.level)
}

/// What is said of an attribute, if the session sees it: its lowest class.
fn seen_column(to: &Listener<'_>, attributes: &Attributes, place: usize) -> Option<Column> {
    if place >= attributes.len() {
        return None;
    }
    let column = *attributes.get(place);
    if is_seen(to, column.low) {
        Some(column)
    } else {
        None
    }
}

/// Whether the session sees a relation: each attribute of its key.
fn is_shown(to: &Listener<'_>, scheme: &Scheme) -> bool {
    let keys = scheme.keys();
    for place in 0..keys.len() {
        if seen_column(to, keys, place).is_none() {
            return false;
        }
    }
    true
}

/// The length of the longest name of some attributes that the session sees, or another length that is greater.
fn width_of(to: &Listener<'_>, attributes: &Attributes, least: usize) -> usize {
    let mut width = least;
    for place in 0..attributes.len() {
        if seen_column(to, attributes, place).is_some() {
            width = width.max(attribute_name(attributes, place).len());
        }
    }
    width
}

/// Appends the classes of an attribute, as far as the session sees them.
fn classes_to(
    text: &mut String,
    to: &Listener<'_>,
    low: LabelNo,
    high: LabelNo,
) -> Result<(), AllocError> {
    let (first, last) = (label_name(to.policy, low), label_name(to.policy, high));
    if low == high {
        writeln!(text, "at {first}")
    } else if is_seen(to, high) {
        writeln!(text, "from {first} to {last}")
    } else {
        writeln!(text, "from {first}")
    }
}

/// Appends an attribute, if the session sees it.
fn attribute_to(
    text: &mut String,
    to: &Listener<'_>,
    attributes: &Attributes,
    place: usize,
    front: &str,
    width: usize,
) -> Result<(), AllocError> {
    let Some(column) = seen_column(to, attributes, place) else {
        return Ok(());
    };
    text.push_str(front)?;
    padded_to(text, attribute_name(attributes, place), width)?;
    text.push_str("  ")?;
    padded_to(text, column.kind.word(), 4)?;
    text.push_str("  ")?;
    classes_to(text, to, column.low, column.high)
}

fn attributes_to(
    text: &mut String,
    to: &Listener<'_>,
    attributes: &Attributes,
    front: &str,
    width: usize,
) -> Result<(), AllocError> {
    for place in 0..attributes.len() {
        attribute_to(text, to, attributes, place, front, width)?;
    }
    Ok(())
}

fn relation_to(text: &mut String, to: &Listener<'_>, scheme: &Scheme) -> Result<(), AllocError> {
    if !is_shown(to, scheme) {
        return Ok(());
    }
    let (keys, others) = (scheme.keys(), scheme.others());
    let width = width_of(to, others, width_of(to, keys, 0));
    let name = scheme.name();
    writeln!(text, "  {name}")?;
    attributes_to(text, to, keys, "    key  ", width)?;
    attributes_to(text, to, others, "         ", width)
}

fn relations_to(text: &mut String, to: &Listener<'_>) -> Result<(), AllocError> {
    to.schemes.use_invariant();
    for place in 0..to.schemes.count() {
        if let Some(scheme) = relation_of(to.schemes, RelNo::new(place as u8)) {
            relation_to(text, to, scheme)?;
        }
    }
    Ok(())
}

/// Appends the relation of a name, if the session sees it.
fn relation_named_to(text: &mut String, to: &Listener<'_>, name: &[u8]) -> Result<(), AllocError> {
    to.schemes.use_invariant();
    for place in 0..to.schemes.count() {
        match relation_of(to.schemes, RelNo::new(place as u8)) {
            Some(scheme) if scheme.name().as_bytes() == name => relation_to(text, to, scheme)?,
            _ => {}
        }
    }
    Ok(())
}

// ---- transactions

/// Whether the user may call a transaction in some session whose label this one sees.
fn may_call(to: &Listener<'_>, tx: &Tx) -> bool {
    match to.policy.user(to.session.user.as_str()) {
        Some(user) => {
            is_seen(to, tx.lo()) && to.policy.modes(user, tx.name()).contains(Modes::EXECUTE)
        }
        None => false,
    }
}

/// Appends a transaction: its parameters, the label at which it runs, and whether it has no certificate.
fn transaction_to(text: &mut String, to: &Listener<'_>, stored: &Stored) -> Result<(), AllocError> {
    let tx = stored.tx();
    let params = tx.params();
    text.push_str("    ")?;
    text.push_str(tx.name())?;
    text.push_str(" (")?;
    for place in 0..params.len() {
        if place > 0 {
            text.push_str(", ")?;
        }
        text.push_str(params.name(place))?;
        text.push_str(" ")?;
        text.push_str(params.get(place).kind.word())?;
    }
    text.push_str(")  at ")?;
    text.push_str(label_name(to.policy, tx.lo()))?;
    match stored {
        Stored::Certified(_) => text.push_str("\n"),
        Stored::Plain(_) => text.push_str(", without a certificate that holds\n"),
    }
}

/// Appends the transactions that the user may call.
fn transactions_to(text: &mut String, to: &Listener<'_>) -> Result<(), AllocError> {
    let mut front = "  Transactions\n";
    for stored in to.stored {
        if may_call(to, stored.tx()) {
            text.push_str(front)?;
            transaction_to(text, to, stored)?;
            front = "";
        }
    }
    Ok(())
}

/// Appends the transaction of a name, if the user may call it.
fn transaction_named_to(
    text: &mut String,
    to: &Listener<'_>,
    name: &[u8],
) -> Result<(), AllocError> {
    for stored in to.stored {
        let tx = stored.tx();
        if tx.name().as_bytes() == name && may_call(to, tx) {
            transaction_to(text, to, stored)?;
        }
    }
    Ok(())
}

// ---- rights and labels

/// Whether an object is no relation that the session does not see.
fn is_told(to: &Listener<'_>, object: &str) -> bool {
    let Some(relation) = to.schemes.relation(object) else {
        return true;
    };
    match relation_of(to.schemes, relation) {
        Some(scheme) => is_shown(to, scheme),
        None => true,
    }
}

/// Whether no right before one is on an object.
fn is_first(policy: &Policy, right: usize, object: &str) -> bool {
    for other in 0..policy.right_count() {
        if other < right && policy.object(other) == object {
            return false;
        }
    }
    true
}

fn mode_to(
    text: &mut String,
    modes: Modes,
    mode: Modes,
    word: &str,
    is_behind: bool,
) -> Result<bool, AllocError> {
    if !modes.contains(mode) {
        return Ok(is_behind);
    }
    text.push_str(if is_behind { ", " } else { "  " })?;
    text.push_str(word)?;
    Ok(true)
}

/// Appends the modes of a right.
fn modes_to(text: &mut String, modes: Modes) -> Result<(), AllocError> {
    let behind = mode_to(text, modes, Modes::READ, "read", false)?;
    let behind = mode_to(text, modes, Modes::APPEND, "append", behind)?;
    let behind = mode_to(text, modes, Modes::WRITE, "write", behind)?;
    let _behind = mode_to(text, modes, Modes::EXECUTE, "execute", behind)?;
    text.push_str("\n")
}

/// Appends the rights of the user.
fn rights_to(text: &mut String, to: &Listener<'_>) -> Result<(), AllocError> {
    let name = to.session.user.as_str();
    let Some(user) = to.policy.user(name) else {
        return Ok(());
    };
    writeln!(text, "  Rights of {name}")?;
    for right in 0..to.policy.right_count() {
        let object = to.policy.object(right);
        let modes = to.policy.modes(user, object);
        if !modes.is_empty() && is_told(to, object) && is_first(to.policy, right, object) {
            text.push_str("    ")?;
            text.push_str(object)?;
            modes_to(text, modes)?;
        }
    }
    Ok(())
}

/// Appends the labels that the session sees.
fn labels_to(text: &mut String, to: &Listener<'_>) -> Result<(), AllocError> {
    text.push_str("  Labels up to ")?;
    text.push_str(to.session.label.as_str())?;
    let mut front = ": ";
    for place in 0..to.policy.label_count() {
        let label = LabelNo::new(place as u8);
        if is_seen(to, label) {
            text.push_str(front)?;
            text.push_str(label_name(to.policy, label))?;
            front = ", ";
        }
    }
    text.push_str("\n")
}
