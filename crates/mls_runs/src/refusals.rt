//! Why a write is refused, and what to do.
use crate::explaining::Listener;
use crate::words::{
    attribute_name, first_outside, is_outside, key_to, label_name, relation_name, relation_of,
};
use mls_lattice::LabelNo;
use mls_scheme::{Attributes, RelNo, Value, Write};
use mls_translang::{Command, One};
use mls_updates::Outcome;
use std::alloc::AllocError;

const UNEXPECTED: &str =
    "  There are more rows, or fewer, than were expected. Look at them anew.\n";

const UNDONE: &str = "  Nothing of the batch is done.\n";

/// What a write is about: a tuple, by its key, key class and class, and the attributes that get other values.
#[derive(Drop)]
struct Target<'a> {
    relation: RelNo,
    key: &'a [Option<Value>],
    key_class: LabelNo,
    class: LabelNo,
    sets: &'a [(usize, Option<Value>)],
}

/// The class of the tuple that a write finds, and the attributes that get other values.
fn changed<'a>(
    level: LabelNo,
    write: &'a Write<Option<Value>>,
) -> (LabelNo, &'a [(usize, Option<Value>)]) {
    match write {
        Write::Update { from, sets, .. } => (*from, sets),
        _ => (level, &[]),
    }
}

/// What a write of a session at a level is about.
fn target_of<'a>(level: LabelNo, relation: RelNo, write: &'a Write<Option<Value>>) -> Target<'a> {
    let key_class = write.key_class(level);
    let (class, sets) = changed(level, write);
    Target {
        relation,
        key: write.key(),
        key_class,
        class,
        sets,
    }
}

/// Why a write is refused.
pub(crate) fn refusal_text(
    to: &Listener<'_>,
    command: &Command,
    outcome: Outcome,
) -> Result<String, AllocError> {
    let mut text = String::new(to.alloc);
    if let Command::Write { relation, write } = command {
        let target = target_of(to.session.level, *relation, write);
        refusal_to(&mut text, to, &target, outcome)?;
    }
    Ok(text)
}

/// The command of a number, from 1, of a batch.
fn one_of(command: &Command, number: usize) -> Option<&One> {
    match command {
        Command::All(batch) => batch.get(number.saturating_sub(1)),
        _ => None,
    }
}

/// Why a command of a batch is refused, by its number.
pub(crate) fn undone_text(
    to: &Listener<'_>,
    command: &Command,
    number: usize,
    outcome: Outcome,
) -> Result<String, AllocError> {
    let mut text = String::new(to.alloc);
    match one_of(command, number) {
        Some(One::Write { relation, write }) => {
            let target = target_of(to.session.level, *relation, write);
            refusal_to(&mut text, to, &target, outcome)?;
        }
        _ => text.push_str(UNEXPECTED)?,
    }
    text.push_str(UNDONE)?;
    Ok(text)
}

fn refusal_to(
    text: &mut String,
    to: &Listener<'_>,
    target: &Target<'_>,
    outcome: Outcome,
) -> Result<(), AllocError> {
    match outcome {
        Outcome::Done => Ok(()),
        Outcome::KeyNull => key_null_to(text, to, target),
        Outcome::Duplicate => duplicate_to(text, to, target),
        Outcome::NoTuple => no_tuple_to(text, to, target),
        Outcome::NullAboveKey => null_to(text, to, target),
        Outcome::Inherited => inherited_to(text, to, target),
        Outcome::OutOfInterval => interval_to(text, to, target),
        Outcome::AlreadyDerived => derived_to(text, to, target),
        Outcome::Unexpected => text.push_str(UNEXPECTED),
    }
}

/// The first attribute of a key that is null.
fn null_in_key<'a>(attributes: &'a Attributes, key: &[Option<Value>]) -> &'a str {
    for (place, value) in key.iter().enumerate() {
        if value.is_none() {
            return attribute_name(attributes, place);
        }
    }
    ""
}

/// The first attribute that is set to null.
fn null_in_sets<'a>(attributes: &'a Attributes, sets: &[(usize, Option<Value>)]) -> &'a str {
    for set in sets {
        if set.1.is_none() {
            return attribute_name(attributes, set.0);
        }
    }
    ""
}

fn key_null_to(
    text: &mut String,
    to: &Listener<'_>,
    target: &Target<'_>,
) -> Result<(), AllocError> {
    let Some(scheme) = relation_of(to.schemes, target.relation) else {
        return Ok(());
    };
    let (relation, attribute) = (scheme.name(), null_in_key(scheme.keys(), target.key));
    writeln!(
        text,
        "  {attribute} is part of the key of {relation}, and is null here."
    )?;
    text.push_str("  Give each key attribute a value.\n")
}

/// Appends that there is a tuple, or none, of a key.
fn tuple_to(
    text: &mut String,
    to: &Listener<'_>,
    target: &Target<'_>,
    there: &str,
) -> Result<(), AllocError> {
    let relation = relation_name(to.schemes, target.relation);
    write!(text, "  {relation} has {there} of the key ")?;
    key_to(text, target.key)
}

fn duplicate_to(
    text: &mut String,
    to: &Listener<'_>,
    target: &Target<'_>,
) -> Result<(), AllocError> {
    let level = to.session.label.as_str();
    tuple_to(text, to, target, "a tuple")?;
    writeln!(text, " of class {level} already.")?;
    text.push_str("  Update it, or insert under another key.\n")
}

fn derived_to(text: &mut String, to: &Listener<'_>, target: &Target<'_>) -> Result<(), AllocError> {
    let level = to.session.label.as_str();
    let key_class = label_name(to.policy, target.key_class);
    tuple_to(text, to, target, "a tuple")?;
    writeln!(
        text,
        " with key class {key_class} and class {level} already."
    )?;
    writeln!(text, "  Update that one, with `from {level}`.")
}

fn no_tuple_to(
    text: &mut String,
    to: &Listener<'_>,
    target: &Target<'_>,
) -> Result<(), AllocError> {
    let relation = relation_name(to.schemes, target.relation);
    let level = to.session.label.as_str();
    let key_class = label_name(to.policy, target.key_class);
    let class = label_name(to.policy, target.class);
    tuple_to(text, to, target, "no tuple")?;
    writeln!(text, " with key class {key_class} and class {class}.")?;
    writeln!(
        text,
        "  `view {relation} at {level}` shows both: the key class beside the key, the class at the end of the row."
    )?;
    if target.sets.is_empty() {
        writeln!(
            text,
            "  A delete takes the tuple of the session's own class, {level}."
        )?;
    }
    Ok(())
}

fn null_to(text: &mut String, to: &Listener<'_>, target: &Target<'_>) -> Result<(), AllocError> {
    let Some(scheme) = relation_of(to.schemes, target.relation) else {
        return Ok(());
    };
    let attribute = null_in_sets(scheme.others(), target.sets);
    let level = to.session.label.as_str();
    let key_class = label_name(to.policy, target.key_class);
    writeln!(
        text,
        "  {attribute} may not be null here: the tuple's class {level} is not its key class {key_class}."
    )?;
    text.push_str("  Give it a value.\n")
}

fn inherited_to(
    text: &mut String,
    to: &Listener<'_>,
    target: &Target<'_>,
) -> Result<(), AllocError> {
    let relation = relation_name(to.schemes, target.relation);
    let level = to.session.label.as_str();
    writeln!(
        text,
        "  A value that is set belongs to a lower tuple: in `view {relation} at {level}` its class is not {level}."
    )?;
    text.push_str("  Change it in a session at that class.\n")?;
    writeln!(
        text,
        "  Or delete the tuple of class {level}, and update from the lower one with this value too."
    )
}

/// The first attribute that is set at a class outside its interval.
fn first_set_outside(
    to: &Listener<'_>,
    attributes: &Attributes,
    sets: &[(usize, Option<Value>)],
) -> Option<usize> {
    for set in sets {
        if is_outside(to.policy, to.session.level, attributes, set.0) {
            return Some(set.0);
        }
    }
    None
}

/// Appends the interval of an attribute, and the level of the session, which lies outside it.
fn outside_to(
    text: &mut String,
    to: &Listener<'_>,
    attributes: &Attributes,
    place: usize,
) -> Result<(), AllocError> {
    if place >= attributes.len() {
        return Ok(());
    }
    let (name, column) = (attributes.name(place), attributes.get(place));
    let low = label_name(to.policy, column.low);
    let high = label_name(to.policy, column.high);
    let level = to.session.label.as_str();
    writeln!(
        text,
        "  {name} has classes from {low} to {high}, and the session is at {level}."
    )?;
    text.push_str("  Write in a session at a label between them.\n")
}

fn interval_to(
    text: &mut String,
    to: &Listener<'_>,
    target: &Target<'_>,
) -> Result<(), AllocError> {
    let Some(scheme) = relation_of(to.schemes, target.relation) else {
        return Ok(());
    };
    let others = scheme.others();
    if !target.sets.is_empty() {
        return match first_set_outside(to, others, target.sets) {
            Some(place) => outside_to(text, to, others, place),
            None => Ok(()),
        };
    }
    match first_outside(to.policy, to.session.level, scheme.keys()) {
        Some(place) => outside_to(text, to, scheme.keys(), place),
        None => match first_outside(to.policy, to.session.level, others) {
            Some(place) => outside_to(text, to, others, place),
            None => Ok(()),
        },
    }
}
