//! Tuples in one line each, as `Enterprise U | Spying S | - U`: the key, its class, and elements with their classes.
ghost use Rattle.std.specs.Prelude.{◌<◌, length, IfSome};
ghost use Rattle.std.specs.List.{AllByRecursion};
ghost use Rattle.mls_scheme.specs.Tuple.{HasClassesBelow};

use crate::show::push_word;
use case_tables::Told;
use mls_lattice::{Items, LabelNo, Policy, Str};
use mls_scheme::{Element, Tuple, Value};
use std::alloc::Global;

/// The label of a name.
pub fn label_of(policy: &Policy, name: &str) -> Option<LabelNo>
    ensures { IfSome result (λ l. l < length policy.now.labels) }
{
    policy.label(name)
}

/// A number where the word is one, and else a text.
fn value_of(alloc: Global, word: &str) -> Option<Value> {
    match word.parse::<i64>() {
        Ok(number) => Some(Value::Int(number)),
        Err(_) => Some(Value::Text(Str::copy_of(alloc, word).ok()?)),
    }
}

/// A word and a class: `-` is null.
fn element_of(alloc: Global, policy: &Policy, part: &str) -> Option<Element>
    ensures { IfSome result (λ e. e.class < length policy.now.labels) }
{
    let (word, name) = part.trim().split_once(' ')?;
    let class = label_of(policy, name)?;
    if word == "-" {
        return Some(Element { value: None, class });
    }
    let value = Some(value_of(alloc, word)?);
    Some(Element { value, class })
}

fn elements_of(alloc: Global, policy: &Policy, parts: &str) -> Option<Vec<Element>>
    ensures { IfSome result (λ v. AllByRecursion (λ e. e.class < length policy.now.labels) v.items) }
{
    let mut elements = Vec::new(alloc);
    for part in parts.split('|') {
        if !part.is_empty() {
            elements.push(element_of(alloc, policy, part)?).ok()?;
        }
    }
    Some(elements)
}

/// The values of a key, which commas separate.
fn key_of(alloc: Global, part: &str) -> Option<Items<Value>> {
    let mut key = Vec::new(alloc);
    for word in part.split(',') {
        key.push(value_of(alloc, word)?).ok()?;
    }
    Some(Items::from(key))
}

fn tuple_of(alloc: Global, policy: &Policy, line: &str) -> Option<Tuple>
    ensures { IfSome result (HasClassesBelow (length policy.now.labels)) }
{
    let (front, parts) = line.split_once('|').unwrap_or((line, ""));
    let (key, name) = front.trim().split_once(' ')?;
    let key_class = label_of(policy, name)?;
    let key = key_of(alloc, key)?;
    let elements = elements_of(alloc, policy, parts)?;
    Some(Tuple {
        key,
        key_class,
        elements: Items::from(elements),
    })
}

/// The tuples of lines, where each line is one.
pub fn tuples_of(alloc: Global, policy: &Policy, lines: &[&str]) -> Option<Vec<Tuple>>
    ensures { IfSome result (λ v. AllByRecursion (HasClassesBelow (length policy.now.labels)) v.items) }
{
    let mut tuples = Vec::new(alloc);
    for line in lines {
        tuples.push(tuple_of(alloc, policy, line)?).ok()?;
    }
    Some(tuples)
}

/// The name of a label.
pub fn name_of(policy: &Policy, label: LabelNo) -> &str {
    if label.index() < policy.label_count() {
        policy.name(label)
    } else {
        "?"
    }
}

/// Adds a value: digits, or a text as it is.
pub fn push_value(value: &Value, out: &mut Told) {
    match value {
        Value::Int(number) => out.push_number(*number),
        Value::Text(text) => out.push(text.as_str()),
    }
}

fn push_key(key: &[Value], out: &mut Told) {
    for (place, value) in key.iter().enumerate() {
        if place > 0 {
            out.push(",");
        }
        push_value(value, out);
    }
}

fn push_element(policy: &Policy, element: &Element, out: &mut Told) {
    out.push(" | ");
    match &element.value {
        Some(value) => push_value(value, out),
        None => out.push("-"),
    }
    push_word(name_of(policy, element.class), out);
}

/// Adds a tuple as tables have it, in a line of its own.
fn push_tuple(policy: &Policy, tuple: &Tuple, out: &mut Told) {
    out.push("  ");
    push_key(&tuple.key, out);
    push_word(name_of(policy, tuple.key_class), out);
    for element in tuple.elements.as_slice() {
        push_element(policy, element, out);
    }
    out.push("\n");
}

/// Adds a line for each tuple.
pub fn push_tuples(policy: &Policy, tuples: &[Tuple], out: &mut Told) {
    for tuple in tuples {
        push_tuple(policy, tuple, out);
    }
}
