//! What is told to people of the releases of a transaction.
ghost use Rattle.std.specs.Prelude.{◌≡◌, ◌<◌, option_map, string_bytes, IfOk};
ghost use Rattle.mls_labeller.specs.Bits.{HasBits, bits_text, SaysBits, SaysRelease, SaysWhole};

use crate::range::Range;
use crate::told::{Releases, Told};
use mls_scheme::{Kind, Value};
use mls_tokens::push_quoted;
use std::alloc::{AllocError, Global};

/// A value in words, a text between quotes.
fn value_of(alloc: Global, value: &Value) -> Result<String, AllocError> {
    match value {
        Value::Int(number) => format!(in alloc; "{number}"),
        Value::Text(words) => {
            let mut quoted = Vec::new(alloc);
            push_quoted(&mut quoted, words.as_str())?;
            String::from_utf8_lossy(alloc, &quoted)
        }
    }
}

/// The values of a range in words: one by one in their order, where they are few, and null as the last.
fn parts_of(alloc: Global, range: &Range, kind: Kind) -> Result<Vec<String>, AllocError> {
    let mut parts = Vec::new(alloc);
    if let Some(values) = &range.listed {
        let mut sorted: Vec<&Value> = values.iter().collect(alloc)?;
        sorted.sort()?;
        for value in sorted.iter() {
            parts.push(value_of(alloc, value)?)?;
        }
    } else if let Some(bounds) = range.bounds {
        if bounds.count() > 2 {
            let (low, high) = (bounds.low, bounds.high);
            parts.push(format!(in alloc; "an integer from {low} to {high}")?)?;
        } else {
            for number in bounds.low..=bounds.high {
                parts.push(format!(in alloc; "{number}")?)?;
            }
        }
    } else {
        let number = kind == Kind::Int;
        let any = if number { "any integer" } else { "any text" };
        parts.push(String::from_str(alloc, any)?)?;
    }
    if range.null {
        parts.push(String::from_str(alloc, "null")?)?;
    }
    Ok(parts)
}

/// How many bits tell so many values apart.
fn bits_of(count: u64) -> u32
    ensures { HasBits count result }
{
    64u32.saturating_sub(count.saturating_sub(1).leading_zeros())
}

/// How many bits so many values are, in words.
#[tactic(auto, unfolding(crate::specs::Bits::bits_text))]
fn bits_words(alloc: Global, bits: u32) -> Result<String, AllocError>
    ensures { IfOk result (λ s. string_bytes s ≡ bits_text bits) }
{
    match bits {
        0 => String::from_str(alloc, "nothing"),
        1 => String::from_str(alloc, "one bit"),
        _ => format!(in alloc; "{bits} bits"),
    }
}

/// The same of so many values.
fn says(alloc: Global, count: u64) -> Result<String, AllocError>
    ensures { IfOk result (λ s. SaysBits count (string_bytes s)) }
{
    bits_words(alloc, bits_of(count))
}

/// The values of a release into a variable of a kind, in words.
fn values_of(alloc: Global, told: &Told, kind: Kind) -> Result<String, AllocError> {
    let mut text = String::new(alloc);
    let parts = parts_of(alloc, &told.range, kind)?;
    for (place, part) in parts.iter().enumerate() {
        let last = place + 1 == parts.len();
        if place > 0 {
            text.push_str(if last { " or " } else { ", " })?;
        }
        text.push_str(part)?;
    }
    Ok(text)
}

/// What is told of a release into a variable of a kind: its values, and how much they tell by one call or, in a loop,
/// each time. Of a
/// range too large to be counted, that is left out.
pub fn words(alloc: Global, told: &Told, kind: Kind) -> Result<String, AllocError>
    ensures { IfOk result (λ s. SaysRelease told.now (string_bytes s)) }
{
    let mut text = values_of(alloc, told, kind)?;
    let count = told.range.count();
    if count < u64::MAX {
        let says = says(alloc, count)?;
        let end = if told.looped { ")" } else { " a call)" };
        write!(text, " ({says}{end}")?;
    }
    Ok(text)
}

/// How much a call of a transaction tells as a whole, where it has several releases and none in a loop.
pub fn whole(alloc: Global, releases: &Releases) -> Result<Option<String>, AllocError>
    ensures { IfOk result (λ o. SaysWhole releases.now (option_map string_bytes o)) }
{
    if releases.told.len() < 2 || releases.lists == u64::MAX {
        return Ok(None);
    }
    let says = says(alloc, releases.lists)?;
    Ok(Some(format!(in alloc; "{says} a call at most")?))
}
