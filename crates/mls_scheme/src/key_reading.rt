//! Keys and values from bytes, which are read from left to right.
ghost use Rattle.std.specs.Prelude.{◌≡◌, ◌++◌, List, ℕ, [], length, drop, IfOk, Ok};
ghost use Rattle.std.specs.Int.{w32};
ghost use Rattle.mls_scheme.specs.declared.value.Value.{Value as SpecValue};
ghost use Rattle.mls_scheme.specs.Spelling.{value_spelling, key_spelling, HasSpelling, IsSpelledKey};
ghost use Rattle.mls_scheme.specs.KeyReading.{
  GivesKey,
  number_at,
  int_at,
  utf8_at,
  text_at,
  value_at,
  values_at,
  key_at,
};

use crate::key_fault::KeyFault;
use crate::value::Value;
use mls_lattice::Str;
use std::alloc::Global;

fn length_at(bytes: &[u8]) -> Result<(u32, &[u8]), KeyFault>
    ensures { GivesKey (λ x. (x.0, x.1.now)) result (number_at w32 bytes.now) }
{
    if bytes.len() < 4 {
        return Err(KeyFault::Short);
    }
    let (front, rest) = bytes.split_at(4);
    let number = u32::from_be_bytes([front[0], front[1], front[2], front[3]]);
    Ok((number, rest))
}

#[tactic(auto, unfolding(crate::specs::KeyReading::int_at))]
fn int_of(bytes: &[u8]) -> Result<(i64, &[u8]), KeyFault>
    ensures { GivesKey (λ x. (x.0, x.1.now)) result (int_at bytes.now) }
{
    if bytes.len() < 8 {
        return Err(KeyFault::Short);
    }
    let (front, rest) = bytes.split_at(8);
    let number = i64::from_be_bytes([
        front[0], front[1], front[2], front[3], front[4], front[5], front[6], front[7],
    ]);
    Ok((number, rest))
}

#[tactic(auto, using(crate::proofs::KeySteps::utf8_steps))]
fn utf8_of(bytes: &[u8]) -> Result<&str, KeyFault>
    ensures { GivesKey (λ s. s.now) result (utf8_at bytes.now) }
{
    match std::str::from_utf8(bytes) {
        Ok(text) => Ok(text),
        Err(_) => Err(KeyFault::BadText),
    }
}

#[tactic(auto, unfolding(crate::specs::KeyReading::text_at))]
fn text_of(alloc: Global, bytes: &[u8]) -> Result<(Str, &[u8]), KeyFault>
    ensures { GivesKey (λ x. (x.0, x.1.now)) result (text_at bytes.now) }
{
    let (len, rest) = length_at(bytes)?;
    let len = len as usize;
    if rest.len() < len {
        return Err(KeyFault::Short);
    }
    let (text, rest) = rest.split_at(len);
    Ok((Str::copy_of(alloc, utf8_of(text)?)?, rest))
}

#[tactic(auto, unfolding(crate::specs::KeyReading::value_at))]
fn front_of(alloc: Global, bytes: &[u8]) -> Result<(Value, &[u8]), KeyFault>
    ensures { GivesKey (λ x. (x.0, x.1.now)) result (value_at bytes.now) }
{
    match bytes {
        [] => Err(KeyFault::Short),
        [1, rest @ ..] => {
            let (number, rest) = int_of(rest)?;
            Ok((Value::Int(number), rest))
        }
        [2, rest @ ..] => {
            let (text, rest) = text_of(alloc, rest)?;
            Ok((Value::Text(text), rest))
        }
        [_, ..] => Err(KeyFault::BadTag),
    }
}

#[tactic(auto, using(crate::proofs::KeySteps::value_steps))]
fn values_of(alloc: Global, count: u8, bytes: &[u8]) -> Result<(Vec<Value>, &[u8]), KeyFault>
    ensures { GivesKey (λ x. (x.0.items, x.1.now)) result (values_at [] count bytes.now) }
{
    let mut values = Vec::new(alloc);
    let mut rest = bytes;
    for _ in 0..count {
        let (value, after) = front_of(alloc, rest)?;
        values.push(value)?;
        rest = after;
    }
    Ok((values, rest))
}

#[tactic(auto, unfolding(crate::specs::KeyReading::key_at))]
fn all_of(alloc: Global, bytes: &[u8]) -> Result<Vec<Value>, KeyFault>
    ensures { GivesKey (λ v. v.items) result (key_at bytes.now) }
{
    let Some((count, rest)) = bytes.split_first() else {
        return Err(KeyFault::Short);
    };
    if !(1..=4).contains(count) {
        return Err(KeyFault::BadTag);
    }
    let (values, rest) = values_of(alloc, *count, rest)?;
    if !rest.is_empty() {
        return Err(KeyFault::Trailing);
    }
    Ok(values)
}

fn sized_front_of(alloc: Global, bytes: &[u8]) -> Result<(Value, usize), KeyFault>
    ensures taken { IfOk result (λ x. x.1 ≡ length (value_spelling x.0)) }
    ensures exact { GivesKey (λ x. (x.0, drop x.1 bytes.now)) result (value_at bytes.now) }
{
    let (value, rest) = front_of(alloc, bytes)?;
    Ok((value, bytes.len() - rest.len()))
}

/// The value at the front of the bytes, and how many bytes it took; never Trailing. The byte `00` is BadTag,
/// since null is no value. No memory is asked for a length that the bytes don't have.
pub fn value_of(alloc: Global, bytes: &[u8]) -> Result<(Value, usize), KeyFault>
    // What is read is spelled so.
    ensures found { IfOk result (λ x. HasSpelling x.0 × (bytes.now ≡ value_spelling x.0 ++ drop x.1 bytes.now)) }
    // So many bytes it took.
    ensures taken { IfOk result (λ x. x.1 ≡ length (value_spelling x.0)) }
    // What is spelled so is read, unless memory runs out.
    ensures only { (v : SpecValue) (rest : List ℕ) → HasSpelling v → bytes.now ≡ value_spelling v ++ rest
        → GivesKey (λ x. x) result (Ok (v, length (value_spelling v))) }
    // Which fault it is.
    ensures exact { GivesKey (λ x. (x.0, drop x.1 bytes.now)) result (value_at bytes.now) }
{
    sized_front_of(alloc, bytes)
}

/// The key that the bytes spell, all of the bytes. No memory is asked for a length that the bytes don't have.
pub fn key_of(alloc: Global, bytes: &[u8]) -> Result<Vec<Value>, KeyFault>
    // What is read is spelled so.
    ensures found { IfOk result (λ v. IsSpelledKey v.items × (bytes.now ≡ key_spelling v.items)) }
    // What is spelled so is read, unless memory runs out.
    ensures only { (key : List SpecValue) → IsSpelledKey key → bytes.now ≡ key_spelling key
        → GivesKey (λ v. v.items) result (Ok key) }
    // Which fault it is.
    ensures exact { GivesKey (λ v. v.items) result (key_at bytes.now) }
{
    all_of(alloc, bytes)
}
