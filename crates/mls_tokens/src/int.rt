//! The number that a text begins with: whether there is one, how many bytes it takes, what its value is, and what
//! follows it.
//! A number is decimal digits, with a minus before them or none, and fits 64 bits with a sign.
ghost use Rattle.std.specs.Prelude.{◌≡◌, ◌≤◌, length, IsTrue};
ghost use Rattle.mls_lattice.specs.Reading.{Shows};
ghost use Rattle.mls_tokens.specs.Scanning.{int_value, IsIntText, int_length, starts_int, leading_int};

use crate::fault::ScanFault;
use mls_lattice::{ascii_text, digits_len};

/// The value of a text that is a number and nothing else; one out of range is refused.
fn int_value(text: &str) -> Result<i64, ScanFault>
    requires { IsIntText text.now }
    ensures { Shows (λ n. n) result (int_value text.now) }
{
    match text.parse::<i64>() {
        Ok(number) => Ok(number),
        Err(_) => Err(ScanFault::Token),
    }
}

/// How many bytes the number at the front takes, its minus among them.
#[tactic(auto, unfolding(crate::specs::Scanning::int_length))]
fn int_length(bytes: &[u8]) -> usize
    ensures run { result ≡ int_length bytes.now }
    ensures within { result ≤ length bytes.now }
{
    match bytes {
        [b'-', rest @ ..] => 1 + digits_len(rest),
        _ => digits_len(bytes),
    }
}

/// The value of the number at the front, and the bytes that follow it.
#[tactic(auto, using(crate::proofs::IntLemmas::int_runs), unfolding(crate::specs::Scanning::leading_int))]
pub(crate) fn leading_int(bytes: &[u8]) -> Result<(i64, &[u8]), ScanFault>
    requires { IsTrue (starts_int bytes.now) }
    ensures { Shows (λ x. (x.0, x.1.now)) result (leading_int bytes.now) }
{
    let (text, rest) = bytes.split_at(int_length(bytes));
    let number = int_value(ascii_text(text))?;
    Ok((number, rest))
}

/// Whether the bytes begin with a number: with a digit, or with a minus directly before one.
pub(crate) fn starts_int(bytes: &[u8]) -> bool
    ensures { result ≡ starts_int bytes.now }
{
    match bytes {
        [b'-', second, ..] => second.is_ascii_digit(),
        [first, ..] => first.is_ascii_digit(),
        [] => false,
    }
}
