//! The token at the front of bytes.
ghost use Rattle.std.specs.Prelude.{◌<◌, length, IfOk};
ghost use Rattle.mls_lattice.specs.Reading.{Gives};
ghost use Rattle.mls_tokens.specs.Scanning.{leading_word, leading_token};

use crate::fault::ScanFault;
use crate::int::{leading_int, starts_int};
use crate::quoted::leading_quoted;
use crate::runs::word_length;
use crate::sign::leading_sign;
use crate::token::Token;
use mls_lattice::{Failed, Str, ascii_text};
use std::alloc::Global;

/// The most bytes of a name.
const MAX_NAME: usize = 32;

#[tactic(auto, using(crate::proofs::RunLemmas::runs), unfolding(crate::specs::Scanning::leading_word))]
fn leading_word(alloc: Global, bytes: &[u8]) -> Result<(Str, &[u8]), Failed<ScanFault>>
    ensures { Gives (λ x. (x.0, x.1.now)) result (leading_word bytes.now) }
{
    let len = word_length(bytes);
    if len > MAX_NAME {
        return Err(Failed::Fault(ScanFault::Token));
    }
    let (word, rest) = bytes.split_at(len);
    Ok((Str::copy_of(alloc, ascii_text(word))?, rest))
}

/// The token at the front of bytes, and what follows it.
#[tactic(auto, unfolding(crate::specs::Scanning::leading_token))]
fn scan(alloc: Global, bytes: &[u8]) -> Result<(Token, &[u8]), Failed<ScanFault>>
    requires { 0 < length bytes.now }
    ensures { Gives (λ x. (x.0, x.1.now)) result (leading_token bytes.now) }
{
    if bytes[0].is_ascii_alphabetic() {
        let (word, rest) = leading_word(alloc, bytes)?;
        return Ok((Token::Word(word), rest));
    }
    if starts_int(bytes) {
        let (number, rest) = leading_int(bytes).map_err(Failed::Fault)?;
        return Ok((Token::Int(number), rest));
    }
    if bytes[0] == b'"' {
        let (text, rest) = leading_quoted(alloc, &bytes[1..])?;
        return Ok((Token::Text(text), rest));
    }
    match leading_sign(bytes) {
        Some((sign, rest)) => Ok((Token::Sign(sign), rest)),
        None => Err(Failed::Fault(ScanFault::Token)),
    }
}

/// The same, which takes some bytes.
pub(crate) fn leading_token(
    alloc: Global,
    bytes: &[u8],
) -> Result<(Token, &[u8]), Failed<ScanFault>>
    requires { 0 < length bytes.now }
    ensures exact { Gives (λ x. (x.0, x.1.now)) result (leading_token bytes.now) }
    ensures shorter { IfOk result (λ x. length x.1.now < length bytes.now) }
{
    scan(alloc, bytes)
}
