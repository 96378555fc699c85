//! Texts between quotes.
ghost use Rattle.std.specs.Prelude.{◌≡◌, []};
ghost use Rattle.mls_lattice.specs.Reading.{Shows, Gives};
ghost use Rattle.mls_tokens.specs.Scanning.{step, text_at, utf8_of, leading_quoted};

use crate::fault::ScanFault;
use crate::writing::{control_of, is_control, is_escaped};
use mls_lattice::{Failed, Str};
use std::alloc::Global;

/// The most bytes of a text, after its escapes.
const MAX_TEXT: usize = 8192;

/// What the last bytes of a text that is read were.
#[derive(Clone, Copy)]
pub(crate) enum Mode {
    /// No part of an escape.
    Plain,
    /// A backslash.
    Behind,
    /// A backslash and an `x`.
    Hex,
    /// These, and a byte that may be a digit.
    Digit(u8),
}

/// What a byte is to a reader of a text.
#[derive(Clone, Copy)]
pub(crate) enum Part {
    /// The closing quote.
    End,
    /// A byte that may not stand there.
    Bad,
    /// A part of an escape.
    Goes(Mode),
    /// The end of this byte of the text.
    Byte(u8),
}

fn step_plain(byte: u8) -> Part
    ensures { result ≡ step Mode.Plain byte }
{
    if byte == b'"' {
        Part::End
    } else if byte == b'\\' {
        Part::Goes(Mode::Behind)
    } else if is_control(byte) {
        Part::Bad
    } else {
        Part::Byte(byte)
    }
}

fn step_behind(byte: u8) -> Part
    ensures { result ≡ step Mode.Behind byte }
{
    if is_escaped(byte) {
        Part::Byte(byte)
    } else if byte == b'x' {
        Part::Goes(Mode::Hex)
    } else {
        Part::Bad
    }
}

fn step(mode: Mode, byte: u8) -> Part
    ensures { result ≡ step mode byte }
{
    match mode {
        Mode::Plain => step_plain(byte),
        Mode::Behind => step_behind(byte),
        Mode::Hex => Part::Goes(Mode::Digit(byte)),
        Mode::Digit(first) => match control_of(first, byte) {
            Some(control) => Part::Byte(control),
            None => Part::Bad,
        },
    }
}

/// What stands before the closing quote, with its escapes resolved, and what follows.
fn text_of(alloc: Global, bytes: &[u8]) -> Result<(Vec<u8>, &[u8]), Failed<ScanFault>>
    ensures { Gives (λ x. (x.0.items, x.1.now)) result (text_at Mode.Plain [] bytes.now) }
{
    let mut text = Vec::new(alloc);
    let mut mode = Mode::Plain;
    for (i, byte) in bytes.iter().enumerate() {
        match step(mode, *byte) {
            Part::End => return Ok((text, &bytes[i + 1..])),
            Part::Bad => return Err(Failed::Fault(ScanFault::Token)),
            Part::Goes(next) => mode = next,
            Part::Byte(own) => {
                text.push(own)?;
                mode = Mode::Plain;
            }
        }
    }
    Err(Failed::Fault(ScanFault::Token))
}

/// Bytes as a text.
#[tactic(auto, using(crate::proofs::TextLemmas::utf8_steps))]
fn utf8_of(bytes: &[u8]) -> Result<&str, ScanFault>
    ensures { Shows (λ s. s.now) result (utf8_of bytes.now) }
{
    match std::str::from_utf8(bytes) {
        Ok(text) => Ok(text),
        Err(_) => Err(ScanFault::Token),
    }
}

/// The text up to its closing quote, and what follows it.
#[tactic(auto, unfolding(crate::specs::Scanning::leading_quoted))]
pub(crate) fn leading_quoted(alloc: Global, bytes: &[u8]) -> Result<(Str, &[u8]), Failed<ScanFault>>
    ensures { Gives (λ x. (x.0, x.1.now)) result (leading_quoted bytes.now) }
{
    let (text, rest) = text_of(alloc, bytes)?;
    let text = utf8_of(&text).map_err(Failed::Fault)?;
    if text.len() > MAX_TEXT {
        return Err(Failed::Fault(ScanFault::TooLong));
    }
    Ok((Str::copy_of(alloc, text)?, rest))
}
