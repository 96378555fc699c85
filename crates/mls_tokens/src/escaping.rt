//! Texts without control characters, and without characters that are invisible or turn a line round.
ghost use Rattle.std.specs.Prelude.{◌≡◌, ◌++◌, OnOk, IfOk};
ghost use Rattle.mls_tokens.specs.Screen.{is_hidden, is_hidden_pair, is_mark, is_joiner, is_hidden_triple, hex_escape};
ghost use Rattle.mls_tokens.specs.Screen.{unicode_escape, pair_escape, byte_at, shown, passed, escaped};
ghost use Rattle.mls_tokens.specs.Screen.{EscapedTextsAreHarmless};

use crate::writing::hex_digit;
use std::alloc::{AllocError, Global};

fn is_hidden(byte: u8) -> bool
    ensures { result ≡ is_hidden byte }
{
    byte < 10 || byte > 10 && byte < 32 || byte == 127
}

/// Whether two bytes are a control character from U+0080 to U+009F, or U+061C.
fn is_hidden_pair(first: u8, second: u8) -> bool
    ensures { result ≡ is_hidden_pair first second }
{
    first == 194 && (second >= 128 && second < 160) || first == 216 && second == 156
}

/// Whether a byte behind 226 128 makes a character from U+200B to U+200F or from U+202A to U+202E.
fn is_mark(third: u8) -> bool
    ensures { result ≡ is_mark third }
{
    third >= 139 && third < 144 || third >= 170 && third < 175
}

/// Whether a byte behind 226 129 makes a character from U+2060 to U+2069.
fn is_joiner(third: u8) -> bool
    ensures { result ≡ is_joiner third }
{
    third >= 160 && third < 170
}

/// Whether three bytes are a mark, a joiner or U+FEFF.
fn is_hidden_triple(first: u8, second: u8, third: u8) -> bool
    ensures { result ≡ is_hidden_triple first second third }
{
    first == 226 && (second == 128 && is_mark(third) || second == 129 && is_joiner(third))
        || first == 239 && (second == 187 && third == 191)
}

fn push_escape(text: &mut Vec<u8>, byte: u8) -> Result<(), AllocError>
    ensures { OnOk result (text.new.items ≡ text.old.items ++ hex_escape byte) }
{
    text.extend_from_slice(&[b'\\', b'x', hex_digit(byte / 16), hex_digit(byte % 16)])
}

/// Appends the number of a character of three bytes.
fn push_number(text: &mut Vec<u8>, first: u8, second: u8, third: u8) -> Result<(), AllocError>
    ensures { OnOk result (text.new.items ≡ text.old.items ++ unicode_escape first second third) }
{
    text.extend_from_slice(&[
        b'\\',
        b'u',
        hex_digit(first % 16),
        hex_digit(second % 64 / 4),
        hex_digit(second % 4 * 4 + third % 64 / 16),
        hex_digit(third % 16),
    ])
}

/// Appends the number of a character of two bytes.
fn push_pair(text: &mut Vec<u8>, first: u8, second: u8) -> Result<(), AllocError>
    ensures { OnOk result (text.new.items ≡ text.old.items ++ pair_escape first second) }
{
    if first == 194 {
        return push_escape(text, second);
    }
    push_number(text, 0, first, second)
}

/// A byte of a text; 0 behind its end.
fn byte_at(bytes: &[u8], place: usize) -> u8
    ensures { result ≡ byte_at bytes.now place }
{
    match bytes.get(place) {
        Some(byte) => *byte,
        None => 0,
    }
}

/// Appends what a character begins with, or the whole of a hidden one.
fn push_shown(text: &mut Vec<u8>, first: u8, second: u8, third: u8) -> Result<(), AllocError>
    ensures { OnOk result (text.new.items ≡ text.old.items ++ shown first second third) }
{
    if is_hidden(first) {
        return push_escape(text, first);
    }
    if is_hidden_pair(first, second) {
        return push_pair(text, first, second);
    }
    if is_hidden_triple(first, second, third) {
        return push_number(text, first, second, third);
    }
    text.push(first)?;
    Ok(())
}

/// How many bytes behind the first are of the same hidden character.
fn passed(first: u8, second: u8, third: u8) -> usize
    ensures { result ≡ passed first second third }
{
    if is_hidden_pair(first, second) {
        1
    } else if is_hidden_triple(first, second, third) {
        2
    } else {
        0
    }
}

/// A text whose control characters but line feeds, those from U+0080 to U+009F among them, are written as `\x` and two
/// digits, and whose characters that are invisible or turn a line round as `\u` and four.
pub fn escape(alloc: Global, bytes: &[u8]) -> Result<Vec<u8>, AllocError>
    ensures { IfOk result (λ text. text.items ≡ escaped bytes.now) }
{
    let mut text = Vec::new(alloc);
    let mut over = 0;
    for (i, byte) in bytes.iter().enumerate() {
        if over > 0 {
            over -= 1;
        } else {
            let behind = &bytes[i + 1..];
            let (second, third) = (byte_at(behind, 0), byte_at(behind, 1));
            push_shown(&mut text, *byte, second, third)?;
            over = passed(*byte, second, third);
        }
    }
    Ok(text)
}

/// What is escaped has no control character but line feeds, and none that is invisible or turns a line round. What is
/// shown on a screen is passed whole, also where no part could have one, so this is no law of each printer.
pub fn escaped_texts_are_harmless()
    ensures { EscapedTextsAreHarmless }
{}
