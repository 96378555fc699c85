//! Names, numbers and texts, as they are written.
ghost use Rattle.std.specs.Prelude.{◌≡◌, ◌<◌, ◌++◌, OnOk, flat_map, true, Some, None, if◌then◌else◌};
ghost use Rattle.std.specs.Fmt.{signed_decimal};
ghost use Rattle.mls_tokens.specs.Writing.{is_control, is_escaped, hex_digit, printable_byte, printable, quoted_byte};
ghost use Rattle.mls_tokens.specs.Writing.{quoted, is_hex, hex_value, hex_pair, is_control_pair};

use std::alloc::{AllocError, Global};

/// Whether a byte is a control character, which stands in a text between quotes as `\x` and two digits.
pub(crate) fn is_control(byte: u8) -> bool
    ensures { result ≡ is_control byte }
{
    byte < 32 || byte == 127
}

/// Whether a byte stands behind a backslash in a text between quotes.
pub(crate) fn is_escaped(byte: u8) -> bool
    ensures { result ≡ is_escaped byte }
{
    byte == b'"' || byte == b'\\'
}

/// A digit of a hexadecimal number, in lower case.
pub(crate) fn hex_digit(number: u8) -> u8
    requires { number < 16 }
    ensures { result ≡ hex_digit number }
{
    if number < 10 {
        b'0' + number
    } else {
        b'a' - 10 + number
    }
}

fn is_hex(byte: u8) -> bool
    ensures { result ≡ is_hex byte }
{
    byte.is_ascii_digit() || byte >= b'a' && byte <= b'f'
}

/// The number of a hexadecimal digit in lower case.
fn hex_value(digit: u8) -> u8
    requires { is_hex digit ≡ true }
    ensures value { result ≡ hex_value digit }
    ensures small { result < 16 }
{
    if digit.is_ascii_digit() {
        digit - b'0'
    } else {
        digit - b'a' + 10
    }
}

/// The control character that two digits spell, if they spell one.
pub(crate) fn control_of(high: u8, low: u8) -> Option<u8>
    ensures { result ≡ (if is_control_pair high low then Some (hex_pair high low) else None) }
{
    if !is_hex(high) || !is_hex(low) {
        return None;
    }
    let byte = 16 * hex_value(high) + hex_value(low);
    if is_control(byte) { Some(byte) } else { None }
}

fn push_byte(text: &mut Vec<u8>, byte: u8) -> Result<(), AllocError>
    ensures { OnOk result (text.new.items ≡ text.old.items ++ printable_byte byte) }
{
    if is_control(byte) {
        text.extend_from_slice(&[b'\\', b'x', hex_digit(byte / 16), hex_digit(byte % 16)])?;
    } else {
        text.push(byte)?;
    }
    Ok(())
}

/// Appends a text as it is.
pub fn push_str(text: &mut Vec<u8>, words: &str) -> Result<(), AllocError>
    ensures { OnOk result (text.new.items ≡ text.old.items ++ words.now) }
{
    text.extend_from_slice(words.as_bytes())
}

/// Appends a number in decimal, with a minus below 0.
pub fn push_int(alloc: Global, text: &mut Vec<u8>, number: i64) -> Result<(), AllocError>
    ensures { OnOk result (text.new.items ≡ text.old.items ++ signed_decimal number) }
{
    let digits = format!(in alloc; "{number}")?;
    push_str(text, &digits)
}

/// Appends a name, whose control characters are written as `\x` and two digits.
pub fn push_printable(text: &mut Vec<u8>, name: &str) -> Result<(), AllocError>
    ensures { OnOk result (text.new.items ≡ text.old.items ++ printable name.now) }
{
    for byte in name.as_bytes() {
        push_byte(text, *byte)?;
    }
    Ok(())
}

fn push_quoted_byte(text: &mut Vec<u8>, byte: u8) -> Result<(), AllocError>
    ensures { OnOk result (text.new.items ≡ text.old.items ++ quoted_byte byte) }
{
    if is_escaped(byte) {
        text.extend_from_slice(&[b'\\', byte])?;
        return Ok(());
    }
    push_byte(text, byte)
}

fn push_inside(text: &mut Vec<u8>, inside: &str) -> Result<(), AllocError>
    ensures { OnOk result (text.new.items ≡ text.old.items ++ flat_map quoted_byte inside.now) }
{
    for byte in inside.as_bytes() {
        push_quoted_byte(text, *byte)?;
    }
    Ok(())
}

/// Appends a text between quotes, with its escapes.
pub fn push_quoted(text: &mut Vec<u8>, inside: &str) -> Result<(), AllocError>
    ensures { OnOk result (text.new.items ≡ text.old.items ++ quoted inside.now) }
{
    text.push(b'"')?;
    push_inside(text, inside)?;
    text.push(b'"')?;
    Ok(())
}
