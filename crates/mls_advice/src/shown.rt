//! Texts as a screen is given them: no control character, none that is invisible or turns a line round, and no byte
//! that
//! is no UTF-8.
ghost use Rattle.std.specs.Prelude.{◌≡◌, ◌++◌, ◌<◌, string_bytes, OnOk};
ghost use Rattle.mls_tokens.specs.Screen.{hex_escape};
ghost use Rattle.mls_advice.specs.Excerpt.{is_unseen, number_escape, shown_char, shown};

use std::alloc::AllocError;

#[tactic(auto, using(crate::proofs::ExcerptLemmas::escape_written))]
fn escape_to(text: &mut String, number: u32) -> Result<(), AllocError>
    requires { number < 256 }
    ensures { OnOk result (string_bytes text.new ≡ string_bytes text.old ++ hex_escape number) }
{
    write!(text, "\\x{number:02x}")
}

/// Whether a character is invisible, or turns a line round.
fn is_unseen(number: u32) -> bool
    ensures { result ≡ is_unseen number }
{
    number == 0x61c
        || number >= 0x200b && number <= 0x200f
        || number >= 0x202a && number <= 0x202e
        || number >= 0x2060 && number <= 0x2069
        || number == 0xfeff
}

#[tactic(auto, using(crate::proofs::ExcerptLemmas::number_written))]
fn number_to(text: &mut String, number: u32) -> Result<(), AllocError>
    requires { number < 65536 }
    ensures { OnOk result (string_bytes text.new ≡ string_bytes text.old ++ number_escape number) }
{
    let (high, low) = (number / 256, number % 256);
    write!(text, "\\u{high:02x}{low:02x}")
}

#[tactic(auto, using(crate::proofs::ExcerptLemmas::control_below, crate::proofs::ExcerptLemmas::unseen_below))]
fn char_to(text: &mut String, character: char) -> Result<(), AllocError>
    ensures { OnOk result (string_bytes text.new ≡ string_bytes text.old ++ shown_char character) }
{
    if character.is_control() {
        escape_to(text, u32::from(character))
    } else if is_unseen(u32::from(character)) {
        number_to(text, u32::from(character))
    } else {
        text.push(character)
    }
}

/// Appends a text, whose control characters are written as `\x` and two digits, and those that are invisible or turn a
/// line round as `\u` and four.
pub(crate) fn text_to(text: &mut String, words: &str) -> Result<(), AllocError>
    ensures { OnOk result (string_bytes text.new ≡ string_bytes text.old ++ shown words.now) }
{
    for character in words.chars() {
        char_to(text, character)?;
    }
    Ok(())
}

fn escapes_to(text: &mut String, bytes: &[u8]) -> Result<(), AllocError> {
    for byte in bytes {
        escape_to(text, u32::from(*byte))?;
    }
    Ok(())
}

/// Appends bytes: those that are no UTF-8 are written like control characters.
pub(crate) fn bytes_to(text: &mut String, bytes: &[u8]) -> Result<(), AllocError> {
    for chunk in bytes.utf8_chunks() {
        text_to(text, chunk.valid())?;
        escapes_to(text, chunk.invalid())?;
    }
    Ok(())
}
