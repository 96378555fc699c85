//! A line of a file, with a caret under a place.
ghost use Rattle.std.specs.Prelude.{◌≡◌, ◌++◌, string_bytes, OnOk, IfOk};
ghost use Rattle.mls_advice.specs.Excerpt.{Begins, place_line, file_line};

use crate::columns::Told;
use crate::habits::unseen_in;
use crate::shown::{bytes_to, text_to};
use mls_lattice::is_name_byte;
use mls_tokens::columns;
use std::alloc::{AllocError, Global};

/// How many bytes of a line are shown before a place, and how many from there on.
const BEFORE: usize = 30;

const BEHIND: usize = 40;

// ---- pieces of a text

/// The first bytes, as many as there are up to a number.
pub(crate) fn first(bytes: &[u8], count: usize) -> &[u8] {
    &bytes[..count.min(bytes.len())]
}

/// What stands behind them.
pub(crate) fn behind(bytes: &[u8], count: usize) -> &[u8] {
    &bytes[count.min(bytes.len())..]
}

/// The text from the line of a number on. Lines count from 1.
pub(crate) fn from_line(bytes: &[u8], line: usize) -> &[u8] {
    let mut left = line;
    for (place, byte) in bytes.iter().enumerate() {
        if left <= 1 {
            return behind(bytes, place);
        }
        if *byte == b'\n' {
            left -= 1;
        }
    }
    &[]
}

/// The text up to its first line feed.
pub(crate) fn first_line(bytes: &[u8]) -> &[u8] {
    first(
        bytes,
        bytes.iter().take_while(|byte| **byte != b'\n').count(),
    )
}

/// How many bytes of a character, behind its first, stand at the beginning.
fn inner_len(bytes: &[u8]) -> usize {
    bytes
        .iter()
        .take_while(|byte| **byte >= 128 && **byte < 192)
        .count()
}

/// The first bytes, up to a number, and the whole of the character in which they end.
pub(crate) fn cut_off(bytes: &[u8], count: usize) -> &[u8] {
    let inner = inner_len(first(behind(bytes, count), 3));
    first(bytes, count.saturating_add(inner))
}

/// The last bytes, up to a number, but for what is left of the character in which they begin.
fn ending(bytes: &[u8], count: usize) -> &[u8] {
    if bytes.len() <= count {
        return bytes;
    }
    let cut = behind(bytes, bytes.len() - count);
    behind(cut, inner_len(first(cut, 3)))
}

/// The letters, digits and `_` at the beginning, or the first character.
pub(crate) fn token_of(bytes: &[u8]) -> &[u8] {
    let run = bytes.iter().take_while(|byte| is_name_byte(**byte)).count();
    if run == 0 {
        cut_off(bytes, 1)
    } else {
        first(bytes, run)
    }
}

// ---- a text between quotes that goes wrong

const BACKSLASH: &str =
    "  In a text a `\\` stands before `\"` or another `\\`, or begins a control character, as in `\\x0a`.\n";

const CONTROL: &str = "  A text has no control character as it is: a tab is `\\x09` there.\n";

const NO_UTF8: &str = "  A text has no bytes that are no UTF-8.\n";

const UNCLOSED: &str = "  The text is not closed on its line.\n";

/// The number of bytes of a line that are UTF-8, from its first on.
fn valid_len(line: &[u8]) -> usize {
    match std::str::from_utf8(line) {
        Ok(_) => line.len(),
        Err(fault) => fault.valid_up_to(),
    }
}

/// Whether a byte is a digit of an escape.
fn is_digit(byte: u8) -> bool {
    byte.is_ascii_digit() || byte >= b'a' && byte <= b'f'
}

/// How many bytes of an escape stand behind its backslash, if it is one.
fn escape_len(bytes: &[u8]) -> Option<usize> {
    match bytes {
        [] => Some(1),
        [b'"' | b'\\', ..] => Some(1),
        [b'x', b'0' | b'1', low, ..] if is_digit(*low) => Some(3),
        [b'x', b'7', b'f', ..] => Some(3),
        _ => None,
    }
}

/// Where a line goes wrong behind the quote of a text, counted from that, and why.
fn wrong_inside(inside: &[u8]) -> Option<(usize, &'static str)> {
    let valid = valid_len(inside);
    let mut left = 0;
    for (place, byte) in inside.iter().enumerate() {
        if left > 0 {
            left -= 1;
            continue;
        }
        if *byte == b'"' {
            return None;
        }
        if *byte < 32 || *byte == 127 {
            return Some((place + 1, CONTROL));
        }
        if place >= valid {
            return Some((place + 1, NO_UTF8));
        }
        if *byte == b'\\' {
            match escape_len(behind(inside, place + 1)) {
                Some(len) => left = len,
                None => return Some((place + 1, BACKSLASH)),
            }
        }
    }
    Some((0, UNCLOSED))
}

/// The same of the text between quotes with which a line goes on, if it does.
fn wrong_in_line(line: &[u8]) -> Option<(usize, &'static str)> {
    match line {
        [b'"', inside @ ..] => wrong_inside(inside),
        _ => None,
    }
}

// ---- the lines

#[tactic(auto, unfolding(crate::specs::Excerpt::place_line))]
fn place_to(text: &mut String, path: &str, line: usize, column: Option<usize>) -> Told
    ensures { OnOk result (string_bytes text.new ≡ string_bytes text.old ++ place_line path.now line column) }
{
    text.push_str("  ")?;
    text_to(text, path)?;
    match column {
        None => write!(text, ":{line}: "),
        Some(column) => write!(text, ":{line}:{column}: "),
    }
}

/// The name of a file of which no line is told.
#[tactic(auto, unfolding(crate::specs::Excerpt::file_line))]
pub fn file_line(alloc: Global, path: &str) -> Result<String, AllocError>
    ensures { IfOk result (λ s. string_bytes s ≡ file_line path.now) }
{
    let mut text = String::new(alloc);
    text.push_str("  ")?;
    text_to(&mut text, path)?;
    text.push_str("\n")?;
    Ok(text)
}

/// Appends what stands at the beginning of bytes.
fn standing_to(text: &mut String, bytes: &[u8]) -> Told {
    match bytes.first() {
        None => text.push_str("  There stands the end of the file.\n"),
        Some(b'\n') => text.push_str("  There stands the end of the line.\n"),
        Some(_) => token_to(text, cut_off(token_of(bytes), BEHIND)),
    }
}

/// Appends a word that stands somewhere; a character that cannot be seen by its number.
fn token_to(text: &mut String, token: &[u8]) -> Told {
    if let Some(character) = unseen_in(token) {
        let number = u32::from(character);
        return writeln!(text, "  There stands U+{number:04X}.");
    }
    text.push_str("  There stands `")?;
    bytes_to(text, token)?;
    text.push_str("`.\n")
}

/// What of a line is shown, behind so many columns, with a caret below a place, and what stands there.
fn pointed(
    alloc: Global,
    before: usize,
    skipped: usize,
    bytes: &[u8],
) -> Result<String, AllocError> {
    let line = first_line(bytes);
    let mut text = String::new(alloc);
    bytes_to(&mut text, ending(first(line, skipped), BEFORE))?;
    let indent = before.saturating_add(columns(text.as_bytes()));
    bytes_to(&mut text, cut_off(behind(line, skipped), BEHIND))?;
    writeln!(text, "\n{:indent$}^", "")?;
    standing_to(&mut text, behind(bytes, skipped))?;
    Ok(text)
}

/// What is shown of the line with which bytes begin, behind so many columns. Where a text between quotes stands at the
/// column, and
/// goes wrong by the rules of scripts, the caret stands where it does.
fn shown_line(
    alloc: Global,
    before: usize,
    column: Option<usize>,
    by_rules: bool,
    bytes: &[u8],
) -> Result<String, AllocError> {
    let Some(column) = column else {
        let mut text = String::new(alloc);
        bytes_to(&mut text, cut_off(first_line(bytes), BEFORE + BEHIND))?;
        text.push_str("\n")?;
        return Ok(text);
    };
    let skipped = column.saturating_sub(1);
    if by_rules && let Some((place, why)) = wrong_in_line(behind(first_line(bytes), skipped)) {
        let mut text = pointed(alloc, before, skipped.saturating_add(place), bytes)?;
        text.push_str(why)?;
        return Ok(text);
    }
    pointed(alloc, before, skipped, bytes)
}

/// A place in a file: the path, the line and the column, what stands in that line, and, where there is a column, a
/// caret below it. Columns
/// count bytes from 1. Texts between quotes go by the rules of scripts, or not.
pub fn excerpt(
    alloc: Global,
    path: &str,
    line: usize,
    column: Option<usize>,
    by_rules: bool,
    bytes: &[u8],
) -> Result<String, AllocError>
    // The place is the one that was given.
    ensures { IfOk result (λ s. Begins (place_line path.now line column) (string_bytes s)) }
{
    let mut text = String::new(alloc);
    place_to(&mut text, path, line, column)?;
    let shown = shown_line(
        alloc,
        columns(text.as_bytes()),
        column,
        by_rules,
        from_line(bytes, line),
    )?;
    text.push_str(&shown)?;
    Ok(text)
}

/// A line that was typed, with a caret below a column, and what stands there.
pub fn typed_excerpt(alloc: Global, column: usize, line: &[u8]) -> Result<String, AllocError> {
    let shown = shown_line(alloc, 2, Some(column), true, line)?;
    format!(in alloc; "  {shown}")
}
