//! The words of a text: names and numbers, texts between quotes, and marks.
use crate::excerpts::{behind, first, token_of};
use mls_lattice::is_name_byte;
use std::alloc::{AllocError, Global};

/// Where in a text a byte stands.
#[derive(Clone, Copy, PartialEq, Eq)]
enum Inside {
    Gap,
    Comment,
    Name,
    Mark,
    Text,
    /// Behind a backslash in a text.
    Escape,
}

pub(crate) fn is_blank(byte: u8) -> bool {
    byte == b' ' || byte == b'\t' || byte == b'\n' || byte == b'\r'
}

/// Whether two marks are one sign.
fn is_sign(before: u8, byte: u8) -> bool {
    byte == b'=' && (before == b':' || before == b'<' || before == b'>')
        || byte == b'>' && before == b'<'
}

/// Where a byte stands that is in no text and no comment.
fn outside(inside: Inside, before: u8, byte: u8) -> Inside {
    match byte {
        b'#' => Inside::Comment,
        b'"' => Inside::Text,
        _ if is_blank(byte) => Inside::Gap,
        _ if is_name_byte(byte) => Inside::Name,
        _ if inside == Inside::Mark && is_sign(before, byte) => Inside::Gap,
        _ => Inside::Mark,
    }
}

/// Where a byte stands, given where the one before it does.
fn after(inside: Inside, before: u8, byte: u8) -> Inside {
    match (inside, byte) {
        (Inside::Escape, _) => Inside::Text,
        (Inside::Text | Inside::Comment, b'\n') | (Inside::Text, b'"') => Inside::Gap,
        (Inside::Text, b'\\') => Inside::Escape,
        (Inside::Text | Inside::Comment, _) => inside,
        _ => outside(inside, before, byte),
    }
}

/// Whether a word begins with a byte.
fn begins(inside: Inside, now: Inside) -> bool {
    match now {
        Inside::Mark => true,
        Inside::Name => inside != Inside::Name,
        Inside::Text => inside != Inside::Text && inside != Inside::Escape,
        _ => false,
    }
}

/// The word with which bytes begin. Of a text between quotes it is what stands up to its next quote.
pub(crate) fn word_at(bytes: &[u8]) -> &[u8] {
    match bytes {
        [b'"', inside @ ..] => {
            let len = inside.iter().take_while(|byte| **byte != b'"').count();
            first(bytes, len.saturating_add(2))
        }
        [before, byte, ..] if is_sign(*before, *byte) => first(bytes, 2),
        _ => token_of(bytes),
    }
}

/// A line of a script behind its time, if it has one.
pub(crate) fn behind_time(line: &[u8]) -> &[u8] {
    let blanks = line.iter().take_while(|byte| is_blank(**byte)).count();
    let text = behind(line, blanks);
    match text {
        [b'"', ..] => behind(text, word_at(text).len()),
        _ => text,
    }
}

/// The words of a text, in order.
pub(crate) fn words_of<'a>(alloc: Global, bytes: &'a [u8]) -> Result<Vec<&'a [u8]>, AllocError> {
    let mut words = Vec::new(alloc);
    let mut inside = Inside::Gap;
    let mut before = b' ';
    for (place, byte) in bytes.iter().enumerate() {
        let now = after(inside, before, *byte);
        if begins(inside, now) {
            words.push(word_at(behind(bytes, place)))?;
        }
        inside = now;
        before = *byte;
    }
    Ok(words)
}

/// Whether a word is a given one.
pub(crate) fn is(word: &[u8], given: &str) -> bool {
    word == given.as_bytes()
}

/// Whether a word is one of some.
pub(crate) fn is_in(word: &[u8], given: &[&str]) -> bool {
    given.iter().any(|one| is(word, *one))
}
