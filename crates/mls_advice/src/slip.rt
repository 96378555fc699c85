//! A place at which a text goes wrong, and the words around it.
use crate::excerpts::{behind, first, from_line};
use crate::words::{is, word_at, words_of};
use std::alloc::{AllocError, Global};

/// A place at which a script, or a text of transactions, goes wrong, and the number of the fault. Lines and columns
/// count from 1.
#[derive(Clone, Copy)]
pub struct Slip<'a> {
    pub code: u8,
    pub line: usize,
    pub column: usize,
    pub bytes: &'a [u8],
}

impl<'a> Slip<'a> {
    /// What stands from the place on.
    pub(crate) fn rest(&self) -> &'a [u8] {
        behind(
            from_line(self.bytes, self.line),
            self.column.saturating_sub(1),
        )
    }

    /// What stands before the place in its line.
    pub(crate) fn line_before(&self) -> &'a [u8] {
        first(
            from_line(self.bytes, self.line),
            self.column.saturating_sub(1),
        )
    }

    /// All that stands before the place.
    pub(crate) fn all_before(&self) -> &'a [u8] {
        first(
            self.bytes,
            self.bytes.len().saturating_sub(self.rest().len()),
        )
    }
}

/// The words before a place, and what stands from there on.
#[derive(Drop)]
pub(crate) struct Around<'a> {
    pub(crate) before: Vec<&'a [u8]>,
    pub(crate) rest: &'a [u8],
}

impl<'a> Around<'a> {
    pub(crate) fn of(
        alloc: Global,
        before: &'a [u8],
        rest: &'a [u8],
    ) -> Result<Around<'a>, AllocError> {
        let before = words_of(alloc, before)?;
        Ok(Around { before, rest })
    }

    /// The word at the place.
    pub(crate) fn here(&self) -> &'a [u8] {
        word_at(self.rest)
    }

    /// The word behind it, if it stands in the same line.
    pub(crate) fn next(&self) -> &'a [u8] {
        let rest = behind(self.rest, self.here().len());
        let blanks = rest.iter().take_while(|byte| **byte == b' ').count();
        word_at(behind(rest, blanks))
    }

    /// A word before the place: of 1 the last one. Empty, where so many are not there.
    pub(crate) fn back(&self, count: usize) -> &'a [u8] {
        match self.before.len().checked_sub(count) {
            Some(place) => self.word(place),
            None => &[],
        }
    }

    /// A word before the place, by its number from the first.
    pub(crate) fn word(&self, place: usize) -> &'a [u8] {
        match self.before.get(place) {
            Some(word) => *word,
            None => &[],
        }
    }

    /// The number of the word `(` that is not closed before the place, and the last of those.
    pub(crate) fn opener(&self, alloc: Global) -> Result<Option<usize>, AllocError> {
        let mut open = Vec::new(alloc);
        for (place, word) in self.before.iter().enumerate() {
            if is(*word, "(") {
                open.push(place)?;
            } else if is(*word, ")") {
                open.pop();
            }
        }
        Ok(open.last().copied())
    }

    /// How many commas a list has between its `(`, a word of a number, and the place.
    pub(crate) fn commas(&self, opener: usize) -> usize {
        let mut depth = 0_usize;
        let mut count = 0_usize;
        for word in self.before.iter().skip(opener.saturating_add(1)) {
            if is(*word, "(") {
                depth = depth.saturating_add(1);
            } else if is(*word, ")") {
                depth = depth.saturating_sub(1);
            } else if depth == 0 && is(*word, ",") {
                count = count.saturating_add(1);
            }
        }
        count
    }
}
