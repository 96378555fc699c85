//! What people write who know SQL or another language, and what is written here.
use crate::slip::Around;
use crate::words::{is, is_in};

pub(crate) const QUOTES: &str = "  A text has double quotes, as in `\"x\"`.\n";

const UNEQUAL: &str = "  Not equal is written `<>`, and the opposite of a test `not (A = 1)`.\n";

const WORDS: &str = "  Write `and`, `or`.\n";

const UNSEEN: &str = "  It is not seen, or looks like a blank. Take it out, or type a blank.\n";

const EQUAL: &str = "  Equal is written `=`.\n";

const NULLS: &str =
    "  There is no word `is`. A null is found by `= null`, all else by `<> null`.\n";

const TESTS: &str = "  There is no such test. Values are compared by =, <>, <, <=, > and >=.\n";

const LIMIT: &str = "  There is no word `limit`. Write `first N` before `where`.\n";

const ORDER: &str = "  There is no such word. Rows stand in the order of their keys.\n";

const MIXED: &str =
    "  Inside parentheses, and where `and` and `or` stand side by side, each test has its own: \
`A = 1 and ((B = 2) or (C = 3))`.\n";

const NULL: &str = "  A null is written `null`.\n";

const TRUTH: &str = "  There are no values of truth. Write a number, as 0 and 1, or a text.\n";

/// Whether a character cannot be seen, or is a blank that is none of a text: of these each is said by its number.
pub(crate) fn is_unseen(character: char) -> bool {
    let number = u32::from(character);
    [
        (0xa0, 0xa0),
        (0xad, 0xad),
        (0x34f, 0x34f),
        (0x61c, 0x61c),
        (0x115f, 0x1160),
        (0x1680, 0x1680),
        (0x180b, 0x180f),
        (0x2000, 0x200f),
        (0x2028, 0x202f),
        (0x205f, 0x206f),
        (0x3000, 0x3000),
        (0x3164, 0x3164),
        (0xfe00, 0xfe0f),
        (0xfeff, 0xfeff),
        (0xffa0, 0xffa0),
        (0xe0000, 0xe0fff),
    ]
    .iter()
    .any(|range| range.0 <= number && number <= range.1)
}

/// The character of a word that is one that cannot be seen.
pub(crate) fn unseen_in(word: &[u8]) -> Option<char> {
    let character = std::str::from_utf8(word).ok()?.chars().next()?;
    if is_unseen(character) {
        Some(character)
    } else {
        None
    }
}

/// What is told where no word can begin.
fn token_habit(around: &Around<'_>) -> Option<&'static str> {
    let here = around.here();
    if unseen_in(here).is_some() {
        return Some(UNSEEN);
    }
    if is_in(
        here,
        &["'", "`", "´", "‘", "’", "‚", "“", "”", "„", "«", "»"],
    ) {
        return Some(QUOTES);
    }
    if is(here, "!") {
        return Some(UNEQUAL);
    }
    if is_in(here, &["&", "|"]) {
        return Some(WORDS);
    }
    None
}

/// What is told where something else is wanted.
fn form_habit(around: &Around<'_>) -> Option<&'static str> {
    let here = around.here();
    if is(here, "=") && is(around.back(1), "=") {
        return Some(EQUAL);
    }
    if is_in(here, &["is", "IS", "Is"]) {
        return Some(NULLS);
    }
    if is_in(
        here,
        &[
            "like", "LIKE", "ilike", "ILIKE", "between", "BETWEEN", "in", "IN",
        ],
    ) {
        return Some(TESTS);
    }
    if is_in(here, &["limit", "LIMIT", "top", "TOP"]) {
        return Some(LIMIT);
    }
    if is_in(here, &["order", "ORDER", "sort", "SORT", "group", "GROUP"]) {
        return Some(ORDER);
    }
    if is_in(here, &["and", "or"]) {
        return Some(MIXED);
    }
    None
}

/// What is told of a name that nothing has.
fn name_habit(around: &Around<'_>) -> Option<&'static str> {
    let here = around.here();
    if is_in(here, &["NULL", "Null", "nil", "none", "None", "NIL"]) {
        return Some(NULL);
    }
    if is_in(here, &["true", "false", "TRUE", "FALSE", "True", "False"]) {
        return Some(TRUTH);
    }
    None
}

/// What is told, by the number of a fault, of what people write who know another language.
pub(crate) fn habit_at(code: u8, around: &Around<'_>) -> Option<&'static str> {
    match code {
        21 => token_habit(around),
        22 => form_habit(around),
        23 => name_habit(around),
        _ => None,
    }
}
