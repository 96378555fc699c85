//! What could stand at a place: the form of a command, the modes and the kinds.
use crate::excerpts::{behind, first, first_line, from_line};
use crate::words::{behind_time, is, is_blank};
use mls_lattice::is_name_byte;

/// Verbs, and the lines that tell the forms of their commands.
macro_rules! forms {
    ($($verb:literal $form:literal)*) => {
        [$(($verb, concat!("  The form: LABEL SESSION ", $verb, $form, "\n"))),*]
    };
}

/// A verb, and the form of its command.
static FORMS: [(&str, &str); 11] = forms! {
    "open" " USER"
    "close" ""
    "view" " RELATION at LABEL [highest] [class OP LABEL] [first N] [where CONDITION]"
    "count" " RELATION at LABEL [highest] [class OP LABEL] [where CONDITION]"
    "dump" " RELATION"
    "insert" " RELATION key (VALUE, ..) values (VALUE, ..)"
    "update" " RELATION key (VALUE, ..) class LABEL from LABEL set ATTRIBUTE = VALUE, .."
    "delete" " RELATION key (VALUE, ..) class LABEL"
    "all" " { COMMAND; .. }, of view, count, expect N count, insert, update and delete"
    "audit" ""
    "call" " TRANSACTION (VALUE, ..)"
};

const NO_VERB: &str =
    "  The form: LABEL SESSION, then open, close, view, count, dump, insert, update, delete, all, audit or call.\n";

pub(crate) const KINDS: &str = "  The kinds are int and text.\n";

fn behind_blanks(text: &[u8]) -> &[u8] {
    behind(
        text,
        text.iter().take_while(|byte| is_blank(**byte)).count(),
    )
}

fn word_len(text: &[u8]) -> usize {
    text.iter().take_while(|byte| is_name_byte(**byte)).count()
}

fn behind_word(text: &[u8]) -> &[u8] {
    behind_blanks(behind(text, word_len(text)))
}

/// First words, and the lines that tell the forms of their statements.
macro_rules! statements {
    ($($word:literal $form:literal)*) => { [$(($word, concat!("  The form: ", $form, "\n"))),*] };
}

/// The first word of a part of a transaction, and its form.
static STATEMENTS: [(&str, &str); 9] = statements! {
    "transaction" "transaction NAME levels LABEL to LABEL (NAME: KIND at LABEL, ..) { .. }"
    "var" "var NAME: KIND;"
    "if" "if EXPRESSION { .. } else { .. }"
    "for" "for NAME in RELATION at LABEL { .. }"
    "insert" "insert RELATION key (EXPRESSION, ..) values (EXPRESSION, ..) at LABEL [as NAME];"
    "update" "update RELATION key (EXPRESSION, ..) class LABEL from LABEL at LABEL set ATTRIBUTE = EXPRESSION, .. [as NAME];"
    "delete" "delete RELATION key (EXPRESSION, ..) class LABEL at LABEL [as NAME];"
    "release" "release EXPRESSION to LABEL into NAME;"
    "emit" "emit EXPRESSION at LABEL;"
};

const ASSIGNMENT: &str = "  The form: NAME := EXPRESSION;\n";

const NO_STATEMENT: &str =
    "  A statement is NAME := EXPRESSION; or begins with if, for, insert, update, delete, release or emit.\n";

const BEHIND_BLOCK: &str = "  The form: if EXPRESSION { .. } else { .. }\n";

/// The form of the part of a transaction that begins with a word.
pub(crate) fn statement_form(word: &[u8]) -> &'static str {
    match STATEMENTS.iter().find(|form| form.0.as_bytes() == word) {
        Some(form) => form.1,
        None if is(word, "else") => BEHIND_BLOCK,
        None => ASSIGNMENT,
    }
}

/// The form of what stands where no statement has begun, inside of a transaction or not.
pub(crate) fn beginning_form(word: &[u8], is_inside: bool) -> &'static str {
    match STATEMENTS.iter().find(|form| form.0.as_bytes() == word) {
        Some(form) if is_inside => form.1,
        _ if is_inside => NO_STATEMENT,
        _ => statement_form("transaction".as_bytes()),
    }
}

/// The form of the command in a line of a script, by the word behind its label and its session; where that is no verb,
/// a line that
/// names them all. Lines count from 1.
pub fn form_at(line: usize, bytes: &[u8]) -> &'static str {
    let told = behind_time(first_line(from_line(bytes, line)));
    let text = behind_word(behind_word(behind_blanks(told)));
    let verb = first(text, word_len(text));
    match FORMS.iter().find(|form| form.0.as_bytes() == verb) {
        Some(form) => form.1,
        None => NO_VERB,
    }
}

/// The kinds, where one of them is wanted at a place in transactions: behind a colon. Columns count bytes from 1.
pub fn kinds_at(line: usize, column: usize, bytes: &[u8]) -> &'static str {
    let before = first(first_line(from_line(bytes, line)), column.saturating_sub(1));
    match before.iter().rev().find(|byte| !is_blank(**byte)) {
        Some(b':') => KINDS,
        _ => "",
    }
}
