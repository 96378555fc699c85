//! What is told of lines that are typed.
ghost use Rattle.std.specs.Prelude.{◌≡◌, OnOk};
ghost use Rattle.std.specs.Io.KnownBytes.{Appends};
ghost use Rattle.mls_host.specs.Hosting.{IsTold};
ghost use Rattle.mls_host.specs.Telling.{prompt_text, line_told, fault_told, lines_word, tally_told};

use crate::errors::Errors;
use mls_script::ScriptCause;
use mls_tokens::Piece::{Number, Text};
use mls_tokens::{WriteFault, write_pieces};
use std::io::Write;

/// What is counted of lines that are typed.
#[derive(Clone, Copy)]
pub struct Tally {
    /// How many say something.
    pub lines: usize,
    /// Of how many of these something is denied or refused.
    pub refused: usize,
    /// How many are not understood. All others are done.
    pub misunderstood: usize,
}

fn write_prompt<'a, E: Write>(
    err: &mut E,
    label: &'a str,
    user: &'a str,
) -> Result<(), WriteFault<E>>
    ensures { OnOk result (Appends (E.contents err.old) (E.contents err.new) (prompt_text label.now user.now)) }
{
    write_pieces(err, &[Text(label), Text(" "), Text(user), Text("> ")])
}

fn write_line<E: Write>(err: &mut E, number: usize, word: &str) -> Result<(), WriteFault<E>>
    ensures { OnOk result (Appends (E.contents err.old) (E.contents err.new) (line_told number word.now)) }
{
    let pieces = [
        Text("mldb: line "),
        Number(number),
        Text(": "),
        Text(word),
        Text("\n"),
    ];
    write_pieces(err, &pieces)
}

fn write_fault<E: Write>(
    err: &mut E,
    number: usize,
    column: usize,
    cause: ScriptCause,
) -> Result<(), WriteFault<E>>
    ensures { OnOk result (Appends (E.contents err.old) (E.contents err.new) (fault_told number column cause)) }
{
    let pieces = [
        Text("mldb: line "),
        Number(number),
        Text(": "),
        Number(usize::from(cause.code())),
        Text(" "),
        Text(cause.word()),
        Text(" at "),
        Number(column),
        Text("\n"),
    ];
    write_pieces(err, &pieces)
}

fn lines_word(count: usize) -> &'static str
    ensures { result.now ≡ lines_word count }
{
    if count == 1 { " line: " } else { " lines: " }
}

fn write_tally<E: Write>(err: &mut E, tally: &Tally) -> Result<(), WriteFault<E>>
    ensures { OnOk result (Appends (E.contents err.old) (E.contents err.new) (tally_told tally.now)) }
{
    let done = tally
        .lines
        .saturating_sub(tally.refused)
        .saturating_sub(tally.misunderstood);
    let pieces = [
        Text("mldb: "),
        Number(tally.lines),
        Text(lines_word(tally.lines)),
        Number(done),
        Text(" done, "),
        Number(tally.refused),
        Text(" refused, "),
        Number(tally.misunderstood),
        Text(" not understood\n"),
    ];
    write_pieces(err, &pieces)
}

impl<E: Write> Errors<E> {
    /// Asks a user at a level for a line.
    pub fn tell_prompt(&mut self, label: &str, user: &str)
        ensures { IsTold E.contents self.old self.new (prompt_text label.now user.now) }
    {
        if let Err(fault) = write_prompt(&mut self.writer, label, user) {
            self.failed = Some(fault);
        }
    }

    /// Tells a word of a line.
    pub fn tell_line(&mut self, number: usize, word: &str)
        ensures { IsTold E.contents self.old self.new (line_told number word.now) }
    {
        if let Err(fault) = write_line(&mut self.writer, number, word) {
            self.failed = Some(fault);
        }
    }

    /// Tells why a line is refused, and at which column.
    pub fn tell_fault(&mut self, number: usize, column: usize, cause: ScriptCause)
        ensures { IsTold E.contents self.old self.new (fault_told number column cause) }
    {
        if let Err(fault) = write_fault(&mut self.writer, number, column, cause) {
            self.failed = Some(fault);
        }
    }

    /// Tells how many lines say something, and what became of them.
    pub fn tell_tally(&mut self, tally: &Tally)
        ensures { IsTold E.contents self.old self.new (tally_told tally.now) }
    {
        if let Err(fault) = write_tally(&mut self.writer, tally) {
            self.failed = Some(fault);
        }
    }
}
