//! The lines of a source.
ghost use Rattle.std.specs.Prelude.{◌≡◌, false, [], None, IfOk, IfErr, OnErr};
ghost use Rattle.mls_tokens.specs.Typing.{IsTaken, IsPart, IsSkipped, IsTyped, IsCause, left_of};

use crate::source::Source;
use crate::typed::{MOST_BYTES, Part, Typed, TypingFault};
use crate::typing::TypedLines;
use std::alloc::Global;
use std::io::Write;

/// A line, or so many bytes of it as a line may have.
fn read_part<S: Source>(alloc: Global, input: &mut S) -> Result<Part, TypingFault>
    ensures part { IfOk result (IsPart (S.remaining input.old) (S.remaining input.new)) }
    ensures lost { OnErr result (IsTaken (S.remaining input.old) (S.remaining input.new)) }
    ensures cause { IfErr result (IsCause (S.fails input.new)) }
{
    let mut line = Vec::new(alloc);
    for _ in 0..MOST_BYTES {
        let Some(byte) = input.next_byte()? else {
            return Ok(Part::Last(line));
        };
        if line.push(byte).is_err() {
            return Err(TypingFault::Memory);
        }
        if byte == b'\n' {
            return Ok(Part::Line(line));
        }
    }
    Ok(Part::Full)
}

/// Takes the rest of a line. The answer is whether the end came first.
fn skip_line<S: Source>(input: &mut S) -> Result<bool, TypingFault>
    ensures skipped { IfOk result (IsSkipped (S.remaining input.old) (S.remaining input.new)) }
    ensures lost { OnErr result (IsTaken (S.remaining input.old) (S.remaining input.new)) }
    ensures cause { IfErr result (IsCause (S.fails input.new)) }
{
    for _ in 0..u64::MAX {
        let Some(byte) = input.next_byte()? else {
            return Ok(true);
        };
        if byte == b'\n' {
            return Ok(false);
        }
    }
    Err(TypingFault::Memory)
}

/// The next line, and whether the end came behind it.
fn read_typed<S: Source>(alloc: Global, input: &mut S) -> Result<(Typed, bool), TypingFault>
    ensures typed { IfOk result (λ t. IsTyped (λ _. []) (S.remaining input.old)
        (left_of t.1 (S.remaining input.new)) None None t.0) }
    ensures lost { OnErr result (IsTaken (S.remaining input.old) (S.remaining input.new)) }
    ensures cause { IfErr result (IsCause (S.fails input.new)) }
{
    match read_part(alloc, input)? {
        Part::Line(line) => Ok((Typed::Line(line), false)),
        Part::Last(line) => Ok((Typed::Line(line), true)),
        Part::Full => Ok((Typed::TooLong, skip_line(input)?)),
    }
}

/// The lines of a source. Nothing behind a line is read before it is asked for, and nothing behind the end: a terminal
/// would ask again.
#[derive(Drop)]
pub struct LinesOf<S: Drop> {
    input: S,
    is_over: bool,
}

impl<S: Source + Drop> LinesOf<S> {
    /// All lines of a source.
    pub fn new(input: S) -> LinesOf<S>
        ensures { result ≡ record { input = input; is_over = false } }
    {
        LinesOf {
            input,
            is_over: false,
        }
    }
}

impl<S: Source + Drop> TypedLines for LinesOf<S> {
    ghost remaining = { λ s. left_of s.is_over (S.remaining s.input) };

    ghost echo = { λ _. [] };

    ghost breaks = { λ s. S.fails s.input };

    fn next_line<W: Write>(&mut self, alloc: Global, out: &mut W) -> Result<Typed, TypingFault> {
        if out.flush().is_err() {
            return Err(TypingFault::Output);
        }
        if self.is_over {
            return Ok(Typed::Line(Vec::new(alloc)));
        }
        let (typed, is_over) = read_typed(alloc, &mut self.input)?;
        self.is_over = is_over;
        Ok(typed)
    }
}
