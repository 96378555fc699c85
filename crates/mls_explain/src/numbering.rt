//! The lines of a transaction's canonical text, with the numbers of statements: on each line one begins at
//! most.
ghost use Rattle.std.specs.Prelude.{◌≡◌, ◌++◌, map, string_bytes, IfOk, OnOk};
ghost use Rattle.std.specs.Str.Lines.{lines};
ghost use Rattle.mls_explain.specs.Telling.{four, shown, IsListing};

use crate::teller::Told;
use std::alloc::{AllocError, Global};

/// Whether a statement begins on a line behind the first ones.
fn begins(line: &str) -> bool {
    let text = line.trim_start();
    !text.is_empty() && !text.starts_with('}')
}

/// Adds a number at the right end of four columns.
pub(crate) fn four_to(text: &mut String, number: usize) -> Told
    ensures { OnOk result (string_bytes text.new ≡ string_bytes text.old ++ four number) }
{
    write!(text, "{number:>4}")
}

/// Adds a line behind a number, if it has one.
fn line_to(text: &mut String, number: Option<usize>, line: &str) -> Told
    ensures { OnOk result (string_bytes text.new ≡ string_bytes text.old ++ shown number line.now) }
{
    match number {
        Some(number) => four_to(text, number)?,
        None => text.push_str("    ")?,
    }
    writeln!(text, "  {line}")
}

fn lines_of(alloc: Global, text: &str) -> Result<Vec<&str>, AllocError>
    ensures { IfOk result (λ v. map (λ l. l.now) v.items ≡ lines text.now) }
{
    text.lines().collect(alloc)
}

/// The lines of a text, the first of which have no statement, with the numbers of the others; the first line, and that
/// of each statement.
pub(crate) fn numbered(
    alloc: Global,
    heads: usize,
    printed: &str,
) -> Result<(String, Vec<&str>), AllocError>
    ensures { IfOk result (λ r. IsListing (lines printed.now) (string_bytes r.0)) }
{
    let lines = lines_of(alloc, printed)?;
    let mut text = String::new(alloc);
    let mut firsts = Vec::new(alloc);
    for (place, line) in lines.iter().enumerate() {
        let has_number = heads <= place && begins(line);
        let number = has_number.then_some(firsts.len());
        line_to(&mut text, number, line)?;
        if place == 0 || has_number {
            firsts.push(*line)?;
        }
    }
    Ok((text, firsts))
}
