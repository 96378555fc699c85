//! How a table stands in its file.
ghost use Rattle.std.specs.Prelude.{◌≡◌, ◌↔◌, ◌++◌, map, string_bytes, codes, IfOk, IfSome, IsSome, OnOk, IsUtf8};
ghost use Rattle.std.specs.Prelude.{flat_map, take_while};
ghost use Rattle.std.specs.Str.Lines.{lines as lines_of};
ghost use Rattle.percent_encoding.specs.Percent.{percent_decode as decoded};
ghost use Rattle.case_tables.specs.Lines.{is_inner, inner_of, ended, indented_line, unbarred, IsCase, BeginsCase};

use percent_encoding::percent_decode;
use std::alloc::{AllocError, Global};

/// A case: a line, and the lines below it that two blanks begin.
#[derive(Clone, Copy)]
pub struct Case<'a> {
    pub head: &'a str,
    pub body: &'a [&'a str],
}

/// The case that the first of the lines begins. Empty lines and lines that `#` begins are for the reader of the table.
pub fn case_at<'a>(lines: &'a [&'a str]) -> Option<Case<'a>>
    ensures begins { IsSome result ↔ BeginsCase lines.now }
    ensures case { IfSome result (λ case. IsCase lines.now case.head case.body.now) }
{
    let (head, below) = lines.split_first()?;
    if head.is_empty() || head.starts_with('#') || head.starts_with("  ") {
        return None;
    }
    Some(Case {
        head,
        body: indented(below),
    })
}

/// The first lines, as long as two blanks begin them.
fn indented<'a>(lines: &'a [&'a str]) -> &'a [&'a str]
    ensures { result.now ≡ take_while (λ line. is_inner line.now) lines.now }
{
    for (at, line) in lines.iter().enumerate() {
        if !line.starts_with("  ") {
            return &lines[..at];
        }
    }
    lines
}

/// A line of a body without its two blanks.
pub fn inner<'a>(line: &'a str) -> &'a str
    ensures { result.now ≡ inner_of line.now }
{
    line.strip_prefix("  ").unwrap_or(line)
}

/// A byte, or a line feed for a bar.
fn unbarred(byte: u8) -> u8
    ensures { result ≡ unbarred byte }
{
    if byte == b'|' { b'\n' } else { byte }
}

/// The bytes of a text that stands in one line: a bar is a line feed, and `%` with two hexadecimal digits a byte.
pub fn unfolded(alloc: Global, line: &str) -> Result<Vec<u8>, AllocError>
    ensures { IfOk result (λ bytes. bytes.items ≡ map unbarred (decoded line.now)) }
{
    let mut read = Vec::new(alloc);
    percent_decode(line.as_bytes()).append_to(&mut read)?;
    let mut bytes = Vec::new(alloc);
    for byte in &read {
        bytes.push(unbarred(*byte))?;
    }
    Ok(bytes)
}

/// Writes a line and its end.
pub(crate) fn push_line(out: &mut String, line: &str) -> Result<(), AllocError>
    ensures { OnOk result (string_bytes out.new ≡ string_bytes out.old ++ ended line.now) }
{
    out.push_str(line)?;
    out.push('\n')
}

/// The lines of a body as one text.
pub fn joined(alloc: Global, body: &[&str]) -> Result<String, AllocError>
    ensures { IfOk result (λ text. string_bytes text ≡ flat_map (λ line. ended (inner_of line.now)) body.now) }
{
    let mut text = String::new(alloc);
    for line in body {
        push_line(&mut text, inner(line))?;
    }
    Ok(text)
}

/// Writes the lines of a text, each after two blanks where it is not empty.
pub(crate) fn indent(out: &mut String, text: &str) -> Result<(), AllocError>
    ensures { OnOk result (string_bytes out.new ≡ string_bytes out.old ++ flat_map indented_line (lines_of text.now)) }
{
    for line in text.lines() {
        out.push_str(if line.is_empty() { "" } else { "  " })?;
        push_line(out, line)?;
    }
    Ok(())
}

/// Bytes as text.
pub fn text_of(bytes: &[u8]) -> &str
    ensures text { IsUtf8 bytes.now → result.now ≡ bytes.now }
    ensures no_text { (IsUtf8 bytes.now → ⊥) → result.now ≡ codes "not UTF-8" }
{
    std::str::from_utf8(bytes).unwrap_or("not UTF-8")
}
