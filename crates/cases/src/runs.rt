//! Lines that follow each other with one first word, told by their number.
use case_tables::Told;
use std::alloc::{AllocError, Global};

fn word_of(line: &str) -> &str {
    line.split_once(' ').map_or(line, |words| words.0)
}

/// Whether no line, or one with another first word, stands before a line.
fn begins_run(before: Option<&&str>, line: &str) -> bool {
    match before {
        Some(before) => word_of(before) != word_of(line),
        None => true,
    }
}

/// The last of the lines that follow each other with one first word, and how many there are.
fn end_of_run<'a>(first: &'a str, lines: &[&'a str]) -> (&'a str, usize) {
    let mut last = first;
    for (at, line) in lines.iter().enumerate() {
        if word_of(line) != word_of(first) {
            return (last, at);
        }
        last = line;
    }
    (last, lines.len())
}

fn push_run(first: &str, lines: &[&str], out: &mut Told) {
    let (last, count) = end_of_run(first, lines);
    out.push("  ");
    if count > 1 {
        out.push_count(count);
        out.push(" lines: ");
        out.push(first);
        out.push(" .. ");
    }
    out.push_line(last);
}

/// Adds lines by their runs with one first word.
fn push_lines(lines: &[&str], out: &mut Told) {
    let mut before = None;
    for (at, line) in lines.iter().enumerate() {
        if begins_run(before, line) {
            push_run(line, &lines[at..], out);
        }
        before = Some(line);
    }
}

/// Adds the lines of a text by their runs with one first word.
pub fn push_runs(alloc: Global, text: &str, out: &mut Told) -> Result<(), AllocError> {
    let lines: Vec<&str> = text.lines().collect(alloc)?;
    push_lines(&lines, out);
    Ok(())
}
