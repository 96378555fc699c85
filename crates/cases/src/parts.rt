//! Texts of so many parts, which would be long to write out.
use case_tables::Told;
use std::alloc::{AllocError, Global};

/// Adds a part, with its number where `^` stands.
fn push_part(part: &str, number: usize, text: &mut Told) {
    for (at, piece) in part.split('^').enumerate() {
        if at > 0 {
            text.push_count(number);
        }
        text.push(piece);
    }
}

/// Adds what the first four words say: a number, a part that stands so many times, with its numbers from 1, what stands
/// between two, and what stands behind them.
fn push_group(words: &[&str], text: &mut Told) {
    let [count, part, between, back, ..] = words else {
        return;
    };
    for number in 0..count.parse::<u16>().unwrap_or(0) {
        if number > 0 {
            text.push(between);
        }
        push_part(part, number as usize + 1, text);
    }
    text.push(back);
}

/// The text of a front and groups of four words, with `~` between them.
pub fn parts_of(alloc: Global, line: &str) -> Result<Vec<u8>, AllocError> {
    let words: Vec<&str> = line.split('~').collect(alloc)?;
    let mut text = Told::new(alloc);
    for (at, word) in words.iter().enumerate() {
        if at == 0 {
            text.push(word);
        } else if at % 4 == 1 {
            push_group(&words[at..], &mut text);
        }
    }
    Ok(text.finish()?.into_bytes())
}
