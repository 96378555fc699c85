//! Where the canonical texts of a store differ from those of the files.
use crate::columns::Told;

/// How many characters are told of a line.
const WIDTH: usize = 160;

/// Appends what a line is, if there is one.
fn line_to(text: &mut String, line: Option<&str>) -> Told {
    let Some(line) = line else {
        return text.push_str(": none.\n");
    };
    text.push_str(": `")?;
    for c in line.chars().take(WIDTH) {
        text.push(c)?;
    }
    text.push_str("`.\n")
}

/// Appends the first line in which a text of a store differs from that of the files. What they say is given in the
/// plural.
pub fn difference_to(text: &mut String, what: &str, kept: &str, present: &str) -> Told {
    let same = kept
        .lines()
        .zip(present.lines())
        .take_while(|pair| pair.0 == pair.1)
        .count();
    let number = same.saturating_add(1);
    write!(text, "  Line {number} of the store's {what}")?;
    line_to(text, kept.lines().nth(same))?;
    write!(text, "  Line {number} of those of the files")?;
    line_to(text, present.lines().nth(same))
}

/// The first line that begins a relation and is none of another text.
fn relation_beside<'a>(text: &'a str, other: &str) -> Option<&'a str> {
    text.lines().find(|line| line.starts_with("relation ")
        && !other.lines().any(|one| one == *line))
}

/// Appends a relation that only the files have, and one that only the store has.
pub fn relations_to(text: &mut String, kept: &str, present: &str) -> Told {
    if let Some(relation) = relation_beside(present, kept) {
        write!(text, "  The store has no {relation}")?;
        text.push_str(". Schemes of version 2 may add one behind its own.\n")?;
    }
    if let Some(relation) = relation_beside(kept, present) {
        write!(text, "  The files have no {relation}")?;
        text.push_str(", and no store loses one.\n")?;
    }
    Ok(())
}
