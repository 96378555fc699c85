//! Rows in columns, the first of them as a heading.
use std::alloc::{AllocError, Global};

/// That something was added to a text, or that memory lacks.
pub(crate) type Told = Result<(), AllocError>;

/// The bytes of the longest cell of a column.
fn width_of(rows: &[Vec<String>], place: usize) -> usize {
    let mut width = 0;
    for row in rows {
        width = row.get(place).map_or(0, |cell| cell.len()).max(width);
    }
    width
}

/// Appends rows of ASCII, with dashes below the first; nothing stands behind the last cell of a row.
pub(crate) fn columns_to(text: &mut String, rows: &[Vec<String>]) -> Told {
    for (number, row) in rows.iter().enumerate() {
        text.push_str("  ")?;
        cells_to(text, rows, row)?;
        if number == 0 {
            rule_to(text, rows, row.len())?;
        }
    }
    Ok(())
}

/// Appends the cells of one of some rows.
fn cells_to(text: &mut String, rows: &[Vec<String>], row: &[String]) -> Told {
    for (place, cell) in row.iter().enumerate() {
        if place + 1 == row.len() {
            writeln!(text, "{cell}")?;
        } else {
            let width = width_of(rows, place);
            write!(text, "{cell:width$} | ")?;
        }
    }
    Ok(())
}

/// Some words as a row.
pub(crate) fn row_of(alloc: Global, words: &[&str]) -> Result<Vec<String>, AllocError> {
    let mut row = Vec::new(alloc);
    for word in words {
        row.push(String::from_str(alloc, word)?)?;
    }
    Ok(row)
}

/// Appends the dashes below a heading of so many cells.
fn rule_to(text: &mut String, rows: &[Vec<String>], count: usize) -> Told {
    text.push_str("  ")?;
    for place in 1..count {
        let width = width_of(rows, place - 1);
        write!(text, "{:-<width$}-+-", "")?;
    }
    text.push_str("---\n")
}
