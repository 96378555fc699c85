//! Rows of cells, in columns.
ghost use Rattle.std.specs.Prelude.{◌≡◌, ◌++◌, codes, slice_index, OnOk, IfOk, flat_map};
ghost use Rattle.std.proofs.Math.ListN.{replicate};
ghost use Rattle.mls_tokens.specs.Table.{columns, wider, padding, padded, ruled};

use crate::push_str;
use crate::width::columns;
use mls_lattice::Items;
use std::alloc::{AllocError, Global};

fn width_at(widths: &[usize], place: usize) -> usize
    ensures { result ≡ slice_index widths.now place }
{
    match widths.get(place) {
        Some(width) => *width,
        None => 0,
    }
}

/// The widths of columns that have room for one more row.
#[tactic(auto, using(crate::proofs::TableSteps::row_steps))]
pub fn wider(alloc: Global, widths: &[usize], cells: &[Items<u8>]) -> Result<Vec<usize>, AllocError>
    ensures { IfOk result (λ v. v.items ≡ wider widths.now 0 cells.now) }
{
    let mut wide = Vec::new(alloc);
    for (place, cell) in cells.iter().enumerate() {
        wide.push(width_at(widths, place).max(columns(cell)))?;
    }
    Ok(wide)
}

/// Appends a byte so many times.
fn push_copies(text: &mut Vec<u8>, byte: u8, count: usize) -> Result<(), AllocError>
    ensures { OnOk result (text.new.items ≡ text.old.items ++ replicate count byte) }
{
    for _ in 0..count {
        text.push(byte)?;
    }
    Ok(())
}

/// Appends a cell, blanks up to the width of its column, and what parts it from the next.
fn push_cell(text: &mut Vec<u8>, width: usize, cell: &[u8]) -> Result<(), AllocError>
    ensures { OnOk result (text.new.items ≡ text.old.items ++ (cell.now ++ padding width cell.now ++ codes " | ")) }
{
    text.extend_from_slice(cell)?;
    push_copies(text, b' ', width.saturating_sub(columns(cell)))?;
    push_str(text, " | ")
}

/// Appends the cells of a row, each as wide as its column.
#[tactic(auto, using(crate::proofs::TableSteps::row_steps))]
pub fn push_row(text: &mut Vec<u8>, widths: &[usize], cells: &[Items<u8>]) -> Result<(), AllocError>
    ensures { OnOk result (text.new.items ≡ text.old.items ++ padded widths.now 0 cells.now) }
{
    for (place, cell) in cells.iter().enumerate() {
        push_cell(text, width_at(widths, place), cell)?;
    }
    Ok(())
}

fn push_dashes(text: &mut Vec<u8>, width: usize) -> Result<(), AllocError>
    ensures { OnOk result (text.new.items ≡ text.old.items ++ ruled width) }
{
    push_copies(text, b'-', width)?;
    push_str(text, "-+-")
}

/// Appends dashes below each column.
pub fn push_rule(text: &mut Vec<u8>, widths: &[usize]) -> Result<(), AllocError>
    ensures { OnOk result (text.new.items ≡ text.old.items ++ flat_map ruled widths.now) }
{
    for width in widths {
        push_dashes(text, *width)?;
    }
    Ok(())
}
