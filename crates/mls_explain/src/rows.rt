//! Stores with bad tables or rows: the row at which their opening stops.

use crate::teller::Told;
use mls_advice::Names;
use mls_audit::{EntryFault, entry_of};
use mls_fragments::{Design, OpenFault, bad_row};
use mls_rows::{Step, Where, tables_of};
use mls_scheme::RelNo;
use mls_tables::{AdoptFault, AllRows, AuditRow, CellRow, NodeRow, read_description};
use sqlite::{Alter, Connection};
use std::alloc::{AllocError, Global};

const UNDESCRIBED: &str =
    "  The file has other tables than a store, or no row of version 1 or 2 that describes one.\n";

const UNREAD: &str = "  A row of table node, cell or audit has a number that no store has.\n";

fn tell_node(text: &mut String, names: &Names, step: Step, node: &NodeRow) -> Told {
    let key = names.key_of(&node.ent)?;
    names.row_to(text, "node", node.rel, &key, node.kclass, node.label)?;
    text.push_str(match step {
        _ if names.scheme(node.rel).is_none() => ".\n  No relation has this number.\n",
        _ if !key.starts_with("(") => ".\n  Its key does not read as one.\n",
        Step::LooseNode => ".\n  Another row stands for the same tuple.\n",
        _ => ".\n  A class of it is no label of the store's policy.\n",
    })
}

fn tell_cell(text: &mut String, names: &Names, step: Step, cell: &CellRow) -> Told {
    let key = names.key_of(&cell.ent)?;
    names.row_to(text, "cell", cell.rel, &key, cell.kclass, cell.label)?;
    names.attribute_to(text, cell.rel, cell.attr)?;
    text.push_str(match step {
        _ if names.scheme(cell.rel).is_none() => ".\n  No relation has this number.\n",
        Step::LooseCell => ".\n  No tuple of table node has this element.\n",
        _ if !key.starts_with("(") => ".\n  Its key does not read as one.\n",
        _ => ".\n  Its value does not read as one, or a class of it is no label.\n",
    })
}

/// Tells of the tuple of a relation that has so many before it.
fn tell_tuple(
    text: &mut String,
    names: &Names,
    relation: RelNo,
    before: usize,
    rows: &AllRows,
) -> Told {
    let mut at = Where::start();
    names.schemes.use_invariant();
    let count = names.schemes.count();
    let Ok(tables) = tables_of(names.alloc, count, &rows.nodes, &rows.cells, &mut at) else {
        return Err(AllocError);
    };
    if let Some(table) = tables.get(relation.index())
        && let Some((place, _)) = table.iter().nth(before)
    {
        let key = names.values_of(&place.key)?;
        let relation = u32::from(relation.byte());
        let key_class = u32::from(place.key_class.byte());
        let class = u32::from(place.class.byte());
        names.row_to(text, "node", relation, &key, key_class, class)?;
        text.push_str(
            ".\n  A value or a class of it does not fit, or another tuple of its key is missing or differs.\n",
        )?;
    }
    Ok(())
}

/// The first attribute of a node whose element has the node's class, and no cell.
fn missing_attribute(node: &NodeRow, cells: &[CellRow]) -> Option<u32> {
    for (attr, class) in (0..u32::MAX).zip(node.pattern.iter()) {
        let is_own = u32::from(*class) == node.label;
        let mut beside = cells.iter().filter(|cell| {
            cell.rel == node.rel && cell.kclass == node.kclass && cell.label == node.label
        });
        if is_own && !beside.any(|cell| cell.attr == attr && cell.ent == node.ent) {
            return Some(attr);
        }
    }
    None
}

/// Tells of the first element that is missing.
fn tell_missing(text: &mut String, names: &Names, rows: &AllRows) -> Told {
    for node in &rows.nodes {
        if let Some(attr) = missing_attribute(node, &rows.cells) {
            let key = names.key_of(&node.ent)?;
            names.row_to(text, "node", node.rel, &key, node.kclass, node.label)?;
            names.attribute_to(text, node.rel, attr)?;
            return text.push_str(".\n  This element of it is missing in table cell.\n");
        }
    }
    Ok(())
}

fn tell_entry(alloc: Global, text: &mut String, step: Step, entry: &AuditRow) -> Told {
    let number = entry.number;
    write!(text, "  Table audit: number {number}.\n")?;
    if let Step::Number = step {
        return text.push_str("  Entries are numbered from 1, one by one.\n");
    }
    match entry_of(alloc, &entry.bytes) {
        Ok(_) => text.push_str("  Its label is none of the store's policy.\n"),
        Err(EntryFault::Memory) => Err(AllocError),
        Err(_) => text.push_str("  Its bytes are no entry.\n"),
    }
}

/// Tells of the row at which the opening of a store stops.
fn tell_row(text: &mut String, names: &Names, at: &Where, rows: &AllRows) -> Told {
    let (node, cell) = (rows.nodes.get(at.row), rows.cells.get(at.row));
    match (at.step, node, cell, rows.entries.get(at.row)) {
        (Step::Classes | Step::Node | Step::LooseNode, Some(node), _, _) => {
            tell_node(text, names, at.step, node)
        }
        (Step::Cell | Step::LooseCell, _, Some(cell), _) => tell_cell(text, names, at.step, cell),
        (Step::Number | Step::Entry, _, _, Some(entry)) => {
            tell_entry(names.alloc, text, at.step, entry)
        }
        (Step::Tuple(relation), _, _, _) => tell_tuple(text, names, relation, at.row, rows),
        (Step::MissingCell, _, _, _) => tell_missing(text, names, rows),
        _ => Ok(()),
    }
}

/// Tells of the tables or the row at which the opening of a connection's store stops.
pub(crate) fn tell_bad<S: Alter>(
    alloc: Global,
    text: &mut String,
    design: &Design<'_>,
    conn: &mut Connection<S>,
) -> Told {
    let described = match read_description(conn, alloc) {
        Ok(described) => described,
        Err(AdoptFault::BadRows) => return text.push_str(UNDESCRIBED),
        Err(AdoptFault::Store | AdoptFault::Memory) => return Err(AllocError),
    };
    match bad_row(conn, alloc, design, &described) {
        Ok(Some((at, rows))) => {
            let names = Names {
                alloc,
                policy: design.policy,
                schemes: &design.file.schemes,
            };
            tell_row(text, &names, &at, &rows)
        }
        Ok(None) => Ok(()),
        Err(OpenFault::BadRows) => text.push_str(UNREAD),
        Err(_) => Err(AllocError),
    }
}
