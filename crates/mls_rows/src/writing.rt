//! The rows of a tuple, of a value and of an entry, written.
ghost use Rattle.std.specs.Prelude.{◌≡◌, ◌<◌, ◌+ℤ◌, pos, true, map, IfOk, IfSome, OnOk};
ghost use Rattle.std.specs.List.{AllByRecursion};
ghost use Rattle.mls_scheme.specs.Spelling.{HasSpelling, IsSpelledKey, key_spelling};
ghost use Rattle.mls_tables.specs.Rows.{cell_beside};
ghost use Rattle.mls_tables.specs.Statements.{SetsCell, AddsEntry};
ghost use Rattle.mls_tables.specs.Store.{IsClean, Writes};
ghost use Rattle.mls_rows.specs.Calls.{IsRowStep, IsSpelledTuple, CanSetValue};
ghost use Rattle.mls_rows.specs.Holding.{node_row, cell_row, value_bytes, IsSpelledCell, value_row, own_cell};
ghost use Rattle.mls_rows.specs.Holding.{tuple_key, AddsTuple, DropsTuple};

use crate::reading::abandon_for_memory;
use mls_filterview::{Cell, Node};
use mls_lattice::{Items, LabelNo};
use mls_scheme::{Place, RelNo, Value, key_bytes, value_bytes};
use mls_tables::{AuditRow, CellRow, NodeRow, OwnCell, StoreFault, TableStore, TupleKey};
use sqlite::Alter;
use std::alloc::{AllocError, Global};

fn bytes_of(alloc: Global, pattern: &[LabelNo]) -> Result<Items<u8>, AllocError>
    ensures made { IfOk result (λ bytes. bytes ≡ pattern.now) }
{
    let mut bytes = Vec::new(alloc);
    for label in pattern {
        bytes.push(label.byte())?;
    }
    Ok(Items::from(bytes))
}

/// The bytes of a value, and 0 for null.
fn bytes_of_value(alloc: Global, value: &Option<Value>) -> Result<Items<u8>, AllocError>
    requires { IfSome value.now HasSpelling }
    ensures made { IfOk result (λ bytes. bytes ≡ value_bytes value.now) }
{
    match value {
        Some(value) => Ok(Items::from(value_bytes(alloc, value)?)),
        None => {
            let mut null = Vec::new(alloc);
            null.push(0)?;
            Ok(Items::from(null))
        }
    }
}

fn ent_of(alloc: Global, key: &[Value]) -> Result<Items<u8>, AllocError>
    requires { IsSpelledKey key.now }
    ensures made { IfOk result (λ bytes. bytes ≡ key_spelling key.now) }
{
    Ok(Items::from(key_bytes(alloc, key)?))
}

/// The key of the tuple at a place.
pub(crate) fn key_of_place(
    alloc: Global,
    relation: RelNo,
    place: &Place,
) -> Result<TupleKey, AllocError>
    requires { IsSpelledKey place.now.key }
    ensures made { IfOk result (λ key. key ≡ tuple_key relation place.now) }
{
    Ok(TupleKey {
        rel: u32::from(relation.byte()),
        ent: ent_of(alloc, &place.key)?,
        kclass: u32::from(place.key_class.byte()),
        label: u32::from(place.class.byte()),
    })
}

/// The number of an attribute. No memory is left for a tuple that has so many that one's would not fit.
fn number_of(attr: usize) -> Result<u32, AllocError>
    ensures made { IfOk result (λ number. number ≡ attr) }
{
    match u32::try_from(attr) {
        Ok(number) => Ok(number),
        Err(_) => Err(AllocError),
    }
}

pub(crate) fn row_of_node(
    alloc: Global,
    relation: RelNo,
    node: &Node,
) -> Result<NodeRow, AllocError>
    requires { IsSpelledKey node.now.key }
    ensures made { IfOk result (λ row. row ≡ node_row relation node.now) }
    ensures classes { OnOk result ((node.now.key_class < 256) × (node.now.label < 256)) }
{
    Ok(NodeRow {
        rel: u32::from(relation.byte()),
        ent: ent_of(alloc, &node.key)?,
        kclass: u32::from(node.key_class.byte()),
        label: u32::from(node.label.byte()),
        pattern: bytes_of(alloc, &node.pattern)?,
    })
}

pub(crate) fn row_of_cell(
    alloc: Global,
    relation: RelNo,
    cell: &Cell,
) -> Result<CellRow, AllocError>
    requires { IsSpelledCell cell.now }
    ensures made { IfOk result (λ row. row ≡ cell_row relation cell.now) }
{
    Ok(CellRow {
        rel: u32::from(relation.byte()),
        ent: ent_of(alloc, &cell.key)?,
        kclass: u32::from(cell.key_class.byte()),
        label: u32::from(cell.label.byte()),
        attr: number_of(cell.attr)?,
        value: bytes_of_value(alloc, &cell.value)?,
    })
}

fn row_of_value(
    alloc: Global,
    relation: RelNo,
    place: &Place,
    attr: usize,
    value: &Option<Value>,
) -> Result<CellRow, AllocError>
    requires key { IsSpelledKey place.now.key }
    requires value { IfSome value.now HasSpelling }
    ensures made { IfOk result (λ row. row ≡ value_row relation place.now attr value.now) }
{
    Ok(CellRow {
        rel: u32::from(relation.byte()),
        ent: ent_of(alloc, &place.key)?,
        kclass: u32::from(place.key_class.byte()),
        label: u32::from(place.class.byte()),
        attr: number_of(attr)?,
        value: bytes_of_value(alloc, value)?,
    })
}

/// A cell of a tuple's own class, beside the tuple's node.
fn own_of(alloc: Global, cell: &Cell) -> Result<OwnCell, AllocError>
    requires { IfSome cell.now.value HasSpelling }
    ensures made { IfOk result (λ own. own ≡ own_cell cell.now) }
{
    Ok(OwnCell {
        attr: number_of(cell.attr)?,
        value: bytes_of_value(alloc, &cell.value)?,
    })
}

/// The cells of a tuple's own class, beside its node.
fn own_cells(alloc: Global, cells: &[Cell]) -> Result<Vec<OwnCell>, AllocError>
    requires { AllByRecursion (λ c. IfSome c.value HasSpelling) cells.now }
    ensures made { IfOk result (λ own. own.items ≡ map own_cell cells.now) }
{
    let mut own = Vec::new(alloc);
    for cell in cells {
        own.push(own_of(alloc, cell)?)?;
    }
    Ok(own)
}

/// The rows of a tuple: its node, and beside it the elements of its class. The key is spelled once.
#[derive(Drop)]
struct TupleRows {
    node: NodeRow,
    own: Vec<OwnCell>,
}

fn rows_of_tuple(
    alloc: Global,
    relation: RelNo,
    node: &Node,
    cells: &[Cell],
) -> Result<TupleRows, AllocError>
    requires { IsSpelledTuple node.now cells.now }
    ensures node { IfOk result (λ rows. rows.node ≡ node_row relation node.now) }
    ensures own { IfOk result (λ rows. map (cell_beside rows.node) rows.own.items ≡ map (cell_row relation) cells.now) }
    ensures classes { OnOk result ((node.now.key_class < 256) × (node.now.label < 256)) }
{
    Ok(TupleRows {
        node: row_of_node(alloc, relation, node)?,
        own: own_cells(alloc, cells)?,
    })
}

/// Adds a tuple, in a change: its node and the elements of its class, by two statements, or one where there are none.
pub fn add_tuple<S: Alter>(
    store: &mut TableStore<S>,
    alloc: Global,
    relation: RelNo,
    node: &Node,
    cells: &[Cell],
) -> Result<(), StoreFault>
    requires begun { store.old.begun ≡ true }
    requires tuple { IsSpelledTuple node.now cells.now }
    ensures step { IsRowStep store.old store.new result }
    ensures classes { OnOk result ((node.now.key_class < 256) × (node.now.label < 256)) }
    ensures done { IsClean store.new → OnOk result
        (Writes (AddsTuple (node_row relation node.now) (map (cell_row relation) cells.now)) store.old store.new) }
{
    match rows_of_tuple(alloc, relation, node, cells) {
        Ok(rows) => {
            store.add_node(&rows.node)?;
            store.add_cells(&rows.node, &rows.own)
        }
        Err(AllocError) => Err(abandon_for_memory(store)),
    }
}

/// Gives an element, which stands once, its value, in a change. `place` names the entity and the element's class.
pub fn set_value<S: Alter>(
    store: &mut TableStore<S>,
    alloc: Global,
    relation: RelNo,
    place: &Place,
    attr: usize,
    value: &Option<Value>,
) -> Result<(), StoreFault>
    requires begun { store.old.begun ≡ true }
    requires can { CanSetValue store.old relation place.now attr value.now }
    ensures step { IsRowStep store.old store.new result }
    ensures done { IsClean store.new → OnOk result
        (Writes (SetsCell (value_row relation place.now attr value.now)) store.old store.new) }
{
    match row_of_value(alloc, relation, place, attr, value) {
        Ok(row) => store.set_cell(&row),
        Err(AllocError) => Err(abandon_for_memory(store)),
    }
}

/// Drops the node at a place, and the elements of its class, in a change.
pub fn drop_tuple<S: Alter>(
    store: &mut TableStore<S>,
    alloc: Global,
    relation: RelNo,
    place: &Place,
) -> Result<(), StoreFault>
    requires begun { store.old.begun ≡ true }
    requires key { IsSpelledKey place.now.key }
    ensures step { IsRowStep store.old store.new result }
    ensures done { IsClean store.new → OnOk result (Writes (DropsTuple relation place.now) store.old store.new) }
{
    let key = match key_of_place(alloc, relation, place) {
        Ok(key) => key,
        Err(AllocError) => return Err(abandon_for_memory(store)),
    };
    store.drop_node(&key)?;
    store.drop_cells(&key)
}

fn entry_of(alloc: Global, bytes: &[u8]) -> Result<Items<u8>, AllocError>
    ensures made { IfOk result (λ entry. entry ≡ bytes.now) }
{
    let mut entry = Vec::new(alloc);
    entry.extend_from_slice(bytes)?;
    Ok(Items::from(entry))
}

/// The row of the entry after the last one. No memory is left for one whose number would not fit.
fn row_of_entry(alloc: Global, last: i64, bytes: &[u8]) -> Result<AuditRow, AllocError>
    ensures made { IfOk result (λ row. row ≡ record { number = last +ℤ pos 1; bytes = bytes.now }) }
{
    let Some(number) = last.checked_add(1) else {
        return Err(AllocError);
    };
    let bytes = entry_of(alloc, bytes)?;
    Ok(AuditRow { number, bytes })
}

/// Adds an entry after the last one, in a change, and answers its number.
pub fn add_entry<S: Alter>(
    store: &mut TableStore<S>,
    alloc: Global,
    last: i64,
    bytes: &[u8],
) -> Result<i64, StoreFault>
    requires begun { store.old.begun ≡ true }
    ensures step { IsRowStep store.old store.new result }
    ensures number { IfOk result (λ number. number ≡ last +ℤ pos 1) }
    ensures done { IsClean store.new → OnOk result
        (Writes (AddsEntry (record { number = last +ℤ pos 1; bytes = bytes.now })) store.old store.new) }
{
    match row_of_entry(alloc, last, bytes) {
        Ok(row) => {
            store.add_entry(&row)?;
            Ok(row.number)
        }
        Err(AllocError) => Err(abandon_for_memory(store)),
    }
}
