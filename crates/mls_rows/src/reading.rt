//! Nodes, cells and entries from rows.
ghost use Rattle.std.specs.Prelude.{◌≡◌, ◌↔◌, ◌<◌, ◌≤◌, ℕ, List, map, filter, nat_eq, Option, IsOk, IfOk, IfErr};
ghost use Rattle.std.specs.Prelude.{IfSome, IsPermutation};
ghost use Rattle.std.specs.List.{AllByRecursion, list_any};
ghost use Rattle.mls_lattice.specs.declared.failed.Failed.TheVariants.{Memory};
ghost use Rattle.mls_scheme.specs.declared.value.Value.{Value as SpecValue};
ghost use Rattle.mls_scheme.specs.declared.key_fault.KeyFault.TheVariants.{Memory as KeyMemory};
ghost use Rattle.mls_scheme.specs.Spelling.{HasSpelling, IsSpelledKey, key_spelling};
ghost use Rattle.mls_filterview.specs.Content.{Content};
ghost use Rattle.mls_filterview.specs.Fragment.{IsFragment, AreFragments};
ghost use Rattle.mls_tables.specs.Rows.{numbered, has_bit};
ghost use Rattle.mls_tables.specs.Store.{IsClean, IsStoreFault};
ghost use Rattle.mls_rows.specs.Calls.{IsRowRead};
ghost use Rattle.mls_rows.specs.Finding.{IsMemory, IsNodeRow, IsCellRow, AreReadable};
ghost use Rattle.mls_rows.specs.Condemning.{CondemnsNode, CondemnsCell};
ghost use Rattle.mls_rows.specs.Holding.{Holds, node_row, cell_row, value_bytes, IsSpelledNode, IsSpelledCell};

use crate::place::{Step, Where};
use mls_filterview::{Cell, Fragment, Node};
use mls_lattice::{Failed, Items, LabelNo};
use mls_scheme::{KeyFault, RelNo, Value, key_of, value_of};
use mls_tables::{AuditRow, CellRow, NodeRow, StoreFault, TableStore, are_numbered};
use sqlite::Alter;
use std::alloc::{AllocError, Global};

/// A row that stands for nothing.
#[derive(Clone, Copy)]
pub struct BadRow;

/// Why a row can't be read, or made.
pub type RowFault = Failed<BadRow>;

/// Why bytes of a row are no key, no value and no entry.
pub(crate) fn undecoded(fault: KeyFault) -> RowFault
    ensures { (fault ≡ KeyMemory) ↔ (result ≡ Memory) }
{
    match fault {
        KeyFault::Memory => Failed::Memory,
        _ => Failed::Fault(BadRow),
    }
}

/// Ends the change, if one is begun, for want of memory.
pub(crate) fn abandon_for_memory<S: Alter>(store: &mut TableStore<S>) -> StoreFault
    ensures clean { IsClean store.new → IsClean store.old }
    ensures fault { IsStoreFault result store.old store.new }
    ensures count { store.old.failures ≤ store.new.failures }
{
    store.abandon();
    StoreFault::Memory
}

/// Ends the change, if one is begun, after a row that can't be read or made. A row that can't be read is a failure of a
/// store
/// that gives back other rows than were written.
pub(crate) fn abandon_at_row<S: Alter>(store: &mut TableStore<S>, fault: RowFault) -> StoreFault
    requires { (fault ≡ Memory → ⊥) → IsClean store.old → ⊥ }
    ensures clean { IsClean store.new → IsClean store.old }
    ensures fault { IsStoreFault result store.old store.new }
    ensures count { store.old.failures ≤ store.new.failures }
{
    match fault {
        Failed::Fault(BadRow) => {
            store.abandon_corrupt();
            StoreFault::Store
        }
        Failed::Memory => abandon_for_memory(store),
    }
}

fn decoded_label(number: u32) -> Result<LabelNo, RowFault>
    ensures found { IfOk result (λ label. label ≡ number) }
    ensures only { number < 256 → IsOk result }
{
    match u8::try_from(number) {
        Ok(byte) => Ok(LabelNo::new(byte)),
        Err(_) => Err(Failed::Fault(BadRow)),
    }
}

fn decoded_key(alloc: Global, bytes: &[u8]) -> Result<Items<Value>, RowFault>
    ensures found { IfOk result (λ key. IsSpelledKey key × (key_spelling key ≡ bytes.now)) }
    ensures only { (key : List SpecValue) → IsSpelledKey key → bytes.now ≡ key_spelling key → IfErr result IsMemory }
{
    Ok(Items::from(key_of(alloc, bytes).map_err(undecoded)?))
}

pub(crate) fn decoded_pattern(alloc: Global, bytes: &[u8]) -> Result<Items<LabelNo>, AllocError>
    ensures { IfOk result (λ pattern. pattern ≡ bytes.now) }
{
    let mut labels = Vec::new(alloc);
    for byte in bytes {
        labels.push(LabelNo::new(*byte))?;
    }
    Ok(Items::from(labels))
}

fn decoded_node(alloc: Global, row: &NodeRow) -> Result<Node, RowFault>
    ensures found { IfOk result (λ n. (node_row row.now.rel n ≡ row.now) × IsSpelledNode n) }
    ensures only { IsNodeRow row.now → IfErr result IsMemory }
{
    Ok(Node {
        key: decoded_key(alloc, &row.ent)?,
        key_class: decoded_label(row.kclass)?,
        label: decoded_label(row.label)?,
        pattern: decoded_pattern(alloc, &row.pattern)?,
    })
}

/// The nodes of one relation among rows.
pub(crate) fn nodes_of_relation(
    alloc: Global,
    relation: RelNo,
    rows: &[NodeRow],
    at: &mut Where,
) -> Result<Items<Node>, RowFault>
    ensures shown { IfOk result (λ nodes. map (node_row relation) nodes
        ≡ filter (λ r. nat_eq r.rel relation) rows.now) }
    ensures spelled { IfOk result (AllByRecursion IsSpelledNode) }
    ensures only { AllByRecursion IsNodeRow rows.now → IfErr result IsMemory }
    ensures condemned { IfErr result (λ e. ¬ IsMemory e
        → (at.new.step ≡ Step.Node) × CondemnsNode rows.now at.new.row) }
{
    at.begin(Step::Node);
    let mut nodes = Vec::new(alloc);
    for row in rows {
        if row.rel == u32::from(relation.byte()) {
            nodes.push(decoded_node(alloc, row)?)?;
        }
        at.pass();
    }
    Ok(Items::from(nodes))
}

fn decoded_value(alloc: Global, bytes: &[u8]) -> Result<Option<Value>, RowFault>
    ensures found { IfOk result (λ value. (value_bytes value ≡ bytes.now) × IfSome value HasSpelling) }
    ensures only { (value : Option SpecValue) → IfSome value HasSpelling → bytes.now ≡ value_bytes value
        → IfErr result IsMemory }
{
    if let [0] = bytes {
        return Ok(None);
    }
    let (value, taken) = value_of(alloc, bytes).map_err(undecoded)?;
    if taken < bytes.len() {
        return Err(Failed::Fault(BadRow));
    }
    Ok(Some(value))
}

fn decoded_cell(alloc: Global, row: &CellRow) -> Result<Cell, RowFault>
    ensures found { IfOk result (λ c. (cell_row row.now.rel c ≡ row.now) × IsSpelledCell c) }
    ensures only { IsCellRow row.now → IfErr result IsMemory }
{
    Ok(Cell {
        key: decoded_key(alloc, &row.ent)?,
        key_class: decoded_label(row.kclass)?,
        attr: row.attr as usize,
        label: decoded_label(row.label)?,
        value: decoded_value(alloc, &row.value)?,
    })
}

/// The cells of one relation among rows.
pub(crate) fn cells_of_relation(
    alloc: Global,
    relation: RelNo,
    rows: &[CellRow],
    at: &mut Where,
) -> Result<Items<Cell>, RowFault>
    ensures shown { IfOk result (λ cells. map (cell_row relation) cells
        ≡ filter (λ r. nat_eq r.rel relation) rows.now) }
    ensures spelled { IfOk result (AllByRecursion IsSpelledCell) }
    ensures only { AllByRecursion IsCellRow rows.now → IfErr result IsMemory }
    ensures condemned { IfErr result (λ e. ¬ IsMemory e
        → (at.new.step ≡ Step.Cell) × CondemnsCell rows.now at.new.row) }
{
    at.begin(Step::Cell);
    let mut cells = Vec::new(alloc);
    for row in rows {
        if row.rel == u32::from(relation.byte()) {
            cells.push(decoded_cell(alloc, row)?)?;
        }
        at.pass();
    }
    Ok(Items::from(cells))
}

pub(crate) fn fragment_of_relation(
    alloc: Global,
    relation: RelNo,
    nodes: &[NodeRow],
    cells: &[CellRow],
) -> Result<Fragment, RowFault>
    ensures nodes { IfOk result (λ f. map (node_row relation) f.nodes ≡ filter (λ r. nat_eq r.rel relation) nodes.now) }
    ensures cells { IfOk result (λ f. map (cell_row relation) f.cells ≡ filter (λ r. nat_eq r.rel relation) cells.now) }
    ensures spelled { IfOk result (λ f. AllByRecursion IsSpelledNode f.nodes × AllByRecursion IsSpelledCell f.cells) }
    ensures only { AllByRecursion IsNodeRow nodes.now → AllByRecursion IsCellRow cells.now → IfErr result IsMemory }
{
    let mut at = Where::start();
    Ok(Fragment {
        nodes: nodes_of_relation(alloc, relation, nodes, &mut at)?,
        cells: cells_of_relation(alloc, relation, cells, &mut at)?,
    })
}

/// What a label holds of a relation.
pub fn read_fragment<S: Alter>(
    store: &mut TableStore<S>,
    alloc: Global,
    relation: RelNo,
    label: LabelNo,
) -> Result<Fragment, StoreFault>
    requires readable { IsClean store.old → AreReadable store.old.now }
    ensures read { IsRowRead store.old store.new result }
    ensures found { IsClean store.new → (c : Content) → Holds store.old.now c
        → IfOk result (IsFragment (c.db relation) label) }
{
    let nodes = store.nodes_of_class(u32::from(relation.byte()), u32::from(label.byte()))?;
    let cells = store.cells_of_class(u32::from(relation.byte()), u32::from(label.byte()))?;
    match fragment_of_relation(alloc, relation, &nodes, &cells) {
        Ok(fragment) => Ok(fragment),
        Err(fault) => Err(abandon_at_row(store, fault)),
    }
}

/// The labels as bits.
fn bits_of(labels: &[LabelNo]) -> u64
    requires { AllByRecursion (λ m. m < 64) labels.now }
    ensures { (m : ℕ) → has_bit result m ≡ list_any (λ k. nat_eq m k) labels.now }
{
    let mut bits = 0u64;
    for label in labels {
        bits |= 1u64 << label.index();
    }
    bits
}

/// What labels hold of a relation, read in one scan.
pub fn read_fragments<S: Alter>(
    store: &mut TableStore<S>,
    alloc: Global,
    relation: RelNo,
    labels: &[LabelNo],
) -> Result<Fragment, StoreFault>
    requires few { AllByRecursion (λ m. m < 64) labels.now }
    requires readable { IsClean store.old → AreReadable store.old.now }
    ensures read { IsRowRead store.old store.new result }
    ensures found { IsClean store.new → (c : Content) → Holds store.old.now c
        → IfOk result (AreFragments (c.db relation) labels.now) }
{
    let bits = bits_of(labels);
    let nodes = store.nodes_among(u32::from(relation.byte()), bits)?;
    let cells = store.cells_among(u32::from(relation.byte()), bits)?;
    match fragment_of_relation(alloc, relation, &nodes, &cells) {
        Ok(fragment) => Ok(fragment),
        Err(fault) => Err(abandon_at_row(store, fault)),
    }
}

pub(crate) fn decoded_entries(
    alloc: Global,
    rows: Vec<AuditRow>,
) -> Result<Items<Items<u8>>, AllocError>
    ensures { IfOk result (λ entries. entries ≡ map (λ r. r.bytes) rows.items) }
{
    let mut entries = Vec::new(alloc);
    for row in rows {
        entries.push(row.bytes)?;
    }
    Ok(Items::from(entries))
}

/// The entries of rows, in the order of their numbers, which are 1, 2, .. up to their count.
fn entries_in_order(alloc: Global, mut rows: Vec<AuditRow>) -> Result<Items<Items<u8>>, RowFault>
    ensures found { (list : List (List ℕ)) → IsPermutation (numbered 1 list) rows.items
        → IfOk result (λ entries. entries ≡ list) }
    ensures only { (list : List (List ℕ)) → IsPermutation (numbered 1 list) rows.items → IfErr result IsMemory }
{
    rows.sort()?;
    if !are_numbered(&rows) {
        return Err(Failed::Fault(BadRow));
    }
    Ok(decoded_entries(alloc, rows)?)
}

/// The entries of the audit list.
pub fn read_entries<S: Alter>(
    store: &mut TableStore<S>,
    alloc: Global,
) -> Result<Items<Items<u8>>, StoreFault>
    requires readable { IsClean store.old → AreReadable store.old.now }
    ensures read { IsRowRead store.old store.new result }
    ensures found { IsClean store.new → (c : Content) → Holds store.old.now c
        → IfOk result (λ entries. entries ≡ c.audit) }
{
    let rows = store.entries()?;
    match entries_in_order(alloc, rows) {
        Ok(entries) => Ok(entries),
        Err(fault) => Err(abandon_at_row(store, fault)),
    }
}
