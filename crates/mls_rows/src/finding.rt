//! What the rows of a store hold: the tuples of each relation, put together and asked for the stored form, and the
//! entries.
ghost use Rattle.std.specs.Prelude.{◌≡◌, ◌↔◌, ◌≤◌, ℕ, List, length, map, nat_lt, IsTrue, IfOk, IfErr, OnOk};
ghost use Rattle.std.specs.Prelude.{IsPermutation, IsSorted, false, pos};
ghost use Rattle.std.specs.List.{AllByRecursion, list_all};
ghost use Rattle.mls_lattice.specs.Policy.{labels_of};
ghost use Rattle.mls_scheme.specs.Scheme.{AreUnder};
ghost use Rattle.mls_audit.specs.Spelling.{IsEntryOf};
ghost use Rattle.mls_filterview.specs.Content.{Content};
ghost use Rattle.mls_tables.specs.Adopting.{AreAll};
ghost use Rattle.mls_tables.specs.Rows.{Tables, numbered, are_numbered};
ghost use Rattle.mls_rows.specs.Finding.{IsMemory, IsNodeRow, IsCellRow, IsAssembled, AreAssembled, AreTables};
ghost use Rattle.mls_rows.specs.Finding.{is_within, IsSoundWithin, HasFound};
ghost use Rattle.mls_rows.specs.Holding.{Holds};
ghost use Rattle.mls_rows.specs.Condemning.{Condemns, CondemnsClasses, CondemnsEntry, CondemnsNumber, CondemnsReading};
ghost use Rattle.mls_rows.specs.Condemning.{CondemnsList, IsOfTuples, entry_cmp};

use crate::comparing::have_rows;
use crate::place::{Step, Where};
use crate::reading::{
    BadRow, RowFault, cells_of_relation, decoded_entries, nodes_of_relation, undecoded,
};
use mls_audit::entry_of;
use mls_filterview::{TupleMap, is_content, rows_of, values_of};
use mls_lattice::{Failed, Items, Policy};
use mls_scheme::{RelNo, Schemes};
use mls_tables::{AllRows, AuditRow, CellRow, NodeRow, are_numbered};
use std::alloc::{AllocError, Global};

/// The tuples of one relation, put together from its nodes and cells.
fn assembled(
    alloc: Global,
    relation: RelNo,
    nodes: &[NodeRow],
    cells: &[CellRow],
    at: &mut Where,
) -> Result<TupleMap, RowFault>
    ensures assembled { IfOk result (λ rows. IsAssembled relation nodes.now cells.now rows.entries) }
    ensures only { AllByRecursion IsNodeRow nodes.now → AllByRecursion IsCellRow cells.now → IfErr result IsMemory }
    ensures condemned { IfErr result (λ e. ¬ IsMemory e → CondemnsReading nodes.now cells.now at.new) }
{
    let nodes = nodes_of_relation(alloc, relation, nodes, at)?;
    let values = values_of(alloc, cells_of_relation(alloc, relation, cells, at)?)?;
    Ok(rows_of(alloc, nodes, &values)?)
}

/// The tuples of the first relations, by their numbers.
pub fn tables_of(
    alloc: Global,
    count: usize,
    nodes: &[NodeRow],
    cells: &[CellRow],
    at: &mut Where,
) -> Result<Vec<TupleMap>, RowFault>
    requires few { count ≤ 256 }
    ensures count { IfOk result (λ tables. length tables.items ≡ count) }
    ensures assembled { IfOk result (λ tables. AreAssembled nodes.now cells.now (map (λ t. t.entries) tables.items)) }
    ensures only { AllByRecursion IsNodeRow nodes.now → AllByRecursion IsCellRow cells.now → IfErr result IsMemory }
    ensures condemned { IfErr result (λ e. ¬ IsMemory e → CondemnsReading nodes.now cells.now at.new) }
{
    let mut tables = Vec::new(alloc);
    for relation in 0..count {
        tables.push(assembled(alloc, RelNo::new(relation as u8), nodes, cells, at)?)?;
    }
    Ok(tables)
}

/// Whether each table is content of its relation.
fn are_content(
    alloc: Global,
    policy: &Policy,
    schemes: &Schemes,
    tables: &[TupleMap],
    at: &mut Where,
) -> Result<bool, AllocError>
    requires under { AreUnder (length policy.now.labels) schemes.now }
    requires few { length tables.now ≤ 256 }
    requires within { length tables.now ≤ length schemes.now }
    ensures are { IfOk result (λ b. IsTrue b
        ↔ AreTables (labels_of policy.now) schemes.now (map (λ t. t.entries) tables.now)) }
    ensures condemned { IfOk result (λ b. b ≡ false → IsOfTuples at.new.step) }
{
    for (relation, table) in tables.iter().enumerate() {
        let relation = RelNo::new(relation as u8);
        at.begin(Step::Tuple(relation));
        let scheme = schemes.scheme(relation);
        if !is_content(alloc, policy, scheme, table, &mut at.row)? {
            return Ok(false);
        }
    }
    Ok(true)
}

/// Refuses bytes that are no entry of one of the first labels.
fn check_entry(alloc: Global, labels: usize, bytes: &[u8]) -> Result<(), RowFault>
    ensures found { OnOk result (IsEntryOf labels bytes.now) }
    ensures only { IsEntryOf labels bytes.now → IfErr result IsMemory }
{
    let label = entry_of(alloc, bytes).map_err(undecoded)?.label();
    if label.index() < labels {
        Ok(())
    } else {
        Err(Failed::Fault(BadRow))
    }
}

/// Refuses rows with bytes that are no entry of one of the first labels.
fn check_entries(
    alloc: Global,
    labels: usize,
    rows: &[AuditRow],
    at: &mut Where,
) -> Result<(), RowFault>
    ensures found { OnOk result (AllByRecursion (λ r. IsEntryOf labels r.bytes) rows.now) }
    ensures only { AllByRecursion (λ r. IsEntryOf labels r.bytes) rows.now → IfErr result IsMemory }
    ensures condemned { IfErr result (λ e. ¬ IsMemory e
        → (at.new.step ≡ Step.Entry) × CondemnsEntry labels rows.now at.new.row) }
{
    at.begin(Step::Entry);
    for row in rows {
        check_entry(alloc, labels, &row.bytes)?;
        at.pass();
    }
    Ok(())
}

/// Goes to the first row that has not the next number.
fn pass_numbered(rows: &[AuditRow], at: &mut Where)
    ensures { are_numbered (pos 1) rows.now ≡ false → (at.new.step ≡ Step.Number) × CondemnsNumber rows.now at.new.row }
{
    at.begin(Step::Number);
    let mut last: i64 = 0;
    for row in rows {
        last = last.saturating_add(1);
        if row.number != last {
            return;
        }
        at.pass();
    }
}

/// The entries of rows whose numbers are 1, 2, .. up to their count.
pub fn entries_of(
    alloc: Global,
    labels: usize,
    mut rows: Vec<AuditRow>,
    at: &mut Where,
) -> Result<Items<Items<u8>>, RowFault>
    ensures numbered { IfOk result (λ entries. IsPermutation (numbered 1 entries) rows.items) }
    ensures entries { IfOk result (AllByRecursion (IsEntryOf labels)) }
    ensures only { (list : List (List ℕ)) → IsPermutation (numbered 1 list) rows.items
        → AllByRecursion (IsEntryOf labels) list → IfErr result IsMemory }
    ensures condemned { IsSorted entry_cmp rows.items
        → IfErr result (λ e. ¬ IsMemory e → CondemnsList labels rows.items at.new) }
{
    rows.sort()?;
    if !are_numbered(&rows) {
        pass_numbered(&rows, at);
        return Err(Failed::Fault(BadRow));
    }
    check_entries(alloc, labels, &rows, at)?;
    Ok(decoded_entries(alloc, rows)?)
}

/// Whether classes are among the first labels.
fn are_declared(labels: usize, classes: &[u8]) -> bool
    ensures { result ≡ list_all (λ m. nat_lt m labels) classes.now }
{
    for &class in classes {
        if class as usize >= labels {
            return false;
        }
    }
    true
}

/// Whether the classes of a tuple are.
fn is_within(labels: usize, node: &NodeRow) -> bool
    ensures { result ≡ is_within labels node.now }
{
    (node.kclass as usize) < labels && are_declared(labels, &node.pattern)
}

/// Whether the classes of all tuples are.
fn are_within(labels: usize, nodes: &[NodeRow], at: &mut Where) -> bool
    ensures all { result ≡ list_all (is_within labels) nodes.now }
    ensures condemned { result ≡ false → (at.new.step ≡ Step.Classes) × CondemnsClasses labels nodes.now at.new.row }
{
    at.begin(Step::Classes);
    for node in nodes {
        if !is_within(labels, node) {
            return false;
        }
        at.pass();
    }
    true
}

/// What a store's rows hold.
#[derive(Drop)]
pub struct Found {
    /// The tuples of each relation, by its number.
    pub tables: Vec<TupleMap>,
    /// The entries of the audit list.
    pub entries: Items<Items<u8>>,
    /// The number of the last entry, 0 where there is none.
    pub last: i64,
}

/// What rows hold, where that is content of the stored form whose classes are among the first labels, and entries of
/// such
/// labels. Where it is not, the judging stands at a row of it, which is bad where it is judged alone.
pub fn find(
    alloc: Global,
    policy: &Policy,
    schemes: &Schemes,
    labels: usize,
    rows: AllRows,
    at: &mut Where,
) -> Result<Found, RowFault>
    requires under { AreUnder (length policy.now.labels) schemes.now }
    ensures found { IfOk result (HasFound policy.now schemes.now labels rows) }
    ensures only { (t : Tables) → AreAll t rows → (c : Content) → Holds t c
        → IsSoundWithin policy.now schemes.now labels c → IfErr result IsMemory }
    ensures condemned { IsSorted entry_cmp rows.entries.items → IfErr result (λ e. ¬ IsMemory e
        → Condemns labels rows.nodes.items rows.cells.items rows.entries.items at.new) }
{
    let AllRows {
        nodes,
        cells,
        entries,
    } = rows;
    policy.use_invariant();
    schemes.use_invariant();
    if !are_within(labels, &nodes, at) {
        return Err(Failed::Fault(BadRow));
    }
    let tables = tables_of(alloc, schemes.count(), &nodes, &cells, at)?;
    if !are_content(alloc, policy, schemes, &tables, at)? {
        return Err(Failed::Fault(BadRow));
    }
    if !have_rows(alloc, &tables, nodes, cells, at)? {
        return Err(Failed::Fault(BadRow));
    }
    let entries = entries_of(alloc, labels, entries, at)?;
    let Ok(last) = i64::try_from(entries.len()) else {
        return Err(Failed::Memory);
    };
    Ok(Found {
        tables,
        entries,
        last,
    })
}
