//! Whether a database has the four tables.
ghost use Rattle.std.specs.Prelude.{◌≡◌, ◌↔◌, true, false, [], ◌∷◌, Some, map, take, drop, IsTrue};
ghost use Rattle.std.specs.List.{list_all};
ghost use Rattle.sqlite.specs.Held.{state};
ghost use Rattle.sqlite_value.specs.Keys.{plain};
ghost use Rattle.mls_tables.specs.Schema.{needed, by_rowid, by_index, node, cell, audit, meta, no_others, schema};
ghost use Rattle.mls_tables.specs.Schema.{has_no_reference, is_on_others, BeginsWithTables, HasTables, key_index};
ghost use Rattle.mls_tables.specs.Schema.{HasNoRules, IsByRowid, IsByIndex};

use sqlite::{Alter, Connection};
use sqlite_schema::code::Terms;
use sqlite_schema::schema::{Column, Index, Kind, Schema, Table};
use sqlite_value::keys::{Collation, Order};
use sqlite_value::value::Value;

fn is_column(column: &Column, name: &str, kind: Kind) -> bool
    ensures { IsTrue result ↔ (column.now ≡ needed name.now kind) }
{
    column.name.as_slice() == name.as_bytes()
        && column.kind == kind
        && column.is_strict
        && column.not_null
        && matches!(column.default, Value::Null)
        && column.collation == Collation::Binary
}

/// Whether the columns have these names and kinds, take values of their kinds alone, and no NULL.
fn are_columns(columns: &[Column], wanted: &[(&str, Kind)]) -> bool
    ensures { IsTrue result ↔ (columns.now ≡ map (λ w. needed w.0.now w.1) wanted.now) }
{
    if columns.len() != wanted.len() {
        return false;
    }
    for (at, (name, kind)) in wanted.iter().enumerate() {
        if !is_column(&columns[at], name, *kind) {
            return false;
        }
    }
    true
}

fn has_no_term(terms: &Terms) -> bool
    ensures { IsTrue result ↔ (terms.now ≡ []) }
{
    terms.roots.is_empty()
}

/// Whether the table has no CHECK, reference, computed default or AUTOINCREMENT.
fn has_no_rules(table: &Table) -> bool
    ensures { IsTrue result ↔ HasNoRules table.now }
{
    has_no_term(&table.checks)
        && table.references.is_empty()
        && table.computed.is_empty()
        && table.stamps.places.is_empty()
        && has_no_term(&table.stamps.terms)
        && table.stamps.formats.is_empty()
        && !table.is_counted
}

/// Whether the first column is the rowid and the only key.
fn is_by_rowid(table: &Table) -> bool
    ensures { IsTrue result ↔ IsByRowid table.now }
{
    let [primary] = table.primary.as_slice() else {
        return false;
    };
    table.key == Some(0) && *primary == 0 && table.uniques.is_empty() && table.orders.is_empty()
}

fn is_plain(orders: &[Order]) -> bool
    ensures { IsTrue result ↔ (orders.now ≡ plain ∷ []) }
{
    let [order] = orders else {
        return false;
    };
    order.digits == 0
}

fn has_one_index(table: &Table, places: &[usize]) -> bool
    ensures { IsTrue result ↔ ((table.now.uniques ≡ places.now ∷ []) × (table.now.orders ≡ plain ∷ [])) }
{
    let [unique] = table.uniques.as_slice() else {
        return false;
    };
    unique.as_slice() == places && is_plain(table.orders.as_slice())
}

/// Whether the columns at these places are the only key.
fn is_by_index(table: &Table, places: &[usize]) -> bool
    ensures { IsTrue result ↔ IsByIndex places.now table.now }
{
    table.key.is_none() && table.primary.as_slice() == places && has_one_index(table, places)
}

/// Whether the table has this name, this tree and these columns.
fn has_shape(table: &Table, name: &str, tree: u32, columns: &[(&str, Kind)]) -> bool
    ensures { IsTrue result ↔ ((table.now.name ≡ name.now)
        × ((table.now.tree ≡ tree) × (table.now.columns ≡ map (λ w. needed w.0.now w.1) columns.now))) }
{
    table.name.as_slice() == name.as_bytes()
        && table.tree == tree
        && are_columns(table.columns.as_slice(), columns)
}

fn is_rowid_table(table: &Table, name: &str, tree: u32, columns: &[(&str, Kind)]) -> bool
    ensures { IsTrue result ↔ (table.now ≡ by_rowid name.now tree (map (λ w. needed w.0.now w.1) columns.now)) }
{
    has_shape(table, name, tree, columns) && is_by_rowid(table) && has_no_rules(table)
}

fn is_index_table(
    table: &Table,
    name: &str,
    tree: u32,
    columns: &[(&str, Kind)],
    places: &[usize],
) -> bool
    ensures { IsTrue result ↔ (table.now
        ≡ by_index name.now tree (map (λ w. needed w.0.now w.1) columns.now) places.now) }
{
    has_shape(table, name, tree, columns) && is_by_index(table, places) && has_no_rules(table)
}

fn is_node(table: &Table) -> bool
    ensures { IsTrue result ↔ (table.now ≡ node) }
{
    let columns = [
        ("rel", Kind::Integer),
        ("ent", Kind::Blob),
        ("kclass", Kind::Integer),
        ("label", Kind::Integer),
        ("pattern", Kind::Blob),
    ];
    is_index_table(table, "node", 0, &columns, &[1, 2, 3, 4])
}

fn is_cell(table: &Table) -> bool
    ensures { IsTrue result ↔ (table.now ≡ cell) }
{
    let columns = [
        ("rel", Kind::Integer),
        ("ent", Kind::Blob),
        ("kclass", Kind::Integer),
        ("label", Kind::Integer),
        ("attr", Kind::Integer),
        ("value", Kind::Blob),
    ];
    is_index_table(table, "cell", 2, &columns, &[1, 2, 3, 5, 4])
}

fn is_audit(table: &Table) -> bool
    ensures { IsTrue result ↔ (table.now ≡ audit) }
{
    let columns = [("number", Kind::Integer), ("bytes", Kind::Blob)];
    is_rowid_table(table, "audit", 4, &columns)
}

fn is_meta(table: &Table) -> bool
    ensures { IsTrue result ↔ (table.now ≡ meta) }
{
    let columns = [
        ("id", Kind::Integer),
        ("version", Kind::Integer),
        ("lattice", Kind::Text),
        ("schemes", Kind::Text),
    ];
    is_rowid_table(table, "meta", 5, &columns)
}

/// Whether the four tables come first.
fn are_tables(tables: &[Table]) -> bool
    ensures { IsTrue result ↔ (take 4 tables.now ≡ (schema no_others).tables) }
{
    let [node, cell, audit, meta, ..] = tables else {
        return false;
    };
    is_node(node) && is_cell(cell) && is_audit(audit) && is_meta(meta)
}

fn is_index(index: &Index, name: &str, tree: u32, table: u32, places: &[usize]) -> bool
    ensures { IsTrue result ↔ (index.now ≡ key_index name.now tree table places.now) }
{
    index.name.as_slice() == name.as_bytes()
        && index.tree == tree
        && index.table == table
        && index.columns.as_slice() == places
        && index.order.digits == 0
        && index.is_unique
}

/// Whether the indexes of their keys come first.
fn are_indexes(indexes: &[Index]) -> bool
    ensures { IsTrue result ↔ (take 2 indexes.now ≡ (schema no_others).indexes) }
{
    let [node, cell, ..] = indexes else {
        return false;
    };
    is_index(node, "sqlite_autoindex_node_1", 1, 0, &[1, 2, 3, 4])
        && is_index(cell, "sqlite_autoindex_cell_1", 3, 2, &[1, 2, 3, 5, 4])
}

fn has_no_reference(table: &Table) -> bool
    ensures { result ≡ has_no_reference table.now }
{
    table.references.as_slice().is_empty()
}

/// Whether no table behind the four has a foreign key.
fn refer_to_nothing(tables: &[Table]) -> bool
    ensures { result ≡ list_all has_no_reference (drop 4 tables.now) }
{
    tables.iter().skip(4).all(|table| has_no_reference(table))
}

/// Whether no index behind the two is on one of the four tables.
fn are_on_others(indexes: &[Index]) -> bool
    ensures { result ≡ list_all is_on_others (drop 2 indexes.now) }
{
    indexes.iter().skip(2).all(|index| index.table > 5)
}

fn is_whole(found: &Schema) -> bool
    ensures { IsTrue result ↔ BeginsWithTables found.now }
{
    found.views.is_empty()
        && are_indexes(found.indexes.as_slice())
        && are_on_others(found.indexes.as_slice())
        && are_tables(found.tables.as_slice())
        && refer_to_nothing(found.tables.as_slice())
}

/// Whether the database has the four tables, made before any other, with no other index on them, and no view.
/// Other tables may stand behind them that have no foreign keys. A foreign key might set off actions, and an
/// index of others might refuse a row.
pub fn has_tables<S: Alter>(conn: &Connection<S>) -> bool
    ensures { IsTrue result ↔ HasTables (state S.Store conn.now).now.schema }
{
    is_whole(conn.schema())
}
