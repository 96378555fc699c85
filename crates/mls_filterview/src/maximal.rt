//! The rows that no other row subsumes, one entity after another.
ghost use Rattle.std.specs.Prelude.{◌≡◌, ◌≤◌, ◌&&◌, ◌++◌, not, length, map, IfOk, OnOk, filter};
ghost use Rattle.std.specs.List.{list_any, prefix_len};
ghost use Rattle.mls_scheme.specs.Table.{tuple_at};
ghost use Rattle.mls_filterview.specs.Subsumption.{subsumes_entry, is_max_among, flagged, AreByEntity};
ghost use Rattle.mls_filterview.specs.Stored.{is_entity};

use crate::entity::is_entity;
use crate::row::PlacedTuple;
use crate::subsumption::all_cover;
use mls_scheme::{Place, Tuple};
use std::alloc::{AllocError, Global};

/// Whether a row subsumes another.
fn subsumes_row(left: &PlacedTuple, right: &PlacedTuple) -> bool
    ensures { result ≡ subsumes_entry left.now right.now }
{
    is_entity(&left.place, &right.place) && all_cover(&left.elements, &right.elements)
}

/// Whether a row subsumes this one, and this one does not subsume it.
fn is_subsumed(rows: &[PlacedTuple], row: &PlacedTuple) -> bool
    ensures { result ≡ list_any (λ d. subsumes_entry d row.now && not (subsumes_entry row.now d)) rows.now }
{
    rows.iter().any(|other| subsumes_row(other, row) && !subsumes_row(row, other))
}

/// Whether this row subsumes each that subsumes it.
fn is_maximal(rows: &[PlacedTuple], row: &PlacedTuple) -> bool
    ensures { result ≡ is_max_among rows.now row.now }
{
    !is_subsumed(rows, row)
}

/// How many of the rows at the front are of the entity of a place.
fn entity_len(rows: &[PlacedTuple], place: &Place) -> usize
    ensures run { result ≡ prefix_len (λ d. is_entity d.0 place.now) rows.now }
    ensures within { result ≤ length rows.now }
{
    rows.iter()
        .take_while(|row| is_entity(&row.place, place))
        .count()
}

/// Adds, for each of these rows, whether no other of them subsumes it.
fn add_flags(flags: &mut Vec<bool>, rows: &[PlacedTuple]) -> Result<(), AllocError>
    ensures { OnOk result (flags.new.items ≡ flags.old.items ++ map (is_max_among rows.now) rows.now) }
{
    for row in rows {
        flags.push(is_maximal(rows, row))?;
    }
    Ok(())
}

/// For each row, whether no other row subsumes it. Rows come in the order of entities, so that each is compared with
/// those of
/// its own alone.
fn flags_of(alloc: Global, rows: &[PlacedTuple]) -> Result<Vec<bool>, AllocError>
    requires { AreByEntity rows.now }
    ensures { IfOk result (λ v. v.items ≡ map (is_max_among rows.now) rows.now) }
{
    let mut flags = Vec::with_capacity(alloc, rows.len())?;
    let mut rest = rows;
    while !rest.is_empty() {
        let first = &rest[0];
        let count = entity_len(rest, &first.place);
        let (front, after) = rest.split_at(count);
        add_flags(&mut flags, front)?;
        rest = after;
    }
    Ok(flags)
}

/// The tuples of the rows whose flag is set.
fn flagged(alloc: Global, rows: Vec<PlacedTuple>, flags: &[bool]) -> Result<Vec<Tuple>, AllocError>
    requires { length flags.now ≡ length rows.items }
    ensures { IfOk result (λ v. v.items ≡ map (λ e. tuple_at e.0 e.1) (flagged flags.now rows.items)) }
{
    let mut tuples = Vec::with_capacity(alloc, rows.len())?;
    for (at, row) in rows.into_iter().enumerate() {
        if flags[at] {
            tuples.push(row.into_tuple())?;
        }
    }
    Ok(tuples)
}

/// The tuples of rows that no other tuple subsumes. Rows come in the order of entities.
pub(crate) fn maximal_tuples(
    alloc: Global,
    rows: Vec<PlacedTuple>,
) -> Result<Vec<Tuple>, AllocError>
    requires { AreByEntity rows.items }
    ensures { IfOk result (λ v. v.items ≡ map (λ e. tuple_at e.0 e.1) (filter (is_max_among rows.items) rows.items)) }
{
    let flags = flags_of(alloc, &rows)?;
    flagged(alloc, rows, &flags)
}
