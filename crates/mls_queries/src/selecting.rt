//! What a query finds among rows.
ghost use Rattle.std.specs.Prelude.{◌≡◌, IfOk};
ghost use Rattle.mls_lattice.specs.Policy.{labels_of};
ghost use Rattle.mls_queries.specs.Query.{highest_of, first_of, found};
ghost use Rattle.mls_queries.specs.Places.{rows_at, AreWithin, AreByKey, asks_nothing};

use crate::highest::tops;
use crate::selection::Selection;
use crate::wanted::wanted;
use mls_filterview::SharedView;
use mls_lattice::Policy;
use mls_scheme::Tuple;
use mls_translang::Query;
use std::alloc::{AllocError, Global};

/// The places of all rows.
#[tactic(auto, using(crate::proofs::PlaceLemmas::one_more))]
fn all(alloc: Global, rows: &[Tuple]) -> Result<Vec<usize>, AllocError>
    ensures within { IfOk result (λ v. AreWithin rows.now v.items) }
    ensures rows { IfOk result (λ v. rows_at rows.now v.items ≡ rows.now) }
{
    let mut places = Vec::with_capacity(alloc, rows.len())?;
    for place in 0..rows.len() {
        places.push(place)?;
    }
    Ok(places)
}

/// The places of all rows, or of the highest of each key.
fn highest(
    alloc: Global,
    policy: &Policy,
    highest: bool,
    rows: &[Tuple],
) -> Result<Vec<usize>, AllocError>
    ensures within { IfOk result (λ v. AreWithin rows.now v.items) }
    ensures rows { IfOk result (λ v. AreByKey rows.now
        → rows_at rows.now v.items ≡ highest_of (labels_of policy.now) highest rows.now) }
{
    if highest {
        tops(alloc, policy, rows)
    } else {
        all(alloc, rows)
    }
}

/// At most so many places, the first ones.
fn first(places: Vec<usize>, count: Option<usize>) -> Vec<usize>
    ensures { result.items ≡ first_of count places.items }
{
    let mut places = places;
    if let Some(count) = count {
        places.truncate(count);
    }
    places
}

/// The places of what a query finds among rows in the order of keys.
fn found(
    alloc: Global,
    policy: &Policy,
    rows: &[Tuple],
    query: &Query,
) -> Result<Vec<usize>, AllocError>
    ensures within { IfOk result (λ v. AreWithin rows.now v.items) }
    ensures rows { IfOk result (λ v. AreByKey rows.now
        → rows_at rows.now v.items ≡ found (labels_of policy.now) query.now rows.now) }
{
    let highest = highest(alloc, policy, query.highest, rows)?;
    let wanted = wanted(alloc, policy, query, rows, &highest)?;
    Ok(first(wanted, query.first))
}

/// Whether a query asks for all rows.
fn asks_nothing(query: &Query) -> bool
    ensures { result ≡ asks_nothing query.now }
{
    if query.highest || query.class.is_some() {
        return false;
    }
    query.test.is_none() && query.first.is_none()
}

/// What a query finds among the rows of a view, which come in the order of keys. No row is copied.
pub(crate) fn select(
    alloc: Global,
    policy: &Policy,
    view: SharedView,
    query: &Query,
) -> Result<Selection, AllocError>
    ensures { IfOk result (λ s. AreByKey view → s ≡ found (labels_of policy.now) query.now view) }
{
    if asks_nothing(query) {
        return Ok(Selection::whole(view));
    }
    let places = found(alloc, policy, view.as_slice(), query)?;
    Ok(Selection::at(view, places))
}
