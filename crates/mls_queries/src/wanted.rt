//! The rows that a query asks for, by what each is itself.
ghost use Rattle.std.specs.Prelude.{◌≡◌, ◌&&◌, slice_index_or, IfOk, filter};
ghost use Rattle.mls_lattice.specs.Policy.{labels_of};
ghost use Rattle.mls_scheme.specs.Tuple.{no_tuple};
ghost use Rattle.mls_queries.specs.Query.{has_class, meets, is_wanted};
ghost use Rattle.mls_queries.specs.Places.{AreWithin};

use crate::classes::has_class;
use crate::condition::holds;
use mls_lattice::Policy;
use mls_scheme::Tuple;
use mls_translang::{Expr, Query};
use std::alloc::{AllocError, Global};

/// Whether a row passes the condition, if there is one.
fn meets(test: &Option<Expr>, row: &Tuple) -> bool
    ensures { result ≡ meets test.now row.now }
{
    match test {
        None => true,
        Some(test) => holds(test, row),
    }
}

/// Whether a row passes both tests of a query.
fn is_wanted(policy: &Policy, query: &Query, row: &Tuple) -> bool
    ensures { result ≡ is_wanted (labels_of policy.now) query.now row.now }
{
    has_class(policy, query.class, row) && meets(&query.test, row)
}

/// Those of these places whose rows pass both tests of a query.
pub(crate) fn wanted(
    alloc: Global,
    policy: &Policy,
    query: &Query,
    rows: &[Tuple],
    places: &[usize],
) -> Result<Vec<usize>, AllocError>
    requires { AreWithin rows.now places.now }
    ensures { IfOk result (λ v. v.items ≡ filter
        (λ p. is_wanted (labels_of policy.now) query.now (slice_index_or rows.now p no_tuple)) places.now) }
{
    let mut wanted = Vec::new(alloc);
    for place in places {
        if is_wanted(policy, query, &rows[*place]) {
            wanted.push(*place)?;
        }
    }
    Ok(wanted)
}
