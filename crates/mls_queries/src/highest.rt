//! The rows of each key above which no other one stands.
ghost use Rattle.std.specs.Prelude.{◌≡◌, ◌+◌, ◌<◌, ◌≤◌, ◌^◌, ◌++◌, length, IfOk, OnOk};
ghost use Rattle.std.specs.List.{list_any, prefix_len};
ghost use Rattle.mls_lattice.specs.Policy.{labels_of};
ghost use Rattle.mls_queries.specs.Query.{is_key, is_above, tops};
ghost use Rattle.mls_queries.specs.Places.{rows_at, AreWithin, AreByKey, is_top, places_from};

use crate::classes::{class_of, is_strictly_below};
use mls_lattice::{Items, Policy};
use mls_scheme::{Tuple, Value, order_keys};
use std::alloc::{AllocError, Global};

/// Whether two keys are one.
fn is_key(left: &Items<Value>, right: &Items<Value>) -> bool
    ensures { result ≡ is_key left.now right.now }
{
    order_keys(left, right).is_eq()
}

/// Whether a row stands above another of its key.
fn is_above(policy: &Policy, high: &Tuple, low: &Tuple) -> bool
    ensures { result ≡ is_above (labels_of policy.now) high.now low.now }
{
    is_key(&high.key, &low.key) && is_strictly_below(class_of(policy, low), class_of(policy, high))
}

/// Whether one of these rows stands above a row.
fn is_overtopped(policy: &Policy, rows: &[Tuple], row: &Tuple) -> bool
    ensures { result ≡ list_any (λ s. is_above (labels_of policy.now) s row.now) rows.now }
{
    rows.iter().any(|other| is_above(policy, other, row))
}

/// Whether none of these rows stands above a row.
fn is_top(policy: &Policy, rows: &[Tuple], row: &Tuple) -> bool
    ensures { result ≡ is_top (labels_of policy.now) rows.now row.now }
{
    !is_overtopped(policy, rows, row)
}

/// How many of the rows at the front have a key.
fn key_len(rows: &[Tuple], key: &Items<Value>) -> usize
    ensures run { result ≡ prefix_len (λ t. is_key t.key key.now) rows.now }
    ensures within { result ≤ length rows.now }
{
    rows.iter().take_while(|row| is_key(&row.key, key)).count()
}

/// Adds the places, from `start` on, of those of these rows above which none of them stands.
fn add_tops(
    places: &mut Vec<usize>,
    policy: &Policy,
    rows: &[Tuple],
    start: usize,
) -> Result<(), AllocError>
    requires { start + length rows.now < 2 ^ 64 }
    ensures { OnOk result (places.new.items
        ≡ places.old.items ++ places_from (is_top (labels_of policy.now) rows.now) start rows.now) }
{
    for (index, row) in rows.iter().enumerate() {
        if is_top(policy, rows, row) {
            places.push(start + index)?;
        }
    }
    Ok(())
}

/// The places of the rows above which no other row of their key stands. Views come in the order of keys, so that each
/// row is compared with those of its own key alone.
pub(crate) fn tops(alloc: Global, policy: &Policy, rows: &[Tuple]) -> Result<Vec<usize>, AllocError>
    ensures within { IfOk result (λ v. AreWithin rows.now v.items) }
    ensures rows { IfOk result (λ v. AreByKey rows.now
        → rows_at rows.now v.items ≡ tops (labels_of policy.now) rows.now) }
{
    let mut places = Vec::new(alloc);
    let mut start = 0;
    while start < rows.len() {
        let rest = &rows[start..];
        let count = key_len(rest, &rest[0].key);
        add_tops(&mut places, policy, &rest[..count], start)?;
        start += count;
    }
    Ok(places)
}
