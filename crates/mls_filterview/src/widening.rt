//! Widening: the tuples of a relation that gains attributes get nulls for these.
ghost use Rattle.std.specs.Prelude.{◌≡◌, map, ◌++◌, IfOk};
ghost use Rattle.std.specs.BTreeMap.{IsOrdered};
ghost use Rattle.mls_scheme.specs.Table.{place_cmp};
ghost use Rattle.mls_filterview.specs.Assembly.{table_of};
ghost use Rattle.mls_filterview.specs.Widen.{nulls, widened_entry, IsWidened};

use crate::row::PlacedTuple;
use crate::tuple_map::{TupleMap, entries_of, put_tuple};
use mls_lattice::{Items, LabelNo};
use mls_scheme::Element;
use std::alloc::{AllocError, Global};
use std::collections::BTreeMap;

/// Elements with nulls at a class behind them.
fn with_nulls(
    elements: Items<Element>,
    count: usize,
    class: LabelNo,
) -> Result<Items<Element>, AllocError>
    ensures { IfOk result (λ wide. wide ≡ elements ++ nulls count class) }
{
    let mut wide = elements.into_vec();
    for _ in 0..count {
        wide.push(Element { value: None, class })?;
    }
    Ok(Items::from(wide))
}

/// The tuples, each at its place, with `count` nulls at the key class behind its elements.
pub fn widened(alloc: Global, rows: TupleMap, count: usize) -> Result<TupleMap, AllocError>
    ensures entries { IfOk result (λ wide. wide.entries ≡ map (widened_entry count) rows.entries) }
    ensures table { IfOk result (λ wide. IsWidened count (table_of rows.entries) (table_of wide.entries)) }
    ensures ordered { IfOk result (IsOrdered place_cmp) }
{
    let mut wide = BTreeMap::new(alloc);
    for row in entries_of(alloc, rows)? {
        let PlacedTuple { place, elements } = row;
        let wide_elements = with_nulls(elements, count, place.key_class)?;
        put_tuple(&mut wide, place, wide_elements)?;
    }
    Ok(wide)
}
