//! Tuples by their places.
ghost use Rattle.std.specs.Prelude.{◌≡◌, refl, Some, IfOk};
ghost use Rattle.std.specs.Ordering.{eq_by_cmp};
ghost use Rattle.std.specs.Cmp.{partial_equiv_from_equiv, eq_by_cmp_equiv, po};
ghost use Rattle.std.specs.Cmp.Lexicographic.{slice_cmp};
ghost use Rattle.mls_scheme.specs.Table.{tuple_at};
ghost use Rattle.mls_filterview.specs.Filtering.{element_cmp, row_cmp};
ghost use Rattle.mls_filterview.specs.RowOrder.{row_total};

use mls_lattice::Items;
use mls_scheme::{Element, Place, Tuple, copy_key};
use std::alloc::AllocError;
use std::cmp::Ordering;
use std::marker::Model;

/// The place of a tuple, and its elements.
#[derive(Drop)]
pub(crate) struct PlacedTuple {
    pub place: Place,
    pub elements: Items<Element>,
}

impl Model for PlacedTuple {
    ghost use Rattle.std.specs.Prelude.{List};
    ghost use Rattle.mls_scheme.specs.declared.place.Place.{Place as At};
    ghost use Rattle.mls_scheme.specs.declared.tuple.Element.{Element as Part};

    ghost Value = { At × List Part };

    ghost view = { λ a. (a.place, a.elements) };
}

impl PlacedTuple {
    /// The tuple.
    pub fn into_tuple(self) -> Tuple
        ensures { result ≡ tuple_at self.0 self.1 }
    {
        Tuple {
            key: self.place.key,
            key_class: self.place.key_class,
            elements: self.elements,
        }
    }

    /// The order of rows: by place, and at one place by elements.
    pub fn order(&self, other: &PlacedTuple) -> Ordering
        ensures { result ≡ row_cmp self.now other.now }
    {
        self.place
            .order(&other.place)
            .then(order_elements(&self.elements, &other.elements))
    }
}

/// A copy of the tuple at a place.
pub(crate) fn tuple_at(place: &Place, elements: &Items<Element>) -> Result<Tuple, AllocError>
    ensures { IfOk result (λ t. t ≡ tuple_at place.now elements.now) }
{
    Ok(Tuple {
        key: copy_key(&place.key)?,
        key_class: place.key_class,
        elements: elements.clone()?,
    })
}

/// The order of elements: the first that differ decide, null before values, and then by class.
fn order_elements(left: &Items<Element>, right: &Items<Element>) -> Ordering
    ensures { result ≡ slice_cmp element_cmp left.now right.now }
{
    left.cmp(right)
}

impl PartialEq for PlacedTuple {
    ghost eq = { eq_by_cmp row_cmp };

    ghost laws = { partial_equiv_from_equiv (eq_by_cmp_equiv row_total) };

    fn eq(&self, other: &PlacedTuple) -> bool {
        self.order(other).is_eq()
    }
}

impl Eq for PlacedTuple {
    ghost laws = { eq_by_cmp_equiv row_total };
}

impl PartialOrd for PlacedTuple {
    ghost partial_cmp = { λ x y. Some (row_cmp x y) };

    ghost laws = { po row_total (λ x y. refl) };

    fn partial_cmp(&self, other: &PlacedTuple) -> Option<Ordering> {
        Some(self.order(other))
    }
}

impl Ord for PlacedTuple {
    ghost cmp = { row_cmp };

    ghost total = { row_total };

    ghost matches_partial_cmp = { λ x y. refl };

    ghost matches_eq = { λ x y. refl };

    fn cmp(&self, other: &PlacedTuple) -> Ordering {
        self.order(other)
    }
}
