//! Rows of a view, which is shared and not copied.
ghost use Rattle.std.specs.Prelude.{◌≡◌, ◌<◌, length, slice_index_or};
ghost use Rattle.mls_scheme.specs.Tuple.{no_tuple};
ghost use Rattle.mls_queries.specs.Places.{rows_at, AreWithin};

use mls_filterview::SharedView;
use mls_lattice::Items;
use mls_scheme::Tuple;
use std::marker::Model;

/// Rows of a view, in its order: all of them, or those at places. It keeps the view; no row is copied.
#[derive(Drop)]
pub struct Selection {
    view: SharedView,
    places: Option<Items<usize>>,
}

impl Model for Selection {
    ghost use Rattle.std.specs.Prelude.{List};
    ghost use Rattle.std.specs.Option.{IfSome, option_map_or};
    ghost use Rattle.mls_scheme.specs.declared.tuple.Tuple.{Tuple as Row};
    ghost use Rattle.mls_queries.specs.Places.{rows_at, AreWithin};

    ghost Value = { List Row };

    ghost view = { λ s. option_map_or (rows_at s.view) s.places s.view };

    ghost invariant = { λ s. IfSome s.places (AreWithin s.view) };
}

impl Selection {
    /// All rows.
    pub fn whole(view: SharedView) -> Selection
        ensures { result ≡ view }
    {
        Selection { view, places: None }
    }

    /// The rows at these places, in this order.
    pub(crate) fn at(view: SharedView, places: Vec<usize>) -> Selection
        requires { AreWithin view places.items }
        ensures { result ≡ rows_at view places.items }
    {
        Selection {
            view,
            places: Some(Items::from(places)),
        }
    }

    /// How many rows there are.
    pub fn len(&self) -> usize
        ensures { result ≡ length self.now }
    {
        match &self.places {
            None => self.view.as_slice().len(),
            Some(places) => places.as_slice().len(),
        }
    }

    /// The row at a place, lent.
    pub fn get(&self, place: usize) -> &Tuple
        requires { place < length self.now }
        ensures { result.now ≡ slice_index_or self.now place no_tuple }
    {
        match &self.places {
            None => &self.view.as_slice()[place],
            Some(places) => &self.view.as_slice()[places.as_slice()[place]],
        }
    }
}
