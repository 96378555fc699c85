//! Places of tuples, and their order.
ghost use Rattle.std.specs.Prelude.{◌≡◌, Some, refl};
ghost use Rattle.std.specs.Ordering.{eq_by_cmp};
ghost use Rattle.std.specs.Cmp.{partial_equiv_from_equiv, eq_by_cmp_equiv, po};
ghost use Rattle.mls_scheme.specs.Table.{place_cmp};
ghost use Rattle.mls_scheme.specs.PlaceOrder.{place_total};

use crate::value::{Value, order_keys};
use mls_lattice::{Items, LabelNo};
use std::cmp::Ordering;

/// Where a tuple stands in its relation: its entity (a key with its class), and its class.
#[derive(Clone, Drop)]
pub struct Place {
    pub key: Items<Value>,
    pub key_class: LabelNo,
    pub class: LabelNo,
}

impl Place {
    /// The order of places: by key, number of the key class and number of the class.
    #[tactic(auto, unfolding(crate::specs::Table::place_cmp))]
    pub fn order(&self, other: &Place) -> Ordering
        ensures { result ≡ place_cmp self.now other.now }
    {
        order_keys(&self.key, &other.key)
            .then(self.key_class.cmp(&other.key_class))
            .then(self.class.cmp(&other.class))
    }
}

impl PartialEq for Place {
    ghost eq = { eq_by_cmp place_cmp };

    ghost laws = { partial_equiv_from_equiv (eq_by_cmp_equiv place_total) };

    fn eq(&self, other: &Place) -> bool {
        self.order(other).is_eq()
    }
}

impl Eq for Place {
    ghost laws = { eq_by_cmp_equiv place_total };
}

impl PartialOrd for Place {
    ghost partial_cmp = { λ x y. Some (place_cmp x y) };

    ghost laws = { po place_total (λ x y. refl) };

    fn partial_cmp(&self, other: &Place) -> Option<Ordering> {
        Some(self.order(other))
    }
}

impl Ord for Place {
    ghost cmp = { place_cmp };

    ghost total = { place_total };

    ghost matches_partial_cmp = { λ x y. refl };

    ghost matches_eq = { λ x y. refl };

    fn cmp(&self, other: &Place) -> Ordering {
        self.order(other)
    }
}
