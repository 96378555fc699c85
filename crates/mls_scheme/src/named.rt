//! Lists of things that are found by place and by name.
ghost use Rattle.std.specs.Prelude.{◌≡◌, ◌==◌, ◌<◌, ◌++◌, [], ◌∷◌, false, length, position, slice_get, string_bytes};
ghost use Rattle.std.specs.Prelude.{Some, IfSome, OnOk, option_map, bytes_eq};
ghost use Rattle.mls_scheme.specs.Named.{item_of, has_name};

use indexmap::IndexMap;
use std::alloc::{AllocError, Global};
use std::marker::Model;

/// Things by name, in order: contracts see pairs of a name and a thing.
#[derive(Drop)]
pub struct Named<T> {
    map: IndexMap<String, T>,
}

impl<T> Model for Named<T> {
    ghost use Rattle.std.specs.Prelude.{List, map as each};
    ghost use Rattle.mls_lattice.specs.Policy.{Name};
    ghost use Rattle.mls_scheme.specs.Named.{item_of};

    ghost Value = { List (Name × T) };

    ghost view = { λ a. each item_of a.map.entries };
}

impl<T> Named<T> {
    /// How many there are.
    pub fn len(&self) -> usize
        ensures { result ≡ length self.now }
    {
        self.map.len()
    }

    /// Whether there is none.
    pub fn is_empty(&self) -> bool
        ensures { result ≡ (length self.now == 0) }
    {
        self.map.is_empty()
    }

    /// The name at a place.
    pub fn name(&self, place: usize) -> &str
        requires { place < length self.now }
        ensures { option_map (λ x. x.0) (slice_get self.now place) ≡ Some result.now }
    {
        self.map.get_index(place).unwrap().0.as_str()
    }

    /// The thing at a place.
    pub fn get(&self, place: usize) -> &T
        requires { place < length self.now }
        ensures { option_map (λ x. x.1) (slice_get self.now place) ≡ Some result.now }
    {
        self.map.get_index(place).unwrap().1
    }

    /// The place of a name.
    pub fn place(&self, name: &str) -> Option<usize>
        ensures exact { result ≡ position (λ x. bytes_eq x.0 name.now) self.now }
        ensures within { IfSome result (λ place. place < length self.now) }
    {
        self.map.get_index_of(name)
    }

    /// Whether a name is taken.
    #[tactic(auto, using(crate::proofs::NamedLemmas::place_steps))]
    pub fn has(&self, name: &str) -> bool
        ensures { result ≡ has_name self.now name.now }
    {
        self.place(name).is_some()
    }
}

impl<T: Drop> Named<T> {
    /// None: takes no memory.
    pub fn new(alloc: Global) -> Named<T>
        ensures { result ≡ [] }
    {
        Named {
            map: IndexMap::new(alloc),
        }
    }

    /// One more, of a new name.
    pub fn push(&mut self, name: String, item: T) -> Result<(), AllocError>
        requires { has_name self.old (string_bytes name) ≡ false }
        ensures { OnOk result (self.new ≡ self.old ++ (string_bytes name, item) ∷ []) }
    {
        match self.map.insert(name, item) {
            Ok(_) => Ok(()),
            Err(_) => Err(AllocError),
        }
    }
}
