//! What the tables hold of one entity.
ghost use Rattle.std.specs.Prelude.{◌≡◌, [], slice_get, IfOk, option_map};
ghost use Rattle.std.specs.FinMap.{get};
ghost use Rattle.mls_scheme.specs.Spelling.{IsSpelledKey};
ghost use Rattle.mls_filterview.specs.Content.{Content};
ghost use Rattle.mls_filterview.specs.Fragment.{IsEntityPart, classes};
ghost use Rattle.mls_tables.specs.Store.{IsClean};
ghost use Rattle.mls_rows.specs.Calls.{IsRowRead};
ghost use Rattle.mls_rows.specs.Finding.{AreReadable};
ghost use Rattle.mls_rows.specs.Holding.{Holds};

use crate::reading::{abandon_at_row, abandon_for_memory, decoded_pattern, fragment_of_relation};
use crate::writing::key_of_place;
use mls_filterview::Fragment;
use mls_lattice::{Items, LabelNo};
use mls_scheme::{Place, RelNo};
use mls_tables::{StoreFault, TableStore};
use sqlite::Alter;
use std::alloc::{AllocError, Global};

/// Nothing.
fn nothing(alloc: Global) -> Fragment
    ensures { (result.nodes ≡ []) × (result.cells ≡ []) }
{
    Fragment {
        nodes: Items::from(Vec::new(alloc)),
        cells: Items::from(Vec::new(alloc)),
    }
}

/// What the class of a place holds of the place's entity. Where it has no node, it has no cells, and none are asked
/// for.
pub fn read_entity<S: Alter>(
    store: &mut TableStore<S>,
    alloc: Global,
    relation: RelNo,
    place: &Place,
) -> Result<Fragment, StoreFault>
    requires key { IsSpelledKey place.now.key }
    requires readable { IsClean store.old → AreReadable store.old.now }
    ensures read { IsRowRead store.old store.new result }
    ensures found { IsClean store.new → (c : Content) → Holds store.old.now c
        → IfOk result (IsEntityPart (c.db relation) place.now) }
{
    let key = match key_of_place(alloc, relation, place) {
        Ok(key) => key,
        Err(AllocError) => return Err(abandon_for_memory(store)),
    };
    let nodes = store.nodes_of_key(&key)?;
    if nodes.is_empty() {
        return Ok(nothing(alloc));
    }
    let cells = store.cells_of_tuple(&key)?;
    match fragment_of_relation(alloc, relation, &nodes, &cells) {
        Ok(fragment) => Ok(fragment),
        Err(fault) => Err(abandon_at_row(store, fault)),
    }
}

/// The classes that the first of these patterns names.
fn first_pattern(
    alloc: Global,
    patterns: &[Items<u8>],
) -> Result<Option<Items<LabelNo>>, AllocError>
    ensures { IfOk result (λ pattern. pattern ≡ slice_get patterns.now 0) }
{
    match patterns.first() {
        Some(first) => Ok(Some(decoded_pattern(alloc, first)?)),
        None => Ok(None),
    }
}

/// The classes of the elements of the tuple at a place, where there is one. Its node is looked up, and no key is read.
pub fn read_pattern<S: Alter>(
    store: &mut TableStore<S>,
    alloc: Global,
    relation: RelNo,
    place: &Place,
) -> Result<Option<Items<LabelNo>>, StoreFault>
    requires key { IsSpelledKey place.now.key }
    ensures read { IsRowRead store.old store.new result }
    ensures found { IsClean store.new → (c : Content) → Holds store.old.now c
        → IfOk result (λ pattern. pattern ≡ option_map classes (get (c.db relation) place.now)) }
{
    let key = match key_of_place(alloc, relation, place) {
        Ok(key) => key,
        Err(AllocError) => return Err(abandon_for_memory(store)),
    };
    let patterns = store.patterns_of_key(&key)?;
    match first_pattern(alloc, &patterns) {
        Ok(pattern) => Ok(pattern),
        Err(AllocError) => Err(abandon_for_memory(store)),
    }
}
