//! What a base over maps holds.
ghost use Rattle.std.specs.Prelude.{◌≡◌, ◌++◌, ◌∷◌, [], IfOk, OnOk};
ghost use Rattle.std.specs.BTreeMap.{IsEmpty};
ghost use Rattle.std.specs.FinMap.{get, insert};
ghost use Rattle.mls_filterview.specs.Assembly.{made_of};
ghost use Rattle.mls_filterview.specs.Content.{with_table};
ghost use Rattle.mls_filterview.specs.Fragment.{place_of_node};
ghost use Rattle.mls_updates.specs.States.{tables_of};

use crate::making::elements_of;
use crate::tables::{TupleMaps, add, copy_tables};
use mls_filterview::{Cell, Node};
use mls_lattice::Items;
use mls_scheme::{Place, RelNo};
use std::alloc::{AllocError, Global};
use std::collections::BTreeMap;

/// The tuples of all relations, and the audit list.
#[derive(Drop)]
pub(crate) struct Held {
    pub(crate) tables: TupleMaps,
    pub(crate) audit: Vec<Items<u8>>,
}

impl Held {
    /// Nothing.
    pub(crate) fn new(alloc: Global) -> Held
        ensures tables { IsEmpty result.tables }
        ensures audit { result.audit.items ≡ [] }
    {
        Held {
            tables: BTreeMap::new(alloc),
            audit: Vec::new(alloc),
        }
    }

    /// The same tuples and entries.
    pub(crate) fn copy(&self) -> Result<Held, AllocError>
        ensures tables { IfOk result (λ h. tables_of h.tables ≡ tables_of self.now.tables) }
        ensures audit { IfOk result (λ h. h.audit.items ≡ self.now.audit.items) }
    {
        let tables = copy_tables(&self.tables)?;
        let audit = copy_entries(&self.audit)?;
        Ok(Held { tables, audit })
    }

    /// Adds a tuple, its elements put together.
    pub(crate) fn add(
        &mut self,
        alloc: Global,
        relation: RelNo,
        node: Node,
        cells: &[Cell],
    ) -> Result<(), AllocError>
        ensures tables { OnOk result (tables_of self.new.tables ≡ with_table (tables_of self.old.tables) relation
            (insert (tables_of self.old.tables relation) (place_of_node node)
            (made_of (get (tables_of self.old.tables relation)) node cells.now))) }
        ensures audit { OnOk result (self.new.audit ≡ self.old.audit) }
    {
        let Node {
            key,
            key_class,
            label,
            pattern,
        } = node;
        let place = Place {
            key,
            key_class,
            class: label,
        };
        let elements = elements_of(alloc, &self.tables, relation, &place, cells, &pattern)?;
        add(
            alloc,
            &mut self.tables,
            relation,
            place,
            Items::from(elements),
        )
    }

    /// Adds an entry at the end of the audit list.
    pub(crate) fn add_entry(&mut self, alloc: Global, bytes: &[u8]) -> Result<(), AllocError>
        ensures tables { OnOk result (self.new.tables ≡ self.old.tables) }
        ensures audit { OnOk result (self.new.audit.items ≡ self.old.audit.items ++ bytes.now ∷ []) }
    {
        let entry = entry_of(alloc, bytes)?;
        self.audit.push(entry)?;
        Ok(())
    }

    /// Removes all entries of the audit list.
    pub(crate) fn clear_entries(&mut self)
        ensures tables { self.new.tables ≡ self.old.tables }
        ensures audit { self.new.audit.items ≡ [] }
    {
        self.audit.clear();
    }
}

/// The bytes of an entry, of its own.
fn entry_of(alloc: Global, bytes: &[u8]) -> Result<Items<u8>, AllocError>
    ensures { IfOk result (λ entry. entry ≡ bytes.now) }
{
    let mut entry = Vec::new(alloc);
    entry.extend_from_slice(bytes)?;
    Ok(Items::from(entry))
}

/// The same entries.
pub(crate) fn copy_entries(entries: &Vec<Items<u8>>) -> Result<Vec<Items<u8>>, AllocError>
    ensures { IfOk result (λ copies. copies.items ≡ entries.now.items) }
{
    entries.clone()
}
