//! A base over the tables of a store.
ghost use Rattle.std.specs.Prelude.{◌≡◌, List, ℕ, false, IsTrue};
ghost use Rattle.sqlite.specs.State.{HasCleanDisk};
ghost use Rattle.sqlite.specs.Held.{state};
ghost use Rattle.mls_filterview.specs.Content.{no_content};
ghost use Rattle.mls_lattice.specs.Version.{version_number};
ghost use Rattle.mls_lattice.specs.declared.version.Version.{Version};
ghost use Rattle.mls_tables.specs.declared.rows.MetaRow.{MetaRow};
ghost use Rattle.mls_tables.specs.Rows.{described, tables_of};
ghost use Rattle.mls_tables.specs.Statements.{IsSchemaReady};
ghost use Rattle.mls_tables.specs.Store.{IsClean};
ghost use Rattle.mls_fragments.specs.Based.{HasRow, IsNoted, KeepsRow, state_of};
ghost use Rattle.mls_rows.specs.Changes.{content_of};
ghost use Rattle.mls_rows.specs.Holding.{Holds};
ghost use Rattle.mls_fragments.specs.Holdings.{HasHoldings, holdings_of};

use crate::noted::{Noted, abandon_changes};
use mls_filterview::{Base, BaseFault, Cell, Fragment, Node};
use mls_lattice::{Items, LabelNo};
use mls_rows::{
    add_entry, add_tuple, drop_tuple, read_entity, read_entries, read_fragment, read_fragments,
    read_pattern, set_value,
};
use mls_scheme::{Place, RelNo, Value};
use mls_tables::TableStore;
use sqlite::{Alter, Connection};
use std::alloc::Global;
use std::marker::Model;

/// A base over the tables of a store: each tuple is a node, and each element is kept once, for all tuples that have it.
///
/// The rows are those of the content at all times. A call that fails ends the change that is begun.
#[derive(Drop)]
pub struct SqlBase<S: Alter> {
    alloc: Global,
    store: TableStore<S>,
    now: Noted,
    kept: Noted,
}

impl<S: Alter> Model for SqlBase<S> {
    ghost use Rattle.mls_fragments.specs.Based.{BaseState, base_state, IsBased};

    ghost Value = { BaseState };

    ghost view = { λ b. base_state b.store b.now b.kept };

    ghost invariant = { λ b. IsBased b.store b.now b.kept };
}

impl<S: Alter> SqlBase<S> {
    /// A base over a new store.
    pub(crate) fn over_new(alloc: Global, store: TableStore<S>) -> SqlBase<S>
        requires mode { store.begun ≡ false }
        requires new { IsClean store → (version : Version) × (lattice : List ℕ) × (schemes : List ℕ)
            × (store.now ≡ described (version_number version) lattice schemes) × (store.kept ≡ store.now) }
        ensures content { state_of result ≡ record { now = no_content; kept = no_content; begun = false } }
        ensures tables { result.tables ≡ store }
    {
        SqlBase {
            alloc,
            store,
            now: Noted::new(),
            kept: Noted::new(),
        }
    }

    /// A base over tables that hold what is noted.
    pub(crate) fn over_found(alloc: Global, store: TableStore<S>, found: Noted) -> SqlBase<S>
        requires mode { store.begun ≡ false }
        requires kept { IsClean store → store.kept ≡ store.now }
        requires noted { IsClean store → IsNoted store.now found }
        ensures content { state_of result ≡ record {
          now = content_of found.content.changes;
          kept = content_of found.content.changes;
          begun = false;
        } }
        ensures tables { result.tables ≡ store }
    {
        let mut kept = Noted::new();
        kept.copy(&found);
        SqlBase {
            alloc,
            store,
            now: found,
            kept,
        }
    }

    /// The row that describes a base stays where callers see the same of it, as they do behind every call.
    pub fn keeps_row(&self, was: &SqlBase<S>)
        ensures { KeepsRow ⟦<SqlBase<S> as Base>⟧.seen was.entry.now self.entry.now }
    {
        // for what holds of both
        let _store = &self.store;
        let _store_before = &was.store;
    }

    /// The connection: where it is open, its tables have what the base's tables have.
    pub fn into_connection(self) -> Connection<S>
        requires begun { (state_of self).begun ≡ false }
        ensures clean { HasCleanDisk (state S.Store result) → IsClean self.tables }
        ensures is_open { (state S.Store result).is_open ≡ self.tables.is_open }
        ensures mode { HasCleanDisk (state S.Store result) → IsTrue (state S.Store result).is_open
            → (state S.Store result).in_transaction ≡ false }
        ensures rows { HasCleanDisk (state S.Store result) → IsTrue (state S.Store result).is_open
            → IsSchemaReady (state S.Store result).now
            × Holds (tables_of (state S.Store result).now.trees) (state_of self).now }
        ensures tables { HasCleanDisk (state S.Store result) → IsTrue (state S.Store result).is_open
            → tables_of (state S.Store result).now.trees ≡ self.tables.now }
        ensures row { IsClean self.tables → (row : MetaRow) × HasRow self row }
        ensures held { HasCleanDisk (state S.Store result) → IsTrue (state S.Store result).is_open
            → (row : MetaRow) → HasRow self row
            → HasHoldings (state S.Store result).now (holdings_of row (state_of self).now) }
    {
        let SqlBase {
            alloc: _,
            store,
            now: _,
            kept: _,
        } = self;
        store.into_connection()
    }
}

/// What a call over the tables of a base answers: after a fault they hold what they held at the last commit.
macro_rules! settle {
    ($base:expr, $found:pat => $answer:expr, $call:expr) => {
        match $call {
            Ok($found) => Ok($answer),
            Err(fault) => Err(abandon_changes(&mut $base.now, &$base.kept, fault)),
        }
    };
}

/// The same of a step of a change, which is noted.
macro_rules! change {
    ($base:expr, $done:pat => $noted:expr, $call:expr) => {{
        if !$base.store.is_begun() {
            return Err(BaseFault::NotBegun);
        }
        settle!($base, $done => $noted, $call)
    }};
}

impl<S: Alter> Base for SqlBase<S> {
    ghost use Rattle.mls_filterview.specs.Content.{nowhere};
    ghost use Rattle.mls_tables.specs.Store.{IsClean};
    ghost use Rattle.mls_fragments.specs.Based.{state_of, about_of, settled};

    // It keeps no note of where it was read or changed.
    ghost seen = { λ b. record {
      state = state_of b;
      about = about_of b.tables.kept.meta;
      failures = b.tables.failures;
      is_clean = IsClean b.tables;
      asked = nowhere;
      changed = nowhere;
    } };

    ghost settled = { λ b clean. settled b };

    fn is_begun(&self) -> bool {
        self.store.is_begun()
    }

    fn begin(&mut self) -> Result<(), BaseFault> {
        if self.store.is_begun() {
            return Err(BaseFault::Begun);
        }
        settle!(self, _ => (), self.store.begin())
    }

    fn commit(&mut self) -> Result<(), BaseFault> {
        change!(self, _ => self.kept.copy(&self.now), self.store.commit())
    }

    fn rollback(&mut self) -> Result<(), BaseFault> {
        change!(self, _ => self.now.copy(&self.kept), self.store.rollback())
    }

    fn fragment(&mut self, relation: RelNo, label: LabelNo) -> Result<Fragment, BaseFault> {
        settle!(self, found => found, read_fragment(&mut self.store, self.alloc, relation, label))
    }

    fn fragments(&mut self, relation: RelNo, labels: &[LabelNo]) -> Result<Fragment, BaseFault> {
        settle!(self, found => found, read_fragments(&mut self.store, self.alloc, relation, labels))
    }

    fn entity(&mut self, relation: RelNo, place: &Place) -> Result<Fragment, BaseFault> {
        settle!(self, found => found, read_entity(&mut self.store, self.alloc, relation, place))
    }

    fn pattern(
        &mut self,
        relation: RelNo,
        place: &Place,
    ) -> Result<Option<Items<LabelNo>>, BaseFault> {
        settle!(self, found => found, read_pattern(&mut self.store, self.alloc, relation, place))
    }

    fn add(&mut self, relation: RelNo, node: Node, cells: &[Cell]) -> Result<(), BaseFault> {
        change!(
            self,
            _ => self.now.content.add(relation, &node, cells),
            add_tuple(&mut self.store, self.alloc, relation, &node, cells)
        )
    }

    fn set(
        &mut self,
        relation: RelNo,
        place: &Place,
        attr: usize,
        value: Option<Value>,
    ) -> Result<(), BaseFault> {
        change!(
            self,
            _ => self.now.content.set(relation, place, attr, &value),
            set_value(&mut self.store, self.alloc, relation, place, attr, &value)
        )
    }

    fn drop_at(&mut self, relation: RelNo, place: &Place) -> Result<(), BaseFault> {
        change!(
            self,
            _ => self.now.content.drop_at(relation, place),
            drop_tuple(&mut self.store, self.alloc, relation, place)
        )
    }

    fn audit_add(&mut self, bytes: &[u8]) -> Result<(), BaseFault> {
        change!(
            self,
            number => self.now.append(number, bytes),
            add_entry(&mut self.store, self.alloc, self.now.last, bytes)
        )
    }

    fn audit_clear(&mut self) -> Result<(), BaseFault> {
        change!(self, _ => self.now.clear(), self.store.clear_entries())
    }

    fn audit_all(&mut self) -> Result<Items<Items<u8>>, BaseFault> {
        settle!(self, found => found, read_entries(&mut self.store, self.alloc))
    }
}
