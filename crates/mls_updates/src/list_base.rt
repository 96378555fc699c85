//! A base in memory.
ghost use Rattle.std.specs.Prelude.{◌≡◌, false, [], is_some, None};
ghost use Rattle.mls_filterview.specs.Content.{no_content, nowhere, failed};
ghost use Rattle.mls_updates.specs.States.{state_of, state-settled};

use crate::held::{Held, copy_entries};
use crate::tables::{drop_at, entity, fragments, pattern, set};
use mls_filterview::{Base, BaseFault, Cell, Fragment, Node};
use mls_lattice::{Items, LabelNo};
use mls_scheme::{Place, RelNo, Value};
use std::alloc::Global;

/// A base that keeps whole tuples by their places, and entries in a list; at a change those of the last commit beside
/// them.
/// They are copied when the change begins, so commit and rollback take no memory.
///
/// Its calls answer no `Store`.
#[derive(Drop)]
pub struct ListBase {
    alloc: Global,
    held: Held,
    saved: Option<Held>,
}

impl ListBase {
    /// An empty base, with no change begun.
    pub fn new(alloc: Global) -> ListBase
        ensures { (⟦<ListBase as Base>⟧.seen result).state ≡ record {
          now = no_content;
          kept = no_content;
          begun = false;
        } }
    {
        ListBase {
            alloc,
            held: Held::new(alloc),
            saved: None,
        }
    }

    /// Ends the change, if one is begun, where a growth was refused.
    fn abandon(&mut self) -> BaseFault
        ensures ended { state_of self.new.held self.new.saved ≡ failed (state_of self.old.held self.old.saved) }
        ensures mode { is_some self.new.saved ≡ false }
        ensures memory { result ≡ BaseFault.Memory }
    {
        if let Some(saved) = self.saved.take() {
            self.held = saved;
        }
        BaseFault::Memory
    }
}

impl Base for ListBase {
    // It keeps no note of where it was read or changed.
    ghost seen = { λ b. record {
      state = state_of b.held b.saved;
      about = [];
      failures = 0;
      is_clean = Unit {0};
      asked = nowhere;
      changed = nowhere;
    } };

    ghost settled = { λ b clean. state-settled b.held b.saved };

    fn is_begun(&self) -> bool {
        self.saved.is_some()
    }

    fn begin(&mut self) -> Result<(), BaseFault> {
        if self.is_begun() {
            return Err(BaseFault::Begun);
        }
        let held = self.held.copy()?;
        self.saved = Some(held);
        Ok(())
    }

    fn commit(&mut self) -> Result<(), BaseFault> {
        if !self.is_begun() {
            return Err(BaseFault::NotBegun);
        }
        self.saved = None;
        Ok(())
    }

    fn rollback(&mut self) -> Result<(), BaseFault> {
        match self.saved.take() {
            Some(last) => {
                self.held = last;
                Ok(())
            }
            None => Err(BaseFault::NotBegun),
        }
    }

    fn fragment(&mut self, relation: RelNo, label: LabelNo) -> Result<Fragment, BaseFault> {
        match fragments(self.alloc, &self.held.tables, relation, &[label]) {
            Ok(fragment) => Ok(fragment),
            Err(_) => Err(self.abandon()),
        }
    }

    fn fragments(&mut self, relation: RelNo, labels: &[LabelNo]) -> Result<Fragment, BaseFault> {
        match fragments(self.alloc, &self.held.tables, relation, labels) {
            Ok(fragment) => Ok(fragment),
            Err(_) => Err(self.abandon()),
        }
    }

    fn entity(&mut self, relation: RelNo, place: &Place) -> Result<Fragment, BaseFault> {
        match entity(self.alloc, &self.held.tables, relation, place) {
            Ok(fragment) => Ok(fragment),
            Err(_) => Err(self.abandon()),
        }
    }

    fn pattern(
        &mut self,
        relation: RelNo,
        place: &Place,
    ) -> Result<Option<Items<LabelNo>>, BaseFault> {
        match pattern(self.alloc, &self.held.tables, relation, place) {
            Ok(pattern) => Ok(pattern),
            Err(_) => Err(self.abandon()),
        }
    }

    fn add(&mut self, relation: RelNo, node: Node, cells: &[Cell]) -> Result<(), BaseFault> {
        if !self.is_begun() {
            return Err(BaseFault::NotBegun);
        }
        match self.held.add(self.alloc, relation, node, cells) {
            Ok(_) => Ok(()),
            Err(_) => Err(self.abandon()),
        }
    }

    fn set(
        &mut self,
        relation: RelNo,
        place: &Place,
        attr: usize,
        value: Option<Value>,
    ) -> Result<(), BaseFault> {
        if !self.is_begun() {
            return Err(BaseFault::NotBegun);
        }
        match set(
            self.alloc,
            &mut self.held.tables,
            relation,
            place,
            attr,
            &value,
        ) {
            Ok(_) => Ok(()),
            Err(_) => Err(self.abandon()),
        }
    }

    fn drop_at(&mut self, relation: RelNo, place: &Place) -> Result<(), BaseFault> {
        if !self.is_begun() {
            return Err(BaseFault::NotBegun);
        }
        match drop_at(self.alloc, &mut self.held.tables, relation, place) {
            Ok(_) => Ok(()),
            Err(_) => Err(self.abandon()),
        }
    }

    fn audit_add(&mut self, bytes: &[u8]) -> Result<(), BaseFault> {
        if !self.is_begun() {
            return Err(BaseFault::NotBegun);
        }
        match self.held.add_entry(self.alloc, bytes) {
            Ok(_) => Ok(()),
            Err(_) => Err(self.abandon()),
        }
    }

    fn audit_clear(&mut self) -> Result<(), BaseFault> {
        if !self.is_begun() {
            return Err(BaseFault::NotBegun);
        }
        self.held.clear_entries();
        Ok(())
    }

    fn audit_all(&mut self) -> Result<Items<Items<u8>>, BaseFault> {
        match copy_entries(&self.held.audit) {
            Ok(entries) => Ok(Items::from(entries)),
            Err(_) => Err(self.abandon()),
        }
    }
}
