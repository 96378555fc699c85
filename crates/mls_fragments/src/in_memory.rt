//! A base of which a call that fails for its store fails for want of memory.
use mls_filterview::{Base, BaseFault, Cell, Fragment, Node};
use mls_lattice::{Items, LabelNo};
use mls_scheme::{Place, RelNo, Value};

/// A base whose store refuses nothing but growths: where a call of it answers Store, it answers Memory. It is generic,
/// since each method
/// over a store whose type is known costs a proof as long as all of these. It is made of files in memory alone, by
/// `MemoryBase::open`.
#[derive(Drop)]
pub struct InMemory<B: Base> {
    pub(crate) base: B,
}

#[tactic(auto, using(crate::proofs::MemoryLemmas::memory_calls))]
impl<B: Base> Base for InMemory<B> {
    // No call fails but for want of memory.
    ghost seen = { λ b. record (B.seen b.base) { failures = 0 } };

    ghost settled = { λ b clean. B.settled b.base clean };

    fn is_begun(&self) -> bool {
        self.base.is_begun()
    }

    fn begin(&mut self) -> Result<(), BaseFault> {
        match self.base.begin() {
            Err(BaseFault::Store) => Err(BaseFault::Memory),
            answer => answer,
        }
    }

    fn commit(&mut self) -> Result<(), BaseFault> {
        match self.base.commit() {
            Err(BaseFault::Store) => Err(BaseFault::Memory),
            answer => answer,
        }
    }

    fn rollback(&mut self) -> Result<(), BaseFault> {
        match self.base.rollback() {
            Err(BaseFault::Store) => Err(BaseFault::Memory),
            answer => answer,
        }
    }

    fn fragment(&mut self, relation: RelNo, label: LabelNo) -> Result<Fragment, BaseFault> {
        match self.base.fragment(relation, label) {
            Err(BaseFault::Store) => Err(BaseFault::Memory),
            answer => answer,
        }
    }

    fn fragments(&mut self, relation: RelNo, labels: &[LabelNo]) -> Result<Fragment, BaseFault> {
        match self.base.fragments(relation, labels) {
            Err(BaseFault::Store) => Err(BaseFault::Memory),
            answer => answer,
        }
    }

    fn entity(&mut self, relation: RelNo, place: &Place) -> Result<Fragment, BaseFault> {
        match self.base.entity(relation, place) {
            Err(BaseFault::Store) => Err(BaseFault::Memory),
            answer => answer,
        }
    }

    fn pattern(
        &mut self,
        relation: RelNo,
        place: &Place,
    ) -> Result<Option<Items<LabelNo>>, BaseFault> {
        match self.base.pattern(relation, place) {
            Err(BaseFault::Store) => Err(BaseFault::Memory),
            answer => answer,
        }
    }

    fn add(&mut self, relation: RelNo, node: Node, cells: &[Cell]) -> Result<(), BaseFault> {
        match self.base.add(relation, node, cells) {
            Err(BaseFault::Store) => Err(BaseFault::Memory),
            answer => answer,
        }
    }

    fn set(
        &mut self,
        relation: RelNo,
        place: &Place,
        attr: usize,
        value: Option<Value>,
    ) -> Result<(), BaseFault> {
        match self.base.set(relation, place, attr, value) {
            Err(BaseFault::Store) => Err(BaseFault::Memory),
            answer => answer,
        }
    }

    fn drop_at(&mut self, relation: RelNo, place: &Place) -> Result<(), BaseFault> {
        match self.base.drop_at(relation, place) {
            Err(BaseFault::Store) => Err(BaseFault::Memory),
            answer => answer,
        }
    }

    fn audit_add(&mut self, bytes: &[u8]) -> Result<(), BaseFault> {
        match self.base.audit_add(bytes) {
            Err(BaseFault::Store) => Err(BaseFault::Memory),
            answer => answer,
        }
    }

    fn audit_clear(&mut self) -> Result<(), BaseFault> {
        match self.base.audit_clear() {
            Err(BaseFault::Store) => Err(BaseFault::Memory),
            answer => answer,
        }
    }

    fn audit_all(&mut self) -> Result<Items<Items<u8>>, BaseFault> {
        match self.base.audit_all() {
            Err(BaseFault::Store) => Err(BaseFault::Memory),
            answer => answer,
        }
    }
}
