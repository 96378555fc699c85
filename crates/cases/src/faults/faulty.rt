//! A base, some of whose calls fail.
ghost use Rattle.std.specs.Prelude.{◌≡◌, ◌<◌, ◌≤◌, ◌+◌, true};
ghost use Rattle.mls_filterview.specs.Calls.{IsFault, IsServed, NoAccess};

use mls_filterview::{Base, BaseFault, Cell, Fragment, Node, abandon};
use mls_lattice::{Items, LabelNo};
use mls_scheme::{Place, RelNo, Value};

/// Which calls fail: all, or those that read fragments, after so many others and up to so many.
#[derive(Clone, Copy)]
pub struct Fault {
    pub after: u64,
    pub most: u64,
    pub of_fragments: bool,
    pub is_memory: bool,
}

/// No more calls fail than this.
const MANY: u64 = 1_000_000;

/// How many calls may come before those that fail, and how many have failed.
#[derive(Drop)]
struct Fuse {
    left: u64,
    most: u64,
    failed: u64,
}

impl Fuse {
    /// Whether the call that begins is to fail.
    fn is_due(&mut self) -> bool
        ensures failed { self.new.failed ≡ self.old.failed }
        ensures due { result ≡ true → self.old.failed < 1000000 }
    {
        if self.failed >= MANY || self.failed >= self.most {
            return false;
        }
        if self.left > 0 {
            self.left -= 1;
            return false;
        }
        true
    }
}

/// A base that hands its calls on to another one, and answers `Store`, or `Memory`, to some of them.
#[derive(Drop)]
pub struct Faulty<B: Base> {
    pub base: B,
    fuse: Fuse,
    of_fragments: bool,
    is_memory: bool,
}

impl<B: Base> Faulty<B> {
    /// A base of which some calls fail.
    pub fn new(base: B, fault: Fault) -> Faulty<B>
        ensures { result.base ≡ base }
    {
        Faulty {
            base,
            fuse: Fuse {
                left: fault.after,
                most: fault.most,
                failed: 0,
            },
            of_fragments: fault.of_fragments,
            is_memory: fault.is_memory,
        }
    }

    /// The base behind it.
    pub fn finish(self) -> B
        ensures { result ≡ self.base }
    {
        let Faulty {
            base,
            fuse: _,
            of_fragments: _,
            is_memory: _,
        } = self;
        base
    }

    /// Whether the call that begins, which reads no fragment, is to fail.
    fn is_due(&mut self) -> bool
        ensures base { self.new.base ≡ self.old.base }
        ensures failed { self.new.fuse.failed ≡ self.old.fuse.failed }
        ensures due { result ≡ true → self.new.fuse.failed < 1000000 }
    {
        !self.of_fragments && self.fuse.is_due()
    }

    /// Whether the call that begins, which belongs into a change, is to fail: where none is begun the base refuses it.
    fn is_change_due(&mut self) -> bool
        ensures base { self.new.base ≡ self.old.base }
        ensures failed { self.new.fuse.failed ≡ self.old.fuse.failed }
        ensures due { result ≡ true → self.new.fuse.failed < 1000000 }
        ensures begun { result ≡ true → (B.seen self.old.base).state.begun ≡ true }
    {
        self.base.is_begun() && self.is_due()
    }

    /// Fails, as a store does: the change is ended.
    fn fail(&mut self) -> BaseFault
        requires { self.old.fuse.failed < 1000000 }
        ensures clean { (B.seen self.new.base).is_clean → (B.seen self.old.base).is_clean }
        ensures count { (⟦<Faulty<B> as Base>⟧.seen self.old).failures
            ≤ (⟦<Faulty<B> as Base>⟧.seen self.new).failures }
        ensures fault { IsFault ⟦<Faulty<B> as Base>⟧.seen result self.old self.new }
        ensures about { (B.seen self.new.base).is_clean → (B.seen self.new.base).about ≡ (B.seen self.old.base).about }
        ensures served { IsServed result }
        ensures access { NoAccess ⟦<Faulty<B> as Base>⟧.seen self.old self.new }
    {
        self.fuse.failed += 1;
        abandon(&mut self.base);
        if self.is_memory {
            BaseFault::Memory
        } else {
            BaseFault::Store
        }
    }
}

impl<B: Base> Base for Faulty<B> {
    ghost seen = { λ b. record {
      state = (B.seen b.base).state;
      about = (B.seen b.base).about;
      failures = (B.seen b.base).failures + b.fuse.failed;
      is_clean = (B.seen b.base).is_clean;
      asked = (B.seen b.base).asked;
      changed = (B.seen b.base).changed;
    } };

    ghost settled = { λ b clean. B.settled b.base clean };

    fn is_begun(&self) -> bool {
        self.base.is_begun()
    }

    fn begin(&mut self) -> Result<(), BaseFault> {
        if self.is_begun() {
            return Err(BaseFault::Begun);
        }
        if self.is_due() {
            return Err(self.fail());
        }
        self.base.begin()
    }

    fn commit(&mut self) -> Result<(), BaseFault> {
        if self.is_change_due() {
            return Err(self.fail());
        }
        self.base.commit()
    }

    fn rollback(&mut self) -> Result<(), BaseFault> {
        if self.is_change_due() {
            return Err(self.fail());
        }
        self.base.rollback()
    }

    fn fragment(&mut self, relation: RelNo, label: LabelNo) -> Result<Fragment, BaseFault> {
        if self.fuse.is_due() {
            return Err(self.fail());
        }
        self.base.fragment(relation, label)
    }

    fn fragments(&mut self, relation: RelNo, labels: &[LabelNo]) -> Result<Fragment, BaseFault> {
        if self.fuse.is_due() {
            return Err(self.fail());
        }
        self.base.fragments(relation, labels)
    }

    fn entity(&mut self, relation: RelNo, place: &Place) -> Result<Fragment, BaseFault> {
        if self.is_due() {
            return Err(self.fail());
        }
        self.base.entity(relation, place)
    }

    fn pattern(
        &mut self,
        relation: RelNo,
        place: &Place,
    ) -> Result<Option<Items<LabelNo>>, BaseFault> {
        if self.is_due() {
            return Err(self.fail());
        }
        self.base.pattern(relation, place)
    }

    fn add(&mut self, relation: RelNo, node: Node, cells: &[Cell]) -> Result<(), BaseFault> {
        if self.is_change_due() {
            return Err(self.fail());
        }
        self.base.add(relation, node, cells)
    }

    fn set(
        &mut self,
        relation: RelNo,
        place: &Place,
        attr: usize,
        value: Option<Value>,
    ) -> Result<(), BaseFault> {
        if self.is_change_due() {
            return Err(self.fail());
        }
        self.base.set(relation, place, attr, value)
    }

    fn drop_at(&mut self, relation: RelNo, place: &Place) -> Result<(), BaseFault> {
        if self.is_change_due() {
            return Err(self.fail());
        }
        self.base.drop_at(relation, place)
    }

    fn audit_add(&mut self, bytes: &[u8]) -> Result<(), BaseFault> {
        if self.is_change_due() {
            return Err(self.fail());
        }
        self.base.audit_add(bytes)
    }

    fn audit_clear(&mut self) -> Result<(), BaseFault> {
        if self.is_change_due() {
            return Err(self.fail());
        }
        self.base.audit_clear()
    }

    fn audit_all(&mut self) -> Result<Items<Items<u8>>, BaseFault> {
        if self.is_due() {
            return Err(self.fail());
        }
        self.base.audit_all()
    }
}
