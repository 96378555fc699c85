//! Bases: what keeps content, and what each of their calls promises.
ghost use Rattle.std.specs.Prelude.{◌≡◌, ◌<◌, ◌≤◌, List, false, true, IfOk, IfErr, OnOk, Ok, option_map};
ghost use Rattle.std.specs.List.{AllByRecursion};
ghost use Rattle.std.specs.FinMap.{get, insert, remove};
ghost use Rattle.mls_scheme.specs.declared.tuple.Element.{Element as SpecElement};
ghost use Rattle.mls_scheme.specs.Table.{change};
ghost use Rattle.mls_scheme.specs.Spelling.{IsSpelledKey};
ghost use Rattle.mls_filterview.specs.Content.{Seen, begun_change, committed, ended, failed, with_relation};
ghost use Rattle.mls_filterview.specs.Content.{with_entry, with_no_entries};
ghost use Rattle.mls_filterview.specs.Calls.{IsCall, IsRead, IsChange, IsOutside, IsServed, CanAdd, CanSet, CanDrop};
ghost use Rattle.mls_filterview.specs.Calls.{NoAccess, ReadsAt, ReadsAmong, ChangesAt};
ghost use Rattle.mls_filterview.specs.Fragment.{IsFragment, AreFragments, IsEntityPart, classes, IsMadeOf};
ghost use Rattle.mls_filterview.specs.Fragment.{place_of_node, set_in};

use crate::fragment::{Cell, Fragment, Node};
use mls_lattice::{Items, LabelNo};
use mls_scheme::{Place, RelNo, Value};
use std::alloc::{AllocError, AllocFailed};

/// Why a call over a base gives no answer.
#[derive(Clone, Copy, PartialEq, Eq, Debug)]
pub enum BaseFault {
    /// The store failed in this call.
    Store,
    /// A growth was refused.
    Memory,
    /// The call belongs into a change, and none is begun.
    NotBegun,
    /// A change is begun already.
    Begun,
}

impl From<AllocError> for BaseFault {
    ghost use Rattle.mls_filterview.specs.declared.base.BaseFault.TheVariants.{Memory};

    ghost from_gives = { λ _ e. e ≡ Memory };

    fn from(_e: AllocError) -> BaseFault {
        BaseFault::Memory
    }
}

impl<T: Drop> From<AllocFailed<T>> for BaseFault {
    ghost use Rattle.mls_filterview.specs.declared.base.BaseFault.TheVariants.{Memory};

    ghost from_gives = { λ _ e. e ≡ Memory };

    fn from(_e: AllocFailed<T>) -> BaseFault {
        BaseFault::Memory
    }
}

/// Where tuples are kept.
///
/// Contracts see the content now, that of the last commit, and whether a change is begun; what describes the store,
/// which no call changes; how many calls of the store have failed; and whether the store gives back what was written
/// to it. A store can be found unclean at any call and never becomes clean again, so what is said of content after a
/// call has the premise that the store is clean then.
///
/// They see at which labels the base was read and changed, whatever a call answers: `access` says of each call where
/// it may do so. So no answer and no fault of what calls a base can depend on a label that its own `access` leaves out.
///
/// Whether a change is begun is known without that premise: an `Ok` of `begin` begins one, an `Ok` of `commit`
/// and of `rollback`, and each `Store` and `Memory`, ends it, and every other answer keeps it. `NotBegun` and
/// `Begun` come just where no change, or one, is begun, and the store is not asked then. After `Store` or
/// `Memory` inside a change the content is that of the last commit, as it is outside of a change: a law
/// (`settled`), and no clause of each call.
///
/// Keys and values that a call takes have a spelling as bytes.
pub trait Base {
    ghost seen: { Self → Seen };

    /// Whether a change is begun.
    fn is_begun(&self) -> bool
        ensures { result ≡ (seen self.now).state.begun };

    /// Begins a change. `Begun` where one is begun.
    fn begin(&mut self) -> Result<(), BaseFault>
        ensures outside { IsOutside seen true self.old self.new result }
        ensures access { NoAccess seen self.old self.new }
        ensures done { (seen self.new).is_clean → OnOk result ((seen self.new).state
            ≡ begun_change (seen self.old).state) };

    /// Keeps what the change did, and ends it. `NotBegun` where none is begun.
    fn commit(&mut self) -> Result<(), BaseFault>
        ensures change { IsChange seen false self.old self.new result }
        ensures access { NoAccess seen self.old self.new }
        ensures done { (seen self.new).is_clean → OnOk result ((seen self.new).state
            ≡ committed (seen self.old).state) };

    /// Goes back to the last commit, and ends the change. `NotBegun` where none is begun.
    fn rollback(&mut self) -> Result<(), BaseFault>
        ensures change { IsChange seen false self.old self.new result }
        ensures access { NoAccess seen self.old self.new }
        ensures done { (seen self.new).is_clean → OnOk result ((seen self.new).state ≡ ended (seen self.old).state) };

    /// What a label holds of a relation.
    fn fragment(&mut self, relation: RelNo, label: LabelNo) -> Result<Fragment, BaseFault>
        ensures read { IsRead seen self.old self.new result }
        ensures access { ReadsAt seen label self.old self.new }
        ensures found { (seen self.new).is_clean → IfOk result (IsFragment
            ((seen self.old).state.now.db relation) label) };

    /// What these labels hold of a relation, as one. Each of them is below 64.
    fn fragments(&mut self, relation: RelNo, labels: &[LabelNo]) -> Result<Fragment, BaseFault>
        requires few { AllByRecursion (λ m. m < 64) labels.now }
        ensures read { IsRead seen self.old self.new result }
        ensures access { ReadsAmong seen labels.now self.old self.new }
        ensures found { (seen self.new).is_clean → IfOk result (AreFragments
            ((seen self.old).state.now.db relation) labels.now) };

    /// What the class of a place holds of the place's entity: the part of the fragment that belongs to it.
    fn entity(&mut self, relation: RelNo, place: &Place) -> Result<Fragment, BaseFault>
        requires key { IsSpelledKey place.now.key }
        ensures read { IsRead seen self.old self.new result }
        ensures access { ReadsAt seen place.now.class self.old self.new }
        ensures found { (seen self.new).is_clean → IfOk result (IsEntityPart
            ((seen self.old).state.now.db relation) place.now) };

    /// The classes of the elements of the tuple at a place, where there is one. Nothing of the tuple is read but its
    /// node.
    fn pattern(
        &mut self,
        relation: RelNo,
        place: &Place,
    ) -> Result<Option<Items<LabelNo>>, BaseFault>
        requires key { IsSpelledKey place.now.key }
        ensures read { IsRead seen self.old self.new result }
        ensures access { ReadsAt seen place.now.class self.old self.new }
        ensures found { (seen self.new).is_clean → IfOk result (λ pattern. pattern
            ≡ option_map classes (get ((seen self.old).state.now.db relation) place.now)) };

    /// Adds a tuple: its node, and the cells of its class in the order of attributes. The node's pattern says
    /// which these are, so a base sorts nothing and looks for no cell. An element of another class stands at
    /// its place in the entity's tuple of that class, which is long enough to have it: else it would have no
    /// row. `NotBegun` where no change is begun.
    fn add(&mut self, relation: RelNo, node: Node, cells: &[Cell]) -> Result<(), BaseFault>
        requires { CanAdd seen self.old relation node cells.now }
        ensures change { IsChange seen (seen self.old).state.begun self.old self.new result }
        ensures access { ChangesAt seen node.label self.old self.new }
        ensures done { (seen self.new).is_clean → (es : List SpecElement)
            → IsMadeOf ((seen self.old).state.now.db relation) node cells.now es
            → OnOk result ((seen self.new).state
            ≡ with_relation (seen self.old).state relation (insert ((seen self.old).state.now.db relation)
            (place_of_node node) es)) };

    /// Sets the value of a cell, in every tuple of the entity that has it. `place` names the entity and the cell's
    /// class;
    /// `attr` is below 15. `NotBegun` where no change is begun.
    fn set(
        &mut self,
        relation: RelNo,
        place: &Place,
        attr: usize,
        value: Option<Value>,
    ) -> Result<(), BaseFault>
        requires { CanSet seen self.old relation place.now attr value }
        ensures change { IsChange seen (seen self.old).state.begun self.old self.new result }
        ensures access { ChangesAt seen place.now.class self.old self.new }
        ensures done { (seen self.new).is_clean → OnOk result ((seen self.new).state
            ≡ with_relation (seen self.old).state relation
            (change (set_in place.now attr value) ((seen self.old).state.now.db relation))) };

    /// Removes the tuple at a place, if there is one, and its cells, which no other tuple may have. `NotBegun` where no
    /// change is begun.
    fn drop_at(&mut self, relation: RelNo, place: &Place) -> Result<(), BaseFault>
        requires { CanDrop seen self.old relation place.now }
        ensures change { IsChange seen (seen self.old).state.begun self.old self.new result }
        ensures access { ChangesAt seen place.now.class self.old self.new }
        ensures done { (seen self.new).is_clean → OnOk result ((seen self.new).state
            ≡ with_relation (seen self.old).state relation (remove
            ((seen self.old).state.now.db relation) place.now)) };

    /// Adds an entry at the end of the audit list. `NotBegun` where no change is begun.
    fn audit_add(&mut self, bytes: &[u8]) -> Result<(), BaseFault>
        ensures change { IsChange seen (seen self.old).state.begun self.old self.new result }
        ensures access { NoAccess seen self.old self.new }
        ensures done { (seen self.new).is_clean → OnOk result ((seen self.new).state
            ≡ with_entry (seen self.old).state bytes.now) };

    /// Removes all entries of the audit list. `NotBegun` where no change is begun.
    fn audit_clear(&mut self) -> Result<(), BaseFault>
        ensures change { IsChange seen (seen self.old).state.begun self.old self.new result }
        ensures access { NoAccess seen self.old self.new }
        ensures done { (seen self.new).is_clean → OnOk result ((seen self.new).state
            ≡ with_no_entries (seen self.old).state) };

    /// The entries of the audit list, in the order in which they were added.
    fn audit_all(&mut self) -> Result<Items<Items<u8>>, BaseFault>
        ensures read { IsRead seen self.old self.new result }
        ensures access { NoAccess seen self.old self.new }
        ensures found { (seen self.new).is_clean → IfOk result (λ entries. entries ≡ (seen self.old).state.now.audit) };

    ghost settled: { (b : Self) → (seen b).is_clean → (seen b).state.begun ≡ false → (seen b).state.kept
        ≡ (seen b).state.now };
}

/// Ends the change, if one is begun, as each call of a base does before it answers `Store` or `Memory`.
///
/// A call over a base that meets a fault of its own, as a refused growth, or a fault after some of its steps, does so
/// before it answers the fault: the state is then as if it had failed at once.
pub fn abandon<B: Base>(base: &mut B)
    ensures clean { (B.seen base.new).is_clean → (B.seen base.old).is_clean }
    ensures about { (B.seen base.new).is_clean → (B.seen base.new).about ≡ (B.seen base.old).about }
    ensures access { NoAccess B.seen base.old base.new }
    ensures count { (B.seen base.old).failures ≤ (B.seen base.new).failures }
    ensures mode { (B.seen base.new).state.begun ≡ false }
    ensures failed { (B.seen base.new).is_clean → (B.seen base.new).state ≡ failed (B.seen base.old).state }
{
    let _ = base.rollback();
}

/// What a call over a base made for itself; where a growth was refused the change is ended.
pub fn settle<T, B: Base>(base: &mut B, growth: Result<T, AllocError>) -> Result<T, BaseFault>
    ensures value { IfOk result (λ x. growth ≡ Ok x) }
    ensures call { IsCall B.seen base.old base.new result }
    ensures access { NoAccess B.seen base.old base.new }
    ensures served { IfErr result IsServed }
    ensures same { OnOk result (base.new ≡ base.old) }
{
    match growth {
        Ok(value) => Ok(value),
        Err(_fault) => {
            abandon(base);
            Err(BaseFault::Memory)
        }
    }
}
