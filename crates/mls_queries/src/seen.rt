//! A view as it was resolved, and the entities that were written since.
ghost use Rattle.std.specs.Prelude.{◌≡◌, ◌<◌, length, IfOk, IfSome};
ghost use Rattle.std.specs.List.{AllByRecursion, list_any};
ghost use Rattle.mls_lattice.specs.Policy.{labels_of};
ghost use Rattle.mls_filterview.specs.View.{rows};
ghost use Rattle.mls_filterview.specs.Stored.{is_entity};
ghost use Rattle.mls_filterview.specs.Calls.{IsRead, CanSee, NoReadUp};
ghost use Rattle.mls_queries.specs.Views.{AgreesWith, IsNamed, fresh, noted};

use mls_filterview::{Base, BaseFault, SharedView, is_entity, mend, settle, view};
use mls_lattice::{Items, LabelNo, Policy};
use mls_scheme::{Place, RelNo, Tuple, copy_key};
use std::alloc::{AllocError, Global};
use std::marker::Model;

/// How many entities are noted in a view at most. To look up more of them costs about as much as to resolve the view
/// anew.
const MOST_WRITTEN: usize = 16;

/// A view as it was resolved, and places of the entities that were written since.
#[derive(Drop)]
pub(crate) struct KeptView {
    tuples: SharedView,
    written: Vec<Place>,
}

impl Model for KeptView {
    ghost use Rattle.mls_queries.specs.Views.{KeptView as SpecSeen};

    ghost Value = { SpecSeen };

    ghost view = { λ v. record { tuples = v.tuples; written = v.written.items } };
}

impl KeptView {
    /// A view that was resolved now.
    pub(crate) fn new(alloc: Global, tuples: SharedView) -> KeptView
        ensures { result ≡ fresh tuples }
    {
        KeptView {
            tuples,
            written: Vec::new(alloc),
        }
    }

    /// Whether the entity of a place is among those that were written.
    fn has(&self, place: &Place) -> bool
        ensures { result ≡ list_any (is_entity place.now) self.now.written }
    {
        self.written.iter().any(|other| is_entity(place, other))
    }

    /// The view, with the entity of a place among those that were written; nothing where there are most of them, or no
    /// memory for one more.
    pub(crate) fn noting(mut self, place: &Place) -> Option<KeptView>
        ensures { IfSome result (λ v. v ≡ noted place.now self) }
    {
        if self.has(place) {
            return Some(self);
        }
        if self.written.len() >= MOST_WRITTEN {
            return None;
        }
        let place = copy_place(place).ok()?;
        match self.written.push(place) {
            Ok(_) => Some(self),
            Err(_) => None,
        }
    }
}

/// An equal place.
fn copy_place(place: &Place) -> Result<Place, AllocError>
    ensures { IfOk result (λ p. p ≡ place.now) }
{
    Ok(Place {
        key: copy_key(&place.key)?,
        key_class: place.key_class,
        class: place.class,
    })
}

/// Tuples that agree with a view outside of some entities, with each of these as a level sees it now.
fn mend_each<B: Base>(
    alloc: Global,
    base: &mut B,
    policy: &Policy,
    relation: RelNo,
    label: LabelNo,
    tuples: Vec<Tuple>,
    written: Vec<Place>,
) -> Result<Vec<Tuple>, BaseFault>
    requires see { CanSee B.seen base.old relation policy.now label }
    requires named { AllByRecursion (IsNamed (length policy.now.labels)) written.items }
    requires agrees { (B.seen base.old).is_clean → AgreesWith
        (rows (labels_of policy.now) label ((B.seen base.old).state.now.db relation))
        (record { tuples = tuples.items; written = written.items }) }
    ensures read { IsRead B.seen base.old base.new result }
    ensures access { NoReadUp B.seen (labels_of policy.now) label base.old base.new }
    ensures rows { (B.seen base.new).is_clean → IfOk result (λ v. v.items ≡ rows (labels_of policy.now) label
        ((B.seen base.old).state.now.db relation)) }
{
    let mut tuples = tuples;
    for place in written {
        tuples = mend(alloc, base, policy, relation, label, place, tuples)?;
    }
    Ok(tuples)
}

/// A view as it is now.
fn mended<B: Base>(
    alloc: Global,
    base: &mut B,
    policy: &Policy,
    relation: RelNo,
    label: LabelNo,
    seen: KeptView,
) -> Result<SharedView, BaseFault>
    requires see { CanSee B.seen base.old relation policy.now label }
    requires named { AllByRecursion (IsNamed (length policy.now.labels)) seen.written }
    requires agrees { (B.seen base.old).is_clean → AgreesWith
        (rows (labels_of policy.now) label ((B.seen base.old).state.now.db relation)) seen }
    ensures read { IsRead B.seen base.old base.new result }
    ensures access { NoReadUp B.seen (labels_of policy.now) label base.old base.new }
    ensures rows { (B.seen base.new).is_clean → IfOk result (λ ts. ts ≡ rows (labels_of policy.now) label
        ((B.seen base.old).state.now.db relation)) }
{
    let KeptView { tuples, written } = seen;
    if written.is_empty() {
        return Ok(tuples);
    }
    let tuples = settle(base, tuples.into_tuples(alloc))?;
    let tuples = mend_each(alloc, base, policy, relation, label, tuples, written)?;
    let shared = settle(base, SharedView::new(alloc, tuples))?;
    Ok(shared)
}

/// What a level sees of a relation.
fn resolved<B: Base>(
    alloc: Global,
    base: &mut B,
    policy: &Policy,
    relation: RelNo,
    label: LabelNo,
) -> Result<SharedView, BaseFault>
    requires see { CanSee B.seen base.old relation policy.now label }
    ensures read { IsRead B.seen base.old base.new result }
    ensures access { NoReadUp B.seen (labels_of policy.now) label base.old base.new }
    ensures rows { (B.seen base.new).is_clean → IfOk result (λ ts. ts ≡ rows (labels_of policy.now) label
        ((B.seen base.old).state.now.db relation)) }
{
    let tuples = view(alloc, base, policy, relation, label)?;
    let shared = settle(base, SharedView::new(alloc, tuples))?;
    Ok(shared)
}

/// What a level sees of a relation: a view that was kept, with the entities that were written since as they are now,
/// and else
/// resolved.
pub(crate) fn look<B: Base>(
    alloc: Global,
    base: &mut B,
    policy: &Policy,
    relation: RelNo,
    label: LabelNo,
    seen: Option<KeptView>,
) -> Result<SharedView, BaseFault>
    requires see { CanSee B.seen base.old relation policy.now label }
    requires named { IfSome seen (λ v. AllByRecursion (IsNamed (length policy.now.labels)) v.written) }
    requires agrees { (B.seen base.old).is_clean → IfSome seen (AgreesWith
        (rows (labels_of policy.now) label ((B.seen base.old).state.now.db relation))) }
    ensures read { IsRead B.seen base.old base.new result }
    ensures access { NoReadUp B.seen (labels_of policy.now) label base.old base.new }
    ensures rows { (B.seen base.new).is_clean → IfOk result (λ ts. ts ≡ rows (labels_of policy.now) label
        ((B.seen base.old).state.now.db relation)) }
{
    match seen {
        Some(seen) => mended(alloc, base, policy, relation, label, seen),
        None => resolved(alloc, base, policy, relation, label),
    }
}
