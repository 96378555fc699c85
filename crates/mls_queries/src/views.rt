//! Views that were resolved, by relation and label.
ghost use Rattle.std.specs.Prelude.{◌≡◌, ◌∷◌, ◌++◌, ◌<◌, ◌⊎◌, ◌&&◌, [], length, nat_eq, IfOk, IfSome, unwrap_or};
ghost use Rattle.std.specs.List.{AllByRecursion};
ghost use Rattle.mls_scheme.specs.Spelling.{IsSpelledKey};
ghost use Rattle.mls_scheme.specs.Writes.{key_class_of};
ghost use Rattle.std.specs.Map.{lookup, remove_entry};
ghost use Rattle.mls_lattice.specs.Labels.{below};
ghost use Rattle.mls_lattice.specs.Policy.{labels_of};
ghost use Rattle.mls_filterview.specs.View.{rows};
ghost use Rattle.mls_filterview.specs.Calls.{IsRead, CanSee, NoReadUp};
ghost use Rattle.lru.specs.LruCache.{lru_cache, put_entries};
ghost use Rattle.mls_queries.specs.declared.views.ViewKey.{ViewKey as SpecKey};
ghost use Rattle.mls_updates.specs.Writes.{named};
ghost use Rattle.mls_queries.specs.Views.{Kept, KeptView as SpecSeen, AreDeclared, AreViews, AreFollowed, AreLeftBy};
ghost use Rattle.mls_queries.specs.Views.{IsFollowedBy, key_of, is_view, same_key, put_view, noted, no_place};

use crate::naming::place_named;
use crate::seen::{KeptView, look};
use lru::LruCache;
use mls_filterview::{Base, BaseFault, SharedView};
use mls_lattice::{LabelNo, Policy};
use mls_scheme::{Place, RelNo, Value, Write};
use mls_updates::Outcome;
use std::alloc::{AllocError, Global};
use std::marker::Model;
use std::num::NonZeroUsize;

/// How many views are kept at most.
const MOST_VIEWS: usize = 32;

/// The numbers of the relation and the label of a view.
#[derive(Clone, Copy, PartialEq, Eq, Hash)]
pub(crate) struct ViewKey {
    relation: u8,
    label: u8,
}

/// A cache of views.
type ViewCache = LruCache<ViewKey, KeptView>;

/// Views that were resolved, by relation and label: those that were asked for last.
#[derive(Drop)]
pub struct Views {
    /// The first view that is kept makes it.
    cache: Option<ViewCache>,
}

impl Model for Views {
    ghost use Rattle.mls_queries.specs.Views.{Kept, kept_in, HasRoom};

    ghost Value = { Kept };

    ghost view = { λ v. kept_in v.cache };

    ghost invariant = { λ v. HasRoom v.cache };
}

impl ViewKey {
    /// The numbers of a relation and a label.
    fn new(relation: RelNo, label: LabelNo) -> ViewKey
        ensures { result ≡ key_of relation label }
    {
        ViewKey {
            relation: relation.byte(),
            label: label.byte(),
        }
    }

    /// Whether a write of a relation at the label `low` may change the view: it is of that relation, and its label
    /// dominates `low`.
    fn may_change(self, policy: &Policy, relation: RelNo, low: LabelNo) -> bool
        requires low { low < length policy.now.labels }
        requires label { self.label < length policy.now.labels }
        ensures { result ≡ (nat_eq relation self.relation && below (labels_of policy.now) low self.label) }
    {
        if relation.byte() != self.relation {
            return false;
        }
        policy.dominates(LabelNo::new(self.label), low)
    }
}

impl Views {
    /// No view. It takes no memory.
    pub fn new() -> Views
        ensures { result ≡ [] }
    {
        Views { cache: None }
    }

    /// All that is kept, as a call is lent it; nothing is left.
    pub fn take_all(&mut self) -> Views
        ensures all { result ≡ self.old }
        ensures none { self.new ≡ [] }
    {
        Views {
            cache: self.cache.take(),
        }
    }

    /// Gives up all views.
    pub fn clear(&mut self)
        ensures { self.new ≡ [] }
    {
        self.cache = None;
    }

    /// What a level sees of a relation: taken from what is kept, else resolved; it is kept then, as the view that was
    /// asked for last, and shared with it. Of a view that was kept, the entities that were written since are read anew,
    /// and
    /// nothing else. Where there is no memory to keep it, it is not kept. After a fault nothing is kept.
    pub fn view<B: Base>(
        &mut self,
        alloc: Global,
        base: &mut B,
        policy: &Policy,
        relation: RelNo,
        label: LabelNo,
    ) -> Result<SharedView, BaseFault>
        requires see { CanSee B.seen base.old relation policy.now label }
        requires views { AreViews policy.now B.seen base.old self.old }
        ensures read { IsRead B.seen base.old base.new result }
        ensures access { NoReadUp B.seen (labels_of policy.now) label base.old base.new }
        ensures rows { (B.seen base.new).is_clean → IfOk result (λ ts. ts ≡ rows (labels_of policy.now) label
            ((B.seen base.old).state.now.db relation)) }
        ensures views { AreViews policy.now B.seen base.new self.new }
    {
        let tuples = self.resolved(alloc, base, policy, relation, label)?;
        self.keep(alloc, relation, label, &tuples);
        Ok(tuples)
    }

    /// Notes a write of a relation at a label, by its outcome, in the views that it may have changed, or gives
    /// them up. The others stay, all in their order. A view is given up where too many entities were written since it
    /// was
    /// resolved, and where there is no memory to note one.
    pub fn follow(
        &mut self,
        alloc: Global,
        policy: &Policy,
        relation: RelNo,
        level: LabelNo,
        write: &Write<Option<Value>>,
        outcome: Outcome,
    )
        requires level { level < length policy.now.labels }
        requires key_class { key_class_of level write.now < length policy.now.labels }
        requires declared { AreDeclared (length policy.now.labels) self.old }
        ensures { AreLeftBy (labels_of policy.now) relation level (named level write.now) outcome self.old self.new }
    {
        if outcome.is_done() {
            let written = place_named(alloc, write, level);
            if let Some(cache) = &mut self.cache {
                follow_in(cache, policy, relation, level, &written);
            }
        }
    }

    /// What a level sees of a relation: taken out of what is kept, and mended, else resolved. After a fault nothing is
    /// kept.
    fn resolved<B: Base>(
        &mut self,
        alloc: Global,
        base: &mut B,
        policy: &Policy,
        relation: RelNo,
        label: LabelNo,
    ) -> Result<SharedView, BaseFault>
        requires see { CanSee B.seen base.old relation policy.now label }
        requires views { AreViews policy.now B.seen base.old self.old }
        ensures read { IsRead B.seen base.old base.new result }
        ensures access { NoReadUp B.seen (labels_of policy.now) label base.old base.new }
        ensures rows { (B.seen base.new).is_clean → IfOk result (λ ts. ts ≡ rows (labels_of policy.now) label
            ((B.seen base.old).state.now.db relation)) }
        ensures views { AreViews policy.now B.seen base.new self.new }
    {
        let kept = self.take(relation, label);
        match look(alloc, base, policy, relation, label, kept) {
            Ok(tuples) => Ok(tuples),
            Err(fault) => {
                self.clear();
                Err(fault)
            }
        }
    }

    /// Takes out the view of a relation at a label, where it is kept.
    fn take(&mut self, relation: RelNo, label: LabelNo) -> Option<KeptView>
        ensures found { result ≡ lookup (is_view relation label) self.old }
        ensures others { self.new ≡ remove_entry (is_view relation label) self.old }
    {
        let key = ViewKey::new(relation, label);
        match &mut self.cache {
            Some(cache) => cache.pop(&key),
            None => None,
        }
    }

    /// Keeps a view, as the one that was asked for last. Where there is no memory for it, what is kept stays.
    fn keep(&mut self, alloc: Global, relation: RelNo, label: LabelNo, tuples: &SharedView)
        ensures { (self.new ≡ self.old) ⊎ (self.new ≡ put_view relation label tuples.now self.old) }
    {
        if self.make(alloc).is_err() {
            return;
        }
        let Ok(tuples) = tuples.share() else {
            return;
        };
        if let Some(cache) = &mut self.cache {
            put(
                cache,
                ViewKey::new(relation, label),
                KeptView::new(alloc, tuples),
            );
        }
    }

    /// Makes the cache, where there is none.
    fn make(&mut self, alloc: Global) -> Result<(), AllocError>
        ensures { self.new ≡ self.old }
    {
        if self.cache.is_none() {
            let most = NonZeroUsize::new(MOST_VIEWS).unwrap();
            self.cache = Some(LruCache::new(alloc, most)?);
        }
        Ok(())
    }
}

/// Puts a view into a cache. Where there is no memory for it, the cache is as it was.
fn put(cache: &mut ViewCache, key: ViewKey, seen: KeptView)
    ensures { (cache.new ≡ cache.old) ⊎ (cache.new ≡ lru_cache
        (put_entries same_key cache.old key seen) cache.old.cap) }
{
    let _older = cache.put(key, seen);
}

/// Notes a write in the views of a cache that it may have changed, or gives them up.
fn follow_in(
    cache: &mut ViewCache,
    policy: &Policy,
    relation: RelNo,
    low: LabelNo,
    written: &Option<Place>,
)
    requires low { low < length policy.now.labels }
    requires labels { AllByRecursion (λ e. e.0.label < length policy.now.labels) cache.old.entries }
    requires spelled { IfSome written.now (λ p. IsSpelledKey p.key) }
    ensures cap { cache.new.cap ≡ cache.old.cap }
    ensures followed { AreFollowed (labels_of policy.now) relation low (unwrap_or written.now no_place)
        cache.old.entries cache.new.entries }
{
    for _done in 0..cache.len() {
        turn(cache, policy, relation, low, written);
    }
}

/// Makes the last view of a cache the first. Where a write may have changed it, it is noted, or the view is given up.
fn turn(
    cache: &mut ViewCache,
    policy: &Policy,
    relation: RelNo,
    low: LabelNo,
    written: &Option<Place>,
)
    requires low { low < length policy.now.labels }
    requires labels { AllByRecursion (λ e. e.0.label < length policy.now.labels) cache.old.entries }
    requires spelled { IfSome written.now (λ p. IsSpelledKey p.key) }
    ensures { (es : Kept) → (e : SpecKey × SpecSeen) → cache.old.entries ≡ es ++ e ∷ []
        → (new : Kept) × (cache.new ≡ lru_cache new cache.old.cap)
        × IsFollowedBy (labels_of policy.now) relation low (unwrap_or written.now no_place) e es new }
{
    // That no two keys of a cache are equal.
    let _count = cache.len();
    let Some((key, _)) = cache.peek_lru() else {
        return;
    };
    let key = *key;
    if key.may_change(policy, relation, low) {
        renew(cache, written);
    } else {
        let _kept = cache.promote(&key);
    }
}

/// Makes the last view of a cache, which a write may have changed, the first, with the write noted, or gives it up.
fn renew(cache: &mut ViewCache, written: &Option<Place>)
    requires spelled { IfSome written.now (λ p. IsSpelledKey p.key) }
    ensures { (es : Kept) → (e : SpecKey × SpecSeen) → cache.old.entries ≡ es ++ e ∷ []
        → (IsSpelledKey (unwrap_or written.now no_place).key
        × (cache.new ≡ lru_cache ((e.0, noted (unwrap_or written.now no_place) e.1) ∷ es) cache.old.cap))
        ⊎ (cache.new ≡ lru_cache es cache.old.cap) }
{
    // That no two keys of a cache are equal.
    let _count = cache.len();
    let Some((key, seen)) = cache.pop_lru() else {
        return;
    };
    let Some(seen) = noting(seen, written) else {
        return;
    };
    put(cache, key, seen);
}

/// Notes a write in a view, where it names an entity. Nothing is left of the view where it can't be noted.
fn noting(seen: KeptView, written: &Option<Place>) -> Option<KeptView>
    requires spelled { IfSome written.now (λ p. IsSpelledKey p.key) }
    ensures noted { IfSome result (λ v. v ≡ noted (unwrap_or written.now no_place) seen) }
    ensures spelled { IfSome result (λ _. IsSpelledKey (unwrap_or written.now no_place).key) }
{
    match written {
        Some(place) => seen.noting(place),
        None => None,
    }
}
