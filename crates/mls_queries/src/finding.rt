//! What a query finds at a level.
ghost use Rattle.std.specs.Prelude.{◌≡◌, ◌<◌, length, IfOk, OnOk};
ghost use Rattle.mls_lattice.specs.Policy.{labels_of};
ghost use Rattle.mls_scheme.specs.Scheme.{scheme_of};
ghost use Rattle.mls_filterview.specs.View.{rows};
ghost use Rattle.mls_filterview.specs.Stored.{IsContent};
ghost use Rattle.mls_filterview.specs.Calls.{IsRead, CanSee, NoReadUp};
ghost use Rattle.mls_queries.specs.Views.{AreViews};
ghost use Rattle.mls_queries.specs.Query.{found};
ghost use Rattle.mls_queries.specs.Demanded.{IsDemanded};
ghost use Rattle.mls_queries.specs.Finding.{CanFind};

use crate::Views;
use crate::demand::demanded_key;
use crate::looking::look_up;
use crate::selecting::select;
use crate::selection::Selection;
use mls_filterview::{Base, BaseFault, SharedView, settle};
use mls_lattice::{Items, LabelNo, Policy};
use mls_scheme::{RelNo, Scheme, Schemes, Value};
use mls_translang::Query;
use std::alloc::Global;

/// What a query finds among the rows of a view. After a fault nothing is known of what is kept.
fn find_in_view<B: Base>(
    alloc: Global,
    base: &mut B,
    views: &mut Views,
    policy: &Policy,
    relation: RelNo,
    label: LabelNo,
    query: &Query,
) -> Result<Selection, BaseFault>
    requires see { CanSee B.seen base.old relation policy.now label }
    requires views { AreViews policy.now B.seen base.old views.old }
    ensures read { IsRead B.seen base.old base.new result }
    ensures access { NoReadUp B.seen (labels_of policy.now) label base.old base.new }
    ensures rows { (B.seen base.new).is_clean → IfOk result (λ ts. ts ≡ found (labels_of policy.now) query.now
        (rows (labels_of policy.now) label ((B.seen base.old).state.now.db relation))) }
    ensures views { OnOk result (AreViews policy.now B.seen base.new views.new) }
{
    let view = views.view(alloc, base, policy, relation, label)?;
    let found = settle(base, select(alloc, policy, view, query))?;
    Ok(found)
}

/// What a query finds whose condition demands a key: among the tuples of the key. No fragment is read.
fn find_by_key<B: Base>(
    alloc: Global,
    base: &mut B,
    policy: &Policy,
    scheme: &Scheme,
    relation: RelNo,
    label: LabelNo,
    query: &Query,
    key: Items<Value>,
) -> Result<Selection, BaseFault>
    requires label { label < length policy.now.labels }
    requires demanded { IsDemanded (length scheme.now.keys) query.now.test key }
    requires content { (B.seen base.old).is_clean → IsContent (labels_of policy.now) scheme.now
        ((B.seen base.old).state.now.db relation) }
    ensures read { IsRead B.seen base.old base.new result }
    ensures access { NoReadUp B.seen (labels_of policy.now) label base.old base.new }
    ensures rows { (B.seen base.new).is_clean → IfOk result (λ ts. ts ≡ found (labels_of policy.now) query.now
        (rows (labels_of policy.now) label ((B.seen base.old).state.now.db relation))) }
{
    let tuples = look_up(alloc, base, policy, relation, label, key)?;
    let view = settle(base, SharedView::new(alloc, tuples))?;
    let found = settle(base, select(alloc, policy, view, query))?;
    Ok(found)
}

/// What a query finds of what a level sees of a relation. After a fault nothing is known of what is kept.
fn find_now<B: Base>(
    alloc: Global,
    base: &mut B,
    views: &mut Views,
    policy: &Policy,
    scheme: &Scheme,
    relation: RelNo,
    label: LabelNo,
    query: &Query,
) -> Result<Selection, BaseFault>
    requires { CanFind B.seen base.old policy.now scheme.now relation label views.old }
    ensures read { IsRead B.seen base.old base.new result }
    ensures access { NoReadUp B.seen (labels_of policy.now) label base.old base.new }
    ensures rows { (B.seen base.new).is_clean → IfOk result (λ ts. ts ≡ found (labels_of policy.now) query.now
        (rows (labels_of policy.now) label ((B.seen base.old).state.now.db relation))) }
    ensures views { OnOk result (AreViews policy.now B.seen base.new views.new) }
{
    let key = settle(base, demanded_key(alloc, scheme, query))?;
    match key {
        Some(key) => find_by_key(alloc, base, policy, scheme, relation, label, query, key),
        None => find_in_view(alloc, base, views, policy, relation, label, query),
    }
}

/// What a query finds of what a level sees of a relation.
///
/// Where its condition demands a whole key, the tuples of that key are looked up, and no fragment is read. Else
/// the view is taken from what is kept, or resolved and kept, as [`Views::view`] does. After a fault nothing is
/// kept. The contract tells what is found, and not on which way.
pub fn find<B: Base>(
    alloc: Global,
    base: &mut B,
    views: &mut Views,
    policy: &Policy,
    schemes: &Schemes,
    relation: RelNo,
    label: LabelNo,
    query: &Query,
) -> Result<Selection, BaseFault>
    requires relation { relation < length schemes.now }
    requires can { CanFind B.seen base.old policy.now (scheme_of schemes.now relation) relation label views.old }
    ensures read { IsRead B.seen base.old base.new result }
    ensures access { NoReadUp B.seen (labels_of policy.now) label base.old base.new }
    ensures rows { (B.seen base.new).is_clean → IfOk result (λ ts. ts ≡ found (labels_of policy.now) query.now
        (rows (labels_of policy.now) label ((B.seen base.old).state.now.db relation))) }
    ensures views { AreViews policy.now B.seen base.new views.new }
{
    let scheme = schemes.scheme(relation);
    match find_now(alloc, base, views, policy, scheme, relation, label, query) {
        Ok(found) => Ok(found),
        Err(fault) => {
            views.clear();
            Err(fault)
        }
    }
}
