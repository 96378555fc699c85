//! Rows of a view, of the kinds of their relation.
ghost use Rattle.std.specs.Prelude.{◌≡◌, ◌↔◌, ◌+◌, length, IsTrue, IfOk};
ghost use Rattle.std.specs.List.{AllByRecursion};
ghost use Rattle.mls_lattice.specs.Policy.{labels_of};
ghost use Rattle.mls_scheme.specs.Scheme.{scheme_of};
ghost use Rattle.mls_filterview.specs.Calls.{IsRead, NoReadUp};
ghost use Rattle.mls_filterview.specs.View.{rows};
ghost use Rattle.mls_translang.specs.Kinds.{field_of};
ghost use Rattle.mls_certcheck.specs.Kinds.{RowKinds};
ghost use Rattle.mls_queries.specs.Views.{AreViews};
ghost use Rattle.mls_trusted.specs.Frames.{MayLook};

use crate::call::Call;
use mls_filterview::{Base, BaseFault, SharedView};
use mls_lattice::LabelNo;
use mls_queries::{Views, cell};
use mls_scheme::{Kind, RelNo, Scheme, Tuple};

/// The kind of an attribute by number, the key first; past the last one it is that of numbers.
fn kind_of(scheme: &Scheme, attribute: usize) -> Kind
    ensures { result ≡ (field_of scheme.now attribute).1.kind }
{
    let keys = scheme.keys();
    if attribute < keys.len() {
        return keys.get(attribute).kind;
    }
    let others = scheme.others();
    if attribute - keys.len() < others.len() {
        others.get(attribute - keys.len()).kind
    } else {
        Kind::Int
    }
}

/// How many values a row has, key and others.
fn width(row: &Tuple) -> usize
    ensures { result ≡ length row.now.key + length row.now.elements }
{
    row.key.as_slice().len() + row.elements.as_slice().len()
}

/// Whether each value of a row is of the kind of its attribute.
fn is_of_kinds(scheme: &Scheme, row: &Tuple) -> bool
    ensures { IsTrue result ↔ RowKinds scheme.now row.now }
{
    for attribute in 0..width(row) {
        if !cell(row, attribute).fits_kind(kind_of(scheme, attribute)) {
            return false;
        }
    }
    true
}

/// Whether the rows are of the kinds of a relation.
fn are_of_kinds(scheme: &Scheme, rows: &[Tuple]) -> bool
    ensures { IsTrue result ↔ AllByRecursion (RowKinds scheme.now) rows.now }
{
    for row in rows {
        if !is_of_kinds(scheme, row) {
            return false;
        }
    }
    true
}

/// What a level sees of a relation, from the views that are kept where it is among them. Only a store that does
/// not give back what was written to it can give values of other kinds: then there are no rows, so the kinds of
/// what a call writes hold over every store.
pub(crate) fn rows_at<B: Base>(
    call: &Call<'_>,
    base: &mut B,
    views: &mut Views,
    relation: RelNo,
    label: LabelNo,
) -> Result<SharedView, BaseFault>
    requires { MayLook call.now B.seen relation label views.old base.old }
    ensures read { IsRead B.seen base.old base.new result }
    ensures access { NoReadUp B.seen (labels_of call.now.policy.now) label base.old base.new }
    ensures kinds { IfOk result (λ v. AllByRecursion (RowKinds (scheme_of call.now.schemes.now relation)) v) }
    ensures rows { (B.seen base.new).is_clean → IfOk result (λ v. v ≡ rows (labels_of call.now.policy.now) label
        ((B.seen base.old).state.now.db relation)) }
    ensures views { AreViews call.now.policy.now B.seen base.new views.new }
{
    call.policy.use_invariant();
    let rows = views.view(call.alloc, base, call.policy, relation, label)?;
    if are_of_kinds(call.schemes.scheme(relation), rows.as_slice()) {
        Ok(rows)
    } else {
        Ok(SharedView::none())
    }
}
