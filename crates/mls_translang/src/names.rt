//! What numbers are called in the text of a transaction.
ghost use Rattle.std.specs.Prelude.{◌≡◌, ◌<◌, length};
ghost use Rattle.mls_lattice.specs.Canon.{label_name};
ghost use Rattle.mls_scheme.specs.Scheme.{scheme_of};
ghost use Rattle.mls_translang.specs.Scope.{row_at};
ghost use Rattle.mls_translang.specs.Fits.{IsLabel, width};
ghost use Rattle.mls_translang.specs.Kinds.{field_of};
ghost use Rattle.mls_translang.specs.Tokens.{name_at, with_rows};

use crate::row::LoopRow;
use crate::tx::Tx;
use mls_lattice::{LabelNo, Policy};
use mls_scheme::{RelNo, Scheme, Schemes};
use std::marker::Model;

/// A policy, schemes, a transaction and the rows of the loops around, the innermost first.
#[derive(Drop)]
pub(crate) struct Names<'a> {
    pub policy: &'a Policy,
    pub schemes: &'a Schemes,
    pub tx: &'a Tx,
    pub rows: &'a [LoopRow],
}

impl<'a> Model for Names<'a> {
    ghost use Rattle.std.specs.Coded.{codes};
    ghost use Rattle.mls_lattice.specs.Lattice.{pair_code};
    ghost use Rattle.mls_translang.specs.Tokens.{Context};

    ghost Value = { Context };

    ghost coded = { Prim.hlevel (codes, pair_code) };

    ghost view = { λ a. record {
      policy = a.policy.now;
      schemes = a.schemes.now;
      hi = a.tx.now.hi;
      scope = record { params = a.tx.now.params; vars = a.tx.now.vars; rows = a.rows.now };
    } };
}

impl Names<'_> {
    pub fn label(&self, label: LabelNo) -> &str
        requires { IsLabel self.now.policy label }
        ensures { result.now ≡ label_name self.now.policy.labels label }
    {
        self.policy.name(label)
    }

    pub fn variable(&self, number: u8) -> &str
        requires { number < length self.now.scope.vars }
        ensures { result.now ≡ name_at self.now.scope.vars number }
    {
        self.tx.vars().name(number as usize)
    }

    pub fn parameter(&self, number: u8) -> &str
        requires { number < length self.now.scope.params }
        ensures { result.now ≡ name_at self.now.scope.params number }
    {
        self.tx.params().name(number as usize)
    }

    pub fn relation(&self, relation: RelNo) -> &str
        requires { relation < length self.now.schemes }
        ensures { result.now ≡ (scheme_of self.now.schemes relation).name }
    {
        self.schemes.scheme(relation).name()
    }

    /// The row at a depth.
    pub fn row(&self, depth: u8) -> &LoopRow
        requires { depth < length self.now.scope.rows }
        ensures { result.now ≡ row_at self.now.scope depth }
    {
        &self.rows[depth as usize]
    }

    /// The same, with other rows.
    pub fn with_rows<'b>(&'b self, rows: &'b [LoopRow]) -> Names<'b>
        ensures { result ≡ with_rows self.now rows.now }
    {
        Names {
            policy: self.policy,
            schemes: self.schemes,
            tx: self.tx,
            rows,
        }
    }

    pub fn scheme(&self, relation: RelNo) -> &Scheme
        requires { relation < length self.now.schemes }
        ensures { result.now ≡ scheme_of self.now.schemes relation }
    {
        self.schemes.scheme(relation)
    }
}

/// The name of an attribute of a row, the key first.
pub(crate) fn field_name(scheme: &Scheme, attribute: usize) -> &str
    requires { attribute < width scheme.now }
    ensures { result.now ≡ (field_of scheme.now attribute).0 }
{
    let keys = scheme.keys();
    if attribute < keys.len() {
        keys.name(attribute)
    } else {
        scheme.others().name(attribute - keys.len())
    }
}
