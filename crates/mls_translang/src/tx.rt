//! Transactions, and what each keeps to.
ghost use Rattle.std.specs.Prelude.{◌≡◌};
ghost use Rattle.mls_translang.specs.Tree.{statements};
ghost use Rattle.mls_translang.specs.Tx.{IsTx};

use crate::block::Block;
use mls_lattice::{LabelNo, Str};
use mls_scheme::{Kind, Named};
use std::marker::Model;

/// A parameter: the kind of its values, and their label.
#[derive(Clone, Copy, PartialEq, Eq)]
pub struct Parameter {
    pub kind: Kind,
    pub label: LabelNo,
}

/// A transaction: what it is called, the labels that it runs between, its parameters, its variables and its
/// statements. That its numbers are of its own lists is its invariant; what rests on policy or schemes is
/// `IsReadUnder`.
#[derive(Drop)]
pub struct Tx {
    name: Str,
    lo: LabelNo,
    hi: LabelNo,
    params: Named<Parameter>,
    vars: Named<Kind>,
    body: Block,
}

impl Model for Tx {
    ghost use Rattle.std.specs.Coded.{codes};
    ghost use Rattle.mls_translang.specs.contracts.block.Block as b;
    ghost use Rattle.mls_translang.specs.Tx.{Tx as Transaction, IsTx};

    ghost Value = { Transaction };

    ghost coded = { Prim.hlevel (codes, b.the_row.coded) };

    ghost view = { λ a. record {
      name = a.name;
      lo = a.lo;
      hi = a.hi;
      params = a.params;
      vars = a.vars;
      body = a.body;
    } };

    ghost invariant = { λ a. IsTx (record {
      name = a.name;
      lo = a.lo;
      hi = a.hi;
      params = a.params;
      vars = a.vars;
      body = a.body;
    }) };
}

impl Tx {
    /// A transaction of these parts.
    pub fn new(
        name: Str,
        lo: LabelNo,
        hi: LabelNo,
        params: Named<Parameter>,
        vars: Named<Kind>,
        body: Block,
    ) -> Tx
        requires { IsTx (record { name = name; lo = lo; hi = hi; params = params; vars = vars; body = body }) }
        ensures { result ≡ record { name = name; lo = lo; hi = hi; params = params; vars = vars; body = body } }
    {
        Tx {
            name,
            lo,
            hi,
            params,
            vars,
            body,
        }
    }

    /// A NAME.
    pub fn name(&self) -> &str
        ensures name { result.now ≡ self.now.name }
        ensures valid { IsTx self.now }
    {
        self.name.as_str()
    }

    /// The lowest label at which it is called, which nothing that it does goes below.
    pub fn lo(&self) -> LabelNo
        ensures lo { result ≡ self.now.lo }
        ensures valid { IsTx self.now }
    {
        self.lo
    }

    /// The highest label of what it reads.
    pub fn hi(&self) -> LabelNo
        ensures hi { result ≡ self.now.hi }
        ensures valid { IsTx self.now }
    {
        self.hi
    }

    /// The parameters, by name: 64 at most.
    pub fn params(&self) -> &Named<Parameter>
        ensures params { result.now ≡ self.now.params }
        ensures valid { IsTx self.now }
    {
        &self.params
    }

    /// The variables with their kinds, by name: 64 at most.
    pub fn vars(&self) -> &Named<Kind>
        ensures vars { result.now ≡ self.now.vars }
        ensures valid { IsTx self.now }
    {
        &self.vars
    }

    /// The statements: 1,000 at most, inner ones too.
    pub fn body(&self) -> &Block
        ensures body { result.now ≡ self.now.body }
        ensures valid { IsTx self.now }
    {
        &self.body
    }
}

/// How many statements a transaction has, inner ones too. It takes no memory.
pub fn statements(tx: &Tx) -> usize
    ensures { result ≡ statements tx.now.body }
{
    tx.body().statements()
}
