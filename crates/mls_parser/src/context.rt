//! The place in a transaction at which names are looked up.
ghost use Rattle.std.specs.Prelude.{◌≡◌, ◌<◌, ◌≤◌, length, Some, IfSome};
ghost use Rattle.mls_scheme.specs.Scheme.{IsScheme};
ghost use Rattle.mls_translang.specs.Fits.{width};
ghost use Rattle.mls_parser.specs.Names.{label_named, relation_named, variable_named, parameter_named, row_named};
ghost use Rattle.mls_parser.specs.Names.{numbered, referent, row_scheme, is_taken, IsReferent, IsContext};
ghost use Rattle.mls_parser.specs.Infer.{of_referent, of_attribute};

use crate::inferred::Inferred;
use crate::names::{Name, Referent, attribute_kind, row_place};
use mls_lattice::{LabelNo, Policy};
use mls_scheme::{Kind, Named, RelNo, Scheme, Schemes};
use mls_translang::{LoopRow, Parameter};
use std::marker::Model;

/// A policy, schemes, a ceiling, parameters and variables, and the rows of the loops around, the innermost first.
#[derive(Drop)]
pub(crate) struct Context<'a> {
    pub policy: &'a Policy,
    pub schemes: &'a Schemes,
    pub hi: LabelNo,
    pub params: &'a Named<Parameter>,
    pub vars: &'a Named<Kind>,
    pub rows: &'a [LoopRow],
}

impl<'a> Model for Context<'a> {
    ghost use Rattle.std.specs.Coded.{codes};
    ghost use Rattle.mls_lattice.specs.Lattice.{pair_code};
    ghost use Rattle.mls_translang.specs.Tokens.{Context};

    ghost Value = { Context };

    ghost coded = { Prim.hlevel (codes, pair_code) };

    ghost use Rattle.mls_parser.specs.Names.{IsContext};

    ghost view = { λ a. record {
      policy = a.policy.now;
      schemes = a.schemes.now;
      hi = a.hi;
      scope = record { params = a.params.now; vars = a.vars.now; rows = a.rows.now };
    } };

    ghost invariant = { λ a. IsContext (record {
      policy = a.policy.now;
      schemes = a.schemes.now;
      hi = a.hi;
      scope = record { params = a.params.now; vars = a.vars.now; rows = a.rows.now };
    }) };
}

/// The number of the label of a name.
#[tactic(auto, unfolding(crate::specs::Names::label_named), using(crate::proofs::NameLemmas::place_steps))]
pub(crate) fn label(policy: &Policy, name: &Name) -> Option<LabelNo>
    ensures exact { result ≡ label_named policy.now name.now.0 }
    ensures within { IfSome result (λ n. n < length policy.now.labels) }
{
    policy.label(name.0.as_str())
}

/// The same, or the first.
pub(crate) fn label_or_first(policy: &Policy, name: &Name) -> LabelNo
    ensures exact { result ≡ numbered (label_named policy.now name.now.0) }
    ensures within { result < length policy.now.labels }
{
    policy.use_invariant();
    match label(policy, name) {
        Some(number) => number,
        None => LabelNo::new(0),
    }
}

/// The number of the relation of a name.
#[tactic(auto, unfolding(crate::specs::Names::relation_named))]
pub(crate) fn relation(schemes: &Schemes, name: &Name) -> Option<RelNo>
    ensures exact { result ≡ relation_named schemes.now name.now.0 }
    ensures within { IfSome result (λ n. n < length schemes.now) }
{
    schemes.relation(name.0.as_str())
}

/// The same, or the first.
pub(crate) fn relation_or_first(schemes: &Schemes, name: &Name) -> RelNo
    ensures exact { result ≡ numbered (relation_named schemes.now name.now.0) }
    ensures within { result < length schemes.now }
{
    schemes.use_invariant();
    match relation(schemes, name) {
        Some(number) => number,
        None => RelNo::new(0),
    }
}

impl Context<'_> {
    #[tactic(auto, unfolding(crate::specs::Names::variable_named))]
    pub fn variable(&self, name: &Name) -> Option<usize>
        ensures exact { result ≡ variable_named self.now name.now.0 }
        ensures within { IfSome result (λ i. i < length self.now.scope.vars) }
    {
        self.vars.place(name.0.as_str())
    }

    #[tactic(auto, unfolding(crate::specs::Names::parameter_named))]
    pub fn parameter(&self, name: &Name) -> Option<usize>
        ensures exact { result ≡ parameter_named self.now name.now.0 }
        ensures within { IfSome result (λ i. i < length self.now.scope.params) }
    {
        self.params.place(name.0.as_str())
    }

    /// The depth of the innermost row of a name.
    #[tactic(auto, unfolding(crate::specs::Names::row_named))]
    pub fn row(&self, name: &Name) -> Option<usize>
        ensures exact { result ≡ row_named self.now name.now.0 }
        ensures within { IfSome result (λ i. i < length self.now.scope.rows) }
        ensures few { length self.now.scope.rows ≤ 16 }
    {
        row_place(self.rows, name.0.as_str())
    }

    /// The relation of the row at a depth.
    #[tactic(auto, using(crate::proofs::NameLemmas::row_steps))]
    pub fn row_scheme(&self, depth: usize) -> &Scheme
        requires within { depth < length self.now.scope.rows }
        ensures exact { result.now ≡ row_scheme self.now depth }
        ensures valid { IsScheme result.now }
    {
        self.schemes.scheme(self.rows[depth].relation)
    }

    /// What a name in an expression refers to.
    pub fn referent(&self, name: &Name) -> Option<Referent>
        ensures exact { result ≡ referent self.now name.now.0 }
        ensures within { IfSome result (IsReferent self.now) }
    {
        match (self.variable(name), self.parameter(name)) {
            (Some(place), _) => Some(Referent::Variable(place)),
            (None, Some(place)) => Some(Referent::Parameter(place)),
            (None, None) => None,
        }
    }

    /// Whether a row, a parameter or a variable has a name.
    pub fn is_taken(&self, name: &Name) -> bool
        ensures { result ≡ is_taken self.now name.now.0 }
    {
        self.row(name).is_some() || self.parameter(name).is_some() || self.variable(name).is_some()
    }
}

impl Context<'_> {
    /// What the variable or parameter of a name gives, if there is one.
    #[tactic(auto, unfolding(crate::specs::Names::variable_named))]
    pub fn name_gives(&self, name: &Name) -> Inferred
        ensures { result ≡ of_referent self.now (referent self.now name.now.0) }
    {
        match (self.variable(name), self.parameter(name)) {
            (Some(place), _) => Inferred::Value(*self.vars.get(place)),
            (None, Some(place)) => Inferred::Value(self.params.get(place).kind),
            (None, None) => Inferred::Unknown,
        }
    }

    /// What an attribute of the row at a depth gives, if there is one of the number.
    pub fn attribute_gives(&self, depth: usize, number: Option<usize>) -> Inferred
        requires row { depth < length self.now.scope.rows }
        requires within { IfSome number (λ i. i < width (row_scheme self.now depth)) }
        ensures { result ≡ of_attribute (row_scheme self.now depth) number }
    {
        match number {
            Some(number) => Inferred::Value(attribute_kind(self.row_scheme(depth), number)),
            None => Inferred::Unknown,
        }
    }
}
