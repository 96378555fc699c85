//! The labels that a claim speaks of.
ghost use Rattle.std.specs.Prelude.{◌≡◌, map, slice_index, slice_index_or};
ghost use Rattle.mls_lattice.specs.Lattice.{bottom, pair_of};
ghost use Rattle.mls_certcheck.specs.declared.cert.Certificate.TheVariants.{Two};
ghost use Rattle.mls_certcheck.specs.Lines.{names};
ghost use Rattle.mls_certcheck.specs.Rules.{hi, pc, after, param_label, pc_labels, row_after};
ghost use Rattle.mls_certcheck.specs.Loops.{loops_of};
ghost use Rattle.mls_certcheck.specs.Walk.{IsJoin, claim_of};

use crate::lent::Here;
use crate::{Cert2, Certificate};
use mls_lattice::{Label, LabelNo, Policy, declared, lowest};
use mls_translang::{Expr, Term, Tx};

/// A transaction with its certificate, under a policy.
#[derive(Clone, Copy)]
pub(crate) struct Checker<'a> {
    pub policy: &'a Policy,
    pub tx: &'a Tx,
    pub cert: &'a Certificate,
}

/// A label of a list; behind its end, the bottom.
#[tactic(auto, using(crate::proofs::LabelLemmas::label_places))]
pub fn nth_label(labels: &[Label], place: usize) -> Label
    ensures { pair_of result ≡ slice_index_or (map pair_of labels.now) place bottom }
{
    if place < labels.len() {
        labels[place]
    } else {
        lowest()
    }
}

/// The number of a parameter's label.
pub fn parameter_no(tx: &Tx, place: u8) -> LabelNo
    ensures { result ≡ slice_index (map (λ p. p.1.label) tx.now.params) place }
{
    let params = tx.params();
    let place = usize::from(place);
    if place < params.len() {
        params.get(place).label
    } else {
        LabelNo::new(0)
    }
}

/// The row of a statement: before the first one there is none.
#[tactic(auto, using(crate::proofs::LabelLemmas::row_places))]
fn row_of(cert: &Cert2, number: usize) -> &[Label]
    ensures { result.now ≡ row_after (Two cert.now) number }
{
    let rows = cert.rows.as_slice();
    if number > 0 && number <= rows.len() {
        rows[number - 1].as_slice()
    } else {
        &[]
    }
}

impl Checker<'_> {
    /// The ceiling.
    pub(crate) fn hi(&self) -> Label
        ensures { pair_of result ≡ hi (claim_of self.now) }
    {
        declared(self.policy, self.tx.hi())
    }

    fn pc_labels(&self) -> &[Label]
        ensures { result.now ≡ pc_labels self.now.cert.now }
    {
        match self.cert {
            Certificate::One(cert) => cert.pc_labels.as_slice(),
            Certificate::Two(cert) => cert.pc_labels.as_slice(),
        }
    }

    /// The label of a statement, or of the transaction itself.
    pub(crate) fn pc(&self, number: usize) -> Label
        ensures { pair_of result ≡ pc (claim_of self.now) number }
    {
        if number == 0 {
            declared(self.policy, self.tx.lo())
        } else {
            nth_label(self.pc_labels(), number - 1)
        }
    }

    fn row_after(&self, number: usize) -> &[Label]
        ensures { result.now ≡ row_after self.now.cert.now number }
    {
        match self.cert {
            Certificate::One(cert) => cert.var_labels.as_slice(),
            Certificate::Two(cert) => row_of(cert, number),
        }
    }

    /// The label of a variable after a statement.
    pub(crate) fn after(&self, number: usize, place: usize) -> Label
        ensures { pair_of result ≡ after (claim_of self.now) number place }
    {
        nth_label(self.row_after(number), place)
    }

    /// The label of a parameter.
    pub(crate) fn parameter(&self, place: u8) -> Label
        ensures { pair_of result ≡ param_label (claim_of self.now) place }
    {
        declared(self.policy, parameter_no(self.tx, place))
    }

    /// The join of the labels of the names in an expression: it flows just where each of them does.
    #[tactic(auto, using(crate::proofs::LabelLemmas::joins))]
    pub(crate) fn label(&self, here: &Here, expr: &Expr) -> Label
        ensures { IsJoin (claim_of self.now) (names here.now.before (loops_of here.now.loops) expr.now)
            (pair_of result) }
    {
        match &expr.term {
            Term::Known(_) | Term::Null => lowest(),
            Term::Variable(place) => self.after(here.before, usize::from(*place)),
            Term::Parameter(place) => self.parameter(*place),
            Term::Field { depth, .. } => declared(self.policy, here.loops.label(*depth)),
            Term::Not(expr) => self.label(here, expr),
            Term::Op(_, left, right) => self.label(here, left).join(self.label(here, right)),
        }
    }
}
