//! The labels rise until every lower bound holds.
ghost use Rattle.std.specs.Prelude.{◌≡◌, ◌↔◌, IsTrue, Some, IfOk};
ghost use Rattle.std.specs.List.{AllByRecursion};
ghost use Rattle.mls_lattice.specs.Lattice.{Dominates, pair_of};
ghost use Rattle.mls_translang.specs.Tree.{statements};
ghost use Rattle.mls_certcheck.specs.Rules.{slot_label, source_label};
ghost use Rattle.mls_certcheck.specs.Walk.{IsJoin};
ghost use Rattle.mls_labeller.specs.Flows.{IsBounded, body_lines};
ghost use Rattle.mls_labeller.specs.Least.{IsLeast};
ghost use Rattle.mls_labeller.specs.Rising.{rows_of, certificate, claim_at, HasStatement, HasSlot, HasTargets, IsDue};
ghost use Rattle.mls_labeller.specs.Rising.{Stands, Rises};
ghost use Rattle.mls_certcheck.specs.declared.flow.Flow.TheVariants.{Into, Kept};

use crate::labels::{Labels, cell};
use mls_certcheck::{Flow, Line, Slot, Source, Version, nth_label, parameter_no};
use mls_lattice::{Label, LabelNo, Policy, declared, lowest};
use mls_translang::{Tx, statements};
use std::alloc::{AllocError, Global};

/// A transaction, under a policy.
#[derive(Drop)]
pub struct Labeller<'a> {
    pub policy: &'a Policy,
    pub tx: &'a Tx,
}

/// Whether it is this variable.
fn is_it(variable: Option<u8>, place: usize) -> bool
    ensures { IsTrue result ↔ (variable ≡ Some place) }
{
    match variable {
        Some(other) => usize::from(other) == place,
        None => false,
    }
}

/// What the labels of a version rise for. At each step there are as many as it takes, and none is higher than in any
/// labels that meet all
/// lower bounds.
#[derive(Drop)]
pub(crate) struct Rising<'a> {
    pub labeller: Labeller<'a>,
    pub version: Version,
}

impl Rising<'_> {
    fn held(&self, labels: &Labels, slot: Slot) -> Label
        ensures { pair_of result ≡ slot_label (claim_at self.now (rows_of labels.now)) slot }
    {
        match slot {
            Slot::Variable { after, place } => nth_label(labels.after(self.version, after), place),
            Slot::Statement(0) => declared(self.labeller.policy, self.labeller.tx.lo()),
            Slot::Statement(number) => nth_label(labels.stmts(self.version), number - 1),
        }
    }

    fn source(&self, labels: &Labels, source: Source) -> Label
        ensures { pair_of result ≡ source_label (claim_at self.now (rows_of labels.now)) source }
    {
        match source {
            Source::Held(slot) => self.held(labels, slot),
            Source::Parameter(place) => declared(
                self.labeller.policy,
                parameter_no(self.labeller.tx, place),
            ),
            Source::Declared(label) => declared(self.labeller.policy, label),
        }
    }

    /// The join of the labels of sources.
    fn joined(&self, labels: &Labels, sources: &[Source]) -> Label
        ensures { IsJoin (claim_at self.now (rows_of labels.now)) sources.now (pair_of result) }
    {
        let mut label = lowest();
        for source in sources {
            label = label.join(self.source(labels, *source));
        }
        label
    }

    /// Raises a label to a lower bound: false where it was there.
    fn raise(&self, labels: &mut Labels, slot: Slot, low: Label) -> bool
        requires stands { Stands self.now (rows_of labels.old) }
        requires slot { HasSlot self.now.labeller.tx.now slot }
        requires due { IsDue self.now (λ c. Dominates (slot_label c slot) (pair_of low)) }
        ensures { Rises self.now (λ c. Dominates (slot_label c slot) (pair_of low)) (rows_of labels.old)
            (rows_of labels.new) result }
    {
        let here = self.held(labels, slot);
        if here.dominates(low) {
            return false;
        }
        let (row, place) = cell(self.version, slot);
        labels.put(row, place, here.join(low));
        true
    }

    /// Raises slots to the join of sources: false where they all were there.
    fn pour(&self, labels: &mut Labels, targets: &[Slot], sources: &[Source]) -> bool
        requires stands { Stands self.now (rows_of labels.old) }
        requires targets { AllByRecursion (HasSlot self.now.labeller.tx.now) targets.now }
        requires due { IsDue self.now (λ c. IsBounded c (Into targets.now sources.now)) }
        ensures { Rises self.now (λ c. IsBounded c (Into targets.now sources.now)) (rows_of labels.old)
            (rows_of labels.new) result }
    {
        let low = self.joined(labels, sources);
        let mut rose = false;
        for slot in targets {
            rose |= self.raise(labels, *slot, low);
        }
        rose
    }

    /// Raises the labels of the variables after the one statement to those after the other, but for one: false where
    /// they all were there.
    fn keep(&self, labels: &mut Labels, from: usize, to: usize, but: Option<u8>) -> bool
        requires stands { Stands self.now (rows_of labels.old) }
        requires statement { HasStatement self.now.labeller.tx.now to }
        requires due { IsDue self.now (λ c. IsBounded c (Kept from to but)) }
        ensures { Rises self.now (λ c. IsBounded c (Kept from to but)) (rows_of labels.old)
            (rows_of labels.new) result }
    {
        let mut rose = false;
        for place in 0..self.labeller.tx.vars().len() {
            if !is_it(but, place) {
                let low = self.held(labels, Slot::Variable { after: from, place });
                rose |= self.raise(labels, Slot::Variable { after: to, place }, low);
            }
        }
        rose
    }

    /// Raises labels until what flows is bounded: false where they all were there.
    fn follow(&self, labels: &mut Labels, flow: &Flow) -> bool
        requires stands { Stands self.now (rows_of labels.old) }
        requires targets { HasTargets self.now.labeller.tx.now flow.now }
        requires due { IsDue self.now (λ c. IsBounded c flow.now) }
        ensures { Rises self.now (λ c. IsBounded c flow.now) (rows_of labels.old) (rows_of labels.new) result }
    {
        match flow {
            Flow::Into { targets, sources } => self.pour(labels, targets, sources),
            Flow::Kept { from, to, but } => self.keep(labels, *from, *to, *but),
            _ => false,
        }
    }

    /// Follows each line in turn: false where all labels were there.
    fn round(&self, labels: &mut Labels, lines: &[Line]) -> bool
        requires stands { Stands self.now (rows_of labels.old) }
        requires targets { AllByRecursion (λ line. HasTargets self.now.labeller.tx.now line.flow) lines.now }
        requires due { IsDue self.now (λ c. AllByRecursion (λ line. IsBounded c line.flow) lines.now) }
        ensures { Rises self.now (λ c. AllByRecursion (λ line. IsBounded c line.flow) lines.now) (rows_of labels.old)
            (rows_of labels.new) result }
    {
        let mut rose = false;
        for line in lines {
            rose |= self.follow(labels, &line.flow);
        }
        rose
    }

    /// The least labels that meet all lower bounds. Rounds take no memory, and no number of them is set: each
    /// but the last raises a label.
    pub(crate) fn least(&self, alloc: Global, lines: &[Line]) -> Result<Labels, AllocError>
        requires { lines.now ≡ body_lines self.now.labeller.tx.now }
        ensures { IfOk result (λ l. IsLeast self.now.version self.now.labeller.policy.now self.now.labeller.tx.now
            (certificate self.now.version (rows_of l))) }
    {
        let (tx, version) = (self.labeller.tx, self.version);
        let mut labels = Labels::all_of(alloc, version, lowest(), tx.vars().len(), statements(tx))?;
        loop {
            if !self.round(&mut labels, lines) {
                return Ok(labels);
            }
        }
    }
}
