//! Whether a line holds.
ghost use Rattle.std.specs.Prelude.{◌≡◌, ◌<◌, ◌+◌, ◌^◌, map};
ghost use Rattle.std.specs.List.{list_all};
ghost use Rattle.mls_lattice.specs.Lattice.{pair_of, ◌⊑◌};
ghost use Rattle.mls_scheme.specs.Writes.{operands};
ghost use Rattle.mls_translang.specs.Tree.{statements};
ghost use Rattle.mls_certcheck.specs.Points.{directs};
ghost use Rattle.mls_certcheck.specs.Lines.{variables};
ghost use Rattle.mls_certcheck.specs.Rules.{slot_label, source_label};
ghost use Rattle.mls_certcheck.specs.Checks.{holds};
ghost use Rattle.mls_certcheck.specs.Lent.{slots_of, names_here, more_of, sources_of, flow_of};
ghost use Rattle.mls_certcheck.specs.Walk.{claim_of, IsJoin};
ghost use Rattle.mls_certcheck.specs.declared.flow.Slot.TheVariants.{Statement};

use crate::checker::Checker;
use crate::flow::{Slot, Source};
use crate::lent::{Here, LentFlow, More, Targets};
use crate::refusal::{Refusal, Rule};
use crate::visit::Visit;
use mls_lattice::{Label, declared, flows, lowest};
use mls_scheme::Write;
use mls_translang::{Block, Expr};

impl Checker<'_> {
    /// The join of the labels of the first so many variables after a statement.
    #[tactic(auto, using(crate::proofs::LabelLemmas::joins))]
    pub(crate) fn variables(&self, number: usize, count: usize) -> Label
        ensures { IsJoin (claim_of self.now) (variables number count) (pair_of result) }
    {
        let mut bound = lowest();
        for place in 0..count {
            bound = self.after(number, place).join(bound);
        }
        bound
    }

    /// That of the names in expressions.
    #[tactic(auto, using(crate::proofs::LabelLemmas::joins))]
    fn names(&self, here: &Here, exprs: &[Expr]) -> Label
        ensures { IsJoin (claim_of self.now) (names_here here.now exprs.now) (pair_of result) }
    {
        let mut bound = lowest();
        for expr in exprs {
            bound = bound.join(self.label(here, expr));
        }
        bound
    }

    /// That of the names in the new values of an update.
    #[tactic(auto, using(crate::proofs::LabelLemmas::joins))]
    fn new_names(&self, here: &Here, sets: &[(usize, Expr)]) -> Label
        ensures { IsJoin (claim_of self.now) (names_here here.now (map (λ s. s.1) sets.now)) (pair_of result) }
    {
        let mut bound = lowest();
        for set in sets {
            bound = bound.join(self.label(here, &set.1));
        }
        bound
    }

    /// That of the names in the operands of a write.
    #[tactic(auto, using(crate::proofs::LabelLemmas::joins))]
    fn operands(&self, here: &Here, write: &Write<Expr>) -> Label
        ensures { IsJoin (claim_of self.now) (names_here here.now (operands write.now)) (pair_of result) }
    {
        let key = self.names(here, write.key());
        match write {
            Write::Insert { values, .. } => key.join(self.names(here, values)),
            Write::Update { sets, .. } => key.join(self.new_names(here, sets)),
            Write::Delete { .. } => key,
        }
    }

    #[tactic(auto, using(crate::proofs::LabelLemmas::joins))]
    fn more(&self, here: &Here, more: &More<'_>) -> Label
        ensures { IsJoin (claim_of self.now) (more_of here.now more.now) (pair_of result) }
    {
        match more {
            More::Nothing => lowest(),
            More::Label(label) => declared(self.policy, *label),
            More::Variables(count) => self.variables(here.number, *count),
            More::Names(expr) => self.label(here, expr),
            More::Operands(write) => self.operands(here, write),
        }
    }

    fn slot(&self, slot: Slot) -> Label
        ensures { pair_of result ≡ slot_label (claim_of self.now) slot }
    {
        match slot {
            Slot::Variable { after, place } => self.after(after, place),
            Slot::Statement(number) => self.pc(number),
        }
    }

    fn source(&self, source: Source) -> Label
        ensures { pair_of result ≡ source_label (claim_of self.now) source }
    {
        match source {
            Source::Held(slot) => self.slot(slot),
            Source::Parameter(place) => self.parameter(place),
            Source::Declared(label) => declared(self.policy, label),
        }
    }

    /// The join of the labels of what flows: it flows just where each of them does.
    #[tactic(auto, using(crate::proofs::LabelLemmas::joins))]
    fn bound(&self, here: &Here, one: Option<Source>, more: &More<'_>) -> Label
        ensures { IsJoin (claim_of self.now) (sources_of here.now one more.now) (pair_of result) }
    {
        match one {
            None => self.more(here, more),
            Some(source) => self.source(source).join(self.more(here, more)),
        }
    }

    /// Whether a label flows to each of a block's own statements.
    fn inner_dominate(&self, bound: Label, first: usize, block: &Block) -> bool
        requires { first + statements block.now < 2 ^ 63 }
        ensures { result ≡ list_all (λ t. pair_of bound ⊑ slot_label (claim_of self.now) t)
            (map (λ m. Statement m) (directs first block.now)) }
    {
        let mut number = first;
        for stmt in block.stmts() {
            if !flows(bound, self.pc(number)) {
                return false;
            }
            number += stmt.statements();
        }
        true
    }

    /// Whether a label flows to each of these.
    #[tactic(auto, using(crate::proofs::LabelLemmas::on_both))]
    fn dominate(&self, bound: Label, targets: &Targets<'_>) -> bool
        ensures { result ≡ list_all (λ t. pair_of bound ⊑ slot_label (claim_of self.now) t) (slots_of targets.now) }
    {
        match targets {
            Targets::One(slot) => flows(bound, self.slot(*slot)),
            Targets::Inside(one) => self.inner_dominate(bound, one.first, one.block),
            Targets::Either(one, other) => {
                self.inner_dominate(bound, one.first, one.block)
                    && self.inner_dominate(bound, other.first, other.block)
            }
        }
    }

    #[tactic(auto, using(crate::proofs::LabelLemmas::join_into))]
    fn holds(&self, here: &Here, flow: &LentFlow<'_>) -> bool
        ensures { result ≡ holds (claim_of self.now) (flow_of here.now flow.now) }
    {
        match flow {
            LentFlow::Into(targets, one, more) => {
                self.dominate(self.bound(here, *one, more), targets)
            }
            LentFlow::Kept { from, but } => self.keeps(*from, here.number, *but),
            LentFlow::Within(limit, one, more) => {
                flows(self.bound(here, *one, more), declared(self.policy, *limit))
            }
            LentFlow::Under(one, more) => flows(self.bound(here, *one, more), self.hi()),
        }
    }
}

impl Visit for Checker<'_> {
    ghost use Rattle.mls_certcheck.specs.Walk.{Checked};
    ghost use Rattle.mls_certcheck.specs.Visited.{checked_none, checked_more, checked_stops};

    type Stop = Refusal;

    ghost visits = { Checked };

    ghost none = { checked_none };

    ghost more = { checked_more };

    ghost stops = { checked_stops };

    fn line(&mut self, here: &Here, rule: Rule, flow: &LentFlow<'_>) -> Result<(), Refusal> {
        Refusal::unless(self.holds(here, flow), here.number, rule)
    }
}
