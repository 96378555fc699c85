//! The search: breadth first, back from where something must not be, one slot further in each round. A step is
//! taken once, so rounds end, and a chain is shortest. Slots that only keep what they hold count too; the text
//! leaves them out.
ghost use Rattle.std.specs.Prelude.{◌≡◌, ◌≢◌, ◌↔◌, ◌++◌, [], true, false, None, IsTrue, IfOk, OnOk, IfSome, Contains};
ghost use Rattle.std.specs.List.{AllByRecursion};
ghost use Rattle.mls_lattice.specs.Policy.{Policy};
ghost use Rattle.mls_translang.specs.Tx.{Tx as SpecTx};
ghost use Rattle.mls_certcheck.specs.declared.flow.Source.TheVariants.{Held};
ghost use Rattle.mls_explain.specs.Chains.{is_above, is_root, sink, IsBroken};
ghost use Rattle.mls_explain.specs.Search.{longer, IsAt};

use crate::step::Step;
use crate::teller::Told;
use mls_certcheck::{Flow, Line, Refusal, Slot, Source, parameter_no};
use mls_labeller::Labeller;
use mls_lattice::{Items, LabelNo, declared, flows};
use std::alloc::{AllocError, Global};

/// Something of the root comes into these slots, one after another, and flows out to where this label has to dominate
/// it.
#[derive(Drop)]
pub(crate) struct Tail {
    pub limit: LabelNo,
    pub root: Source,
    pub slots: Items<Slot>,
}

impl Tail {
    /// What leads to the tail, before it.
    fn longer(&self, alloc: Global, step: Step) -> Result<Tail, AllocError>
        ensures { IfOk result (λ t. t ≡ longer self.now step) }
    {
        let mut slots = vec![in alloc; step.target]?;
        slots.extend_from_slice(self.slots.as_slice())?;
        Ok(Tail {
            limit: self.limit,
            root: step.source,
            slots: Items::from(slots),
        })
    }

    fn is_at(&self, limit: LabelNo, slot: Slot) -> bool
        ensures { IsTrue result ↔ IsAt limit slot self.now }
    {
        self.limit == limit && self.root == Source::Held(slot)
    }
}

/// A tail whose root is what a slot holds.
fn tail_at(tails: &[Tail], limit: LabelNo, slot: Slot) -> Option<&Tail>
    ensures found { IfSome result (λ t. Contains tails.now t.now × IsAt limit slot t.now) }
    ensures none { result ≡ None → AllByRecursion (λ t. IsAt limit slot t → ⊥) tails.now }
{
    for tail in tails {
        if tail.is_at(limit, slot) {
            return Some(tail);
        }
    }
    None
}

/// Whether the limit does not dominate a label.
#[tactic(auto, unfolding(crate::specs::Chains::is_above))]
fn is_above(labeller: &Labeller, limit: LabelNo, label: LabelNo) -> bool
    ensures { result ≡ is_above labeller.now.policy.now limit label }
{
    !flows(
        declared(labeller.policy, label),
        declared(labeller.policy, limit),
    )
}

#[tactic(auto, unfolding(crate::specs::Chains::is_root))]
fn slot_is_root(labeller: &Labeller, limit: LabelNo, slot: Slot) -> bool
    ensures { result ≡ is_root labeller.now.policy.now labeller.now.tx.now limit (Held slot) }
{
    match slot {
        Slot::Statement(0) => is_above(labeller, limit, labeller.tx.lo()),
        Slot::Statement(_) | Slot::Variable { .. } => false,
    }
}

#[tactic(auto, unfolding(crate::specs::Chains::is_root))]
fn is_root(labeller: &Labeller, limit: LabelNo, source: Source) -> bool
    ensures { result ≡ is_root labeller.now.policy.now labeller.now.tx.now limit source }
{
    match source {
        Source::Held(slot) => slot_is_root(labeller, limit, slot),
        Source::Parameter(place) => is_above(labeller, limit, parameter_no(labeller.tx, place)),
        Source::Declared(label) => is_above(labeller, limit, label),
    }
}

/// A tail whose root is one of chains.
pub(crate) fn tail_with_root<'a>(labeller: &Labeller, tails: &'a [Tail]) -> Option<&'a Tail>
    ensures found { IfSome result (λ t. Contains tails.now t.now
        × (is_root labeller.now.policy.now labeller.now.tx.now t.now.limit t.now.root ≡ true)) }
    ensures none { result ≡ None → AllByRecursion (λ t. is_root labeller.now.policy.now labeller.now.tx.now
        t.limit t.root ≡ false) tails.now }
{
    for tail in tails {
        if is_root(labeller, tail.limit, tail.root) {
            return Some(tail);
        }
    }
    None
}

fn is_same(a: Refusal, b: Refusal) -> bool
    ensures yes { result ≡ true → a ≡ b }
    ensures no { result ≡ false → a ≢ b }
{
    a == b
}

/// Tails of one length, and for each limit the steps that lead to no shorter ones.
#[derive(Drop)]
pub(crate) struct Search {
    pub tails: Vec<Tail>,
    pub left: Vec<(LabelNo, Step)>,
}

impl Search {
    ghost use Rattle.mls_explain.specs.Search.{
      tails_out,
      steps_out,
      tails_of,
      limited,
      IsRound,
      IsRoundMore,
      IsUnderway,
    };

    fn empty(alloc: Global) -> Search
        ensures tails { result.tails.items ≡ [] }
        ensures left { result.left.items ≡ [] }
    {
        Search {
            tails: Vec::new(alloc),
            left: Vec::new(alloc),
        }
    }

    fn end_to(&mut self, alloc: Global, limit: LabelNo, sources: &[Source]) -> Told
        ensures tails { OnOk result (self.new.tails.items ≡ self.old.tails.items ++ tails_of limit sources.now) }
        ensures left { self.new.left ≡ self.old.left }
    {
        for source in sources {
            let slots = Items::from(Vec::new(alloc));
            let root = *source;
            self.tails.push(Tail { limit, root, slots })?;
        }
        Ok(())
    }

    fn steps_to(&mut self, limit: LabelNo, steps: &[Step]) -> Told
        ensures left { OnOk result (self.new.left.items ≡ self.old.left.items ++ limited limit steps.now) }
        ensures tails { self.new.tails ≡ self.old.tails }
    {
        for step in steps {
            self.left.push((limit, *step))?;
        }
        Ok(())
    }

    /// Adds what flows out by a line, over no slot, and all steps for its limit.
    fn line_to(&mut self, alloc: Global, steps: &[Step], line: &Line, hi: LabelNo) -> Told
        ensures tails { OnOk result (self.new.tails.items ≡ self.old.tails.items ++ tails_out (sink hi line.now.flow)) }
        ensures left { OnOk result (self.new.left.items ≡ self.old.left.items
            ++ steps_out steps.now (sink hi line.now.flow)) }
    {
        match &line.flow {
            Flow::Within { limit, sources } => {
                self.end_to(alloc, *limit, sources)?;
                self.steps_to(*limit, steps)
            }
            Flow::Under { sources } => {
                self.end_to(alloc, hi, sources)?;
                self.steps_to(hi, steps)
            }
            Flow::Into { .. } | Flow::Kept { .. } => Ok(()),
        }
    }

    /// From where something flows out by the rule that is broken at a statement.
    pub(crate) fn start(
        alloc: Global,
        steps: &[Step],
        lines: &[Line],
        hi: LabelNo,
        broken: Refusal,
    ) -> Result<Search, AllocError>
        ensures { IfOk result (λ s. (p : Policy) (tx : SpecTx)
            → IsUnderway p tx steps.now (IsBroken hi lines.now broken) 0 s.tails.items s.left.items) }
    {
        let mut search = Search::empty(alloc);
        for line in lines {
            if !is_same(line.refusal, broken) {
                continue;
            }
            search.line_to(alloc, steps, line, hi)?;
        }
        Ok(search)
    }

    /// Takes a step back if it leads to a tail, and else leaves it.
    fn step_to(&self, alloc: Global, next: &mut Search, entry: (LabelNo, Step)) -> Told
        ensures { OnOk result (IsRoundMore self.now.tails.items entry next.old next.new) }
    {
        let Some(tail) = tail_at(&self.tails, entry.0, entry.1.target) else {
            next.left.push(entry)?;
            return Ok(());
        };
        let longer = tail.longer(alloc, entry.1)?;
        next.tails.push(longer)?;
        Ok(())
    }

    /// Takes each step back that leads to a tail, and leaves the others.
    pub(crate) fn next(&self, alloc: Global) -> Result<Search, AllocError>
        ensures { IfOk result (λ s. IsRound self.now.tails.items self.now.left.items s.tails.items s.left.items) }
    {
        let mut next = Search::empty(alloc);
        for entry in &self.left {
            self.step_to(alloc, &mut next, *entry)?;
        }
        Ok(next)
    }
}
