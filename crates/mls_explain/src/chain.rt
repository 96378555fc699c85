//! Shortest chains of flows to where a rule is broken.
ghost use Rattle.std.specs.Prelude.{◌≡◌, IfOk};
ghost use Rattle.mls_lattice.specs.Policy.{Policy};
ghost use Rattle.mls_labeller.specs.Flows.{body_lines};
ghost use Rattle.mls_explain.specs.Steps.{steps};
ghost use Rattle.mls_explain.specs.Chains.{IsBroken, IsChainTo};
ghost use Rattle.mls_explain.specs.Search.{chain_of, IsUnderway};

use crate::search::{Search, Tail, tail_with_root};
use crate::step::steps_of;
use mls_certcheck::{Refusal, Slot, Source};
use mls_labeller::{Labeller, lines_of};
use mls_lattice::{Items, Policy};
use mls_translang::Tx;
use std::alloc::{AllocError, Global};

/// Something of a root comes into one slot after another.
#[derive(Drop)]
pub struct Chain {
    pub root: Source,
    pub slots: Items<Slot>,
}

impl Chain {
    fn of(tail: &Tail) -> Result<Chain, AllocError>
        ensures { IfOk result (λ c. c ≡ chain_of tail.now) }
    {
        let root = tail.root;
        let slots = tail.slots.clone()?;
        Ok(Chain { root, slots })
    }
}

/// The search from where a rule is broken at a statement.
fn search_of(alloc: Global, tx: &Tx, broken: Refusal) -> Result<Search, AllocError>
    ensures { IfOk result (λ s. (p : Policy)
        → IsUnderway p tx.now (steps tx.now) (IsBroken tx.now.hi
        (body_lines tx.now) broken) 0 s.tails.items s.left.items) }
{
    let lines = lines_of(alloc, tx)?;
    let steps = steps_of(alloc, &lines, tx.vars().len())?;
    Search::start(alloc, &steps, &lines, tx.hi(), broken)
}

/// A shortest chain of flows by which something comes to where a rule is broken at a statement, if there is any.
pub(crate) fn chain_to(
    alloc: Global,
    policy: &Policy,
    tx: &Tx,
    broken: Refusal,
) -> Result<Option<Chain>, AllocError>
    ensures { IfOk result (IsChainTo policy.now tx.now broken) }
{
    let mut search = search_of(alloc, tx, broken)?;
    let labeller = Labeller { policy, tx };
    while !search.tails.is_empty() {
        if let Some(tail) = tail_with_root(&labeller, &search.tails) {
            let chain = Chain::of(tail)?;
            return Ok(Some(chain));
        }
        search = search.next(alloc)?;
    }
    Ok(None)
}
