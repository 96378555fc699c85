//! How ranges change from statement to statement.
ghost use Rattle.std.specs.Prelude.{◌≡◌, ◌+◌, min, true, List, ◌∷◌, ◌++◌, [], IfOk};
ghost use Rattle.mls_translang.specs.Tree.{End};
ghost use Rattle.mls_translang.specs.Blocks.{block_of};
ghost use Rattle.mls_translang.specs.declared.block.Stmt.{Stmt as SpecStmt};
ghost use Rattle.mls_labeller.specs.Ranges.{Wider};
ghost use Rattle.mls_labeller.specs.Releases.{Covers, Multiplies, Reaches, uncounted};

use crate::ranges::Ranges;
use crate::told::Told;
use mls_translang::{Block, Stmt};
use std::alloc::{AllocError, Global};

/// How many turns of a loop are tried at most; in the second half of them what still grows becomes any value. A
/// loop inside has a fourth of them.
pub(crate) const TURNS: usize = 64;

/// Where a walk is.
#[derive(Clone, Copy)]
pub(crate) struct Walk {
    pub alloc: Global,
    pub looped: bool,
    pub turns: usize,
}

/// The ranges after statements, what is told of their releases, and how many lists of values these can have, as far as
/// they can be
/// counted.
#[derive(Drop)]
pub(crate) struct Walked {
    pub ranges: Ranges,
    pub told: Vec<Told>,
    pub lists: u64,
}

impl Walked {
    /// After one of two blocks.
    fn either(alloc: Global, one: Walked, other: Walked) -> Result<Walked, AllocError>
        ensures one { IfOk result (λ w. Wider one.ranges.vars.items w.ranges.vars.items) }
        ensures other { IfOk result (λ w. Wider other.ranges.vars.items w.ranges.vars.items) }
        ensures told { IfOk result (λ w. w.told.items ≡ one.told.items ++ other.told.items) }
        ensures none { IfOk result (λ w. w.told.items ≡ [] → w.lists ≡ one.lists) }
        ensures many { IfOk result (λ w. ¬ (w.told.items ≡ []) → w.lists ≡ min (one.lists + other.lists) uncounted) }
    {
        let ranges = one.ranges.joined(alloc, &other.ranges, false)?;
        let mut walked = Walked { ranges, ..one };
        let mut told = other.told;
        walked.told.append(&mut told)?;
        if !walked.told.is_empty() {
            walked.lists = walked.lists.saturating_add(other.lists);
        }
        Ok(walked)
    }
}

impl Walk {
    /// After a statement that releases nothing.
    fn silent(self, ranges: Ranges) -> Walked
        ensures ranges { result.ranges.vars.items ≡ ranges.vars.items }
        ensures told { result.told.items ≡ [] }
        ensures lists { result.lists ≡ 1 }
    {
        Walked {
            ranges,
            told: Vec::new(self.alloc),
            lists: 1,
        }
    }

    /// A statement.
    #[cycle(walk)]
    fn stmt(self, before: &Ranges, stmt: &Stmt) -> Result<Walked, AllocError>
        ensures { IfOk result (λ w. (rest : List SpecStmt) → Reaches self.looped before.now.vars.items
            (block_of (stmt.now ∷ rest))
            w.ranges.vars.items (block_of rest) w.told.items
            × Multiplies self.looped (block_of (stmt.now ∷ rest)) (block_of rest) w.told.items w.lists) }
    {
        match stmt {
            Stmt::Assign { variable, value } => {
                let range = before.range_of(self.alloc, value)?;
                Ok(self.silent(before.put(*variable, range)?))
            }
            Stmt::If { one, other, .. } => {
                let one = self.block(before, one)?;
                let other = self.block(before, other)?;
                Ok(Walked::either(self.alloc, one, other)?)
            }
            Stmt::For { body, .. } => Ok(self.turns(before, body)?),
            Stmt::Write { outcome, .. } => Ok(self.silent(before.put_outcome(*outcome)?)),
            Stmt::Release { value, to, into } => {
                let (to, into, looped) = (*to, *into, self.looped);
                let range = before.range_of(self.alloc, value)?;
                let lists = if looped {
                    u64::MAX
                } else {
                    range.count().max(1)
                };
                let mut walked = self.silent(before.put(into, range.copy()?)?);
                walked.lists = lists;
                walked.told.push(Told {
                    to,
                    into,
                    range,
                    looped,
                })?;
                Ok(walked)
            }
            Stmt::Emit { .. } => Ok(self.silent(before.copy()?)),
        }
    }

    /// The statements of a block.
    #[cycle(walk)]
    pub(crate) fn block(self, before: &Ranges, block: &Block) -> Result<Walked, AllocError>
        ensures { IfOk result (λ w. Covers self.looped before.now.vars.items block.now w.ranges.vars.items w.told.items
            × Multiplies self.looped block.now End w.told.items w.lists) }
    {
        let mut walked = self.silent(before.copy()?);
        for stmt in &block.stmts {
            let mut next = self.stmt(&walked.ranges, stmt)?;
            walked.told.append(&mut next.told)?;
            walked.ranges = next.ranges;
            walked.lists = walked.lists.saturating_mul(next.lists);
        }
        Ok(walked)
    }

    /// Any number of turns of a loop: until the ranges hold what its body leaves, or else are any.
    #[cycle(walk)]
    fn turns(self, before: &Ranges, body: &Block) -> Result<Walked, AllocError>
        ensures wider { IfOk result (λ w. Wider before.now.vars.items w.ranges.vars.items) }
        ensures covers { IfOk result (λ w. Covers true w.ranges.vars.items body.now w.ranges.vars.items w.told.items
            × Multiplies true body.now End w.told.items w.lists) }
    {
        let inside = Walk {
            looped: true,
            turns: self.turns / 4,
            ..self
        };
        let mut ranges = before.copy()?;
        for turn in 0..self.turns {
            let walked = inside.block(&ranges, body)?;
            let grown = ranges.joined(self.alloc, &walked.ranges, turn >= self.turns / 2)?;
            if ranges.same(&grown) {
                return Ok(Walked { ranges, ..walked });
            }
            ranges = grown;
        }
        let vars = Vec::new(self.alloc);
        let ranges = Ranges { vars };
        let walked = inside.block(&ranges, body)?;
        Ok(Walked { ranges, ..walked })
    }
}
