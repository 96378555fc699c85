//! Whether variables keep what they hold: their labels after one statement flow to those after another.
ghost use Rattle.std.specs.Prelude.{◌≡◌, ◌<◌, ◌+◌, ◌^◌, ◌||◌};
ghost use Rattle.mls_lattice.specs.Lattice.{◌⊑◌};
ghost use Rattle.mls_translang.specs.Tree.{statements};
ghost use Rattle.mls_certcheck.specs.Points.{last};
ghost use Rattle.mls_certcheck.specs.Rules.{after};
ghost use Rattle.mls_certcheck.specs.Checks.{holds, is_target};
ghost use Rattle.mls_certcheck.specs.Walk.{claim_of};
ghost use Rattle.mls_certcheck.specs.declared.flow.Flow.TheVariants.{Kept};

use crate::checker::Checker;
use mls_lattice::flows;
use mls_translang::Block;

/// The number of the last of a block's own statements, or that after which the block begins.
pub(crate) fn last_number(before: usize, first: usize, block: &Block) -> usize
    requires { first + statements block.now < 2 ^ 63 }
    ensures { result ≡ last before first block.now }
{
    let mut end = before;
    let mut next = first;
    for stmt in block.stmts() {
        end = next;
        next += stmt.statements();
    }
    end
}

/// Whether a variable is the target.
pub fn is_target(target: Option<u8>, place: usize) -> bool
    ensures { result ≡ is_target target place }
{
    match target {
        None => false,
        Some(own) => usize::from(own) == place,
    }
}

impl Checker<'_> {
    fn kept(&self, from: usize, to: usize, but: Option<u8>, place: usize) -> bool
        ensures { result ≡ (is_target but place || after (claim_of self.now) from place ⊑ after
            (claim_of self.now) to place) }
    {
        is_target(but, place) || flows(self.after(from, place), self.after(to, place))
    }

    /// Whether variables (but one) keep what they hold.
    pub(crate) fn keeps(&self, from: usize, to: usize, but: Option<u8>) -> bool
        ensures { result ≡ holds (claim_of self.now) (Kept from to but) }
    {
        for place in 0..self.tx.vars().len() {
            if !self.kept(from, to, but, place) {
                return false;
            }
        }
        true
    }
}
