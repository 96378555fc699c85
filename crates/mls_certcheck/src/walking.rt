//! The walk over the statements of a transaction, which shows their lines.
ghost use Rattle.std.specs.Prelude.{◌<◌, ◌≤◌, ◌+◌, ◌^◌, ◌∷◌, []};
ghost use Rattle.mls_translang.specs.Tree.{statements};
ghost use Rattle.mls_translang.specs.Tx.{depth};
ghost use Rattle.mls_translang.specs.Blocks.{block_of};
ghost use Rattle.mls_certcheck.specs.Lines.{body_lines};
ghost use Rattle.mls_certcheck.specs.Walk.{block_lines};

use crate::lent::Here;
use crate::loops::Loops;
use crate::visit::Visit;
use mls_translang::{Block, Stmt, Tx};

impl Here {
    /// The statements of a block, which begins here.
    #[cycle(walk)]
    fn block<V: Visit>(&self, visitor: &mut V, block: &Block) -> Result<(), V::Stop>
        requires few { self.now.number + statements block.now < 2 ^ 63 }
        requires shallow { self.now.loops.count + depth block.now ≤ 16 }
        ensures { V.visits visitor.old (block_lines self.now block.now) result visitor.new }
    {
        let mut number = self.number;
        let mut before = self.before;
        for stmt in &block.stmts {
            let here = Here {
                number,
                before,
                ..*self
            };
            here.stmt(visitor, stmt)?;
            before = number;
            number += stmt.statements();
        }
        Ok(())
    }

    #[cycle(walk)]
    fn stmt<V: Visit>(&self, visitor: &mut V, stmt: &Stmt) -> Result<(), V::Stop>
        requires few { self.now.number + statements (block_of (stmt.now ∷ [])) < 2 ^ 63 }
        requires shallow { self.now.loops.count + depth (block_of (stmt.now ∷ [])) ≤ 16 }
        ensures { V.visits visitor.old (block_lines self.now (block_of (stmt.now ∷ []))) result visitor.new }
    {
        self.lines(visitor, stmt)?;
        let around = self.number;
        let number = self.number + 1;
        match stmt {
            Stmt::If { one, other, .. } => {
                let first = Here {
                    number,
                    around,
                    ..*self
                };
                first.block(visitor, one)?;
                let second = Here {
                    number: number + one.statements(),
                    around,
                    ..*self
                };
                second.block(visitor, other)
            }
            Stmt::For { label, body, .. } => {
                let first = Here {
                    vars: self.vars,
                    number,
                    around,
                    before: around,
                    loops: self.loops.inside(*label),
                };
                first.block(visitor, body)
            }
            _ => Ok(()),
        }
    }
}

/// Shows the lines of all statements to a visitor, in the order in which the checker names the first that is broken,
/// until it stops. It takes no memory.
pub fn walk<V: Visit>(tx: &Tx, visitor: &mut V) -> Result<(), V::Stop>
    ensures { V.visits visitor.old (body_lines tx.now) result visitor.new }
{
    let vars = tx.vars().len();
    let start = Here {
        vars,
        number: 1,
        around: 0,
        before: 0,
        loops: Loops::outside(),
    };
    start.block(visitor, tx.body())
}
