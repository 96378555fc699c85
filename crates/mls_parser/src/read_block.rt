//! Blocks, from the tokens that are left. The statements of a transaction are counted, inner ones too.
ghost use Rattle.std.specs.Prelude.{◌≡◌, ◌+◌, ◌≤◌, ◌<◌, ◌∷◌, length, IfOk};
ghost use Rattle.mls_translang.specs.Tokens.{at_row, with_rows};
ghost use Rattle.mls_parser.specs.Names.{IsContext};
ghost use Rattle.mls_parser.specs.Noted.{GivesPlaced};
ghost use Rattle.mls_parser.specs.ReadBlock.{guard_at, loop_head_at, braced, other_at, blocks_at, if_at, for_at};
ghost use Rattle.mls_parser.specs.ReadBlock.{content_at, stmt_at, stmts_at};

use crate::context::Context;
use crate::fault::{PlacedFault, TextCause, ill_formed};
use crate::limits::MAX_STATEMENTS;
use crate::reader::Reader;
use crate::words::Opening;
use mls_lattice::{LabelNo, Str};
use mls_scheme::RelNo;
use mls_tokens::Sign;
use mls_translang::{Block, Expr, LoopRow, Stmt};
use std::alloc::{AllocError, Global};

impl Context<'_> {
    /// The rows inside a loop: its own, and those around.
    #[tactic(auto, using(crate::proofs::ContextLemmas::context_steps))]
    fn rows_inside(
        &self,
        alloc: Global,
        row: &Str,
        relation: RelNo,
    ) -> Result<Vec<LoopRow>, AllocError>
        requires room { length self.now.scope.rows + 1 ≤ 16 }
        requires known { relation < length self.now.schemes }
        ensures rows { IfOk result (λ rows. rows.items ≡ record { name = row.now; relation = relation }
            ∷ self.now.scope.rows) }
        ensures place { IfOk result (λ rows. IsContext (with_rows self.now rows.items)) }
    {
        let mut rows = Vec::new(alloc);
        rows.push(LoopRow {
            name: Str::copy_of(alloc, row.as_str())?,
            relation,
        })?;
        for around in self.rows {
            rows.push(around.copy()?)?;
        }
        Ok(rows)
    }

    /// The same place, inside these rows.
    fn with_rows<'b>(&'b self, rows: &'b [LoopRow]) -> Context<'b>
        requires { IsContext (with_rows self.now rows.now) }
        ensures { result ≡ with_rows self.now rows.now }
    {
        Context {
            policy: self.policy,
            schemes: self.schemes,
            hi: self.hi,
            params: self.params,
            vars: self.vars,
            rows,
        }
    }

    /// An expression that gives a truth value.
    #[tactic(auto, unfolding(crate::specs::ReadBlock::guard_at))]
    fn guard(&self, alloc: Global, reader: &mut Reader) -> Result<Expr, PlacedFault>
        ensures { GivesPlaced (λ e. (e, reader.new)) result (guard_at self.now reader.old) }
    {
        let given = self.whole(alloc, reader)?;
        reader.note(given.gives.may_be_truth(), given.at, TextCause::Kind)?;
        Ok(given.expr)
    }

    /// The row of a loop, its relation and its label.
    #[tactic(auto, unfolding(crate::specs::ReadBlock::loop_head_at))]
    fn loop_head(&self, reader: &mut Reader) -> Result<(Str, RelNo, LabelNo), PlacedFault>
        ensures exact { GivesPlaced (λ x. ((x.0, x.1, x.2), reader.new)) result (loop_head_at self.now reader.old) }
        ensures within { IfOk result (λ x. x.1 < length self.now.schemes) }
    {
        let name = reader.name()?;
        reader.note(!self.is_taken(&name), name.1, TextCause::Repeated)?;
        reader.word("in")?;
        let relation = reader.relation(self.schemes)?;
        let label = reader.label_behind(self.policy, "at")?;
        Ok((name.0, relation, label))
    }

    /// A block in its braces, and how many statements the transaction has up to its end, where it has `count` before.
    #[cycle(block)]
    fn braced(
        &self,
        alloc: Global,
        reader: &mut Reader,
        depth: usize,
        count: usize,
    ) -> Result<(Block, usize), PlacedFault>
        requires shallow { length self.now.scope.rows + depth ≤ 16 }
        requires few { count ≤ 1000 }
        ensures exact { GivesPlaced (λ x. ((x.0, x.1), reader.new)) result
            (braced (stmts_at depth) self.now count reader.old) }
        ensures counted { IfOk result (λ x. (count ≤ x.1) × (x.1 ≤ 1000)) }
    {
        reader.sign(Sign::LeftBrace)?;
        self.stmts(alloc, reader, depth, count)
    }

    /// The other block of an `if`, or an empty one.
    #[cycle(block)]
    fn other(
        &self,
        alloc: Global,
        reader: &mut Reader,
        depth: usize,
        count: usize,
    ) -> Result<(Block, usize), PlacedFault>
        requires shallow { length self.now.scope.rows + depth ≤ 16 }
        requires few { count ≤ 1000 }
        ensures exact { GivesPlaced (λ x. ((x.0, x.1), reader.new)) result
            (other_at (stmts_at depth) self.now count reader.old) }
        ensures counted { IfOk result (λ x. (count ≤ x.1) × (x.1 ≤ 1000)) }
    {
        if reader.takes_word("else").is_none() {
            let stmts = Vec::new(alloc);
            return Ok((Block { stmts }, count));
        }
        self.braced(alloc, reader, depth, count)
    }

    /// The blocks of an `if`.
    #[cycle(block)]
    #[tactic(auto, unfolding(crate::specs::ReadBlock::blocks_at))]
    fn blocks(
        &self,
        alloc: Global,
        reader: &mut Reader,
        depth: usize,
        count: usize,
    ) -> Result<((Block, Block), usize), PlacedFault>
        requires shallow { length self.now.scope.rows + depth ≤ 16 }
        requires few { count ≤ 1000 }
        ensures exact { GivesPlaced (λ x. (((x.0.0, x.0.1), x.1), reader.new)) result
            (blocks_at (stmts_at depth) self.now count reader.old) }
        ensures counted { IfOk result (λ x. (count ≤ x.1) × (x.1 ≤ 1000)) }
    {
        let (one, count) = self.braced(alloc, reader, depth, count)?;
        let (other, count) = self.other(alloc, reader, depth, count)?;
        Ok(((one, other), count))
    }

    /// An `if` behind its word.
    #[cycle(block)]
    fn if_stmt(
        &self,
        alloc: Global,
        reader: &mut Reader,
        depth: usize,
        count: usize,
    ) -> Result<(Stmt, usize), PlacedFault>
        requires shallow { length self.now.scope.rows + depth ≤ 16 }
        requires few { count ≤ 1000 }
        ensures exact { GivesPlaced (λ x. ((x.0, x.1), reader.new)) result
            (if_at (stmts_at depth) self.now count reader.old) }
        ensures counted { IfOk result (λ x. (count ≤ x.1) × (x.1 ≤ 1000)) }
    {
        let guard = self.guard(alloc, reader)?;
        let ((one, other), count) = self.blocks(alloc, reader, depth, count)?;
        Ok((Stmt::If { guard, one, other }, count))
    }

    /// The body of a loop.
    #[cycle(block)]
    fn body_of(
        &self,
        alloc: Global,
        reader: &mut Reader,
        depth: usize,
        count: usize,
        row: &Str,
        relation: RelNo,
    ) -> Result<(Block, usize), PlacedFault>
        requires shallow { length self.now.scope.rows + depth + 1 ≤ 16 }
        requires few { count ≤ 1000 }
        requires known { relation < length self.now.schemes }
        ensures exact { GivesPlaced (λ x. ((x.0, x.1), reader.new)) result
            (braced (stmts_at depth) (at_row self.now row.now relation) count reader.old) }
        ensures counted { IfOk result (λ x. (count ≤ x.1) × (x.1 ≤ 1000)) }
    {
        let rows = self.rows_inside(alloc, row, relation)?;
        let inside = (&*self).with_rows(&rows);
        inside.braced(alloc, reader, depth, count)
    }

    /// A loop behind its word.
    #[cycle(block)]
    fn for_stmt(
        &self,
        alloc: Global,
        reader: &mut Reader,
        depth: usize,
        count: usize,
    ) -> Result<(Stmt, usize), PlacedFault>
        requires shallow { length self.now.scope.rows + depth + 1 ≤ 16 }
        requires few { count ≤ 1000 }
        ensures exact { GivesPlaced (λ x. ((x.0, x.1), reader.new)) result
            (for_at (stmts_at depth) self.now count reader.old) }
        ensures counted { IfOk result (λ x. (count ≤ x.1) × (x.1 ≤ 1000)) }
    {
        let (row, relation, label) = self.loop_head(reader)?;
        let (body, count) = self.body_of(alloc, reader, depth, count, &row, relation)?;
        Ok((
            Stmt::For {
                row,
                relation,
                label,
                body,
            },
            count,
        ))
    }

    /// A statement behind what it begins with, which stands at `at`.
    #[cycle(block)]
    fn content(
        &self,
        alloc: Global,
        reader: &mut Reader,
        depth: usize,
        count: usize,
        opening: Opening,
        at: usize,
    ) -> Result<(Stmt, usize), PlacedFault>
        requires shallow { length self.now.scope.rows + depth + 1 ≤ 16 }
        requires few { count ≤ 1000 }
        ensures exact { GivesPlaced (λ x. ((x.0, x.1), reader.new)) result
            (content_at (stmts_at depth) self.now opening at count reader.old) }
        ensures counted { IfOk result (λ x. (count ≤ x.1) × (x.1 ≤ 1000)) }
    {
        match opening {
            Opening::If => self.if_stmt(alloc, reader, depth, count),
            Opening::For => self.for_stmt(alloc, reader, depth, count),
            Opening::Plain(form) => {
                let stmt = self.plain(alloc, reader, form, at)?;
                Ok((stmt, count))
            }
        }
    }

    /// A statement that may have `depth - 1` others inside one another.
    #[cycle(block)]
    #[tactic(auto, unfolding(crate::specs::ReadBlock::stmt_at))]
    fn stmt(
        &self,
        alloc: Global,
        reader: &mut Reader,
        depth: usize,
        count: usize,
    ) -> Result<(Stmt, usize), PlacedFault>
        requires { length self.now.scope.rows + depth ≤ 16 }
        ensures exact { GivesPlaced (λ x. ((x.0, x.1), reader.new)) result (stmt_at depth self.now count reader.old) }
        ensures counted { IfOk result (λ x. (count < x.1) × (x.1 ≤ 1000)) }
    {
        let (opening, at) = reader.opening()?;
        if depth == 0 {
            return Err(ill_formed(at, TextCause::Depth));
        }
        if count >= MAX_STATEMENTS {
            return Err(ill_formed(at, TextCause::TooLong));
        }
        self.content(alloc, reader, depth - 1, count + 1, opening, at)
    }

    /// Statements up to the brace that closes them, with `depth` of them inside one another at most.
    #[cycle(block)]
    #[tactic(auto, using(crate::proofs::StmtSteps::stmt_steps))]
    pub fn stmts(
        &self,
        alloc: Global,
        reader: &mut Reader,
        depth: usize,
        count: usize,
    ) -> Result<(Block, usize), PlacedFault>
        requires shallow { length self.now.scope.rows + depth ≤ 16 }
        requires few { count ≤ 1000 }
        ensures exact { GivesPlaced (λ x. ((x.0, x.1), reader.new)) result (stmts_at depth self.now count reader.old) }
        ensures counted { IfOk result (λ x. (count ≤ x.1) × (x.1 ≤ 1000)) }
    {
        let mut stmts = Vec::new(alloc);
        let mut count = count;
        while reader.takes_sign(Sign::RightBrace).is_none() {
            let (next, so_far) = self.stmt(alloc, reader, depth, count)?;
            stmts.push(next)?;
            count = so_far;
        }
        Ok((Block { stmts }, count))
    }
}
