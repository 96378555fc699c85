//! Statements, and blocks of them, with their names as numbers.
ghost use Rattle.std.specs.Prelude.{◌≡◌, ◌<◌, ◌^◌, [], ◌∷◌};
ghost use Rattle.mls_translang.specs.Tree.{statements, is_end};
ghost use Rattle.mls_translang.specs.Blocks.{block_of};

use crate::expr::Expr;
use mls_lattice::{LabelNo, Str};
use mls_scheme::{RelNo, Write};
use std::marker::Model;

/// Statements in order, which contracts see as a tree of plain data.
#[derive(Drop)]
#[cycle(block)]
pub struct Block {
    pub stmts: Vec<Stmt>,
}

/// A statement. Names are numbers: variables and parameters by their places, from 0; rows by how many loops
/// stand between; attributes by number, the key first.
#[derive(Drop)]
#[cycle(block)]
pub enum Stmt {
    /// A variable gets a value.
    Assign {
        variable: u8,
        value: Expr,
    },
    /// One block where the guard is true, else the other.
    If {
        guard: Expr,
        one: Block,
        other: Block,
    },
    /// The body for each row of the view of a relation at a label. The row's name is kept to be printed.
    For {
        row: Str,
        relation: RelNo,
        label: LabelNo,
        body: Block,
    },
    /// A write at a label. The outcome's number goes into a variable.
    Write {
        relation: RelNo,
        at: LabelNo,
        write: Write<Expr>,
        outcome: Option<u8>,
    },
    /// A value is released to a label, and goes into a variable.
    Release {
        value: Expr,
        to: LabelNo,
        into: u8,
    },
    /// A value is emitted at a label.
    Emit {
        value: Expr,
        label: LabelNo,
    },
}

impl Model for Block {
    ghost use Rattle.mls_translang.specs.Tree.{Block as Tree, statements};
    ghost use Rattle.std.specs.Coded.{codes};
    ghost use Rattle.mls_translang.specs.contracts.expr.Expr as e;
    ghost use Rattle.mls_translang.specs.BlockCode.{block_code};

    ghost Value = { Tree };

    ghost coded = { block_code (Prim.hlevel (codes, e.the_row.coded)) };

    ghost use Rattle.mls_translang.specs.Blocks.{block_of};

    ghost view = { λ a. block_of a.stmts.items };

    ghost size = { statements };

    ghost use Rattle.mls_translang.specs.BlockFalls.{falls};

    ghost size_decreases = { λ a h. falls a.stmts.items };
}

impl Block {
    /// The statements, in order.
    pub fn stmts(&self) -> &[Stmt]
        ensures { block_of result.now ≡ self.now }
    {
        self.stmts.as_slice()
    }

    /// Whether there is no statement.
    #[tactic(auto, using(crate::proofs::BlockLemmas::ends))]
    pub fn is_empty(&self) -> bool
        ensures { result ≡ is_end self.now }
    {
        self.stmts.is_empty()
    }

    /// How many statements there are, inner ones too. It takes no memory.
    #[cycle(walk)]
    pub fn statements(&self) -> usize
        requires { statements self.now < 2 ^ 64 }
        ensures { result ≡ statements self.now }
    {
        let mut count = 0;
        for stmt in &self.stmts {
            count += stmt.statements();
        }
        count
    }
}

impl Stmt {
    /// How many statements this one is, with those inside.
    #[cycle(walk)]
    pub fn statements(&self) -> usize
        requires { statements (block_of (self.now ∷ [])) < 2 ^ 64 }
        ensures { result ≡ statements (block_of (self.now ∷ [])) }
    {
        match self {
            Stmt::If { one, other, .. } => 1 + one.statements() + other.statements(),
            Stmt::For { body, .. } => 1 + body.statements(),
            _ => 1,
        }
    }
}
