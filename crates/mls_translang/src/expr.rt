//! Expressions, with their names as numbers.
ghost use Rattle.std.specs.Prelude.{◌≡◌};

use crate::operator::Operator;
use mls_scheme::Value;
use std::marker::Model;

/// An expression, which contracts see as a tree of plain data.
#[derive(Drop)]
#[cycle(expr)]
pub struct Expr {
    pub term: Term,
}

/// What an expression is made of.
#[derive(Drop)]
#[cycle(expr)]
pub enum Term {
    /// A number or a text.
    Known(Value),
    /// The value that every kind has.
    Null,
    /// A variable, by its place among the variables, from 0.
    Variable(u8),
    /// A parameter, by its place among the parameters, from 0.
    Parameter(u8),
    /// An attribute of a loop's row: how many loops stand between, the innermost 0, and the attribute's number, the key
    /// first.
    Field { depth: u8, attribute: u8 },
    /// The other truth value.
    Not(Box<Expr>),
    /// An operator and its operands, left and right.
    Op(Operator, Box<Expr>, Box<Expr>),
}

impl Model for Expr {
    ghost use Rattle.mls_translang.specs.Tree.{Expr as Tree};
    ghost use Rattle.std.specs.Coded.{codes};
    ghost use Rattle.mls_translang.specs.ExprCode.{expr_code, expr_size};

    ghost Value = { Tree };

    ghost coded = { expr_code (Prim.hlevel codes) };

    ghost use Rattle.mls_translang.specs.Exprs.{expr_of};

    ghost view = { λ a. expr_of a.term };

    ghost size = { expr_size };

    ghost use Rattle.mls_translang.specs.ExprFalls.{falls};

    ghost size_decreases = { λ a h. falls a.term };
}

impl From<Term> for Expr {
    ghost use Rattle.mls_translang.specs.Exprs.{expr_of};

    ghost from_gives = { λ t e. e ≡ expr_of t };

    fn from(term: Term) -> Expr {
        Expr { term }
    }
}
