//! What the expressions of a transaction read, and what they give.
ghost use Rattle.std.specs.Prelude.{◌≡◌, None, reverse, slice_index_or};
ghost use Rattle.mls_scheme.specs.Tuple.{no_tuple};
ghost use Rattle.mls_translang.specs.Expressions.{Plain, cell_of, eval};
ghost use Rattle.mls_queries.specs.Data.{datum_of};
ghost use Rattle.mls_trusted.specs.Environment.{env_of};

use mls_filterview::SharedTuple;
use mls_queries::{Datum, apply, cell};
use mls_scheme::Value;
use mls_translang::{Expr, Term};

/// Arguments and variables by number, and the rows of the loops around, the outermost first.
#[derive(Clone, Copy)]
pub(crate) struct Environment<'a> {
    pub args: &'a [Option<Value>],
    pub rows: &'a [SharedTuple],
    pub vars: &'a [Option<Value>],
}

/// The value of a number, or null.
fn value_at(values: &[Option<Value>], number: u8) -> Datum<'_>
    ensures { datum_of result ≡ Plain (slice_index_or values.now number None) }
{
    match values.get(usize::from(number)) {
        Some(value) => Datum::lent(value),
        None => Datum::Null,
    }
}

/// An attribute of the row at a depth, the innermost one first.
fn field(rows: &[SharedTuple], depth: u8, attribute: u8) -> Datum<'_>
    ensures { datum_of result ≡ Plain (cell_of (slice_index_or (reverse rows.now) depth no_tuple) attribute) }
{
    let depth = usize::from(depth);
    if depth < rows.len() {
        cell(
            rows[rows.len() - 1 - depth].as_tuple(),
            usize::from(attribute),
        )
    } else {
        Datum::Null
    }
}

impl<'a> Environment<'a> {
    /// What an expression gives.
    #[tactic(auto, unfolding(mls_translang::specs::Expressions::eval))]
    pub fn eval(&self, expr: &'a Expr) -> Datum<'a>
        ensures { datum_of result ≡ eval (env_of self.now) expr.now }
    {
        match &expr.term {
            Term::Known(value) => Datum::Lent(value),
            Term::Null => Datum::Null,
            Term::Variable(number) => value_at(self.vars, *number),
            Term::Parameter(number) => value_at(self.args, *number),
            Term::Field { depth, attribute } => field(self.rows, *depth, *attribute),
            Term::Not(inner) => Datum::Truth(!self.eval(inner).is_true()),
            Term::Op(operator, left, right) => apply(*operator, self.eval(left), self.eval(right)),
        }
    }
}
