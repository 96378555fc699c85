//! Conditions on one row.
ghost use Rattle.std.specs.Prelude.{◌≡◌, [], ◌∷◌, slice_index_or};
ghost use Rattle.mls_scheme.specs.Tuple.{no_tuple};
ghost use Rattle.mls_translang.specs.Expressions.{Plain, cell_of, eval};
ghost use Rattle.mls_queries.specs.Data.{datum_of};
ghost use Rattle.mls_queries.specs.Query.{reading, passes};

use crate::datum::Datum;
use crate::operator::apply;
use mls_scheme::Tuple;
use mls_translang::{Expr, Term};

/// An attribute of a row by number, the key first; past the last one it is null.
pub fn cell(row: &Tuple, attribute: usize) -> Datum<'_>
    ensures { datum_of result ≡ Plain (cell_of row.now attribute) }
{
    let keys = row.key.len();
    if attribute < keys {
        return Datum::Lent(&row.key[attribute]);
    }
    match row.elements.get(attribute - keys) {
        Some(element) => Datum::lent(&element.value),
        None => Datum::Null,
    }
}

/// An attribute of the row at a depth: there is one row, of depth 0.
#[tactic(auto, using(crate::proofs::ConditionLemmas::no_field))]
fn field(row: &Tuple, depth: u8, attribute: u8) -> Datum<'_>
    ensures { datum_of result ≡ Plain (cell_of (slice_index_or (row.now ∷ []) depth no_tuple) attribute) }
{
    if depth == 0 {
        cell(row, usize::from(attribute))
    } else {
        Datum::Null
    }
}

/// What an expression gives that reads nothing but the attributes of a row.
#[tactic(auto, using(crate::proofs::ConditionLemmas::no_param), unfolding(mls_translang::specs::Expressions::eval))]
fn eval<'a>(expr: &'a Expr, row: &'a Tuple) -> Datum<'a>
    ensures { datum_of result ≡ eval (reading row.now) expr.now }
{
    match &expr.term {
        Term::Known(value) => Datum::Lent(value),
        Term::Null | Term::Variable(_) | Term::Parameter(_) => Datum::Null,
        Term::Field { depth, attribute } => field(row, *depth, *attribute),
        Term::Not(inner) => Datum::Truth(!eval(inner, row).is_true()),
        Term::Op(operator, left, right) => apply(*operator, eval(left, row), eval(right, row)),
    }
}

/// Whether a row passes a condition, which reads nothing but its attributes.
pub(crate) fn holds(test: &Expr, row: &Tuple) -> bool
    ensures { result ≡ passes test.now row.now }
{
    eval(test, row).is_true()
}
