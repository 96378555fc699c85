//! What operators give.
ghost use Rattle.std.specs.Prelude.{◌≡◌, ◌+ℤ◌, ◌-ℤ◌, ◌*ℤ◌};
ghost use Rattle.mls_translang.specs.Expressions.{Plain, value_of, calculate, same, less, at_most, apply};
ghost use Rattle.mls_queries.specs.Data.{datum_of, order_of};

use crate::datum::Datum;
use mls_scheme::Value;
use mls_translang::Operator;
use std::cmp::Ordering;

/// The sum of two numbers.
fn plus<'a>(left: Datum<'_>, right: Datum<'_>) -> Datum<'a>
    ensures { datum_of result ≡ Plain (calculate ◌+ℤ◌ (value_of (datum_of left.entry))
        (value_of (datum_of right.entry))) }
{
    let Some(first) = left.as_number() else {
        return Datum::Null;
    };
    let Some(second) = right.as_number() else {
        return Datum::Null;
    };
    Datum::number(first.checked_add(second))
}

/// The difference of two numbers.
fn minus<'a>(left: Datum<'_>, right: Datum<'_>) -> Datum<'a>
    ensures { datum_of result ≡ Plain (calculate ◌-ℤ◌ (value_of (datum_of left.entry))
        (value_of (datum_of right.entry))) }
{
    let Some(first) = left.as_number() else {
        return Datum::Null;
    };
    let Some(second) = right.as_number() else {
        return Datum::Null;
    };
    Datum::number(first.checked_sub(second))
}

/// The product of two numbers.
fn times<'a>(left: Datum<'_>, right: Datum<'_>) -> Datum<'a>
    ensures { datum_of result ≡ Plain (calculate ◌*ℤ◌ (value_of (datum_of left.entry))
        (value_of (datum_of right.entry))) }
{
    let Some(first) = left.as_number() else {
        return Datum::Null;
    };
    let Some(second) = right.as_number() else {
        return Datum::Null;
    };
    Datum::number(first.checked_mul(second))
}

/// The order of two values.
fn order(left: Datum<'_>, right: Datum<'_>) -> Option<Ordering>
    ensures { result ≡ order_of (value_of (datum_of left.entry)) (value_of (datum_of right.entry)) }
{
    match (left, right) {
        (Datum::Lent(left), Datum::Lent(right)) => Some(left.order(right)),
        (Datum::Lent(left), Datum::Number(right)) => Some(left.order(&Value::Int(right))),
        (Datum::Number(left), Datum::Lent(right)) => Some(Value::Int(left).order(right)),
        (Datum::Number(left), Datum::Number(right)) => Some(left.cmp(&right)),
        _ => None,
    }
}

/// Whether two values are the same: nulls are.
fn same(left: Datum<'_>, right: Datum<'_>) -> bool
    ensures { result ≡ same (value_of (datum_of left.entry)) (value_of (datum_of right.entry)) }
{
    match order(left, right) {
        Some(order) => order == Ordering::Equal,
        None => left.is_null() && right.is_null(),
    }
}

/// Whether one value stands before another.
fn less(left: Datum<'_>, right: Datum<'_>) -> bool
    ensures { result ≡ less (value_of (datum_of left.entry)) (value_of (datum_of right.entry)) }
{
    match order(left, right) {
        Some(order) => order == Ordering::Less,
        None => false,
    }
}

/// Whether no value stands after another.
fn at_most(left: Datum<'_>, right: Datum<'_>) -> bool
    ensures { result ≡ at_most (value_of (datum_of left.entry)) (value_of (datum_of right.entry)) }
{
    match order(right, left) {
        Some(order) => order != Ordering::Less,
        None => false,
    }
}

/// What an operator gives of two operands.
pub fn apply<'a>(operator: Operator, left: Datum<'_>, right: Datum<'_>) -> Datum<'a>
    ensures { datum_of result ≡ apply operator (datum_of left.entry) (datum_of right.entry) }
{
    match operator {
        Operator::Plus => plus(left, right),
        Operator::Minus => minus(left, right),
        Operator::Times => times(left, right),
        Operator::Equal => Datum::Truth(same(left, right)),
        Operator::Unequal => Datum::Truth(!same(left, right)),
        Operator::Less => Datum::Truth(less(left, right)),
        Operator::AtMost => Datum::Truth(at_most(left, right)),
        Operator::Greater => Datum::Truth(less(right, left)),
        Operator::AtLeast => Datum::Truth(at_most(right, left)),
        Operator::And => Datum::Truth(left.is_true() && right.is_true()),
        Operator::Or => Datum::Truth(left.is_true() || right.is_true()),
    }
}
