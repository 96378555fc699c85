//! The key that a condition demands.
ghost use Rattle.std.specs.Prelude.{◌≡◌, Some, length, IfOk, IfSome, option_copied};
ghost use Rattle.mls_queries.specs.Demanded.{IsDemanded};
ghost use Rattle.mls_queries.specs.Equated.{either, is_field, value_known, equated, demanded};

use mls_lattice::Items;
use mls_scheme::{Scheme, Value};
use mls_translang::{Expr, Operator, Query, Term};
use std::alloc::{AllocError, Global};

/// The first of the two, if it is a value, else the second.
fn either<'a>(first: Option<&'a Value>, second: Option<&'a Value>) -> Option<&'a Value>
    ensures { option_copied result ≡ either (option_copied first.entry) (option_copied second.entry) }
{
    match first {
        Some(value) => Some(value),
        None => second,
    }
}

/// Whether an expression is an attribute of the row, by number.
fn is_field(attribute: u8, expr: &Expr) -> bool
    ensures { result ≡ is_field attribute expr.now }
{
    match &expr.term {
        Term::Field {
            depth,
            attribute: own,
        } => *depth == 0 && *own == attribute,
        _ => false,
    }
}

/// The value that an expression is, if it is one.
fn value_known(expr: &Expr) -> Option<&Value>
    ensures { option_copied result ≡ value_known expr.now }
{
    match &expr.term {
        Term::Known(value) => Some(value),
        _ => None,
    }
}

/// The value that an attribute is to be equal to, if these are the two.
fn equated<'a>(attribute: u8, left: &Expr, right: &'a Expr) -> Option<&'a Value>
    ensures { option_copied result ≡ equated attribute left.now right.now }
{
    if is_field(attribute, left) {
        value_known(right)
    } else {
        None
    }
}

/// The value that an attribute has in each row that passes a condition, where the condition says one.
fn demanded(attribute: u8, test: &Expr) -> Option<&Value>
    ensures { option_copied result ≡ demanded attribute test.now }
{
    match &test.term {
        Term::Op(Operator::And, left, right) => {
            either(demanded(attribute, left), demanded(attribute, right))
        }
        Term::Op(Operator::Equal, left, right) => either(
            equated(attribute, left, right),
            equated(attribute, right, left),
        ),
        _ => None,
    }
}

/// The key that a condition demands: where it says each value of a key, of its attribute's kind.
#[tactic(auto, using(crate::proofs::DemandLemmas::is_demanded))]
fn whole_key(
    alloc: Global,
    scheme: &Scheme,
    test: &Expr,
) -> Result<Option<Items<Value>>, AllocError>
    ensures { IfOk result (λ o. IfSome o (IsDemanded (length scheme.now.keys) (Some test.now))) }
{
    let attributes = scheme.keys();
    let mut key = Vec::new(alloc);
    for place in 0..attributes.len() {
        let Some(value) = demanded(place as u8, test) else {
            return Ok(None);
        };
        if !value.is_kind(attributes.get(place).kind) {
            return Ok(None);
        }
        key.push(value.copy()?)?;
    }
    Ok(Some(Items::from(key)))
}

/// The key that the condition of a query demands, if it demands one.
pub(crate) fn demanded_key(
    alloc: Global,
    scheme: &Scheme,
    query: &Query,
) -> Result<Option<Items<Value>>, AllocError>
    ensures { IfOk result (λ o. IfSome o (IsDemanded (length scheme.now.keys) query.now.test)) }
{
    match &query.test {
        Some(test) => whole_key(alloc, scheme, test),
        None => Ok(None),
    }
}
