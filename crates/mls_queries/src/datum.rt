//! What expressions give.
ghost use Rattle.std.specs.Prelude.{◌≡◌, IfOk};
ghost use Rattle.mls_scheme.specs.Value.{fits_kind};
ghost use Rattle.mls_translang.specs.Expressions.{Plain, value_of, is_true};
ghost use Rattle.mls_queries.specs.Data.{datum_of, number_of, is_null, of_number};

use mls_scheme::{Kind, Value};
use std::alloc::AllocError;

/// What an expression gives: only arithmetic makes new values, and these are numbers.
#[derive(Clone, Copy)]
pub enum Datum<'a> {
    Null,
    /// A value that stands elsewhere.
    Lent(&'a Value),
    Number(i64),
    /// A truth value.
    Truth(bool),
}

impl<'a> Datum<'a> {
    /// A value that stands elsewhere, or null.
    pub fn lent(value: &'a Option<Value>) -> Datum<'a>
        ensures { datum_of result ≡ Plain value.now }
    {
        match value {
            Some(value) => Datum::Lent(value),
            None => Datum::Null,
        }
    }

    /// A number, or null.
    pub fn number(number: Option<i64>) -> Datum<'a>
        ensures { datum_of result ≡ of_number number }
    {
        match number {
            Some(number) => Datum::Number(number),
            None => Datum::Null,
        }
    }

    /// The number, if it is one.
    pub fn as_number(self) -> Option<i64>
        ensures { result ≡ number_of (value_of (datum_of self.entry)) }
    {
        match self {
            Datum::Lent(Value::Int(number)) => Some(*number),
            Datum::Number(number) => Some(number),
            _ => None,
        }
    }

    /// Whether there is no value.
    pub fn is_null(self) -> bool
        ensures { result ≡ is_null (value_of (datum_of self.entry)) }
    {
        match self {
            Datum::Lent(_) | Datum::Number(_) => false,
            Datum::Null | Datum::Truth(_) => true,
        }
    }

    /// Whether it is the truth value that holds.
    pub fn is_true(self) -> bool
        ensures { result ≡ is_true (datum_of self.entry) }
    {
        match self {
            Datum::Truth(holds) => holds,
            _ => false,
        }
    }

    /// Whether the value is of a kind: null is of every kind.
    pub fn fits_kind(self, kind: Kind) -> bool
        ensures { result ≡ fits_kind (value_of (datum_of self.entry)) kind }
    {
        match self {
            Datum::Lent(value) => value.is_kind(kind),
            Datum::Number(number) => Value::Int(number).is_kind(kind),
            Datum::Null | Datum::Truth(_) => true,
        }
    }

    /// The value, copied.
    pub fn copied(self) -> Result<Option<Value>, AllocError>
        ensures { IfOk result (λ v. v ≡ value_of (datum_of self.entry)) }
    {
        match self {
            Datum::Lent(value) => Ok(Some(value.copy()?)),
            Datum::Number(number) => Ok(Some(Value::Int(number))),
            Datum::Null | Datum::Truth(_) => Ok(None),
        }
    }
}
