//! What expressions give.
ghost use Rattle.std.specs.Prelude.{◌≡◌};
ghost use Rattle.mls_parser.specs.Infer.{may_be, may_be_truth, may_be_value, same_kind, both, operands_fit};
ghost use Rattle.mls_parser.specs.Infer.{given_by_operator};

use mls_scheme::Kind;
use mls_translang::Operator;

/// What an expression gives, as far as its names are known.
#[derive(Clone, Copy)]
pub(crate) enum Inferred {
    /// A truth value.
    Truth,
    /// A value of a kind, or null.
    Value(Kind),
    /// Null, which has each kind.
    Null,
    /// Anything: a name is unknown.
    Unknown,
}

fn same_kind(left: Kind, right: Kind) -> bool
    ensures { result ≡ same_kind left right }
{
    match (left, right) {
        (Kind::Int, Kind::Int) | (Kind::Text, Kind::Text) => true,
        _ => false,
    }
}

impl Inferred {
    /// Whether it can be a value of a kind.
    pub fn may_be(self, kind: Kind) -> bool
        ensures { result ≡ may_be self kind }
    {
        match self {
            Inferred::Value(own) => same_kind(own, kind),
            Inferred::Truth => false,
            Inferred::Null | Inferred::Unknown => true,
        }
    }

    /// Whether it can be a truth value.
    pub fn may_be_truth(self) -> bool
        ensures { result ≡ may_be_truth self }
    {
        match self {
            Inferred::Truth | Inferred::Unknown => true,
            Inferred::Value(_) | Inferred::Null => false,
        }
    }

    /// Whether it can be a value of some kind.
    pub fn may_be_value(self) -> bool
        ensures { result ≡ may_be_value self }
    {
        match self {
            Inferred::Truth => false,
            _ => true,
        }
    }
}

fn both(kind: Kind, left: Inferred, right: Inferred) -> bool
    ensures { result ≡ both kind left right }
{
    left.may_be(kind) && right.may_be(kind)
}

/// Whether an operator takes two operands.
pub(crate) fn operands_fit(operator: Operator, left: Inferred, right: Inferred) -> bool
    ensures { result ≡ operands_fit operator left right }
{
    match operator {
        Operator::Plus | Operator::Minus | Operator::Times => both(Kind::Int, left, right),
        Operator::And | Operator::Or => left.may_be_truth() && right.may_be_truth(),
        _ => both(Kind::Int, left, right) || both(Kind::Text, left, right),
    }
}

/// What an operator gives, whatever its operands are.
pub(crate) fn given_by_operator(operator: Operator) -> Inferred
    ensures { result ≡ given_by_operator operator }
{
    match operator {
        Operator::Plus | Operator::Minus | Operator::Times => Inferred::Value(Kind::Int),
        _ => Inferred::Truth,
    }
}
