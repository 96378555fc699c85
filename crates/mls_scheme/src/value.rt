//! Values and their kinds.
ghost use Rattle.std.specs.Prelude.{◌≡◌, ◌↔◌, IsTrue, IfOk};
ghost use Rattle.std.specs.Cmp.Lexicographic.{slice_cmp};
ghost use Rattle.mls_scheme.specs.Value.{kind_of, is_kind, is_signed, is_text, value_cmp};
ghost use Rattle.mls_scheme.specs.Document.{kind_word};

use mls_lattice::{Items, Str};
use std::alloc::AllocError;
use std::cmp::Ordering;

/// What the number of bytes of a text is below.
const TEXT_LIMIT: usize = 4_294_967_296;

/// What kind of value an attribute holds.
#[derive(Clone, Copy, PartialEq, Eq)]
pub enum Kind {
    /// 64 signed bits.
    Int,
    /// A text of fewer than 4,294,967,296 bytes, so that what fits a scheme has a spelling.
    Text,
}

/// A value that is not null. Numbers come before texts; numbers go by value, texts by their bytes.
#[derive(Clone, PartialEq, Eq, PartialOrd, Ord, Drop)]
pub enum Value {
    Int(i64),
    Text(Str),
}

impl Kind {
    /// The word of the kind, as texts write it.
    pub fn word(self) -> &'static str
        ensures { result.now ≡ kind_word self }
    {
        match self {
            Kind::Int => "int",
            Kind::Text => "text",
        }
    }
}

impl Value {
    /// The kind of the value.
    pub fn kind(&self) -> Kind
        ensures { result ≡ kind_of self.now }
    {
        match self {
            Value::Int(_) => Kind::Int,
            Value::Text(_) => Kind::Text,
        }
    }

    /// Whether the value is of a kind, within the bounds of the kind: a text can be too long.
    #[tactic(auto, using(crate::proofs::KindLemmas::bounds))]
    pub fn is_kind(&self, kind: Kind) -> bool
        ensures { result ≡ is_kind self.now kind }
    {
        match (self, kind) {
            (Value::Int(number), Kind::Int) => is_signed(*number),
            (Value::Text(text), Kind::Text) => is_text(text.as_str()),
            _ => false,
        }
    }

    /// An equal value.
    pub fn copy(&self) -> Result<Value, AllocError>
        ensures { IfOk result (λ v. v ≡ self.now) }
    {
        self.clone()
    }

    /// Whether two values are the same.
    pub fn same(&self, other: &Value) -> bool
        ensures { IsTrue result ↔ (self.now ≡ other.now) }
    {
        self == other
    }

    /// The order of two values.
    pub fn order(&self, other: &Value) -> Ordering
        ensures { result ≡ value_cmp self.now other.now }
    {
        self.cmp(other)
    }
}

/// Whether a number is within the bounds of the kind: each of 64 bits is.
#[tactic(auto, using(crate::proofs::KindLemmas::bounds))]
fn is_signed(_number: i64) -> bool
    ensures { result ≡ is_signed _number }
{
    true
}

/// Whether a text is no longer than the kind allows.
#[tactic(auto, using(crate::proofs::KindLemmas::bounds))]
fn is_text(text: &str) -> bool
    ensures { result ≡ is_text text.now }
{
    text.len() < TEXT_LIMIT
}

/// An equal key.
pub fn copy_key(key: &Items<Value>) -> Result<Items<Value>, AllocError>
    ensures { IfOk result (λ k. k ≡ key.now) }
{
    key.clone()
}

/// Whether two keys are the same.
pub fn same_key(left: &[Value], right: &[Value]) -> bool
    ensures { IsTrue result ↔ (left.now ≡ right.now) }
{
    left == right
}

/// The order of two keys: the first values that differ decide.
pub fn order_keys(left: &Items<Value>, right: &Items<Value>) -> Ordering
    ensures { result ≡ slice_cmp value_cmp left.now right.now }
{
    left.cmp(right)
}
