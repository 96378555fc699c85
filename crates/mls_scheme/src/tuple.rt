//! Elements and tuples, and the class of a tuple.
ghost use Rattle.std.specs.Prelude.{◌≡◌, ◌↔◌, ◌<◌, IsTrue, IfOk, length};
ghost use Rattle.mls_lattice.specs.Lattice.{pair_of};
ghost use Rattle.mls_lattice.specs.Policy.{labels_of};
ghost use Rattle.mls_scheme.specs.Tuple.{is_null, tuple_class, HasClassesBelow};

use crate::value::{Value, same_key};
use mls_lattice::{Items, Label, LabelNo, Policy};
use std::alloc::AllocError;

/// A value or null, and its class.
#[derive(Clone, PartialEq, Eq, PartialOrd, Ord, Drop)]
pub struct Element {
    pub value: Option<Value>,
    pub class: LabelNo,
}

/// A key with its class, and an element for each attribute outside the key, in the order of the scheme.
#[derive(Clone, PartialEq, Eq, PartialOrd, Ord, Drop)]
pub struct Tuple {
    pub key: Items<Value>,
    pub key_class: LabelNo,
    pub elements: Items<Element>,
}

impl Element {
    /// Whether there is no value.
    pub fn is_null(&self) -> bool
        ensures { result ≡ is_null self.now }
    {
        self.value.is_none()
    }

    /// An equal element.
    pub fn copy(&self) -> Result<Element, AllocError>
        ensures { IfOk result (λ e. e ≡ self.now) }
    {
        self.clone()
    }

    /// Whether two elements are the same.
    pub fn same(&self, other: &Element) -> bool
        ensures { IsTrue result ↔ (self.now ≡ other.now) }
    {
        self == other
    }
}

impl Tuple {
    /// An equal tuple.
    pub fn copy(&self) -> Result<Tuple, AllocError>
        ensures { IfOk result (λ t. t ≡ self.now) }
    {
        self.clone()
    }

    /// Whether two tuples are the same.
    pub fn same(&self, other: &Tuple) -> bool
        ensures { IsTrue result ↔ (self.now ≡ other.now) }
    {
        if self.key_class != other.key_class {
            return false;
        }
        if !same_key(&self.key, &other.key) {
            return false;
        }
        same_elements(&self.elements, &other.elements)
    }
}

/// Whether two lists of elements are the same.
fn same_elements(left: &[Element], right: &[Element]) -> bool
    ensures { IsTrue result ↔ (left.now ≡ right.now) }
{
    left == right
}

/// The class of a tuple: the join of its key class and the classes of its elements.
pub fn tuple_class(policy: &Policy, tuple: &Tuple) -> Label
    requires { HasClassesBelow (length policy.now.labels) tuple.now }
    ensures { pair_of result ≡ tuple_class (labels_of policy.now) tuple.now }
{
    let mut class = policy.value(tuple.key_class);
    for element in tuple.elements.as_slice() {
        class = class.join(policy.value(element.class));
    }
    class
}
