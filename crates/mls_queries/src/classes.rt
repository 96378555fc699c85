//! Classes of rows, and how they stand to labels.
ghost use Rattle.std.specs.Prelude.{◌≡◌};
ghost use Rattle.mls_lattice.specs.Lattice.{pair_of};
ghost use Rattle.mls_lattice.specs.Policy.{labels_of};
ghost use Rattle.mls_scheme.specs.Tuple.{tuple_class};
ghost use Rattle.mls_queries.specs.Query.{is_strictly_below, stands, has_class};

use mls_lattice::{Label, Policy, declared, flows};
use mls_scheme::Tuple;
use mls_translang::{ClassTest, Comparison};

/// The class of a row: the join of its key class and the classes of its elements. A store that is not clean may give
/// any numbers for these.
pub(crate) fn class_of(policy: &Policy, row: &Tuple) -> Label
    ensures { pair_of result ≡ tuple_class (labels_of policy.now) row.now }
{
    let mut class = declared(policy, row.key_class);
    for element in row.elements.as_slice() {
        class = class.join(declared(policy, element.class));
    }
    class
}

/// Whether a label dominates another, and is another.
pub(crate) fn is_strictly_below(low: Label, high: Label) -> bool
    ensures { result ≡ is_strictly_below (pair_of low) (pair_of high) }
{
    flows(low, high) && !flows(high, low)
}

/// Whether a class stands so to a label.
fn stands(comparison: Comparison, class: Label, label: Label) -> bool
    ensures { result ≡ stands comparison (pair_of class) (pair_of label) }
{
    match comparison {
        Comparison::Equal => class.same(label),
        Comparison::Unequal => !class.same(label),
        Comparison::Less => is_strictly_below(class, label),
        Comparison::AtMost => flows(class, label),
        Comparison::Greater => is_strictly_below(label, class),
        Comparison::AtLeast => flows(label, class),
    }
}

/// Whether the class of a row passes the test, if there is one.
pub(crate) fn has_class(policy: &Policy, test: Option<ClassTest>, row: &Tuple) -> bool
    ensures { result ≡ has_class (labels_of policy.now) test row.now }
{
    match test {
        None => true,
        Some(test) => stands(
            test.comparison,
            class_of(policy, row),
            declared(policy, test.label),
        ),
    }
}
