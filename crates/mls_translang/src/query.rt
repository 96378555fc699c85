//! What is asked of a view.
use crate::expr::Expr;
use mls_lattice::LabelNo;

/// How a class is to stand to a label, by dominance. Of two labels of which none dominates the other, only `Unequal`
/// holds.
#[derive(Clone, Copy, PartialEq, Eq)]
pub enum Comparison {
    Equal,
    Unequal,
    /// The label dominates the class, and is another one.
    Less,
    /// The label dominates the class.
    AtMost,
    /// The class dominates the label, and is another one.
    Greater,
    /// The class dominates the label.
    AtLeast,
}

/// A test of the class of a row.
#[derive(Clone, Copy, PartialEq, Eq)]
pub struct ClassTest {
    pub comparison: Comparison,
    pub label: LabelNo,
}

/// What is asked of a view. The parts are applied in this order.
#[derive(Drop)]
pub struct Query {
    /// Of the rows of one key only those above which no other row of that key stands.
    pub highest: bool,
    /// Only rows whose class, as the view shows it, passes a test.
    pub class: Option<ClassTest>,
    /// Only rows that pass a condition. The row is the one of depth 0; there are no variables and no parameters.
    pub test: Option<Expr>,
    /// At most so many rows.
    pub first: Option<usize>,
}
