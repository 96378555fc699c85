//! How replies are shown, and to whom.
use mls_lattice::LabelNo;

/// How replies are shown.
#[derive(Clone, Copy, PartialEq, Eq)]
pub enum Form {
    /// Line by line, a view as a line for each tuple.
    Lines,
    /// A view in columns, and no control character in any line.
    Table,
}

/// Whom a run is shown to.
#[derive(Clone, Copy, PartialEq, Eq)]
pub struct Audience {
    /// The label whose lines are shown, those that it dominates; without one all lines are.
    pub reader: Option<LabelNo>,
    /// How they are shown.
    pub form: Form,
}
