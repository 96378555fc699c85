//! What the grammar bounds.

/// How many statements, or `(` and `not` of an expression, may stand inside one another.
pub(crate) const MAX_DEPTH: usize = 16;

/// How many statements a transaction may have.
pub(crate) const MAX_STATEMENTS: usize = 1000;

/// How many parameters, or variables, a transaction may have.
pub(crate) const MAX_NAMES: usize = 64;

/// How many transactions a text may have.
pub(crate) const MAX_TRANSACTIONS: usize = 64;

/// How many tests a condition may have.
pub(crate) const MAX_TESTS: usize = 16;
