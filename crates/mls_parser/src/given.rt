use crate::inferred::Inferred;
use mls_translang::Expr;

/// An expression, what it gives as far as its names are known, and the place of its first token.
#[derive(Drop)]
pub(crate) struct Given {
    pub expr: Expr,
    pub gives: Inferred,
    pub at: usize,
}
