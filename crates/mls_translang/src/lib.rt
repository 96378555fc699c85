//! Transactions, queries and events as trees, the lines of events, and why runs of events stop.
#![tactic(auto)]

ghost use Rattle.mls_translang.specs.ReadsBack.{LayoutsAreTokens, PrintsAreTokens};
ghost use Rattle.mls_translang.specs.Tells.{PrintsAreTold};

mod block;
mod event;
mod expr;
mod layout;
mod names;
mod operator;
mod print_block;
mod print_expr;
mod print_parts;
mod print_tx;
mod print_write;
mod query;
mod row;
mod run_fault;
mod tx;
mod writing;

pub use block::{Block, Stmt};
pub use event::{Command, Event, One};
pub use expr::{Expr, Term};
pub use operator::Operator;
pub use print_tx::print;
pub use query::{ClassTest, Comparison, Query};
pub use row::LoopRow;
pub use run_fault::{RunCause, RunFault};
pub use tx::{Parameter, Tx, statements};
pub use writing::{is_writable, push_cell, push_event, push_value};

/// A layout of tokens is read back as these tokens.
pub fn layouts_are_tokens()
    ensures { LayoutsAreTokens }
{}

/// The printed text of a transaction is read back as the tokens of its tree.
pub fn prints_are_tokens()
    ensures { PrintsAreTokens }
{}

/// The printed text of a transaction tells it.
pub fn prints_are_told()
    ensures { PrintsAreTold }
{}
