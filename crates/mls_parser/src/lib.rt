//! Texts of transactions: read once, with what their names stand for.
#![tactic(auto)]

ghost use Rattle.mls_parser.specs.Condition.{ConditionsAreRead};
ghost use Rattle.mls_parser.specs.Laws.{TextsAreReadAsTold, TransactionsAreReadOnce, PrintsAreRead, Under};

mod context;
mod draft;
mod fault;
mod given;
mod header;
mod inferred;
mod limits;
mod names;
mod parser;
mod read_block;
mod read_condition;
mod read_expr;
mod read_list;
mod read_stmt;
mod read_tx;
mod reader;
mod words;

pub use fault::{PlacedFault, TextCause, TextFault, ill_formed};
pub use parser::parse;
pub use read_condition::condition;
pub use read_list::with_set;
pub use reader::Reader;

/// Tokens that tell a condition are read as it, where no condition goes on with what stands behind them.
pub fn conditions_are_read()
    ensures { ConditionsAreRead }
{}

/// A text is read as the transactions that it tells.
pub fn texts_are_read_as_told()
    ensures { Under TextsAreReadAsTold }
{}

/// A text tells one list of transactions at most.
pub fn transactions_are_read_once()
    ensures { Under TransactionsAreReadOnce }
{}

/// The printed text of a transaction is read as that transaction alone.
pub fn prints_are_read()
    ensures { Under PrintsAreRead }
{}
