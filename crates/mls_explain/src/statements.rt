//! The statements of a transaction by number, as a list.

use crate::teller::Told;
use mls_translang::{Block, Stmt};

/// A statement, and the number of the loop or branch around it: 0 is the transaction itself.
#[derive(Clone, Copy)]
pub(crate) struct Statement<'a> {
    pub stmt: &'a Stmt,
    pub around: usize,
}

/// Adds the statements of a block.
#[cycle(walk)]
pub(crate) fn block_to<'a>(all: &mut Vec<Statement<'a>>, around: usize, block: &'a Block) -> Told {
    for stmt in &block.stmts {
        stmt_to(all, around, stmt)?;
    }
    Ok(())
}

/// Adds a statement, and then those inside it.
#[cycle(walk)]
fn stmt_to<'a>(all: &mut Vec<Statement<'a>>, around: usize, stmt: &'a Stmt) -> Told {
    all.push(Statement { stmt, around })?;
    let number = all.len();
    match stmt {
        Stmt::If { one, other, .. } => {
            block_to(all, number, one)?;
            block_to(all, number, other)
        }
        Stmt::For { body, .. } => block_to(all, number, body),
        _ => Ok(()),
    }
}
