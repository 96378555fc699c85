//! The text of blocks.
ghost use Rattle.std.specs.Prelude.{◌≡◌, ◌<◌, length, OnOk, IfOk, [], ◌∷◌};
ghost use Rattle.mls_translang.specs.Layout.{puts};
ghost use Rattle.mls_translang.specs.Tx.{BlockIsOwn};
ghost use Rattle.mls_translang.specs.Scope.{in_loop};
ghost use Rattle.mls_translang.specs.Fits.{IsLabel, BlockFits};
ghost use Rattle.mls_translang.specs.Blocks.{block_of};
ghost use Rattle.mls_translang.specs.Tree.{End, If, For};
ghost use Rattle.mls_translang.specs.Tokens.{at_row, block_tokens, braced, else_tokens, for_tokens};

use crate::block::{Block, Stmt};
use crate::expr::Expr;
use crate::layout::Printer;
use crate::names::Names;
use crate::print_expr::expr_to;
use crate::print_parts::{assign_to, emit_to, label_to, release_to};
use crate::print_write::write_to;
use crate::row::{LoopRow, rows_inside};
use mls_lattice::{LabelNo, Str};
use mls_scheme::RelNo;
use mls_tokens::Sign;
use std::alloc::{AllocError, Global};

/// Writes the statements of a block.
#[cycle(print)]
pub(crate) fn block_to(
    alloc: Global,
    names: &Names<'_>,
    out: &mut Printer,
    block: &Block,
) -> Result<(), AllocError>
    requires own { BlockIsOwn names.now.scope block.now }
    requires fits { BlockFits names.now.policy names.now.schemes names.now.hi names.now.scope block.now }
    ensures { OnOk result (out.new ≡ puts out.old (block_tokens names.now block.now)) }
{
    for stmt in &block.stmts {
        stmt_to(alloc, names, out, stmt)?;
    }
    Ok(())
}

/// Writes a block in its braces.
#[cycle(print)]
#[tactic(auto, using(crate::proofs::LayoutLemmas::lists))]
fn braced_to(
    alloc: Global,
    names: &Names<'_>,
    out: &mut Printer,
    block: &Block,
) -> Result<(), AllocError>
    requires own { BlockIsOwn names.now.scope block.now }
    requires fits { BlockFits names.now.policy names.now.schemes names.now.hi names.now.scope block.now }
    ensures { OnOk result (out.new ≡ puts out.old (braced (block_tokens names.now block.now))) }
{
    out.sign(Sign::LeftBrace)?;
    block_to(alloc, names, out, block)?;
    out.sign(Sign::RightBrace)
}

/// Writes the other block of an `if`, where it has statements.
#[cycle(print)]
fn else_to(
    alloc: Global,
    names: &Names<'_>,
    out: &mut Printer,
    block: &Block,
) -> Result<(), AllocError>
    requires own { BlockIsOwn names.now.scope block.now }
    requires fits { BlockFits names.now.policy names.now.schemes names.now.hi names.now.scope block.now }
    ensures { OnOk result (out.new ≡ puts out.old (else_tokens block.now (braced (block_tokens names.now block.now)))) }
{
    if block.is_empty() {
        return Ok(());
    }
    out.word("else")?;
    braced_to(alloc, names, out, block)
}

/// Writes an `if`.
#[cycle(print)]
#[tactic(auto, using(crate::proofs::LayoutLemmas::lists))]
fn if_to(
    alloc: Global,
    names: &Names<'_>,
    out: &mut Printer,
    guard: &Expr,
    one: &Block,
    other: &Block,
) -> Result<(), AllocError>
    requires own { BlockIsOwn names.now.scope (If guard.now one.now other.now End) }
    requires fits { BlockFits names.now.policy names.now.schemes names.now.hi names.now.scope
        (If guard.now one.now other.now End) }
    ensures { OnOk result (out.new ≡ puts out.old (block_tokens names.now (If guard.now one.now other.now End))) }
{
    out.word("if")?;
    expr_to(names, out, guard)?;
    braced_to(alloc, names, out, one)?;
    else_to(alloc, names, out, other)
}

/// Writes what a loop begins with.
#[tactic(auto, using(crate::proofs::LayoutLemmas::lists))]
fn loop_head_to(
    names: &Names<'_>,
    out: &mut Printer,
    row: &str,
    relation: RelNo,
    label: LabelNo,
) -> Result<(), AllocError>
    requires relation { relation < length names.now.schemes }
    requires label { IsLabel names.now.policy label }
    ensures { OnOk result (out.new ≡ puts out.old (for_tokens names.now row.now relation label)) }
{
    out.word("for")?;
    out.word(row)?;
    out.word("in")?;
    out.word(names.relation(relation))?;
    label_to(names, out, "at", label)
}

/// The rows inside a loop.
fn rows_of(
    alloc: Global,
    name: &str,
    relation: RelNo,
    rows: &[LoopRow],
) -> Result<Vec<LoopRow>, AllocError>
    ensures { IfOk result (λ v. v.items ≡ record { name = name.now; relation = relation } ∷ rows.now) }
{
    let name = Str::copy_of(alloc, name)?;
    rows_inside(alloc, LoopRow { name, relation }, rows)
}

/// Writes the body of a loop.
#[cycle(print)]
fn body_to(
    alloc: Global,
    names: &Names<'_>,
    out: &mut Printer,
    row: &str,
    relation: RelNo,
    body: &Block,
) -> Result<(), AllocError>
    requires own { BlockIsOwn (in_loop names.now.scope row.now relation) body.now }
    requires fits { BlockFits names.now.policy names.now.schemes names.now.hi
        (in_loop names.now.scope row.now relation) body.now }
    ensures { OnOk result (out.new ≡ puts out.old
        (braced (block_tokens (at_row names.now row.now relation) body.now))) }
{
    let rows = rows_of(alloc, row, relation, (&*names).rows)?;
    let inner = (&*names).with_rows(&rows);
    braced_to(alloc, &inner, out, body)
}

/// Writes a statement.
#[cycle(print)]
#[tactic(auto, using(crate::proofs::LayoutLemmas::lists))]
fn stmt_to(
    alloc: Global,
    names: &Names<'_>,
    out: &mut Printer,
    stmt: &Stmt,
) -> Result<(), AllocError>
    requires own { BlockIsOwn names.now.scope (block_of (stmt.now ∷ [])) }
    requires fits { BlockFits names.now.policy names.now.schemes names.now.hi names.now.scope
        (block_of (stmt.now ∷ [])) }
    ensures { OnOk result (out.new ≡ puts out.old (block_tokens names.now (block_of (stmt.now ∷ [])))) }
{
    match stmt {
        Stmt::Assign { variable, value } => assign_to(names, out, *variable, value),
        Stmt::If { guard, one, other } => if_to(alloc, names, out, guard, one, other),
        Stmt::For {
            row,
            relation,
            label,
            body,
        } => {
            loop_head_to(names, out, row.as_str(), *relation, *label)?;
            body_to(alloc, names, out, row.as_str(), *relation, body)
        }
        Stmt::Write {
            relation,
            at,
            write,
            outcome,
        } => write_to(names, out, *relation, *at, write, *outcome),
        Stmt::Release { value, to, into } => release_to(names, out, value, *to, *into),
        Stmt::Emit { value, label } => emit_to(names, out, value, *label),
    }
}
