//! Statements, run over a base.
ghost use Rattle.std.specs.Prelude.{◌≡◌, true, IfErr, OnOk, [], ◌∷◌};
ghost use Rattle.std.specs.List.{AllByRecursion};
ghost use Rattle.mls_lattice.specs.Labels.{below};
ghost use Rattle.mls_lattice.specs.Policy.{labels_of};
ghost use Rattle.mls_filterview.specs.Calls.{IsCall, IsServed};
ghost use Rattle.mls_translang.specs.Tree.{If, End};
ghost use Rattle.mls_translang.specs.Blocks.{block_of};
ghost use Rattle.mls_trusted.specs.Ends.{Accesses};
ghost use Rattle.mls_trusted.specs.Frames.{
  around_of,
  MayRunBlock,
  MayLoop,
  run_of,
  rows_of,
  loop_of,
  IsCallReady,
  IsFrameRun,
};

use crate::call::Call;
use crate::fitting::rows_at;
use crate::frame::Frame;
use crate::plain::{assign, emit, release};
use crate::write::write_at;
use mls_filterview::{Base, BaseFault, SharedTuple, SharedView, settle};
use mls_lattice::LabelNo;
use mls_scheme::RelNo;
use mls_translang::{Block, Expr, Stmt};

/// Runs the statements of a block, inside a change.
#[cycle(run)]
pub(crate) fn run_block<B: Base>(
    call: &Call<'_>,
    base: &mut B,
    frame: &mut Frame,
    block: &Block,
) -> Result<(), BaseFault>
    requires ready { IsCallReady call.now B.seen base.old frame.old }
    requires may { MayRunBlock call.now (around_of frame.old) block.now }
    ensures call { IsCall B.seen base.old base.new result }
    ensures served { IfErr result IsServed }
    ensures access { Accesses call.now B.seen block.now base.old base.new }
    ensures ran { OnOk result (IsFrameRun call.now B.seen
        (run_of call.now block.now (around_of frame.old)) base.old base.new frame.old frame.new) }
{
    for stmt in &block.stmts {
        run_stmt(call, base, frame, stmt)?;
    }
    Ok(())
}

/// Runs one block where the guard is true, else the other.
#[cycle(run)]
fn run_branch<B: Base>(
    call: &Call<'_>,
    base: &mut B,
    frame: &mut Frame,
    guard: &Expr,
    one: &Block,
    other: &Block,
) -> Result<(), BaseFault>
    requires ready { IsCallReady call.now B.seen base.old frame.old }
    requires may { MayRunBlock call.now (around_of frame.old) (If guard.now one.now other.now End) }
    ensures call { IsCall B.seen base.old base.new result }
    ensures served { IfErr result IsServed }
    ensures access { Accesses call.now B.seen (If guard.now one.now other.now End) base.old base.new }
    ensures ran { OnOk result (IsFrameRun call.now B.seen
        (run_of call.now (If guard.now one.now other.now End) (around_of frame.old)) base.old base.new frame.old
        frame.new) }
{
    if frame.environment(call.args).eval(guard).is_true() {
        run_block(call, base, frame, one)
    } else {
        run_block(call, base, frame, other)
    }
}

/// Runs the body of a loop at a row.
#[cycle(run)]
fn run_row<B: Base>(
    call: &Call<'_>,
    base: &mut B,
    frame: &mut Frame,
    row: SharedTuple,
    body: &Block,
) -> Result<(), BaseFault>
    requires ready { IsCallReady call.now B.seen base.old frame.old }
    requires may { MayRunBlock call.now (row ∷ around_of frame.old) body.now }
    ensures call { IsCall B.seen base.old base.new result }
    ensures served { IfErr result IsServed }
    ensures access { Accesses call.now B.seen body.now base.old base.new }
    ensures ran { OnOk result (IsFrameRun call.now B.seen
        (run_of call.now body.now (row ∷ around_of frame.old)) base.old base.new frame.old frame.new) }
{
    settle(base, frame.enter(row))?;
    run_block(call, base, frame, body)?;
    frame.leave();
    Ok(())
}

/// Runs the body of a loop at each of the rows.
#[cycle(run)]
fn run_rows<B: Base>(
    call: &Call<'_>,
    base: &mut B,
    frame: &mut Frame,
    rows: &SharedView,
    body: &Block,
) -> Result<(), BaseFault>
    requires ready { IsCallReady call.now B.seen base.old frame.old }
    requires may { AllByRecursion (λ row. MayRunBlock call.now (row ∷ around_of frame.old) body.now) rows.now }
    ensures call { IsCall B.seen base.old base.new result }
    ensures served { IfErr result IsServed }
    ensures access { Accesses call.now B.seen body.now base.old base.new }
    ensures ran { OnOk result (IsFrameRun call.now B.seen
        (rows_of call.now body.now (around_of frame.old) rows.now) base.old base.new frame.old frame.new) }
{
    for place in 0..rows.as_slice().len() {
        let row = settle(base, rows.tuple(place))?;
        run_row(call, base, frame, row, body)?;
    }
    Ok(())
}

/// Runs a loop over the rows of the view as it stands here.
#[cycle(run)]
fn run_loop<B: Base>(
    call: &Call<'_>,
    base: &mut B,
    frame: &mut Frame,
    relation: RelNo,
    label: LabelNo,
    body: &Block,
) -> Result<(), BaseFault>
    requires ready { IsCallReady call.now B.seen base.old frame.old }
    requires may { MayLoop call.now relation label (around_of frame.old) body.now }
    ensures call { IsCall B.seen base.old base.new result }
    ensures served { IfErr result IsServed }
    ensures access { below (labels_of call.now.policy.now) label call.now.tx.now.hi ≡ true
        → Accesses call.now B.seen body.now base.old base.new }
    ensures ran { OnOk result (IsFrameRun call.now B.seen
        (loop_of call.now relation label body.now (around_of frame.old)) base.old base.new frame.old frame.new) }
{
    let rows = rows_at(call, base, &mut frame.views, relation, label)?;
    run_rows(call, base, frame, &rows, body)
}

/// Runs a statement.
#[cycle(run)]
fn run_stmt<B: Base>(
    call: &Call<'_>,
    base: &mut B,
    frame: &mut Frame,
    stmt: &Stmt,
) -> Result<(), BaseFault>
    requires ready { IsCallReady call.now B.seen base.old frame.old }
    requires may { MayRunBlock call.now (around_of frame.old) (block_of (stmt.now ∷ [])) }
    ensures call { IsCall B.seen base.old base.new result }
    ensures served { IfErr result IsServed }
    ensures access { Accesses call.now B.seen (block_of (stmt.now ∷ [])) base.old base.new }
    ensures ran { OnOk result (IsFrameRun call.now B.seen
        (run_of call.now (block_of (stmt.now ∷ [])) (around_of frame.old)) base.old base.new frame.old frame.new) }
{
    match stmt {
        Stmt::If { guard, one, other } => run_branch(call, base, frame, guard, one, other),
        Stmt::For {
            relation,
            label,
            body,
            ..
        } => run_loop(call, base, frame, *relation, *label, body),
        Stmt::Write {
            relation,
            at,
            write,
            outcome,
        } => write_at(call, base, frame, *relation, *at, write, *outcome),
        Stmt::Assign { variable, value } => settle(base, assign(call, frame, *variable, value)),
        Stmt::Release { value, to, into } => settle(base, release(call, frame, value, *to, *into)),
        Stmt::Emit { value, label } => settle(base, emit(call, frame, value, *label)),
    }
}
