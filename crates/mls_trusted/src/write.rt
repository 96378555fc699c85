//! Statements that write.
ghost use Rattle.std.specs.Prelude.{◌≡◌, IfOk, IfErr, OnOk};
ghost use Rattle.mls_filterview.specs.Calls.{IsCall, IsServed};
ghost use Rattle.mls_translang.specs.Tree.{Do, Write_at, End};
ghost use Rattle.mls_certcheck.specs.Meaning.{write_in};
ghost use Rattle.mls_trusted.specs.Ends.{Accesses};
ghost use Rattle.mls_trusted.specs.Frames.{around_of, env_in, MayRunBlock, run_of, IsCallReady, IsFrameRun};

use crate::call::Call;
use crate::frame::Frame;
use crate::operand::write_of;
use mls_filterview::{Base, BaseFault, settle};
use mls_lattice::LabelNo;
use mls_scheme::{RelNo, Value, Write};
use mls_translang::Expr;
use std::alloc::AllocError;

/// A write with its operands' values.
fn evaluated(
    call: &Call<'_>,
    frame: &Frame,
    write: &Write<Expr>,
) -> Result<Write<Option<Value>>, AllocError>
    ensures { IfOk result (λ w. w ≡ write_in (env_in call.now.args.now frame.now) write.now) }
{
    write_of(call.alloc, &frame.environment(call.args), write)
}

/// Makes a write, and keeps what it came to.
pub(crate) fn write_at<B: Base>(
    call: &Call<'_>,
    base: &mut B,
    frame: &mut Frame,
    relation: RelNo,
    at: LabelNo,
    write: &Write<Expr>,
    outcome: Option<u8>,
) -> Result<(), BaseFault>
    requires ready { IsCallReady call.now B.seen base.old frame.old }
    requires may { MayRunBlock call.now (around_of frame.old) (Do (Write_at relation at write.now outcome) End) }
    ensures call { IsCall B.seen base.old base.new result }
    ensures served { IfErr result IsServed }
    ensures access { Accesses call.now B.seen (Do (Write_at relation at write.now outcome) End) base.old base.new }
    ensures ran { OnOk result (IsFrameRun call.now B.seen
        (run_of call.now (Do (Write_at relation at write.now outcome) End) (around_of frame.old))
        base.old base.new frame.old frame.new) }
{
    let Call {
        alloc,
        policy,
        schemes,
        ..
    } = *call;
    let valued = settle(base, evaluated(call, frame, write))?;
    let done = mls_updates::write(alloc, base, policy, schemes, relation, at, &valued)?;
    frame.wrote(call, relation, at, &valued, outcome, done);
    Ok(())
}
