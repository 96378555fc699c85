//! Statements that leave the database.
ghost use Rattle.std.specs.Prelude.{OnOk};
ghost use Rattle.mls_translang.specs.Tree.{Do, Assign, Release, Emit, End};
ghost use Rattle.mls_trusted.specs.Frames.{around_of, IsFrame, MayRunBlock, run_of, IsFrameStep};

use crate::call::Call;
use crate::frame::Frame;
use crate::operand::value_of;
use mls_lattice::LabelNo;
use mls_translang::Expr;
use mls_updates::copy_value;
use std::alloc::AllocError;

/// A variable gets a value.
pub(crate) fn assign(
    call: &Call<'_>,
    frame: &mut Frame,
    variable: u8,
    value: &Expr,
) -> Result<(), AllocError>
    requires frame { IsFrame call.now frame.old }
    requires may { MayRunBlock call.now (around_of frame.old) (Do (Assign variable value.now) End) }
    ensures { OnOk result (IsFrameStep call.now (run_of call.now (Do (Assign variable value.now) End)
        (around_of frame.old))
        frame.old frame.new) }
{
    let value = value_of(&frame.environment(call.args), value)?;
    frame.set(variable, value);
    Ok(())
}

/// A value is released to a label, and goes into a variable.
pub(crate) fn release(
    call: &Call<'_>,
    frame: &mut Frame,
    value: &Expr,
    to: LabelNo,
    into: u8,
) -> Result<(), AllocError>
    requires frame { IsFrame call.now frame.old }
    requires may { MayRunBlock call.now (around_of frame.old) (Do (Release value.now to into) End) }
    ensures { OnOk result (IsFrameStep call.now (run_of call.now (Do (Release value.now to into) End)
        (around_of frame.old))
        frame.old frame.new) }
{
    let value = value_of(&frame.environment(call.args), value)?;
    frame.released.push((to, copy_value(&value)?))?;
    frame.set(into, value);
    Ok(())
}

/// A value is emitted at a label.
pub(crate) fn emit(
    call: &Call<'_>,
    frame: &mut Frame,
    value: &Expr,
    label: LabelNo,
) -> Result<(), AllocError>
    requires frame { IsFrame call.now frame.old }
    requires may { MayRunBlock call.now (around_of frame.old) (Do (Emit value.now label) End) }
    ensures { OnOk result (IsFrameStep call.now (run_of call.now (Do (Emit value.now label) End) (around_of frame.old))
        frame.old frame.new) }
{
    let value = value_of(&frame.environment(call.args), value)?;
    frame.emitted.push((label, value))?;
    Ok(())
}
