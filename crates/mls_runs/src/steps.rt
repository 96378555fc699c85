//! Calls over one store, one after another.
ghost use Rattle.mls_host.specs.Hosting.{hosted, IsAppended, IsTold};
ghost use Rattle.mls_host.specs.declared.errors.Errors.{Errors as SpecErrors};
ghost use Rattle.mls_runs.specs.Steps.{CallsAreInTurn, CallsAreSteps, OpeningsAreSteps, StepsAreHistories};

use crate::explaining::Explains;
use mls_host::Host;
use std::io::Write;

/// What `act` promises of a run, a shell, a desk or a turning over a store makes each a step from one content to
/// another.
pub fn calls_are_steps<X: Explains, H: Host, W: Write, E: Write>()
    ensures { (old new : H) (first written : W) (asked told : SpecErrors E)
        → CallsAreSteps X.explaining (hosted H.hosting H.Lines.echo old new) (IsAppended W.contents first written)
        (IsTold E.contents asked told) }
{}

/// A call begins with what the call before it left, where the store at its path was let alone between them.
pub fn calls_are_in_turn<H: Host, K: Host>()
    ensures { (old middle : H) (later new : K) → CallsAreInTurn (hosted H.hosting H.Lines.echo old middle)
        (hosted K.hosting K.Lines.echo later new) }
{}

/// What a store had is taken as it was; or, under later files, with its relations widened, which passes nothing down
/// either.
pub fn openings_are_steps()
    ensures { OpeningsAreSteps }
{}

/// Steps, each from what the one before it left, are a history: the promises of a history hold of all of them together,
/// also where some
/// are given up.
pub fn steps_are_histories()
    ensures { StepsAreHistories }
{}
