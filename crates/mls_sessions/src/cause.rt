//! Why runs stop.
ghost use Rattle.std.specs.Prelude.{◌≡◌};
ghost use Rattle.mls_filterview.specs.Calls.{IsServed};
ghost use Rattle.mls_sessions.specs.Cause.{cause_of};

use mls_filterview::BaseFault;
use mls_translang::{RunCause, RunFault};

/// The fault of an event.
pub(crate) fn fault_at(event: usize, cause: RunCause, done: bool) -> RunFault
    ensures { result ≡ record { event = event; cause = cause; done = done } }
{
    RunFault { event, cause, done }
}

/// The cause that a fault of the store or of memory is.
pub(crate) fn cause_of(fault: BaseFault) -> RunCause
    requires { IsServed fault }
    ensures { result ≡ cause_of fault }
{
    match fault {
        BaseFault::Store => RunCause::Store,
        BaseFault::Memory => RunCause::Memory,
        BaseFault::NotBegun | BaseFault::Begun => unreachable!(),
    }
}
