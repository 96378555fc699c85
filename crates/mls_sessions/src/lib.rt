//! Sessions: the engine that answers their commands over a base, and the runs of scripts.
#![tactic(auto)]

mod arguments;
mod batch;
mod calling;
mod cause;
mod change;
mod denying;
mod denying_calls;
mod engine;
mod finding;
mod looking;
mod notice;
mod running;
mod session;
mod site;
mod turning;
mod writing;

pub use engine::Engine;
pub use mls_certcheck::{Run, Stored};
pub use mls_machine::{Answer, Denial, Reply};
pub use mls_translang::{Command, Event, One, RunCause, RunFault};
pub use notice::Notice;
pub use running::{run, run_to};
pub use turning::turn;
pub use writing::write_whole;
