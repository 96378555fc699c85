//! What runs and shells do over a host: scripts that are run over a database of the host, in memory, and one after
//! another over the files
//! of a store; shells, line by line; desks; and audit lists that are turned.
#![tactic(auto)]

ghost use Rattle.mls_runs.specs.Shell.{PipesAreToldNoMore};
ghost use Rattle.mls_runs.specs.Laws.{ShellsAreDesks};

mod alike;
mod denials;
mod describing;
mod desk;
mod desks;
mod explaining;
mod form;
mod help;
mod history;
mod marks;
mod memory;
mod reading;
mod refusals;
mod running;
mod shell;
mod shell_session;
mod shells;
mod steps;
mod tally;
mod telling;
mod turning;
mod typed;
mod words;
mod work;

pub use crate::alike::{desks_write_the_same, runs_write_the_same, shells_show_the_same};
pub use crate::desks::run_desk;
pub use crate::explaining::{Advice, Explains, Listener};
pub use crate::history::{HistoryCause, HistoryFault, Run, run_history};
pub use crate::memory::{HeldFile, MemoryHost};
pub use crate::running::{run_over_base, run_script};
pub use crate::shells::run_shell;
pub use crate::steps::{
    calls_are_in_turn, calls_are_steps, openings_are_steps, steps_are_histories,
};
pub use crate::turning::turn_store;

/// A shell is a desk of one session: where nobody types at a terminal, it answers to events of its session what a desk
/// answers to them.
pub fn shells_are_desks()
    ensures { ShellsAreDesks }
{}

/// Where nobody reads standard error at a terminal, nothing is told of the lines of a shell but the prompts and what is
/// said of each.
pub fn pipes_are_told_no_more<X: Explains>()
    ensures { PipesAreToldNoMore X.explaining }
{}
