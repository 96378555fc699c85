//! Scripts: the events that a text tells, and why their runs stop.
#![tactic(auto)]

ghost use Rattle.mls_script.specs.Reading.{LinesAreJudged};
ghost use Rattle.mls_script.specs.Script.{ScriptsAreOnce};
ghost use Rattle.mls_script.specs.Writing.{LinesAreRead};

mod batch;
mod command;
mod fault;
mod grammar;
mod lists;
mod parts;
mod query;
mod reading;

pub use fault::{ScriptCause, ScriptFault};
pub use reading::script;

/// Of all faults of names and kinds of a line whose form is right, the least is answered.
pub fn lines_are_judged()
    ensures { LinesAreJudged }
{}

/// A text tells the events of one list at most.
pub fn scripts_are_read_once()
    ensures { ScriptsAreOnce }
{}

/// What is written of events is read as these events.
pub fn lines_are_read()
    ensures { LinesAreRead }
{}
