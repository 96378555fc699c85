//! The words of a command line, what a command asks of the machine that it runs on, what it reads of inputs, and what
//! it refuses.
#![tactic(auto)]

mod ending;
mod errors;
mod host;
mod inputs;
mod job;
mod readers;
mod reading;
mod reason;
pub mod samples;
mod stop;
mod storing;
mod telling;
mod usage;
mod words;

pub use crate::ending::{Ending, ending_if};
pub use crate::errors::Errors;
pub use crate::host::{CloseFault, Host, HostFault, StoreCause, StoreFiles, read_whole};
pub use crate::inputs::{policy_or_sample, schemes_or_sample};
pub use crate::job::{Inputs, Setting};
pub use crate::reading::{inputs_of, setting_of};
pub use crate::reason::{Reason, Role};
pub use crate::stop::{Stop, ended, served, turned};
pub use crate::storing::{cert_named, stored_from, stored_of};
pub use crate::telling::Tally;
pub use crate::usage::Usage;
pub use crate::words::{Documents, Files, Job, Task, job_of};
