//! Cases: what the public calls answer for the tables in `data/`, and what runs of its scripts leave where
//! something fails. Adding a case is adding a line there, and its answer to `stdout`. It needs none of the
//! command line, so that it is proved beside that.
#![tactic(auto)]

mod certificates;
mod documents;
mod entries;
mod extending;
mod faults;
mod lookups;
mod parts;
mod reads;
mod runs;
mod sample;
mod show;
mod spellings;
mod table;
mod texts;
mod transactions;
mod tuples;
mod views;

use crate::table::told;
use crate::texts::NAMES;
use case_tables::Texts;
use std::io::{self, Write};

fn main(rt: HostRuntime) -> io::Result<()> {
    let texts = Texts::read(&rt, &NAMES)?;
    let told = told(rt.alloc(), &texts)?;
    rt.stdout().write_all(told.as_bytes())
}
