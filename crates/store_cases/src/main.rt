//! Cases of stores in files: what is found in them after a stop, after damage, and when they are opened again. Adding a
//! case is adding
//! a line in `data/`, and its answer to `stdout`. All of them speak of a few sites, which are read once and lent from
//! then on.
#![tactic(auto)]

mod again;
mod contents;
mod counts;
mod cuts;
mod damage;
mod disks;
mod histories;
mod labels;
mod plans;
mod runs;
mod site;
mod stops;
mod stores;
mod table;
mod texts;

use crate::table::told;
use crate::texts::NAMES;
use case_tables::Texts;
use std::io::{self, Write};

fn main(rt: HostRuntime) -> io::Result<()> {
    let texts = Texts::read(&rt, &NAMES)?;
    let told = told(rt.alloc(), &texts)?;
    rt.stdout().write_all(told.as_bytes())
}
