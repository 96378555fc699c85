//! Cases of whole commands over machines in memory, with writers and bases that the program's own machine has not: what
//! they print for
//! the tables in `data/`. Adding a case is adding a line there, and its answer to `stdout`.
#![tactic(auto)]

mod commands;
mod desk;
mod elsewhere;
mod lists;
mod table;

use crate::table::{TABLES, Table, told};
use std::fs;
use std::io::{self, Write};

fn tell_table(rt: &HostRuntime, file: &str, table: Table) -> io::Result<()> {
    let text = fs::read_to_string(rt, file)?;
    let told = told(rt, file, table, &text)?;
    rt.stdout().write_all(told.as_bytes())
}

fn main(rt: HostRuntime) -> io::Result<()> {
    for (file, table) in TABLES {
        tell_table(&rt, file, table)?;
    }
    Ok(())
}
