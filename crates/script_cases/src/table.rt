//! The tables, in the order in which they are told.
use crate::commands;
use case_tables::{Case, Told, case_at};
use std::alloc::AllocError;
use std::rt::Files;

/// What the cases of a file are about.
#[derive(Clone, Copy)]
pub enum Table {
    Scripts,
    Calls,
    Commands,
    Writers,
    Stories,
    Samples,
}

pub const TABLES: [(&str, Table); 7] = [
    ("scripts.txt", Table::Scripts),
    ("calls.txt", Table::Calls),
    ("commands.txt", Table::Commands),
    ("memory.txt", Table::Commands),
    ("writers.txt", Table::Writers),
    ("stories.txt", Table::Stories),
    ("samples.txt", Table::Samples),
];

/// What is told of the cases of a table.
pub fn told<R: Files + AllocGlobal>(
    rt: &R,
    file: &str,
    table: Table,
    text: &str,
) -> Result<String, AllocError> {
    let lines: Vec<&str> = text.lines().collect(rt.alloc())?;
    let mut out = Told::new(rt.alloc());
    out.push("== ");
    out.push_line(file);
    for at in 0..lines.len() {
        if let Some(case) = case_at(&lines[at..]) {
            tell_case(rt, table, &case, &mut out);
        }
    }
    out.finish()
}

fn tell_case<R: Files + AllocGlobal>(rt: &R, table: Table, case: &Case<'_>, out: &mut Told) {
    out.push_line(case.head);
    match table {
        Table::Scripts => commands::tell_run(rt, &commands::words_of(case.head), case, out),
        Table::Calls => commands::tell_run(rt, &commands::call_words_of(case.head), case, out),
        Table::Samples => commands::tell_sample(rt, case, out),
        Table::Commands | Table::Writers | Table::Stories => {
            let told = commands::tell_words(rt, table, case, out);
            out.note(told);
        }
    }
}
