//! The tables, in the order in which they are told.
use crate::disks::Copies;
use crate::plans::{Stops, contents_of, plan_of};
use crate::site::{Bench, Site};
use crate::stops::tell_stops;
use crate::stores::made;
use crate::{again, damage, histories, labels};
use case_tables::{Case, Texts, Told, case_at, joined};
use std::alloc::{AllocError, Global};

/// What the cases of a file are about.
#[derive(Clone, Copy)]
enum Kind {
    Again,
    Damage,
    Histories,
    Labels,
    Stops(Stops),
}

/// The files of the tables, what their cases are about, and the script that makes the store of a table, or none where
/// it is new.
static TABLES: [(&str, Kind, &str); 8] = [
    ("again.txt", Kind::Again, ""),
    ("damage.txt", Kind::Damage, "damage.script"),
    ("evaluations.txt", Kind::Stops(Stops::Evaluation), ""),
    ("histories.txt", Kind::Histories, ""),
    ("labels.txt", Kind::Labels, ""),
    (
        "migrations.txt",
        Kind::Stops(Stops::Migration),
        "migration.script",
    ),
    ("stops.txt", Kind::Stops(Stops::Run), ""),
    ("turnings.txt", Kind::Stops(Stops::Turning), "stops.script"),
];

/// What the cases of a table begin with: the files of a store, and what stops may leave in them.
#[derive(Drop)]
struct Start {
    files: Copies,
    contents: Vec<String>,
}

/// The files of a store after a script.
fn files_of(bench: &Bench<'_>, script: &str) -> Option<Copies> {
    if script.is_empty() {
        return Some(Copies::none(bench.alloc));
    }
    let site = bench.site("policy.toml")?;
    made(bench.alloc, site, bench.texts.named(script))
}

fn start_of(bench: &Bench<'_>, kind: Kind, script: &str) -> Option<Start> {
    let files = files_of(bench, script)?;
    let contents = match kind {
        Kind::Stops(stops) => contents_of(bench, stops)?,
        _ => Vec::new(bench.alloc),
    };
    Some(Start { files, contents })
}

/// Tells the stops that a line of a table names.
fn tell_line(bench: &Bench<'_>, stops: Stops, start: &Start, head: &str, out: &mut Told) {
    match plan_of(bench, stops, &start.files, &start.contents) {
        Some(plan) => tell_stops(bench.alloc, &plan, head, out),
        None => out.fail(),
    }
}

/// A text without its first word.
fn behind<'a>(text: &'a str) -> &'a str {
    text.split_once(' ').map_or("", |parts| parts.1)
}

/// The name of the site that a case is under.
fn name_in<'a>(kind: Kind, head: &'a str) -> &'a str {
    match kind {
        Kind::Again => behind(behind(head)),
        Kind::Damage => head.split_once(':').map_or(head, |parts| parts.0),
        Kind::Labels => head,
        Kind::Histories | Kind::Stops(_) => "policy.toml",
    }
}

fn tell_under(
    bench: &Bench<'_>,
    site: &Site<'_>,
    kind: Kind,
    case: &Case<'_>,
    text: &str,
    start: &mut Start,
    out: &mut Told,
) {
    let alloc = bench.alloc;
    match kind {
        Kind::Again => again::tell(alloc, site, case.head, text, &mut start.files, out),
        Kind::Damage => damage::tell(alloc, site, case.head, text, &start.files, out),
        Kind::Histories => histories::tell(alloc, site, case, out),
        Kind::Labels => labels::tell(alloc, site, text, out),
        Kind::Stops(stops) => tell_line(bench, stops, start, case.head, out),
    }
}

/// Tells a case: what is told of damage has its line in it.
fn tell_case(bench: &Bench<'_>, kind: Kind, case: &Case<'_>, start: &mut Start, out: &mut Told) {
    if !matches!(kind, Kind::Damage) {
        out.push_line(case.head);
    }
    let Some(site) = bench.site(name_in(kind, case.head)) else {
        return out.fail();
    };
    match joined(bench.alloc, case.body) {
        Ok(text) => tell_under(bench, site, kind, case, &text, start, out),
        Err(_) => out.fail(),
    }
}

fn tell_cases(bench: &Bench<'_>, kind: Kind, lines: &[&str], start: &mut Start, out: &mut Told) {
    for at in 0..lines.len() {
        if let Some(case) = case_at(&lines[at..]) {
            tell_case(bench, kind, &case, start, out);
        }
    }
}

fn tell_lines(bench: &Bench<'_>, kind: Kind, script: &str, lines: &[&str], out: &mut Told) {
    match start_of(bench, kind, script) {
        Some(mut start) => tell_cases(bench, kind, lines, &mut start, out),
        None => out.fail(),
    }
}

fn tell_file(
    bench: &Bench<'_>,
    file: &str,
    kind: Kind,
    script: &str,
    out: &mut Told,
) -> Result<(), AllocError> {
    let lines: Vec<&str> = bench.texts.named(file).lines().collect(bench.alloc)?;
    out.push("== ");
    out.push_line(file);
    tell_lines(bench, kind, script, &lines, out);
    Ok(())
}

fn tell_files(bench: &Bench<'_>, out: &mut Told) {
    for &(file, kind, script) in &TABLES {
        let told = tell_file(bench, file, kind, script, out);
        out.note(told);
    }
}

/// What is told of the cases of all tables.
pub fn told(alloc: Global, texts: &Texts) -> Result<String, AllocError> {
    let mut out = Told::new(alloc);
    match Bench::read(alloc, texts) {
        Some(bench) => tell_files(&bench, &mut out),
        None => out.fail(),
    }
    out.finish()
}
