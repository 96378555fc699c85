//! Whole commands: what they write, and how they end.
use crate::desk::{file_of, machine_for};
use crate::elsewhere::{told_by, words_with};
use crate::table::Table;
use case_tables::{Case, Narrow, Told, joined, text_of};
use mls_command::act;
use mls_host::Errors;
use mls_host::samples::{POLICY, SCHEMES};
use std::alloc::AllocError;
use std::rt::Files;

/// What a command wrote, on standard output and standard error, and its status.
#[derive(Drop)]
pub struct Written {
    pub out: Vec<u8>,
    pub err: Vec<u8>,
    pub status: u8,
}

/// What a command writes over a machine in memory, with a script, which is its standard input too.
pub fn written_to<R: Files + AllocGlobal>(
    rt: &R,
    words: &[&str],
    script: &[u8],
    out: Narrow,
) -> Written {
    let mut out = out;
    let mut err = Errors::new(Vec::new(rt.alloc()));
    let mut machine = machine_for(rt, words, script);
    let status = act(rt.alloc(), words, &mut machine, &mut out, &mut err);
    Written {
        out: out.bytes,
        err: err.into_writer(),
        status,
    }
}

/// Tells the status where it is not 0, standard error, and standard output.
fn tell_written(written: &Written, out: &mut Told) {
    if written.status != 0 {
        out.push("  status ");
        out.push_count(usize::from(written.status));
        out.push("\n");
    }
    out.push_indented(text_of(&written.err));
    out.push_indented(text_of(&written.out));
}

fn tell_to<R: Files + AllocGlobal>(
    rt: &R,
    words: &[&str],
    case: &Case<'_>,
    to: Narrow,
    out: &mut Told,
) {
    match joined(rt.alloc(), case.body) {
        Ok(script) => tell_written(&written_to(rt, words, script.as_bytes(), to), out),
        Err(_) => out.fail(),
    }
}

/// The words of a run, but for the script, under the policy and the schemes that a head names, as in `POLICY SCHEMES:
/// title`.
pub fn words_of<'a>(head: &'a str) -> [&'a str; 4] {
    let documents = head.split_once(':').map_or(head, |parts| parts.0);
    let (policy, schemes) = documents
        .split_once(' ')
        .unwrap_or(("policy.toml", "schemes.toml"));
    ["mldb", "run", policy, schemes]
}

/// The words of a run, but for the script, under the policy and with the stored transactions that a head names, as in
/// `POLICY TRANSACTIONS CERTIFICATES: title`.
pub fn call_words_of<'a>(head: &'a str) -> [&'a str; 8] {
    let files = head.split_once(':').map_or(head, |parts| parts.0);
    let (policy, stored) = files.split_once(' ').unwrap_or((files, ""));
    let (transactions, certificates) = stored.split_once(' ').unwrap_or((stored, ""));
    [
        "mldb",
        "run",
        "--transactions",
        transactions,
        "--certificates",
        certificates,
        policy,
        "schemes.toml",
    ]
}

/// Tells what a run of the script below a case writes, and where it writes another thing over lists.
pub fn tell_run<R: Files + AllocGlobal>(rt: &R, words: &[&str], case: &Case<'_>, out: &mut Told) {
    let (Ok(script), Ok(all)) = (
        joined(rt.alloc(), case.body),
        words_with(rt.alloc(), words, &[]),
    ) else {
        return out.fail();
    };
    let written = written_to(rt, &all, script.as_bytes(), Narrow::wide(rt.alloc()));
    tell_written(&written, out);
    out.push(told_by(rt, words, script.as_bytes()));
}

/// Tells where a command line, a run of a script in a file, writes another thing over lists.
fn tell_story<R: Files + AllocGlobal>(rt: &R, words: &[&str], out: &mut Told) {
    if let [words @ .., path] = words {
        match file_of(rt, b"", rt.alloc(), path) {
            Ok(script) => out.push(told_by(rt, words, &script)),
            Err(_) => out.push("  no script\n"),
        }
    }
}

fn number_of(word: &str) -> usize {
    word.parse::<usize>().unwrap_or(0)
}

/// Tells what a command writes: the words are `WIDTH WRITES` and a command line.
fn tell_writer<R: Files + AllocGlobal>(rt: &R, words: &[&str], case: &Case<'_>, out: &mut Told) {
    match words {
        [width, left, command @ ..] => {
            let to = Narrow::new(rt.alloc(), number_of(left) as u64, number_of(width));
            tell_to(rt, command, case, to, out);
        }
        _ => out.push("  no numbers\n"),
    }
}

/// Tells a case whose line is words: a story, what a writer takes, or the status and what a command line writes; the
/// script of the last two is below it.
pub fn tell_words<R: Files + AllocGlobal>(
    rt: &R,
    table: Table,
    case: &Case<'_>,
    out: &mut Told,
) -> Result<(), AllocError> {
    let words: Vec<&str> = case.head.split_ascii_whitespace().collect(rt.alloc())?;
    match table {
        Table::Stories => tell_story(rt, &words, out),
        Table::Writers => tell_writer(rt, &words, case, out),
        _ => tell_to(rt, &words, case, Narrow::wide(rt.alloc()), out),
    }
    Ok(())
}

/// Tells whether a sample that the program holds is what a file has: a case is the sample and the file.
pub fn tell_sample<R: Files + AllocGlobal>(rt: &R, case: &Case<'_>, out: &mut Told) {
    let (name, file) = case.head.split_once(' ').unwrap_or((case.head, ""));
    let sample = if name == "POLICY" { POLICY } else { SCHEMES };
    match file_of(rt, b"", rt.alloc(), file) {
        Ok(bytes) if bytes.as_slice() == sample.as_bytes() => out.push("  as in the file\n"),
        _ => out.push("  not as in the file\n"),
    }
}
