//! Machines in memory, whose files are those of `data/`, but for a script and some files of many bytes.
use mls_host::{HostFault, read_whole};
use mls_lattice::{Items, Str};
use mls_runs::{HeldFile, MemoryHost};
use mls_tokens::{AnyReader, LinesOf, MOST_BYTES};
use std::alloc::{AllocError, Global};
use std::fs;
use std::io::Cursor;
use std::rt::Files;

/// So many empty lines, read as a file is.
fn empty_lines(alloc: Global, count: usize) -> Result<Vec<u8>, HostFault> {
    let mut lines = Vec::new(alloc);
    match lines.resize(count, b'\n') {
        Ok(()) => read_whole(alloc, lines.as_slice()),
        Err(_) => Err(HostFault::Memory),
    }
}

/// The bytes of a file: `script` is the script; `full` has as many bytes as a file may have, `long` one more, and
/// `memory` asks for
/// more memory than there is.
pub fn file_of<R: Files>(
    rt: &R,
    script: &[u8],
    alloc: Global,
    path: &str,
) -> Result<Vec<u8>, HostFault> {
    match path {
        "script" => read_whole(alloc, script),
        "full" => empty_lines(alloc, MOST_BYTES),
        "long" => empty_lines(alloc, MOST_BYTES + 1),
        "memory" => Err(HostFault::Memory),
        _ => match fs::open(rt, path) {
            Ok(file) => read_whole(alloc, file),
            Err(_) => Err(HostFault::Unreadable),
        },
    }
}

/// The lines of what is typed, or of a first part where there is no memory for all.
pub fn lines_of(alloc: Global, typed: &[u8]) -> LinesOf<AnyReader<Cursor<Vec<u8>>>> {
    let mut bytes = Vec::new(alloc);
    let _all = bytes.extend_from_slice(typed);
    LinesOf::new(AnyReader::new(Cursor::new(bytes)))
}

/// What a word names: it may stand behind the name of its option.
fn name_in<'a>(word: &'a str) -> &'a str {
    word.split_once('=').map_or(word, |parts| parts.1)
}

/// Reads a file, unless there is no memory for its name.
fn add_file<R: Files>(
    rt: &R,
    script: &[u8],
    alloc: Global,
    name: &str,
    files: &mut Vec<HeldFile>,
) -> Result<(), AllocError> {
    let bytes = match file_of(rt, script, alloc, name) {
        Ok(bytes) => Ok(Items::from(bytes)),
        Err(fault) => Err(fault),
    };
    let name = Str::copy_of(alloc, name)?;
    files.push(HeldFile { name, bytes })?;
    Ok(())
}

/// A machine in memory with the files that the words of a command name, and without a store. The script is its standard
/// input.
pub fn machine_for<'a, R: Files + AllocGlobal>(
    rt: &R,
    words: &[&str],
    script: &'a [u8],
) -> MemoryHost<'a> {
    let mut files = Vec::new(rt.alloc());
    for word in words {
        // Without memory a file is lacking, which the command tells.
        let _lacking = add_file(rt, script, rt.alloc(), name_in(word), &mut files);
    }
    MemoryHost {
        files,
        input: script,
        store: None,
        is_watched: false,
        was_opened: false,
        left: None,
    }
}
