//! Runs over lists: they write what a run in memory does, also where they are asked then what they have.
use crate::commands::{Written, written_to};
use crate::desk::file_of;
use crate::lists::Lists;
use case_tables::Narrow;
use mls_command::act;
use mls_host::{Errors, HostFault};
use std::alloc::{AllocError, Global};
use std::rt::Files;

/// What a run writes whose store is a list.
fn written_over_lists<R: Files + AllocGlobal>(rt: &R, words: &[&str], script: &[u8]) -> Written {
    let mut out = Vec::new(rt.alloc());
    let mut err = Errors::new(Vec::new(rt.alloc()));
    let mut lists = Lists { rt, script };
    let status = act(rt.alloc(), words, &mut lists, &mut out, &mut err);
    Written {
        out,
        err: err.into_writer(),
        status,
    }
}

/// The words of a run of the script, and more.
pub fn words_with<'a>(
    alloc: Global,
    words: &[&'a str],
    more: &[&'a str],
) -> Result<Vec<&'a str>, AllocError> {
    let mut all = Vec::new(alloc);
    all.extend_from_slice(words)?;
    all.push("script")?;
    all.extend_from_slice(more)?;
    Ok(all)
}

/// Whether a run writes the same in memory and over lists.
fn is_same<R: Files + AllocGlobal>(
    rt: &R,
    words: &[&str],
    script: &[u8],
    questions: &[u8],
) -> Result<bool, AllocError> {
    let mut both = Vec::new(rt.alloc());
    both.extend_from_slice(script)?;
    both.extend_from_slice(questions)?;
    let in_memory = words_with(rt.alloc(), words, &[])?;
    let written = written_to(rt, &in_memory, &both, Narrow::wide(rt.alloc()));
    let over_lists = words_with(rt.alloc(), words, &["--store", "lists"])?;
    let other = written_over_lists(rt, &over_lists, &both);
    Ok(
        written.status == other.status
            && written.err.as_slice() == other.err.as_slice()
            && written.out.as_slice() == other.out.as_slice(),
    )
}

/// The script that asks for all that the users of a policy may see: it stands beside the policy.
fn questions_under<R: Files + AllocGlobal>(rt: &R, policy: &str) -> Result<Vec<u8>, HostFault> {
    let name = policy.split_once(".toml").map_or(policy, |parts| parts.0);
    let mut path = String::new(rt.alloc());
    match write!(path, "{name}.questions") {
        Ok(()) => file_of(rt, b"", rt.alloc(), &path),
        Err(_) => Err(HostFault::Memory),
    }
}

/// What there is to tell of a run of a script, and then of questions, over lists: nothing where it writes what it does
/// in memory. The words
/// end with policy and schemes.
pub fn told_by<R: Files + AllocGlobal>(rt: &R, words: &[&str], script: &[u8]) -> &'static str {
    let [.., policy, _] = words else {
        return "  no policy\n";
    };
    match questions_under(rt, policy) {
        Ok(questions) => match is_same(rt, words, script, &questions) {
            Ok(true) => "",
            Ok(false) => "  not so over lists\n",
            Err(_) => "  no memory\n",
        },
        Err(_) => "  nothing is asked\n",
    }
}
