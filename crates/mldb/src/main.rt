//! mldb: a relational database in which each session sees what its label may see.
#![tactic(auto)]

use mls_command::run;
use mls_host::Usage;
use std::io::ErrorKind;
use std::process::ExitCode;

/// The words of the command line.
fn words_of(rt: &HostRuntime) -> Result<Vec<String>, Usage> {
    match std::env::args(rt) {
        Ok(words) => Ok(words.collect(rt.alloc())?),
        Err(e) if e.kind() == ErrorKind::OutOfMemory => Err(Usage::Memory),
        Err(_) => Err(Usage::Text(String::from_str(rt.alloc(), "mldb: a word is not UTF-8\n")?)),
    }
}

/// Does what they ask for, and answers the exit status.
fn answer(rt: &HostRuntime) -> Result<u8, Usage> {
    let words = words_of(rt)?;
    let words: Vec<&str> = words.iter().map(|word| word.as_str()).collect(rt.alloc())?;
    Ok(run(rt, &words))
}

fn main(rt: HostRuntime) -> ExitCode {
    match answer(&rt) {
        Ok(status) => ExitCode::from(status),
        Err(usage) => {
            // A failure of standard error changes nothing.
            let _ = usage.tell(&mut rt.stderr());
            ExitCode::from(usage.status())
        }
    }
}
