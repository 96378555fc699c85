//! The audit list of a store, printed and emptied.
ghost use Rattle.std.specs.Prelude.{◌≡◌, ◌&&◌, nat_eq, length, [], Some, true, false};
ghost use Rattle.mls_host.specs.Hosting.{hosted, IsAppended};
ghost use Rattle.mls_host.specs.Stop.{IsEnd};
ghost use Rattle.mls_host.specs.Stopping.{IsCaused};
ghost use Rattle.mls_host.specs.Words.{named};
ghost use Rattle.mls_runs.specs.TurnRun.{IsThere, IsTurnRun, IsTurnRefused};

use mls_fragments::OpenFault;
use mls_host::{Host, Reason, Setting, Stop, StoreFiles, ended};
use mls_sessions::turn;
use std::alloc::Global;
use std::io::Write;

/// Whether neither of the files of a store has any bytes.
fn are_empty(files: &StoreFiles) -> bool
    ensures { result ≡ (nat_eq (length files.now.log.items) 0 && nat_eq (length files.now.db.items) 0) }
{
    files.log.is_empty() && files.db.is_empty()
}

/// Whether there is no store at a path. Where its files are not shown, opening it tells.
fn is_absent<H: Host>(alloc: Global, host: &H, path: &str) -> bool
    ensures absent { result ≡ true → (H.hosting host.now).shows path.now [] [] }
    ensures there { result ≡ false → IsThere (H.hosting host.now) (Some path.now) }
{
    match host.store_files(alloc, path) {
        Ok(files) => are_empty(&files),
        Err(_) => false,
    }
}

/// Turns the audit list of the store at a path. Where there is none, none is made.
fn turn_in_store<H: Host, W: Write>(
    alloc: Global,
    host: &mut H,
    path: &str,
    setting: &Setting,
    out: &mut W,
) -> Result<(), Stop>
    ensures ends { IsEnd (λ end. IsTurnRun setting.now (IsAppended W.contents out.old out.new) end
        (hosted H.hosting H.Lines.echo host.old host.new) (Some path.now))
        (λ reason. IsTurnRefused (H.hosting host.new) setting.now (Some path.now) reason
        × IsAppended W.contents out.old out.new []) result }
    ensures caused { IsCaused (hosted H.hosting H.Lines.echo host.old host.new) (Some path.now) result }
{
    if is_absent(alloc, host, path) {
        return Err(Stop::Before(Reason::Store(OpenFault::Store)));
    }
    let mut base = match host.store(alloc, path, &setting.policy, &setting.file) {
        Ok(base) => base,
        Err(fault) => return Err(Stop::Before(Reason::Store(fault))),
    };
    let outcome = turn(alloc, &setting.policy, &mut base, setting.reader, out);
    let closed = host.keep(path, base);
    ended(outcome, closed)
}

/// Prints the audit list of a store, for its reader alone where there is one, and empties it. Without a store there is
/// no entry.
pub fn turn_store<H: Host, W: Write>(
    alloc: Global,
    host: &mut H,
    store: Option<&str>,
    setting: &Setting,
    out: &mut W,
) -> Result<(), Stop>
    ensures ends { IsEnd (λ end. IsTurnRun setting.now (IsAppended W.contents out.old out.new) end
        (hosted H.hosting H.Lines.echo host.old host.new) (named store.entry))
        (λ reason. IsTurnRefused (H.hosting host.new) setting.now (named store.entry) reason
        × IsAppended W.contents out.old out.new []) result }
    ensures caused { IsCaused (hosted H.hosting H.Lines.echo host.old host.new) (named store.entry) result }
{
    match store {
        None => Ok(()),
        Some(path) => turn_in_store(alloc, host, path, setting, out),
    }
}
