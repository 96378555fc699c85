//! An audit list that is turned: its entries are written, and then it is empty.
ghost use Rattle.std.specs.Prelude.{◌≡◌, ◌<◌, true, false, length, IfOk, IfSome};
ghost use Rattle.std.specs.Io.KnownBytes.{Appends};
ghost use Rattle.mls_sessions.specs.Turning.{turned_text, list_text, HasTurned, BeginsList, IsEmptied};
ghost use Rattle.mls_sessions.specs.World.{entries_in};

use crate::cause::{cause_of, fault_at};
use crate::looking::{entries_of, seen_of};
use crate::writing::write_whole;
use mls_filterview::{Base, BaseFault, abandon, settle};
use mls_lattice::{Items, LabelNo, Policy};
use mls_machine::turn_bytes;
use mls_translang::{RunCause, RunFault};
use std::alloc::{AllocError, Global};
use std::io::Write;

/// What a reader is shown of the entries that strings spell.
fn turned_text(
    alloc: Global,
    policy: &Policy,
    strings: &[Items<u8>],
    reader: Option<LabelNo>,
) -> Result<Vec<u8>, AllocError>
    requires { IfSome reader (λ c. c < length policy.now.labels) }
    ensures { IfOk result (λ v. v.items
        ≡ turned_text policy.now reader (entries_in (length policy.now.labels) strings.now)) }
{
    match reader {
        None => {
            let entries = entries_of(alloc, policy, strings)?;
            turn_bytes(alloc, policy, &entries)
        }
        Some(label) => {
            let entries = seen_of(alloc, policy, strings, label)?;
            turn_bytes(alloc, policy, &entries)
        }
    }
}

/// Begins a change, and reads in it what a reader is shown.
fn begin<B: Base>(
    alloc: Global,
    policy: &Policy,
    base: &mut B,
    reader: Option<LabelNo>,
) -> Result<Vec<u8>, BaseFault>
    requires idle { (B.seen base.old).state.begun ≡ false }
    requires reader { IfSome reader (λ c. c < length policy.now.labels) }
    ensures listed { BeginsList B.seen base.old base.new result }
    ensures text { (B.seen base.new).is_clean → IfOk result
        (λ v. v.items ≡ list_text policy.now reader (B.seen base.old).state.now) }
{
    base.begin()?;
    let strings = base.audit_all()?;
    settle(base, turned_text(alloc, policy, &strings, reader))
}

/// Empties the list, and keeps the change.
fn empty<B: Base>(base: &mut B) -> Result<(), BaseFault>
    requires begun { (B.seen base.old).state.begun ≡ true }
    ensures { IsEmptied B.seen base.old base.new result }
{
    base.audit_clear()?;
    base.commit()
}

/// Writes the entries of the audit list, each behind the label that may see it, and then empties the list, in one
/// change: with a reader
/// those that it may see, and else all. Where the writer refuses, no entry is dropped. The number of a fault is 0.
pub fn turn<B: Base, W: Write>(
    alloc: Global,
    policy: &Policy,
    base: &mut B,
    reader: Option<LabelNo>,
    out: &mut W,
) -> Result<(), RunFault>
    requires idle { (B.seen base.old).state.begun ≡ false }
    requires reader { IfSome reader (λ c. c < length policy.now.labels) }
    ensures { HasTurned B.seen policy.now reader (Appends (W.contents out.old) (W.contents out.new))
        base.old base.new result }
{
    let text = match begin(alloc, policy, base, reader) {
        Ok(text) => text,
        Err(fault) => return Err(fault_at(0, cause_of(fault), false)),
    };
    if write_whole(out, &text).is_err() {
        abandon(base);
        return Err(fault_at(0, RunCause::Write, false));
    }
    match empty(base) {
        Ok(()) => Ok(()),
        Err(fault) => Err(fault_at(0, cause_of(fault), false)),
    }
}
