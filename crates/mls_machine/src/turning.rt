//! The lines of an audit list that is turned.
ghost use Rattle.std.specs.Prelude.{◌≡◌, ◌++◌, ◌<◌, length, codes, OnOk, IfOk, flat_map};
ghost use Rattle.mls_audit.specs.Entry.{label_of};
ghost use Rattle.mls_machine.specs.Output.{printed};
ghost use Rattle.mls_machine.specs.Printable.{EntriesAreKnown};
ghost use Rattle.mls_machine.specs.Turning.{turn_line, turn_lines};

use crate::printing::push_entry;
use mls_audit::Entry;
use mls_lattice::Policy;
use mls_tokens::push_str;
use std::alloc::{AllocError, Global};

/// Appends the line of an entry, behind the label that may see it.
fn push_turn_line(
    alloc: Global,
    text: &mut Vec<u8>,
    policy: &Policy,
    entry: &Entry,
) -> Result<(), AllocError>
    requires { label_of entry.now < length policy.now.labels }
    ensures { OnOk result (text.new.items ≡ text.old.items ++ ((turn_line policy.now entry.now).text ++ codes "\n")) }
{
    push_str(text, policy.name(entry.label()))?;
    push_str(text, " ")?;
    push_entry(alloc, text, policy, entry)?;
    push_str(text, "\n")
}

fn push_turn_lines(
    alloc: Global,
    text: &mut Vec<u8>,
    policy: &Policy,
    entries: &[Entry],
) -> Result<(), AllocError>
    requires { EntriesAreKnown policy.now entries.now }
    ensures { OnOk result (text.new.items ≡ text.old.items
        ++ flat_map (λ e. (turn_line policy.now e).text ++ codes "\n") entries.now) }
{
    for entry in entries {
        push_turn_line(alloc, text, policy, entry)?;
    }
    Ok(())
}

/// The lines of the entries of an audit list that is turned, each behind the label that may see it.
pub fn turn_bytes(alloc: Global, policy: &Policy, entries: &[Entry]) -> Result<Vec<u8>, AllocError>
    requires { EntriesAreKnown policy.now entries.now }
    ensures { IfOk result (λ text. text.items ≡ printed (turn_lines policy.now entries.now)) }
{
    let mut text = Vec::new(alloc);
    push_turn_lines(alloc, &mut text, policy, entries)?;
    Ok(text)
}
