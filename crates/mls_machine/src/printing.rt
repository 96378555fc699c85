//! Names and values, as replies print them, and what each line begins with.
ghost use Rattle.std.specs.Prelude.{◌≡◌, ◌<◌, ◌++◌, length, OnOk, decimal};
ghost use Rattle.mls_audit.specs.Entry.{label_of};
ghost use Rattle.mls_machine.specs.Output.{front, entry_front, deed_word, deed_text, time_text, entry_text};

use crate::answered::Answered;
use mls_audit::{Deed, Entry};
use mls_lattice::{LabelNo, Policy, Str};
use mls_tokens::{push_printable, push_str};
use mls_translang::push_cell;
use std::alloc::{AllocError, Global};

/// Appends what stands before the text of a line that a label may see.
pub(crate) fn push_front(
    text: &mut Vec<u8>,
    to: &Answered,
    label: LabelNo,
) -> Result<(), AllocError>
    requires { label < length to.now.policy.now.labels }
    ensures { OnOk result (text.new.items ≡ text.old.items ++ front to.now.policy.now to.now.event.now label) }
{
    push_str(text, to.policy.name(label))?;
    push_str(text, " ")?;
    push_str(text, to.policy.name(to.event.level))?;
    push_str(text, "/")?;
    push_printable(text, &to.event.session)?;
    push_str(text, " ")
}

/// Appends a number.
pub(crate) fn push_number(
    alloc: Global,
    text: &mut Vec<u8>,
    number: usize,
) -> Result<(), AllocError>
    ensures { OnOk result (text.new.items ≡ text.old.items ++ decimal number) }
{
    let digits = format!(in alloc; "{number}")?;
    push_str(text, &digits)
}

/// Appends what every entry has: its label, what was done, the user and the session.
fn push_entry_front(
    text: &mut Vec<u8>,
    policy: &Policy,
    label: LabelNo,
    deed: &str,
    user: &str,
    session: &str,
) -> Result<(), AllocError>
    requires { label < length policy.now.labels }
    ensures { OnOk result (text.new.items ≡ text.old.items
        ++ entry_front policy.now label deed.now user.now session.now) }
{
    push_str(text, "entry ")?;
    push_str(text, policy.name(label))?;
    push_str(text, deed)?;
    push_printable(text, user)?;
    push_str(text, " ")?;
    push_printable(text, session)?;
    push_str(text, " ")
}

/// The word of what an entry tells, between blanks.
fn deed_word(deed: &Deed) -> &'static str
    ensures { result.now ≡ deed_word deed.now }
{
    match deed {
        Deed::Called(_) => " called ",
        Deed::Denied(_) => " denied ",
        Deed::Released(_) => " released ",
    }
}

fn push_deed(alloc: Global, text: &mut Vec<u8>, deed: &Deed) -> Result<(), AllocError>
    ensures { OnOk result (text.new.items ≡ text.old.items ++ deed_text deed.now) }
{
    match deed {
        Deed::Called(transaction) => push_printable(text, transaction),
        Deed::Denied(code) => push_number(alloc, text, usize::from(*code)),
        Deed::Released(value) => push_cell(alloc, text, value),
    }
}

/// Appends a time after a blank, where there is one.
fn push_time(text: &mut Vec<u8>, time: &Option<Str>) -> Result<(), AllocError>
    ensures { OnOk result (text.new.items ≡ text.old.items ++ time_text time.now) }
{
    if let Some(time) = time {
        push_str(text, " ")?;
        push_printable(text, time)?;
    }
    Ok(())
}

/// Appends the text of an entry.
pub(crate) fn push_entry(
    alloc: Global,
    text: &mut Vec<u8>,
    policy: &Policy,
    entry: &Entry,
) -> Result<(), AllocError>
    requires { label_of entry.now < length policy.now.labels }
    ensures { OnOk result (text.new.items ≡ text.old.items ++ entry_text policy.now entry.now) }
{
    let word = deed_word(&entry.deed);
    push_entry_front(text, policy, entry.label, word, &entry.user, &entry.session)?;
    push_deed(alloc, text, &entry.deed)?;
    push_time(text, &entry.time)
}
