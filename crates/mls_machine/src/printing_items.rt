//! The lines of a transaction that was run.
ghost use Rattle.std.specs.Prelude.{◌≡◌, ◌<◌, ◌++◌, length, codes, OnOk, IfOk, flat_map};
ghost use Rattle.mls_tokens.specs.Writing.{printable};
ghost use Rattle.mls_translang.specs.Writing.{cell_text};
ghost use Rattle.mls_machine.specs.Output.{front, on_line, call_texts};
ghost use Rattle.mls_machine.specs.Printable.{ItemsAreKnown};

use crate::answered::Answered;
use crate::printing::push_front;
use mls_certcheck::Run;
use mls_lattice::LabelNo;
use mls_scheme::Value;
use mls_tokens::{push_printable, push_str};
use mls_translang::{Command, push_cell};
use std::alloc::AllocError;

/// Appends the line of an item, which its label may see.
pub(crate) fn push_item(
    text: &mut Vec<u8>,
    to: &Answered,
    deed: &str,
    label: LabelNo,
    value: &Option<Value>,
) -> Result<(), AllocError>
    requires { label < length to.now.policy.now.labels }
    ensures { OnOk result (text.new.items ≡ text.old.items
        ++ (front to.now.policy.now to.now.event.now label ++ (deed.now ++ cell_text value.now) ++ codes "\n")) }
{
    push_front(text, to, label)?;
    push_str(text, deed)?;
    push_cell(to.alloc, text, value)?;
    push_str(text, "\n")?;
    Ok(())
}

/// Appends the lines of items.
fn push_items(
    text: &mut Vec<u8>,
    to: &Answered,
    deed: &str,
    items: &[(LabelNo, Option<Value>)],
) -> Result<(), AllocError>
    requires { ItemsAreKnown to.now.policy.now items.now }
    ensures { OnOk result (text.new.items ≡ text.old.items
        ++ flat_map (λ i. front to.now.policy.now to.now.event.now i.0 ++ (deed.now ++ cell_text i.1) ++ codes "\n")
        items.now) }
{
    for item in items {
        push_item(text, to, deed, item.0, &item.1)?;
    }
    Ok(())
}

/// The line of a call.
fn call_bytes(to: &Answered, tx: &str) -> Result<Vec<u8>, AllocError>
    ensures { IfOk result (λ text. text.items
        ≡ on_line to.now.policy.now to.now.event.now (codes "called " ++ printable tx.now)) }
{
    let mut text = Vec::new(to.alloc);
    push_front(&mut text, to, to.event.level)?;
    push_str(&mut text, "called ")?;
    push_printable(&mut text, tx)?;
    push_str(&mut text, "\n")?;
    Ok(text)
}

/// The line that says what was called, which answers a call and nothing else.
pub(crate) fn called_bytes(to: &Answered) -> Result<Vec<u8>, AllocError>
    ensures { IfOk result (λ text. text.items
        ≡ flat_map (on_line to.now.policy.now to.now.event.now) (call_texts to.now.event.now.command)) }
{
    match &to.event.command {
        Command::Call { tx, .. } => call_bytes(to, tx),
        _ => Ok(Vec::new(to.alloc)),
    }
}

/// The lines of a transaction that was run: the call, what it emitted, and what it released.
pub(crate) fn ran_bytes(to: &Answered, run: &Run) -> Result<Vec<u8>, AllocError>
    requires emitted { ItemsAreKnown to.now.policy.now run.now.emitted }
    requires released { ItemsAreKnown to.now.policy.now run.now.released }
    ensures { IfOk result (λ text. text.items
        ≡ flat_map (on_line to.now.policy.now to.now.event.now) (call_texts to.now.event.now.command)
        ++ flat_map (λ i. front to.now.policy.now to.now.event.now i.0 ++ (codes "emit " ++ cell_text i.1)
        ++ codes "\n") run.now.emitted ++ flat_map (λ i. front to.now.policy.now to.now.event.now i.0
        ++ (codes "release " ++ cell_text i.1) ++ codes "\n") run.now.released) }
{
    let mut text = called_bytes(to)?;
    push_items(&mut text, to, "emit ", &run.emitted)?;
    push_items(&mut text, to, "release ", &run.released)?;
    Ok(text)
}
