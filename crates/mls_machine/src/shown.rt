//! The lines of replies that a reader may see.
ghost use Rattle.std.specs.Prelude.{◌≡◌, ◌<◌, ◌++◌, map, length, codes, OnOk, IfOk, flat_map};
ghost use Rattle.mls_lattice.specs.Policy.{labels_of};
ghost use Rattle.mls_machine.specs.Under.{site_under};
ghost use Rattle.mls_machine.specs.Seen.{seen_item};
ghost use Rattle.mls_machine.specs.Output.{line, call_texts, reply_lines, printed};
ghost use Rattle.mls_machine.specs.Printable.{ItemsAreKnown, CanBePrinted};
ghost use Rattle.mls_machine.specs.Observation.{out};

use crate::Reply;
use crate::answered::Answered;
use crate::printing_items::{called_bytes, push_item};
use crate::replies::reply_bytes;
use mls_certcheck::Run;
use mls_lattice::{LabelNo, Policy};
use mls_scheme::{Schemes, Value};
use mls_translang::Event;
use std::alloc::{AllocError, Global};

/// Appends the line of an item, if the reader dominates its label.
#[tactic(auto, unfolding(crate::specs::Seen::seen_item))]
fn push_if_seen(
    text: &mut Vec<u8>,
    to: &Answered,
    deed: &str,
    item: &(LabelNo, Option<Value>),
    reader: LabelNo,
) -> Result<(), AllocError>
    requires label { item.now.0 < length to.now.policy.now.labels }
    requires reader { reader < length to.now.policy.now.labels }
    ensures { OnOk result (text.new.items ≡ text.old.items
        ++ seen_item to.now.policy.now to.now.event.now reader deed.now item.now) }
{
    if to.policy.dominates(reader, item.0) {
        push_item(text, to, deed, item.0, &item.1)?;
    }
    Ok(())
}

/// Appends the lines of the items whose labels the reader dominates.
fn push_seen(
    text: &mut Vec<u8>,
    to: &Answered,
    deed: &str,
    items: &[(LabelNo, Option<Value>)],
    reader: LabelNo,
) -> Result<(), AllocError>
    requires known { ItemsAreKnown to.now.policy.now items.now }
    requires reader { reader < length to.now.policy.now.labels }
    ensures { OnOk result (text.new.items ≡ text.old.items
        ++ flat_map (seen_item to.now.policy.now to.now.event.now reader deed.now) items.now) }
{
    for item in items {
        push_if_seen(text, to, deed, item, reader)?;
    }
    Ok(())
}

/// The line that says what was called, if the reader dominates the level of its session.
fn seen_call(to: &Answered, reader: LabelNo) -> Result<Vec<u8>, AllocError>
    requires { reader < length to.now.policy.now.labels }
    ensures { IfOk result (λ text. text.items ≡ printed (out (labels_of to.now.policy.now) reader
        (map (line to.now.policy.now to.now.event.now to.now.event.now.level) (call_texts to.now.event.now.command)))) }
{
    if to.policy.dominates(reader, to.event.level) {
        called_bytes(to)
    } else {
        Ok(Vec::new(to.alloc))
    }
}

/// The lines of a transaction that was run, each if the reader dominates its own label.
fn seen_run(to: &Answered, run: &Run, reader: LabelNo) -> Result<Vec<u8>, AllocError>
    requires emitted { ItemsAreKnown to.now.policy.now run.now.emitted }
    requires released { ItemsAreKnown to.now.policy.now run.now.released }
    requires reader { reader < length to.now.policy.now.labels }
    ensures { let seen = seen_item to.now.policy.now to.now.event.now reader in
        IfOk result (λ text. text.items ≡ printed (out (labels_of to.now.policy.now) reader
        (map (line to.now.policy.now to.now.event.now to.now.event.now.level) (call_texts to.now.event.now.command)))
        ++ flat_map (seen (codes "emit ")) run.now.emitted ++ flat_map (seen (codes "release ")) run.now.released) }
{
    let mut text = seen_call(to, reader)?;
    push_seen(&mut text, to, "emit ", &run.emitted, reader)?;
    push_seen(&mut text, to, "release ", &run.released, reader)?;
    Ok(text)
}

/// The lines of a reply whose labels the reader dominates, each with its line feed.
///
/// All lines of a reply have the level of the session, but for the items of a transaction, which have labels of their
/// own.
pub fn shown_bytes(
    alloc: Global,
    policy: &Policy,
    schemes: &Schemes,
    event: &Event,
    reply: &Reply,
    reader: LabelNo,
) -> Result<Vec<u8>, AllocError>
    requires printable { CanBePrinted (site_under policy.now schemes.now) event.now reply.now }
    requires reader { reader < length policy.now.labels }
    ensures { IfOk result (λ text. text.items
        ≡ printed (out (labels_of policy.now) reader
        (reply_lines (site_under policy.now schemes.now) event.now reply.now))) }
{
    let to = Answered {
        alloc,
        policy,
        schemes,
        event,
    };
    match reply {
        Reply::Ran(run) => seen_run(&to, run, reader),
        _ if policy.dominates(reader, event.level) => {
            reply_bytes(alloc, policy, schemes, event, reply)
        }
        _ => Ok(Vec::new(alloc)),
    }
}
