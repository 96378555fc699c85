//! The lines of a dump.
ghost use Rattle.std.specs.Prelude.{◌≡◌, ◌<◌, ◌++◌, length, OnOk, IfOk, flat_map};
ghost use Rattle.std.specs.List.{AllByRecursion};
ghost use Rattle.mls_scheme.specs.Scheme.{scheme_of};
ghost use Rattle.mls_scheme.specs.Tuple.{HasClassesBelow};
ghost use Rattle.mls_translang.specs.Writing.{IsKnown};
ghost use Rattle.mls_machine.specs.Dumping.{dump_event};
ghost use Rattle.mls_machine.specs.Output.{on_line, dump_heading, script_text, dump_texts};
ghost use Rattle.mls_machine.specs.Printable.{CommandIsKnown};
ghost use Rattle.mls_machine.specs.Under.{site_under};

use crate::answered::Answered;
use crate::dumped::dump_event;
use crate::printing::push_front;
use mls_scheme::{RelNo, Scheme, Tuple};
use mls_tokens::push_str;
use mls_translang::{Command, Event, is_writable, push_event};
use std::alloc::AllocError;

fn push_heading(text: &mut Vec<u8>, scheme: &Scheme) -> Result<(), AllocError>
    ensures { OnOk result (text.new.items ≡ text.old.items ++ dump_heading scheme.now) }
{
    push_str(text, "dump ")?;
    push_str(text, scheme.name())?;
    push_str(text, ":")
}

fn push_heading_line(text: &mut Vec<u8>, to: &Answered, relation: RelNo) -> Result<(), AllocError>
    requires { relation < length to.now.schemes.now }
    ensures { OnOk result (text.new.items ≡ text.old.items
        ++ on_line to.now.policy.now to.now.event.now (dump_heading (scheme_of to.now.schemes.now relation))) }
{
    push_front(text, to, to.event.level)?;
    push_heading(text, to.schemes.scheme(relation))?;
    push_str(text, "\n")?;
    Ok(())
}

/// Appends the line of a script that an event is, or says that no script can hold it.
fn push_event_line(text: &mut Vec<u8>, to: &Answered, made: &Event) -> Result<(), AllocError>
    requires { IsKnown to.now.policy.now to.now.schemes.now made.now }
    ensures { OnOk result (text.new.items ≡ text.old.items
        ++ script_text (site_under to.now.policy.now to.now.schemes.now) made.now) }
{
    if is_writable(made) {
        push_str(text, "line ")?;
    } else {
        push_str(text, "unread ")?;
    }
    push_event(to.alloc, text, to.policy, to.schemes, made)
}

/// Appends what makes a tuple again.
fn push_tuple(
    text: &mut Vec<u8>,
    to: &Answered,
    relation: RelNo,
    tuple: &Tuple,
) -> Result<(), AllocError>
    requires classes { HasClassesBelow (length to.now.policy.now.labels) tuple.now }
    requires relation { relation < length to.now.schemes.now }
    ensures { let site = site_under to.now.policy.now to.now.schemes.now in OnOk result (text.new.items ≡ text.old.items
        ++ script_text site (dump_event site to.now.event.now.session relation tuple.now)) }
{
    let session = &to.event.session;
    let made = dump_event(to.alloc, to.policy, to.schemes, session, relation, tuple)?;
    push_event_line(text, to, &made)
}

/// Appends a line for each tuple.
fn push_tuple_lines(
    text: &mut Vec<u8>,
    to: &Answered,
    relation: RelNo,
    tuples: &[Tuple],
) -> Result<(), AllocError>
    requires relation { relation < length to.now.schemes.now }
    requires classes { AllByRecursion (HasClassesBelow (length to.now.policy.now.labels)) tuples.now }
    ensures { let site = site_under to.now.policy.now to.now.schemes.now in OnOk result (text.new.items ≡ text.old.items
        ++ flat_map (λ t. on_line to.now.policy.now to.now.event.now
        (script_text site (dump_event site to.now.event.now.session relation t))) tuples.now) }
{
    for tuple in tuples {
        push_front(text, to, to.event.level)?;
        push_tuple(text, to, relation, tuple)?;
        push_str(text, "\n")?;
    }
    Ok(())
}

/// Appends the lines of a dump.
fn push_dump(
    text: &mut Vec<u8>,
    to: &Answered,
    relation: RelNo,
    tuples: &[Tuple],
) -> Result<(), AllocError>
    requires relation { relation < length to.now.schemes.now }
    requires classes { AllByRecursion (HasClassesBelow (length to.now.policy.now.labels)) tuples.now }
    ensures { let site = site_under to.now.policy.now to.now.schemes.now in OnOk result (text.new.items ≡ text.old.items
        ++ (on_line to.now.policy.now to.now.event.now (dump_heading (scheme_of to.now.schemes.now relation))
        ++ flat_map (λ t. on_line to.now.policy.now to.now.event.now
        (script_text site (dump_event site to.now.event.now.session relation t))) tuples.now)) }
{
    push_heading_line(text, to, relation)?;
    push_tuple_lines(text, to, relation, tuples)
}

/// Appends the lines of tuples, which answer a dump and nothing else.
fn push_answer(text: &mut Vec<u8>, to: &Answered, tuples: &[Tuple]) -> Result<(), AllocError>
    requires command { CommandIsKnown (site_under to.now.policy.now to.now.schemes.now) to.now.event.now.command }
    requires classes { AllByRecursion (HasClassesBelow (length to.now.policy.now.labels)) tuples.now }
    ensures { OnOk result (text.new.items ≡ text.old.items ++ flat_map (on_line to.now.policy.now to.now.event.now)
        (dump_texts (site_under to.now.policy.now to.now.schemes.now) to.now.event.now.session
        to.now.event.now.command tuples.now)) }
{
    match &to.event.command {
        Command::Dump { relation } => push_dump(text, to, *relation, tuples),
        _ => Ok(()),
    }
}

/// The lines of a dump.
pub(crate) fn dump_bytes(to: &Answered, tuples: &[Tuple]) -> Result<Vec<u8>, AllocError>
    requires command { CommandIsKnown (site_under to.now.policy.now to.now.schemes.now) to.now.event.now.command }
    requires classes { AllByRecursion (HasClassesBelow (length to.now.policy.now.labels)) tuples.now }
    ensures { IfOk result (λ text. text.items ≡ flat_map (on_line to.now.policy.now to.now.event.now)
        (dump_texts (site_under to.now.policy.now to.now.schemes.now) to.now.event.now.session
        to.now.event.now.command tuples.now)) }
{
    let mut text = Vec::new(to.alloc);
    push_answer(&mut text, to, tuples)?;
    Ok(text)
}
