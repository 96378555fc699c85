//! The lines of replies.
ghost use Rattle.std.specs.Prelude.{◌≡◌, ◌<◌, ◌++◌, length, codes, string_bytes, OnOk, IfOk, decimal, flat_map};
ghost use Rattle.std.specs.List.{AllByRecursion};
ghost use Rattle.mls_lattice.specs.Canon.{user_name};
ghost use Rattle.mls_scheme.specs.Tuple.{HasClassesBelow};
ghost use Rattle.mls_updates.specs.Outcome.{is_done};
ghost use Rattle.mls_machine.specs.Under.{site_under};
ghost use Rattle.mls_translang.specs.declared.event.Command.TheVariants as commands;
ghost use Rattle.mls_machine.specs.Output.{on_line, heading, count_text, outcome_text, undone_text, denial_text};
ghost use Rattle.mls_machine.specs.Output.{row_text, entry_text, rows_texts, reply_lines, printed};
ghost use Rattle.mls_machine.specs.Printable.{IsKnownLook};
ghost use Rattle.mls_machine.specs.Printable.{CommandIsKnown, EntriesAreKnown, CanBePrinted};

use crate::answered::Answered;
use crate::asked::{Asked, push_asked};
use crate::dumping::dump_bytes;
use crate::printing::{push_entry, push_front, push_number};
use crate::printing_batch::batch_bytes;
use crate::printing_items::ran_bytes;
use crate::printing_rows::push_row;
use crate::table::push_table;
use crate::{Denial, Form, Reply};
use mls_audit::Entry;
use mls_lattice::{LabelNo, Policy, UserNo};
use mls_queries::Selection;
use mls_scheme::{Attributes, RelNo, Schemes};
use mls_tokens::push_str;
use mls_translang::{Command, Event, Query};
use mls_updates::Outcome;
use std::alloc::{AllocError, Global};

fn is_done(outcome: Outcome) -> bool
    ensures { result ≡ is_done outcome }
{
    match outcome {
        Outcome::Done => true,
        _ => false,
    }
}

/// What was done, and the number and the name of why.
fn coded_text(alloc: Global, deed: &str, code: u8, word: &str) -> Result<String, AllocError>
    ensures { IfOk result (λ text. string_bytes text ≡ deed.now ++ decimal code ++ codes " " ++ word.now) }
{
    let mut text = String::from_str(alloc, deed)?;
    let digits = format!(in alloc; "{code}")?;
    text.push_str(&digits)?;
    text.push_str(" ")?;
    text.push_str(word)?;
    Ok(text)
}

pub(crate) fn outcome_text(alloc: Global, outcome: Outcome) -> Result<String, AllocError>
    ensures { IfOk result (λ text. string_bytes text ≡ outcome_text outcome) }
{
    if is_done(outcome) {
        return String::from_str(alloc, "done");
    }
    coded_text(alloc, "refused ", outcome.code(), outcome.word())
}

/// Why a batch is refused, and the number of the command for which it is.
fn undone_text(alloc: Global, number: usize, outcome: Outcome) -> Result<String, AllocError>
    ensures { IfOk result (λ text. string_bytes text ≡ undone_text number outcome) }
{
    let mut text = outcome_text(alloc, outcome)?;
    let digits = format!(in alloc; "{number}")?;
    text.push_str(" at ")?;
    text.push_str(&digits)?;
    Ok(text)
}

fn denial_text(alloc: Global, denial: Denial) -> Result<String, AllocError>
    ensures { IfOk result (λ text. string_bytes text ≡ denial_text denial) }
{
    coded_text(alloc, "denied ", denial.code(), denial.word())
}

fn push_attributes(text: &mut Vec<u8>, attributes: &Attributes) -> Result<(), AllocError>
    ensures { OnOk result (text.new.items ≡ text.old.items ++ flat_map (λ a. codes " " ++ a.0) attributes.now) }
{
    for place in 0..attributes.len() {
        push_str(text, " ")?;
        push_str(text, attributes.name(place))?;
    }
    Ok(())
}

fn push_heading(text: &mut Vec<u8>, what: &Asked) -> Result<(), AllocError>
    ensures { OnOk result (text.new.items ≡ text.old.items
        ++ heading what.now.policy.now what.now.scheme.now what.now.label what.now.query.now) }
{
    push_asked(text, "view", what)?;
    push_attributes(text, what.scheme.keys())?;
    push_attributes(text, what.scheme.others())
}

/// Appends how many rows were found.
fn push_count(
    text: &mut Vec<u8>,
    to: &Answered,
    what: &Asked,
    count: usize,
) -> Result<(), AllocError>
    ensures { OnOk result (text.new.items ≡ text.old.items
        ++ count_text what.now.policy.now what.now.scheme.now what.now.label what.now.query.now count) }
{
    push_asked(text, "count", what)?;
    push_str(text, " ")?;
    push_number(to.alloc, text, count)
}

/// Appends the line that says how many rows were found.
fn push_count_line(
    text: &mut Vec<u8>,
    to: &Answered,
    what: &Asked,
    count: usize,
) -> Result<(), AllocError>
    ensures { OnOk result (text.new.items ≡ text.old.items
        ++ on_line to.now.policy.now to.now.event.now
        (count_text what.now.policy.now what.now.scheme.now what.now.label what.now.query.now count)) }
{
    push_front(text, to, to.event.level)?;
    push_count(text, to, what, count)?;
    push_str(text, "\n")
}

fn push_rows(text: &mut Vec<u8>, to: &Answered, rows: &Selection) -> Result<(), AllocError>
    requires { AllByRecursion (HasClassesBelow (length to.now.policy.now.labels)) rows.now }
    ensures { OnOk result (text.new.items ≡ text.old.items
        ++ flat_map (λ t. on_line to.now.policy.now to.now.event.now (row_text to.now.policy.now t)) rows.now) }
{
    for place in 0..rows.len() {
        push_front(text, to, to.event.level)?;
        push_row(to.alloc, text, to.policy, rows.get(place))?;
        push_str(text, "\n")?;
    }
    Ok(())
}

/// Appends the lines of a view.
fn push_view(
    text: &mut Vec<u8>,
    to: &Answered,
    what: &Asked,
    rows: &Selection,
) -> Result<(), AllocError>
    requires { AllByRecursion (HasClassesBelow (length to.now.policy.now.labels)) rows.now }
    ensures { OnOk result (text.new.items ≡ text.old.items ++ (on_line to.now.policy.now to.now.event.now
        (heading what.now.policy.now what.now.scheme.now what.now.label what.now.query.now)
        ++ flat_map (λ t. on_line to.now.policy.now to.now.event.now (row_text to.now.policy.now t)) rows.now)) }
{
    push_front(text, to, to.event.level)?;
    push_heading(text, what)?;
    push_str(text, "\n")?;
    push_rows(text, to, rows)
}

/// Appends the lines of the rows that a view found, or of their number alone.
pub(crate) fn push_found(
    text: &mut Vec<u8>,
    to: &Answered,
    relation: RelNo,
    label: LabelNo,
    query: &Query,
    counts: bool,
    rows: &Selection,
    form: Form,
) -> Result<(), AllocError>
    requires known { IsKnownLook (site_under to.now.policy.now to.now.schemes.now) relation label }
    requires classes { AllByRecursion (HasClassesBelow (length to.now.policy.now.labels)) rows.now }
    ensures { OnOk result (text.new.items ≡ text.old.items ++ flat_map (on_line to.now.policy.now to.now.event.now)
        (rows_texts form (site_under to.now.policy.now to.now.schemes.now)
        (commands.View relation label query.now counts) rows.now)) }
{
    let what = Asked {
        policy: to.policy,
        scheme: to.schemes.scheme(relation),
        label,
        query,
    };
    if counts {
        return push_count_line(text, to, &what, rows.len());
    }
    match form {
        Form::Lines => push_view(text, to, &what, rows),
        Form::Table => push_table(text, to, &what, rows),
    }
}

/// Appends the lines of rows, or of their number alone, which answer a view and nothing else.
fn push_answer(
    text: &mut Vec<u8>,
    to: &Answered,
    rows: &Selection,
    form: Form,
) -> Result<(), AllocError>
    requires command { CommandIsKnown (site_under to.now.policy.now to.now.schemes.now) to.now.event.now.command }
    requires classes { AllByRecursion (HasClassesBelow (length to.now.policy.now.labels)) rows.now }
    ensures { OnOk result (text.new.items ≡ text.old.items ++ flat_map (on_line to.now.policy.now to.now.event.now)
        (rows_texts form (site_under to.now.policy.now to.now.schemes.now) to.now.event.now.command rows.now)) }
{
    match &to.event.command {
        Command::View {
            relation,
            label,
            query,
            counts,
        } => push_found(text, to, *relation, *label, query, *counts, rows, form),
        _ => Ok(()),
    }
}

/// The lines of a view, or the table with them.
pub(crate) fn view_bytes(to: &Answered, rows: &Selection, form: Form) -> Result<Vec<u8>, AllocError>
    requires command { CommandIsKnown (site_under to.now.policy.now to.now.schemes.now) to.now.event.now.command }
    requires classes { AllByRecursion (HasClassesBelow (length to.now.policy.now.labels)) rows.now }
    ensures { IfOk result (λ text. text.items ≡ flat_map (on_line to.now.policy.now to.now.event.now)
        (rows_texts form (site_under to.now.policy.now to.now.schemes.now) to.now.event.now.command rows.now)) }
{
    let mut text = Vec::new(to.alloc);
    push_answer(&mut text, to, rows, form)?;
    Ok(text)
}

fn push_entries(text: &mut Vec<u8>, to: &Answered, entries: &[Entry]) -> Result<(), AllocError>
    requires { EntriesAreKnown to.now.policy.now entries.now }
    ensures { OnOk result (text.new.items ≡ text.old.items
        ++ flat_map (λ e. on_line to.now.policy.now to.now.event.now (entry_text to.now.policy.now e)) entries.now) }
{
    for entry in entries {
        push_front(text, to, to.event.level)?;
        push_entry(to.alloc, text, to.policy, entry)?;
        push_str(text, "\n")?;
    }
    Ok(())
}

/// The lines of an audit.
fn audit_bytes(to: &Answered, entries: &[Entry]) -> Result<Vec<u8>, AllocError>
    requires { EntriesAreKnown to.now.policy.now entries.now }
    ensures { IfOk result (λ text. text.items ≡ on_line to.now.policy.now to.now.event.now (codes "audit")
        ++ flat_map (λ e. on_line to.now.policy.now to.now.event.now (entry_text to.now.policy.now e)) entries.now) }
{
    let mut text = line_bytes(to, "audit")?;
    push_entries(&mut text, to, entries)?;
    Ok(text)
}

/// A text on a line of its own.
fn line_bytes(to: &Answered, line: &str) -> Result<Vec<u8>, AllocError>
    ensures { IfOk result (λ text. text.items ≡ on_line to.now.policy.now to.now.event.now line.now) }
{
    let mut text = Vec::new(to.alloc);
    push_front(&mut text, to, to.event.level)?;
    push_str(&mut text, line)?;
    push_str(&mut text, "\n")?;
    Ok(text)
}

/// The line of the user that a session is opened for.
fn opened_bytes(to: &Answered, user: UserNo) -> Result<Vec<u8>, AllocError>
    requires { user < length to.now.policy.now.users }
    ensures { IfOk result (λ text. text.items
        ≡ on_line to.now.policy.now to.now.event.now (codes "opened " ++ user_name to.now.policy.now.users user)) }
{
    let name = to.policy.user_name(user);
    let line = format!(in to.alloc; "opened {name}")?;
    line_bytes(to, &line)
}

/// The lines of a reply, each with its line feed.
pub fn reply_bytes(
    alloc: Global,
    policy: &Policy,
    schemes: &Schemes,
    event: &Event,
    reply: &Reply,
) -> Result<Vec<u8>, AllocError>
    requires { CanBePrinted (site_under policy.now schemes.now) event.now reply.now }
    ensures { IfOk result (λ text. text.items
        ≡ printed (reply_lines (site_under policy.now schemes.now) event.now reply.now)) }
{
    let to = Answered {
        alloc,
        policy,
        schemes,
        event,
    };
    match reply {
        Reply::Opened(user) => opened_bytes(&to, *user),
        Reply::Closed => line_bytes(&to, "closed"),
        Reply::Rows(rows) => view_bytes(&to, rows, Form::Lines),
        Reply::Dumped(tuples) => dump_bytes(&to, tuples),
        Reply::Wrote(outcome) => line_bytes(&to, &outcome_text(alloc, *outcome)?),
        Reply::Ran(run) => ran_bytes(&to, run),
        Reply::Entries(entries) => audit_bytes(&to, entries),
        Reply::Did(answers) => batch_bytes(&to, answers, Form::Lines),
        Reply::Undone { number, outcome } => {
            line_bytes(&to, &undone_text(alloc, *number, *outcome)?)
        }
        Reply::Denied(denial) => line_bytes(&to, &denial_text(alloc, *denial)?),
    }
}
