//! What an audience is shown of a reply.
ghost use Rattle.std.specs.Prelude.{◌≡◌, ◌<◌, map, length, IfOk, IfSome};
ghost use Rattle.std.specs.List.{AllByRecursion};
ghost use Rattle.mls_lattice.specs.Policy.{labels_of};
ghost use Rattle.mls_scheme.specs.Tuple.{HasClassesBelow};
ghost use Rattle.mls_machine.specs.Under.{site_under};
ghost use Rattle.mls_machine.specs.Seen.{hears};
ghost use Rattle.mls_machine.specs.Output.{line, lines_with, table_texts, batch_texts, texts_in_table, reply_lines};
ghost use Rattle.mls_machine.specs.Output.{printed};
ghost use Rattle.mls_machine.specs.Printable.{AnswerIsKnown, CommandIsKnown, CanBePrinted};
ghost use Rattle.mls_machine.specs.declared.form.Form.TheVariants.{Table};
ghost use Rattle.mls_machine.specs.Observation.{heard};
ghost use Rattle.mls_machine.specs.Showing.{reply_shows};

use crate::answered::Answered;
use crate::printing_batch::batch_bytes;
use crate::replies::{reply_bytes, view_bytes};
use crate::shown::shown_bytes;
use crate::{Answer, Audience, Form, Reply};
use mls_lattice::{LabelNo, Policy};
use mls_queries::Selection;
use mls_scheme::Schemes;
use mls_tokens::escape;
use mls_translang::Event;
use std::alloc::{AllocError, Global};

/// The lines of a reply whose labels the reader dominates, or all where there is no reader.
fn heard_bytes(
    alloc: Global,
    policy: &Policy,
    schemes: &Schemes,
    event: &Event,
    reply: &Reply,
    reader: Option<LabelNo>,
) -> Result<Vec<u8>, AllocError>
    requires printable { CanBePrinted (site_under policy.now schemes.now) event.now reply.now }
    requires reader { IfSome reader (λ c. c < length policy.now.labels) }
    ensures { IfOk result (λ text. text.items
        ≡ printed (heard (labels_of policy.now) reader
        (reply_lines (site_under policy.now schemes.now) event.now reply.now))) }
{
    match reader {
        None => reply_bytes(alloc, policy, schemes, event, reply),
        Some(label) => shown_bytes(alloc, policy, schemes, event, reply, label),
    }
}

/// Whether a reader is shown the lines of a level.
fn is_shown(policy: &Policy, level: LabelNo, reader: Option<LabelNo>) -> bool
    requires level { level < length policy.now.labels }
    requires reader { IfSome reader (λ c. c < length policy.now.labels) }
    ensures { result ≡ hears (labels_of policy.now) reader level }
{
    match reader {
        None => true,
        Some(label) => policy.dominates(label, level),
    }
}

/// The lines of a view as a table, if the reader dominates the level of its session.
fn heard_table(
    to: &Answered,
    rows: &Selection,
    reader: Option<LabelNo>,
) -> Result<Vec<u8>, AllocError>
    requires command { CommandIsKnown (site_under to.now.policy.now to.now.schemes.now) to.now.event.now.command }
    requires classes { AllByRecursion (HasClassesBelow (length to.now.policy.now.labels)) rows.now }
    requires reader { IfSome reader (λ c. c < length to.now.policy.now.labels) }
    ensures { IfOk result (λ text. text.items ≡ printed (heard (labels_of to.now.policy.now) reader
        (map (line to.now.policy.now to.now.event.now to.now.event.now.level)
        (table_texts (site_under to.now.policy.now to.now.schemes.now) to.now.event.now.command rows.now)))) }
{
    if is_shown(to.policy, to.event.level, reader) {
        view_bytes(to, rows, Form::Table)
    } else {
        Ok(Vec::new(to.alloc))
    }
}

/// The lines of a batch with tables for its views, if the reader dominates the level of its session.
fn heard_tables(
    to: &Answered,
    answers: &[Answer],
    reader: Option<LabelNo>,
) -> Result<Vec<u8>, AllocError>
    requires command { CommandIsKnown (site_under to.now.policy.now to.now.schemes.now) to.now.event.now.command }
    requires answers { AllByRecursion (AnswerIsKnown to.now.policy.now) answers.now }
    requires reader { IfSome reader (λ c. c < length to.now.policy.now.labels) }
    ensures { IfOk result (λ text. text.items ≡ printed (heard (labels_of to.now.policy.now) reader
        (map (line to.now.policy.now to.now.event.now to.now.event.now.level)
        (batch_texts Table (site_under to.now.policy.now to.now.schemes.now)
        to.now.event.now.command answers.now)))) }
{
    if is_shown(to.policy, to.event.level, reader) {
        batch_bytes(to, answers, Form::Table)
    } else {
        Ok(Vec::new(to.alloc))
    }
}

/// What a screen is shown, before it is escaped.
fn bare_bytes(
    alloc: Global,
    policy: &Policy,
    schemes: &Schemes,
    event: &Event,
    reply: &Reply,
    reader: Option<LabelNo>,
) -> Result<Vec<u8>, AllocError>
    requires printable { CanBePrinted (site_under policy.now schemes.now) event.now reply.now }
    requires reader { IfSome reader (λ c. c < length policy.now.labels) }
    ensures { IfOk result (λ text. text.items
        ≡ printed (heard (labels_of policy.now) reader
        (lines_with (site_under policy.now schemes.now) event.now
        (texts_in_table (site_under policy.now schemes.now) event.now.session event.now.command reply.now)
        reply.now))) }
{
    let to = Answered {
        alloc,
        policy,
        schemes,
        event,
    };
    match reply {
        Reply::Rows(rows) => heard_table(&to, rows, reader),
        Reply::Did(answers) => heard_tables(&to, answers, reader),
        _ => heard_bytes(alloc, policy, schemes, event, reply, reader),
    }
}

/// The lines of a reply that an audience is shown, each with its line feed.
#[tactic(auto, using(crate::proofs::ShowingLemmas::screen_steps))]
pub fn shown_to(
    alloc: Global,
    policy: &Policy,
    schemes: &Schemes,
    event: &Event,
    reply: &Reply,
    audience: Audience,
) -> Result<Vec<u8>, AllocError>
    requires printable { CanBePrinted (site_under policy.now schemes.now) event.now reply.now }
    requires reader { IfSome audience.reader (λ c. c < length policy.now.labels) }
    ensures { IfOk result (λ text. text.items
        ≡ reply_shows (site_under policy.now schemes.now) audience event.now reply.now) }
{
    match audience.form {
        Form::Lines => heard_bytes(alloc, policy, schemes, event, reply, audience.reader),
        Form::Table => {
            let bare = bare_bytes(alloc, policy, schemes, event, reply, audience.reader)?;
            escape(alloc, &bare)
        }
    }
}
