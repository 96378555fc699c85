//! The lines of what the commands of a batch are answered.
ghost use Rattle.std.specs.Prelude.{◌≡◌, ◌++◌, OnOk, IfOk, flat_map};
ghost use Rattle.std.specs.List.{AllByRecursion};
ghost use Rattle.mls_machine.specs.declared.reply.Answer.TheVariants as answers;
ghost use Rattle.mls_machine.specs.Under.{site_under};
ghost use Rattle.mls_machine.specs.Output.{on_line, outcome_text, answer_texts, answers_texts, batch_texts};
ghost use Rattle.mls_machine.specs.Printable.{OneIsKnown, AnswerIsKnown, CommandIsKnown};

use crate::answered::Answered;
use crate::printing::push_front;
use crate::replies::{outcome_text, push_found};
use crate::{Answer, Form};
use mls_queries::Selection;
use mls_tokens::push_str;
use mls_translang::{Command, One};
use mls_updates::Outcome;
use std::alloc::AllocError;

/// Appends the line of an outcome.
fn push_outcome(text: &mut Vec<u8>, to: &Answered, outcome: Outcome) -> Result<(), AllocError>
    ensures { OnOk result (text.new.items ≡ text.old.items
        ++ on_line to.now.policy.now to.now.event.now (outcome_text outcome)) }
{
    let line = outcome_text(to.alloc, outcome)?;
    push_front(text, to, to.event.level)?;
    push_str(text, &line)?;
    push_str(text, "\n")
}

/// Appends the lines of rows, which answer a command that looks and nothing else.
fn push_rows_of(
    text: &mut Vec<u8>,
    to: &Answered,
    one: &One,
    rows: &Selection,
    form: Form,
) -> Result<(), AllocError>
    requires one { OneIsKnown (site_under to.now.policy.now to.now.schemes.now) one.now }
    requires classes { AnswerIsKnown to.now.policy.now (answers.Rows rows.now) }
    ensures { OnOk result (text.new.items ≡ text.old.items ++ flat_map (on_line to.now.policy.now to.now.event.now)
        (answer_texts form (site_under to.now.policy.now to.now.schemes.now) one.now (answers.Rows rows.now))) }
{
    match one {
        One::View {
            relation,
            label,
            query,
            counts,
        } => push_found(text, to, *relation, *label, query, *counts, rows, form),
        One::Expect {
            relation,
            label,
            query,
            ..
        } => push_found(text, to, *relation, *label, query, true, rows, form),
        One::Write { .. } => Ok(()),
    }
}

/// Appends the lines of what a command is answered.
fn push_one(
    text: &mut Vec<u8>,
    to: &Answered,
    one: &One,
    answer: &Answer,
    form: Form,
) -> Result<(), AllocError>
    requires one { OneIsKnown (site_under to.now.policy.now to.now.schemes.now) one.now }
    requires answer { AnswerIsKnown to.now.policy.now answer.now }
    ensures { OnOk result (text.new.items ≡ text.old.items ++ flat_map (on_line to.now.policy.now to.now.event.now)
        (answer_texts form (site_under to.now.policy.now to.now.schemes.now) one.now answer.now)) }
{
    match answer {
        Answer::Rows(rows) => push_rows_of(text, to, one, rows, form),
        Answer::Became(outcome) => push_outcome(text, to, *outcome),
    }
}

/// Appends the lines of the answers, in order.
fn push_ones(
    text: &mut Vec<u8>,
    to: &Answered,
    batch: &[One],
    answers: &[Answer],
    form: Form,
) -> Result<(), AllocError>
    requires batch { AllByRecursion (OneIsKnown (site_under to.now.policy.now to.now.schemes.now)) batch.now }
    requires answers { AllByRecursion (AnswerIsKnown to.now.policy.now) answers.now }
    ensures { OnOk result (text.new.items ≡ text.old.items ++ flat_map (on_line to.now.policy.now to.now.event.now)
        (answers_texts form (site_under to.now.policy.now to.now.schemes.now) batch.now answers.now)) }
{
    for (place, one) in batch.iter().enumerate() {
        match answers.get(place) {
            Some(answer) => push_one(text, to, one, answer, form)?,
            None => return Ok(()),
        }
    }
    Ok(())
}

/// Appends the lines of the answers, which answer a batch and nothing else.
fn push_batch(
    text: &mut Vec<u8>,
    to: &Answered,
    answers: &[Answer],
    form: Form,
) -> Result<(), AllocError>
    requires command { CommandIsKnown (site_under to.now.policy.now to.now.schemes.now) to.now.event.now.command }
    requires answers { AllByRecursion (AnswerIsKnown to.now.policy.now) answers.now }
    ensures { OnOk result (text.new.items ≡ text.old.items ++ flat_map (on_line to.now.policy.now to.now.event.now)
        (batch_texts form (site_under to.now.policy.now to.now.schemes.now) to.now.event.now.command answers.now)) }
{
    match &to.event.command {
        Command::All(batch) => push_ones(text, to, batch, answers, form),
        _ => Ok(()),
    }
}

/// The lines of the answers to a batch.
pub(crate) fn batch_bytes(
    to: &Answered,
    answers: &[Answer],
    form: Form,
) -> Result<Vec<u8>, AllocError>
    requires command { CommandIsKnown (site_under to.now.policy.now to.now.schemes.now) to.now.event.now.command }
    requires answers { AllByRecursion (AnswerIsKnown to.now.policy.now) answers.now }
    ensures { IfOk result (λ text. text.items ≡ flat_map (on_line to.now.policy.now to.now.event.now)
        (batch_texts form (site_under to.now.policy.now to.now.schemes.now) to.now.event.now.command answers.now)) }
{
    let mut text = Vec::new(to.alloc);
    push_batch(&mut text, to, answers, form)?;
    Ok(text)
}
