//! Transactions get the least certificates that hold for them.
ghost use Rattle.std.specs.Prelude.{◌≡◌, ◌++◌, string_bytes, IfOk, OnOk, flat_map};
ghost use Rattle.std.specs.List.{list_any, AllByRecursion};
ghost use Rattle.mls_certcheck.specs.declared.cert.Version.TheVariants.{First};
ghost use Rattle.mls_command.specs.Certifying.{HasNoneOf, HaveText, AreLabels, IsAnswer, AreAnswers, block_of};
ghost use Rattle.mls_command.specs.Certifying.{none_front, none_text, refusal_of, has_none, ending_of, IsCertified};

use crate::listing::Listing;
use mls_certcheck::{Certificate, Rule, block_print};
use mls_host::Ending;
use mls_labeller::{LabelFault, label_tx, label_tx2};
use mls_lattice::Policy;
use mls_translang::Tx;
use std::alloc::{AllocError, Global};

/// The labels of a transaction.
#[derive(Drop)]
pub(crate) enum Labels {
    /// Of version 1, or, where that has none, of version 2.
    Least(Certificate),
    /// Neither version has any: the first rule that the least labels of version 2 break which meet the lower bounds,
    /// and the number of
    /// its statement.
    Missing { stmt: usize, rule: Rule },
}

/// A transaction with its labels.
#[derive(Drop)]
pub(crate) struct Answer<'a> {
    pub tx: &'a Tx,
    pub labels: Labels,
}

/// The labels of a transaction that has none of version 1.
fn labels2_of(alloc: Global, policy: &Policy, tx: &Tx) -> Result<Labels, AllocError>
    requires { HasNoneOf policy.now tx.now First }
    ensures { IfOk result (AreLabels policy.now tx.now) }
{
    match label_tx2(alloc, policy, tx) {
        Ok(cert) => Ok(Labels::Least(Certificate::Two(cert))),
        Err(LabelFault::NoLabels { stmt, rule }) => Ok(Labels::Missing { stmt, rule }),
        Err(LabelFault::Memory) => Err(AllocError),
    }
}

fn labels_of(alloc: Global, policy: &Policy, tx: &Tx) -> Result<Labels, AllocError>
    ensures { IfOk result (AreLabels policy.now tx.now) }
{
    match label_tx(alloc, policy, tx) {
        Ok(cert) => Ok(Labels::Least(Certificate::One(cert))),
        Err(LabelFault::NoLabels { .. }) => labels2_of(alloc, policy, tx),
        Err(LabelFault::Memory) => Err(AllocError),
    }
}

fn answer_of<'a>(alloc: Global, policy: &Policy, tx: &'a Tx) -> Result<Answer<'a>, AllocError>
    ensures { IfOk result (IsAnswer policy.now tx.now) }
{
    let labels = labels_of(alloc, policy, tx)?;
    Ok(Answer { tx, labels })
}

/// The transactions in order, each with its labels.
fn answers_of<'a>(
    alloc: Global,
    policy: &Policy,
    txs: &'a [Tx],
) -> Result<Vec<Answer<'a>>, AllocError>
    ensures { IfOk result (λ v. AreAnswers policy.now txs.now v.items) }
{
    let mut answers = Vec::new(alloc);
    for tx in txs {
        let answer = answer_of(alloc, policy, tx)?;
        answers.push(answer)?;
    }
    Ok(answers)
}

fn block_to(alloc: Global, text: &mut String, answer: &Answer<'_>) -> Result<(), AllocError>
    requires { HaveText answer.now.labels }
    ensures { OnOk result (string_bytes text.new ≡ string_bytes text.old ++ block_of answer.now) }
{
    match &answer.labels {
        Labels::Least(cert) => {
            let block = block_print(alloc, answer.tx.name(), cert)?;
            text.push_str(&block)
        }
        Labels::Missing { .. } => Ok(()),
    }
}

/// The blocks of the transactions that have labels.
fn blocks_of(alloc: Global, answers: &[Answer<'_>]) -> Result<String, AllocError>
    requires { AllByRecursion (λ a. HaveText a.labels) answers.now }
    ensures { IfOk result (λ s. string_bytes s ≡ flat_map block_of answers.now) }
{
    let mut text = String::new(alloc);
    for answer in answers {
        block_to(alloc, &mut text, answer)?;
    }
    Ok(text)
}

#[tactic(auto, unfolding(crate::specs::Certifying::none_front))]
fn none_front_to(text: &mut String, name: &str) -> Result<(), AllocError>
    ensures { OnOk result (string_bytes text.new ≡ string_bytes text.old ++ none_front name.now) }
{
    write!(text, "mldb: {name}: no labels: ")
}

fn none_to(text: &mut String, name: &str, stmt: usize, rule: Rule) -> Result<(), AllocError>
    ensures { OnOk result (string_bytes text.new ≡ string_bytes text.old ++ none_text name.now stmt rule) }
{
    none_front_to(text, name)?;
    let rule = rule.text();
    writeln!(text, "{stmt} {rule}")
}

fn refusal_to(text: &mut String, answer: &Answer<'_>) -> Result<(), AllocError>
    ensures { OnOk result (string_bytes text.new ≡ string_bytes text.old ++ refusal_of answer.now) }
{
    match answer.labels {
        Labels::Least(_) => Ok(()),
        Labels::Missing { stmt, rule } => none_to(text, answer.tx.name(), stmt, rule),
    }
}

/// A line for each transaction that has none.
fn refusals_of(alloc: Global, answers: &[Answer<'_>]) -> Result<String, AllocError>
    ensures { IfOk result (λ s. string_bytes s ≡ flat_map refusal_of answers.now) }
{
    let mut text = String::new(alloc);
    for answer in answers {
        refusal_to(&mut text, answer)?;
    }
    Ok(text)
}

fn has_none(answer: &Answer<'_>) -> bool
    ensures { result ≡ has_none answer.now }
{
    match answer.labels {
        Labels::Least(_) => false,
        Labels::Missing { .. } => true,
    }
}

fn lacks_some(answers: &[Answer<'_>]) -> bool
    ensures { result ≡ list_any has_none answers.now }
{
    answers.iter().any(|answer| has_none(answer))
}

fn ending_of(answers: &[Answer<'_>]) -> Ending
    ensures { result ≡ ending_of answers.now }
{
    if lacks_some(answers) {
        Ending::Refused
    } else {
        Ending::Well
    }
}

/// The least certificate of each transaction that has one, and a line for each other.
pub(crate) fn certified(alloc: Global, policy: &Policy, txs: &[Tx]) -> Result<Listing, AllocError>
    ensures { IfOk result (λ l. IsCertified policy.now txs.now l.text.items (string_bytes l.told) l.ending) }
{
    let answers = answers_of(alloc, policy, txs)?;
    let blocks = blocks_of(alloc, &answers)?;
    let refusals = refusals_of(alloc, &answers)?;
    Ok(Listing {
        text: blocks.into_bytes(),
        told: refusals,
        ending: ending_of(&answers),
    })
}
