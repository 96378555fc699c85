//! Whether what a store gave can be printed.
ghost use Rattle.std.specs.Prelude.{◌≡◌, IsTrue};
ghost use Rattle.mls_machine.specs.Printable.{ReplyIsKnown};
ghost use Rattle.mls_machine.specs.Known.{elements_known, tuple_known, tuples_known, answer_known, answers_known};
ghost use Rattle.mls_machine.specs.Known.{HasKnownNumbers};

use crate::{Answer, Reply};
use mls_lattice::Policy;
use mls_queries::Selection;
use mls_scheme::{Element, Tuple};

fn are_elements_known(count: usize, elements: &[Element]) -> bool
    ensures { result ≡ elements_known count elements.now }
{
    for element in elements {
        if element.class.index() >= count {
            return false;
        }
    }
    true
}

fn is_tuple_known(count: usize, tuple: &Tuple) -> bool
    ensures { result ≡ tuple_known count tuple.now }
{
    tuple.key_class.index() < count && are_elements_known(count, &tuple.elements)
}

fn are_rows_known(count: usize, rows: &Selection) -> bool
    ensures { result ≡ tuples_known count rows.now }
{
    for place in 0..rows.len() {
        if !is_tuple_known(count, rows.get(place)) {
            return false;
        }
    }
    true
}

fn are_tuples_known(count: usize, tuples: &[Tuple]) -> bool
    ensures { result ≡ tuples_known count tuples.now }
{
    for tuple in tuples {
        if !is_tuple_known(count, tuple) {
            return false;
        }
    }
    true
}

fn is_answer_known(count: usize, answer: &Answer) -> bool
    ensures { result ≡ answer_known count answer.now }
{
    match answer {
        Answer::Rows(rows) => are_rows_known(count, rows),
        Answer::Became(_) => true,
    }
}

fn are_answers_known(count: usize, answers: &[Answer]) -> bool
    ensures { result ≡ answers_known count answers.now }
{
    for answer in answers {
        if !is_answer_known(count, answer) {
            return false;
        }
    }
    true
}

/// Whether the classes in a reply are declared, as they are over a clean store. Over another one a view
/// promises nothing of them: where they are not, the engine answers Store.
#[tactic(auto, using(crate::proofs::KnownLemmas::known_steps))]
pub fn is_known(policy: &Policy, reply: &Reply) -> bool
    requires { HasKnownNumbers policy.now reply.now }
    ensures known { IsTrue result → ReplyIsKnown policy.now reply.now }
    ensures clean { ReplyIsKnown policy.now reply.now → IsTrue result }
{
    match reply {
        Reply::Rows(rows) => are_rows_known(policy.label_count(), rows),
        Reply::Dumped(tuples) => are_tuples_known(policy.label_count(), tuples),
        Reply::Did(answers) => are_answers_known(policy.label_count(), answers),
        _ => true,
    }
}
