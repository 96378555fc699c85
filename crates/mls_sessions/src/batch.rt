//! Batches: their commands are done in order, as one change of the base.
ghost use Rattle.std.specs.Prelude.{◌≡◌, ◌<◌, ◌++◌, ◌∷◌, [], true, false, length, IfOk, OnOk, nat_eq};
ghost use Rattle.std.specs.Prelude.{if◌then◌else◌};
ghost use Rattle.mls_lattice.specs.Policy.{labels_of};
ghost use Rattle.mls_filterview.specs.Calls.{IsRead, NoAccess, NoReadUp, NoWriteDown};
ghost use Rattle.mls_filterview.specs.View.{rows};
ghost use Rattle.mls_audit.specs.Sound.{IsSoundContent};
ghost use Rattle.mls_updates.specs.declared.outcome.Outcome.TheVariants.{Done, Unexpected};
ghost use Rattle.mls_queries.specs.Query.{found};
ghost use Rattle.mls_queries.specs.Views.{AreViews};
ghost use Rattle.mls_translang.specs.declared.event.One.TheVariants as ones;
ghost use Rattle.mls_machine.specs.Known.{HasKnownNumbers};
ghost use Rattle.mls_machine.specs.Machine.{refusal_of, did_one, did_all, did};
ghost use Rattle.mls_sessions.specs.Access.{IsOnePermitted, IsBatchPermitted};
ghost use Rattle.mls_sessions.specs.Sessions.{site_of_run};
ghost use Rattle.mls_sessions.specs.Batches.{MayDoOne, MayDoAll, IsOneDone, HaveEnded, is_undone, IsOver};
ghost use Rattle.mls_sessions.specs.Turns.{Steps, IsStepOver, EndsChange, IsOpen, HasAnswered};

use crate::site::Site;
use mls_filterview::{Base, BaseFault, settle};
use mls_lattice::{Items, LabelNo};
use mls_machine::{Answer, Reply};
use mls_queries::{Selection, Views, find};
use mls_scheme::{RelNo, Value, Write};
use mls_translang::{One, Query};
use mls_updates::Outcome;
use std::alloc::AllocError;

/// What becomes of an expectation, by how many rows there are.
fn outcome_of(there: usize, expected: usize) -> Outcome
    ensures { result ≡ (if nat_eq there expected then Done else Unexpected) }
{
    if there == expected {
        Outcome::Done
    } else {
        Outcome::Unexpected
    }
}

/// Why a command with this answer is refused, if it is.
fn refusal_of(answer: &Answer) -> Option<Outcome>
    ensures { result ≡ refusal_of answer.now }
{
    match answer {
        Answer::Became(outcome) if !outcome.is_done() => Some(*outcome),
        _ => None,
    }
}

/// What a query finds at a label, inside a change.
fn found_by<B: Base>(
    site: &Site,
    base: &mut B,
    views: &mut Views,
    relation: RelNo,
    label: LabelNo,
    query: &Query,
) -> Result<Selection, BaseFault>
    requires found { IsOpen B.seen (site_of_run site.now) true base.old views.old }
    requires relation { relation < length site.now.schemes.now }
    requires label { label < length site.now.policy.now.labels }
    ensures read { IsRead B.seen base.old base.new result }
    ensures access { NoReadUp B.seen (labels_of site.now.policy.now) label base.old base.new }
    ensures rows { (B.seen base.new).is_clean → IfOk result (λ ts. ts ≡ found (labels_of site.now.policy.now) query.now
        (rows (labels_of site.now.policy.now) label ((B.seen base.old).state.now.db relation))) }
    ensures views { AreViews site.now.policy.now B.seen base.new views.new }
{
    let Site {
        alloc,
        policy,
        schemes,
        ..
    } = *site;
    find(alloc, base, views, policy, schemes, relation, label, query)
}

/// Makes a write at a level, inside a change, and notes it in the views that it may have changed.
fn write<B: Base>(
    site: &Site,
    base: &mut B,
    views: &mut Views,
    level: LabelNo,
    relation: RelNo,
    write: &Write<Option<Value>>,
) -> Result<Answer, BaseFault>
    requires found { IsOpen B.seen (site_of_run site.now) true base.old views.old }
    requires may { MayDoOne (site_of_run site.now) level (ones.Write relation write.now) }
    ensures step { Steps B.seen base.old base.new result }
    ensures access { NoWriteDown B.seen (labels_of site.now.policy.now) level level base.old base.new }
    ensures done { (B.seen base.new).is_clean → IfOk result (IsOneDone
        (did_one (site_of_run site.now) level (ones.Write relation write.now) (B.seen base.old).state.now.db)
        (B.seen base.old).state.now (B.seen base.new).state.now) }
    ensures sound { (B.seen base.new).is_clean → OnOk result (IsSoundContent site.now.policy.now site.now.schemes.now
        (B.seen base.new).state.now) }
    ensures views { OnOk result (AreViews site.now.policy.now B.seen base.new views.new) }
{
    let Site {
        alloc,
        policy,
        schemes,
        ..
    } = *site;
    let outcome = mls_updates::write(alloc, base, policy, schemes, relation, level, write)?;
    views.follow(alloc, policy, relation, level, write, outcome);
    Ok(Answer::Became(outcome))
}

/// Does a command of a batch at a level, inside a change.
fn do_one<B: Base>(
    site: &Site,
    base: &mut B,
    views: &mut Views,
    level: LabelNo,
    one: &One,
) -> Result<Answer, BaseFault>
    requires found { IsOpen B.seen (site_of_run site.now) true base.old views.old }
    requires may { MayDoOne (site_of_run site.now) level one.now }
    ensures step { Steps B.seen base.old base.new result }
    ensures access { IsOnePermitted B.seen (labels_of site.now.policy.now) level one.now base.old base.new }
    ensures done { (B.seen base.new).is_clean → IfOk result (IsOneDone
        (did_one (site_of_run site.now) level one.now (B.seen base.old).state.now.db)
        (B.seen base.old).state.now (B.seen base.new).state.now) }
    ensures sound { (B.seen base.new).is_clean → OnOk result (IsSoundContent site.now.policy.now site.now.schemes.now
        (B.seen base.new).state.now) }
    ensures views { OnOk result (AreViews site.now.policy.now B.seen base.new views.new) }
{
    match one {
        One::View {
            relation,
            label,
            query,
            ..
        } => {
            let rows = found_by(site, base, views, *relation, *label, query)?;
            Ok(Answer::Rows(rows))
        }
        One::Expect {
            rows,
            relation,
            label,
            query,
        } => {
            let there = found_by(site, base, views, *relation, *label, query)?;
            Ok(Answer::Became(outcome_of(there.len(), *rows)))
        }
        One::Write {
            relation,
            write: writing,
        } => write(site, base, views, level, *relation, writing),
    }
}

fn keep(answers: &mut Vec<Answer>, answer: Answer) -> Result<(), AllocError>
    ensures { OnOk result (answers.new.items ≡ answers.old.items ++ answer ∷ []) }
{
    answers.push(answer)?;
    Ok(())
}

/// Does commands at a level in order, inside a change, until one is refused.
fn do_all<B: Base>(
    site: &Site,
    base: &mut B,
    views: &mut Views,
    level: LabelNo,
    batch: &[One],
) -> Result<Reply, BaseFault>
    requires found { IsOpen B.seen (site_of_run site.now) true base.old views.old }
    requires may { MayDoAll (site_of_run site.now) level batch.now }
    ensures step { Steps B.seen base.old base.new result }
    ensures access { IsBatchPermitted B.seen (labels_of site.now.policy.now) level batch.now base.old base.new }
    ensures done { (B.seen base.new).is_clean → IfOk result (HaveEnded
        (did_all (site_of_run site.now) level [] batch.now (B.seen base.old).state.now.db)
        (B.seen base.old).state.now (B.seen base.new).state.now) }
    ensures known { IfOk result (HasKnownNumbers site.now.policy.now) }
    ensures views { OnOk result (AreViews site.now.policy.now B.seen base.new views.new) }
{
    let mut answers = Vec::new(site.alloc);
    for (place, one) in batch.iter().enumerate() {
        let answer = do_one(site, base, views, level, one)?;
        if let Some(outcome) = refusal_of(&answer) {
            let number = place + 1;
            return Ok(Reply::Undone { number, outcome });
        }
        settle(base, keep(&mut answers, answer))?;
    }
    Ok(Reply::Did(Items::from(answers)))
}

fn is_undone(reply: &Reply) -> bool
    ensures { result ≡ is_undone reply.now }
{
    match reply {
        Reply::Undone { .. } => true,
        _ => false,
    }
}

/// Ends the change of a batch: keeps what it did, or undoes it, and then no view is kept.
fn end<B: Base>(base: &mut B, views: &mut Views, undone: bool) -> Result<(), BaseFault>
    ensures over { IsOver B.seen undone base.old base.new result }
    ensures access { NoAccess B.seen base.old base.new }
    ensures views { views.new ≡ (if undone then [] else views.old) }
{
    if undone {
        views.clear();
        return base.rollback();
    }
    base.commit()
}

/// Does a batch at a level, as one change of the base.
fn carry_out<B: Base>(
    site: &Site,
    base: &mut B,
    views: &mut Views,
    level: LabelNo,
    batch: &[One],
) -> Result<Reply, BaseFault>
    requires found { IsOpen B.seen (site_of_run site.now) false base.old views.old }
    requires may { MayDoAll (site_of_run site.now) level batch.now }
    ensures over { EndsChange B.seen base.old base.new result }
    ensures access { IsBatchPermitted B.seen (labels_of site.now.policy.now) level batch.now base.old base.new }
    ensures done { (B.seen base.new).is_clean → IfOk result (IsStepOver (site_of_run site.now)
        (λ w. did (site_of_run site.now) w level batch.now) (B.seen base.old).state.now (B.seen base.new).state.now) }
    ensures known { IfOk result (HasKnownNumbers site.now.policy.now) }
    ensures views { OnOk result (AreViews site.now.policy.now B.seen base.new views.new) }
{
    base.begin()?;
    let reply = do_all(site, base, views, level, batch)?;
    end(base, views, is_undone(&reply))?;
    Ok(reply)
}

/// Does the commands of a batch at a level in order, as one change of the base: all of them, or none, where one is
/// refused.
/// After a fault no view is kept.
pub(crate) fn do_batch<B: Base>(
    site: &Site,
    base: &mut B,
    views: &mut Views,
    level: LabelNo,
    batch: &[One],
) -> Result<Reply, BaseFault>
    requires found { IsOpen B.seen (site_of_run site.now) false base.old views.old }
    requires may { MayDoAll (site_of_run site.now) level batch.now }
    ensures answered { HasAnswered B.seen (site_of_run site.now)
        (λ w. did (site_of_run site.now) w level batch.now) base.old base.new result }
    ensures access { IsBatchPermitted B.seen (labels_of site.now.policy.now) level batch.now base.old base.new }
    ensures views { AreViews site.now.policy.now B.seen base.new views.new }
{
    let result = carry_out(site, base, views, level, batch);
    if result.is_err() {
        views.clear();
    }
    result
}
