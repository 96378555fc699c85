//! What the program does with its words.
ghost use Rattle.std.specs.Prelude.{◌≡◌, true, false};
ghost use Rattle.mls_host.specs.Deed.{deed};
ghost use Rattle.mls_host.specs.Hosting.{hosted, IsAppended, IsTold};
ghost use Rattle.mls_host.specs.Reading.{AreInputsRefused, FitSetting, HasUser};
ghost use Rattle.mls_host.specs.Words.{texts_of};
ghost use Rattle.mls_command.specs.Acting.{explains, prints, IsTaskDeed, IsRefusedDeed, IsDeedOf};
ghost use Rattle.mls_command.specs.Accounting.{IsAccountOf};
ghost use Rattle.mls_command.specs.Answering.{IsFinished, IsNoted, AnswersWords, IsOutcomeOf};

use crate::accounting::{finish_account, refused_listing};
use crate::certifying::certified;
use crate::checking::checked;
use crate::documents::{Advises, explanation_of, picture_of};
use crate::explained::explained_of;
use crate::listing::print_made;
use crate::showing::texts;
use crate::telling::explain_stop;
use mls_host::{
    Ending, Errors, Host, Inputs, Job, Reason, Stop, Task, Usage, inputs_of, job_of, served, turned,
};
use mls_runs::{run_desk, run_script, run_shell, turn_store};
use std::alloc::Global;
use std::io::Write;

const NOTE: &str = "\
mldb: reads a script from here, under the sample policy, up to the end of input (Ctrl-D); mldb --help shows what else there is
";

/// Whether a task prints at once what it makes of what its job has read.
fn prints(task: Task) -> bool
    ensures { result ≡ prints task.entry }
{
    match task {
        Task::Run { .. } | Task::Shell { .. } | Task::Serve | Task::Turn { .. } => false,
        _ => true,
    }
}

/// Does a task that prints at once. It borrows what the job has read: beside inputs that each of many ends lets go, a
/// proof is dear.
fn print_task<H: Advises, W: Write, E: Write>(
    alloc: Global,
    host: &H,
    inputs: &Inputs,
    job: Job,
    out: &mut W,
    err: &mut Errors<E>,
) -> Result<Ending, Stop>
    requires fit { FitSetting inputs.now.setting inputs.now.transactions inputs.now.events }
    requires prints { prints job.task ≡ true }
    ensures { IsTaskDeed H.Advice.explaining (hosted H.hosting H.Lines.echo host.now host.now) job.entry inputs.now
        job.entry.task (deed W.contents out.old out.new E.contents err.old err.new result) }
{
    match job.task {
        Task::ShowPolicy => {
            let made = texts(alloc, &inputs.setting);
            print_made(made, out, err)
        }
        Task::Picture => {
            let made = picture_of(alloc, host, &inputs.setting, job.documents);
            print_made(made, out, err)
        }
        Task::Certify => {
            let made = certified(alloc, &inputs.setting.policy, &inputs.transactions);
            print_made(made, out, err)
        }
        Task::Check => {
            let policy = &inputs.setting.policy;
            let made = checked(alloc, policy, &inputs.transactions, &inputs.certificates);
            print_made(made, out, err)
        }
        Task::Explain { name } => {
            let (setting, txs) = (&inputs.setting, &inputs.transactions);
            explanation_of(alloc, host, setting, txs, name, job.documents)?.print(out, err)
        }
        Task::Run { .. } | Task::Shell { .. } | Task::Serve | Task::Turn { .. } => unreachable!(),
    }
}

/// Does a task that runs something, or turns an audit list.
fn run_task<H: Advises, W: Write, E: Write>(
    alloc: Global,
    host: &mut H,
    inputs: Inputs,
    job: Job,
    out: &mut W,
    err: &mut Errors<E>,
) -> Result<Ending, Stop>
    requires fit { FitSetting inputs.setting inputs.transactions inputs.events }
    requires user { HasUser job.task }
    requires runs { prints job.task ≡ false }
    ensures { IsTaskDeed H.Advice.explaining (hosted H.hosting H.Lines.echo host.old host.new) job.entry inputs
        job.entry.task (deed W.contents out.old out.new E.contents err.old err.new result) }
{
    let store = job.files.store;
    match job.task {
        Task::Run { is_table, .. } => {
            run_script(alloc, host, store, inputs, is_table, out)?;
            Ok(Ending::Well)
        }
        Task::Shell { label, user } => {
            run_shell::<H::Advice, H, W, E>(alloc, host, store, inputs, label, user, out, err)
        }
        Task::Serve => served(run_desk(alloc, host, store, inputs, out)),
        Task::Turn { .. } => turned(turn_store(alloc, host, store, &inputs.setting, out)),
        _ => unreachable!(),
    }
}

/// Does the task of a job with what it has read.
fn perform_task<H: Advises, W: Write, E: Write>(
    alloc: Global,
    host: &mut H,
    inputs: Inputs,
    job: Job,
    out: &mut W,
    err: &mut Errors<E>,
) -> Result<Ending, Stop>
    requires fit { FitSetting inputs.setting inputs.transactions inputs.events }
    requires user { HasUser job.task }
    ensures { IsTaskDeed H.Advice.explaining (hosted H.hosting H.Lines.echo host.old host.new) job.entry inputs
        job.entry.task (deed W.contents out.old out.new E.contents err.old err.new result) }
{
    if prints(job.task) {
        return print_task(alloc, host, &inputs, job, out, err);
    }
    run_task(alloc, host, inputs, job, out, err)
}

/// Whether a task explains inputs of its own.
fn explains(task: Task) -> bool
    ensures { result ≡ explains task.entry }
{
    match task {
        Task::Picture | Task::Explain { .. } => true,
        _ => false,
    }
}

/// Gives a job up, an input of which is refused: a task that explains prints why.
fn give_up<H: Advises, W: Write, E: Write>(
    alloc: Global,
    job: Job,
    reason: Reason,
    host: &H,
    out: &mut W,
    err: &mut Errors<E>,
) -> Result<Ending, Stop>
    requires { AreInputsRefused (H.hosting host.now) job reason }
    ensures { IsRefusedDeed (hosted H.hosting H.Lines.echo host.now host.now) job.entry (explains job.entry.task)
        (deed W.contents out.old out.new E.contents err.old err.new result) }
{
    if !explains(job.task) {
        return Err(Stop::Before(reason));
    }
    refused_listing(alloc, host, job, reason)?.print(out, err)
}

/// Does a job.
fn perform<H: Advises, W: Write, E: Write>(
    alloc: Global,
    job: Job,
    host: &mut H,
    out: &mut W,
    err: &mut Errors<E>,
) -> Result<Ending, Stop>
    ensures { IsDeedOf H.Advice.explaining (hosted H.hosting H.Lines.echo host.old host.new) job.entry
        (deed W.contents out.old out.new E.contents err.old err.new result) }
{
    match inputs_of(alloc, host, job) {
        Ok(inputs) => perform_task(alloc, host, inputs, job, out, err),
        Err(reason) => give_up(alloc, job, reason, host, out, err),
    }
}

/// Does a job, and answers the exit status. A refusal is told, and, where somebody reads standard error at a terminal,
/// explained.
fn finish<H: Advises, W: Write, E: Write>(
    alloc: Global,
    job: Job,
    host: &mut H,
    out: &mut W,
    err: &mut Errors<E>,
) -> u8
    ensures { IsFinished (H.hosting host.old).is_watched
        (IsDeedOf H.Advice.explaining (hosted H.hosting H.Lines.echo host.old host.new) job.entry)
        (IsAppended W.contents out.old out.new) (IsTold E.contents err.old err.new) result }
{
    let is_watched = host.is_watched();
    match perform(alloc, job, host, out, err) {
        Ok(ending) => ending.status(),
        Err(stop) => {
            err.tell_stop(&stop);
            explain_stop(alloc, host, job, &stop, is_watched, err);
            stop.status()
        }
    }
}

/// Does what the words of a command ask for, and answers the exit status.
fn answer<H: Advises, W: Write, E: Write>(
    alloc: Global,
    words: &[&str],
    host: &mut H,
    out: &mut W,
    err: &mut Errors<E>,
) -> u8
    ensures { AnswersWords (hosted H.hosting H.Lines.echo host.old host.new)
        (IsDeedOf H.Advice.explaining (hosted H.hosting H.Lines.echo host.old host.new)) (texts_of words.now)
        (IsAppended W.contents out.old out.new) (IsTold E.contents err.old err.new) result }
{
    match job_of(alloc, words) {
        Ok(job) => finish(alloc, job, host, out, err),
        Err(usage) => {
            err.tell_usage(&usage);
            usage.status()
        }
    }
}

/// Explains the inputs of a command, and answers the exit status.
fn explain_inputs<H: Advises, W: Write, E: Write>(
    alloc: Global,
    words: &[&str],
    host: &H,
    out: &mut W,
    err: &mut Errors<E>,
) -> u8
    ensures { AnswersWords (hosted H.hosting H.Lines.echo host.now host.now)
        (IsAccountOf (H.hosting host.now)) (texts_of words.now)
        (IsAppended W.contents out.old out.new) (IsTold E.contents err.old err.new) result }
{
    match job_of(alloc, words) {
        Ok(job) => finish_account(alloc, job, host, out, err),
        Err(usage) => {
            err.tell_usage(&usage);
            usage.status()
        }
    }
}

/// Tells who calls the program without words, at a terminal, what it waits for.
fn tell_note<H: Host, E: Write>(words: &[&str], host: &H, err: &mut Errors<E>)
    ensures { IsNoted (H.hosting host.now) (texts_of words.now) (IsTold E.contents err.old err.new) }
{
    if words.len() < 2 && host.is_terminal() && host.is_watched() {
        err.tell(NOTE.as_bytes());
    } else {
        err.tell(b"");
    }
}

/// Does what the words ask for, and answers the exit status: 0 all well, 1 a transaction has no certificate or none
/// that holds, an input
/// that is explained is refused or its store is not opened, or a shell's opening was denied or a line of it refused, or
/// a line of a desk
/// was not read, 2 an input or the command line was refused, 3 store, writing or memory. Files are read in the order
/// policy, schemes, transactions, certificates, script,
/// store, and nothing runs before all were accepted.
pub fn act<H: Advises, W: Write, E: Write>(
    alloc: Global,
    words: &[&str],
    host: &mut H,
    out: &mut W,
    err: &mut Errors<E>,
) -> u8
    ensures { IsOutcomeOf H.Advice.explaining (hosted H.hosting H.Lines.echo host.old host.new) (texts_of words.now)
        (IsAppended W.contents out.old out.new) (IsTold E.contents err.old err.new) result }
{
    tell_note(words, host, err);
    match explained_of(alloc, words) {
        Ok(Some(asked)) => explain_inputs(alloc, &asked, host, out, err),
        Ok(None) => answer(alloc, words, host, out, err),
        Err(_) => {
            let usage = Usage::Memory;
            err.tell_usage(&usage);
            usage.status()
        }
    }
}
