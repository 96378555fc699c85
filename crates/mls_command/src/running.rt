//! What words ask for, done over the machine itself.
ghost use Rattle.mls_host.specs.Words.{texts_of};
ghost use Rattle.mls_host.specs.Hosting.{IsAppended, IsTold};
ghost use Rattle.mls_command.specs.AnsweringOver.{IsAnsweredOver};

use crate::act;
use crate::closing::{Left, LeftFiles, Refused};
use crate::machine::{FilesOf, Machine, Opens};
use mls_filterview::Base;
use mls_fragments::SqlBase;
use mls_host::Errors;
use sqlite::{Connection, FileFrom, FileStore, Start, Unknown};
use sqlite_disk::Disk;
use std::alloc::Global;
use std::io::Write;

/// Does what the words ask for over a machine, and answers the exit status.
fn answer<B: Base, L: Left + Drop, R: Refused, O: Opens<B, L, R> + Drop, W: Write, E: Write>(
    alloc: Global,
    words: &[&str],
    machine: &mut Machine<'_, B, L, R, O>,
    out: &mut W,
    err: &mut Errors<E>,
) -> u8
    ensures { IsAnsweredOver B.seen O.was_open O.image R.bars L.keeps L.is_open machine.old machine.new
        (texts_of words.now) (IsAppended W.contents out.old out.new) (IsTold E.contents err.old err.new) result }
{
    act(alloc, words, machine, out, err)
}

/// The same over a new machine.
fn answer_anew<B: Base, L: Left + Drop, R: Refused, O: Opens<B, L, R> + Drop, W: Write, E: Write>(
    rt: &HostRuntime,
    words: &[&str],
    stores: O,
    out: &mut W,
    err: &mut Errors<E>,
) -> u8 {
    let mut machine = Machine::<B, L, R, O>::new(rt, stores);
    answer(rt.alloc(), words, &mut machine, out, err)
}

/// The same over stores in files of a disk, and any base over them.
fn answer_over_files<
    B: Base,
    D: Disk + Drop,
    O: Opens<B, LeftFiles<D>, Connection<FileStore<D>>> + Drop,
    W: Write,
    E: Write,
>(rt: &HostRuntime, words: &[&str], stores: O, out: &mut W, err: &mut Errors<E>) -> u8 {
    answer_anew::<B, LeftFiles<D>, Connection<FileStore<D>>, O, W, E>(rt, words, stores, out, err)
}

/// The same, where the base is that over the rows of such a store.
fn answer_in_files<
    D: Disk + Drop,
    O: Opens<SqlBase<FileStore<D>>, LeftFiles<D>, Connection<FileStore<D>>> + Drop,
    W: Write,
    E: Write,
>(rt: &HostRuntime, words: &[&str], stores: O, out: &mut W, err: &mut Errors<E>) -> u8 {
    answer_over_files::<SqlBase<FileStore<D>>, D, O, W, E>(rt, words, stores, out, err)
}

/// Does what the words ask for over stores in files, whatever these held, and answers the exit status.
pub fn answer_in_any_files<F: Start, W: Write, E: Write>(
    rt: &HostRuntime,
    words: &[&str],
    start: F,
    out: &mut W,
    err: &mut Errors<E>,
) -> u8 {
    let stores = FilesOf {
        rt,
        start: Some(start),
    };
    answer_in_files::<FileFrom<F>, FilesOf<F>, W, E>(rt, words, stores, out, err)
}

/// Does what the words of a command line ask for, writes to standard output and standard error, and answers the exit
/// status.
pub fn run(rt: &HostRuntime, words: &[&str]) -> u8 {
    let (mut out, mut err) = (rt.stdout(), Errors::new(rt.stderr()));
    answer_in_any_files(rt, words, Unknown, &mut out, &mut err)
}
