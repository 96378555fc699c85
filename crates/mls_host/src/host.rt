//! What a command asks of the machine that it runs on.
ghost use Rattle.std.specs.Prelude.{◌≡◌, ℕ, ◌<◌, ◌≤◌, ◌↔◌, false, Some, None, length, IfOk, IfErr, OnErr, IsErr, IfSome};
ghost use Rattle.mls_scheme.specs.Scheme.{AreUnder};
ghost use Rattle.mls_audit.specs.Sound.{IsSoundContent};
ghost use Rattle.mls_fragments.specs.Holdings.{holdings_of, IsTakenOf};
ghost use Rattle.mls_tables.specs.declared.rows.MetaRow.{MetaRow};
ghost use Rattle.mls_host.specs.Hosting.{Hosting, AreNowhere, KeepSame};

use mls_filterview::Base;
use mls_fragments::OpenFault;
use mls_lattice::Policy;
use mls_scheme::SchemesFile;
use mls_tokens::{MOST_BYTES, TypedLines};
use std::alloc::Global;
use std::io::{ErrorKind, Read};

/// Why an input is not read.
#[derive(Clone, Copy)]
pub enum HostFault {
    Unreadable,
    TooLong,
    Memory,
}

/// A store was not closed: what was committed is in its log alone.
#[derive(Clone, Copy)]
pub struct CloseFault;

/// The bytes of the two files of a store.
#[derive(Drop)]
pub struct StoreFiles {
    pub log: Vec<u8>,
    pub db: Vec<u8>,
}

/// Why the files of a store are not read.
#[derive(Clone, Copy)]
pub enum StoreCause {
    /// The folder of its path is not there.
    NoFolder,
    /// They may not be read and written.
    NoRight,
    /// What stands at the path is no plain file of one name.
    NoFile,
    /// Another process has the store open.
    InUse,
    /// SQLite left a journal beside the file, which it alone can play back.
    Journal,
    /// Reading failed for another reason.
    Unreadable,
    Memory,
}

/// Where inputs come from, and where stores are.
///
/// Contracts see which bytes a host gives for the file at a path, and, with no path, for the standard input, and why it
/// gives none;
/// what is typed there, whether reading that may fail, and whether it is a terminal, as standard error may be; what the
/// store at a path
/// keeps, and why it was not opened; which bytes its files are shown to have, and why they are not shown; and of the
/// store which it took back last, whether it was
/// clean, whether a call of it failed, whether it was closed, and the labels at which it was read, and changed, since
/// it was opened.
/// Why a store was not opened is asked of the host that has tried to: only what was found then tells it.
/// Whether a call of the store failed is asked of the store that it took back last, and not how many; the failed calls
/// of an opening count too. Whether there is a terminal is asked when the host is made, and kept: a contract can name a
/// field, and not what a stream would answer.
pub trait Host {
    ghost hosting: { Self → Hosting };

    /// Where the content of a store is worked on.
    type Store: Base;

    /// What a shell reads.
    type Lines: TypedLines + Drop;

    /// The bytes of a file, which a path names.
    fn file(&self, alloc: Global, path: &str) -> Result<Vec<u8>, HostFault>
        ensures given { IfOk result (λ bytes. (hosting self.now).gives (Some path.now) bytes.items) }
        ensures lacking { IfErr result ((hosting self.now).lacks (Some path.now)) };

    /// The bytes of the standard input.
    fn input(&self, alloc: Global) -> Result<Vec<u8>, HostFault>
        ensures given { IfOk result (λ bytes. (hosting self.now).gives None bytes.items) }
        ensures lacking { IfErr result ((hosting self.now).lacks None) };

    /// The lines of the standard input. Whatever is read of them, reading fails only where the host says that it may.
    fn lines(&self) -> Self::Lines
        ensures typed { (hosting self.now).types (Self.Lines.remaining result) }
        ensures broken { (later : Self.Lines) → Self.Lines.breaks later → (hosting self.now).breaks };

    /// Whether somebody types them at a terminal.
    fn is_terminal(&self) -> bool
        ensures { result ≡ (hosting self.now).is_terminal };

    /// Whether somebody reads standard error at a terminal: then more is told there of what is refused.
    fn is_watched(&self) -> bool
        ensures { result ≡ (hosting self.now).is_watched };

    /// Opens the store at a path, which is made where there is none. What it kept is taken as it was, or, where these
    /// files are later
    /// ones than its own, with its relations widened. One that is refused keeps what it kept.
    fn store(
        &mut self,
        alloc: Global,
        path: &str,
        policy: &Policy,
        file: &SchemesFile,
    ) -> Result<Self::Store, OpenFault>
        requires under { AreUnder (length policy.now.labels) file.now.schemes }
        ensures idle { IfOk result (λ b. (Self.Store.Base.seen b).state.begun ≡ false) }
        ensures fresh { IfOk result (λ b. AreNowhere (Self.Store.Base.seen b).asked (Self.Store.Base.seen b).changed) }
        ensures sound { IfOk result (λ b. IsSoundContent policy.now file.now.schemes
            (Self.Store.Base.seen b).state.now) }
        ensures kept { IfOk result (λ b. (Self.Store.Base.seen b).is_clean
            → IsTakenOf ((hosting self.old).keeps path.now) policy.now file.now (Self.Store.Base.seen b).state.now) }
        ensures barred { IfErr result ((hosting self.new).bars path.now policy.now file.now) }
        ensures same { OnErr result (KeepSame (hosting self.old) (hosting self.new)) };

    /// The bytes of the files of the store at a path, which stay as they are: no bytes, where there is none yet.
    fn store_files(&self, alloc: Global, path: &str) -> Result<StoreFiles, StoreCause>
        ensures shown { IfOk result (λ files. (hosting self.now).shows path.now files.log.items files.db.items) }
        ensures hidden { IfErr result ((hosting self.now).hides path.now) };

    /// Takes the store at a path back, with what a run left in it, and closes it.
    fn keep(&mut self, path: &str, store: Self::Store) -> Result<(), CloseFault>
        requires idle { (Self.Store.Base.seen store).state.begun ≡ false }
        ensures honest { (hosting self.new).is_honest ↔ (Self.Store.Base.seen store).is_clean }
        ensures kept { (hosting self.new).is_honest → (row : MetaRow) × (hosting self.new).keeps path.now
            (holdings_of row (Self.Store.Base.seen store).state.now) }
        ensures failed { (hosting self.new).has_failed ↔ (0 < (Self.Store.Base.seen store).failures) }
        ensures closed { (hosting self.new).is_unclosed ↔ IsErr result }
        ensures asked { (m : ℕ) → (hosting self.new).asked m ↔ (Self.Store.Base.seen store).asked m }
        ensures changed { (m : ℕ) → (hosting self.new).changed m ↔ (Self.Store.Base.seen store).changed m };
}

/// All bytes of a reader, where they are at most `MOST_BYTES`. `TooLong` where there are more; a reader that fails
/// tells nobody why.
pub fn read_whole<R: Read + Drop>(alloc: Global, reader: R) -> Result<Vec<u8>, HostFault>
    ensures bound { IfOk result (λ bytes. length bytes.items ≤ 1048576) }
    ensures whole { IfOk result (λ bytes. IfSome (R.remaining reader) (λ all. bytes.items ≡ all)) }
    ensures long { IfErr result (λ e. e ≡ HostFault.TooLong → IfSome (R.remaining reader) (λ all. 1048576
        < length all)) }
{
    let mut bytes = Vec::new(alloc);
    match reader.take(MOST_BYTES as u64 + 1).read_to_end(&mut bytes) {
        Ok(_) if bytes.len() > MOST_BYTES => Err(HostFault::TooLong),
        Ok(_) => Ok(bytes),
        Err(e) if e.kind() == ErrorKind::OutOfMemory => Err(HostFault::Memory),
        Err(_) => Err(HostFault::Unreadable),
    }
}
