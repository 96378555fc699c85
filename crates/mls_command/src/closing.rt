//! Stores that are closed, and what their files keep then; and what comes back of those that are not opened.
ghost use Rattle.std.specs.Prelude.{◌≡◌, ◌↔◌, Bool, false, IsErr};
ghost use Rattle.mls_tables.specs.Store.{IsClean};
ghost use Rattle.mls_tables.specs.declared.rows.MetaRow.{MetaRow};
ghost use Rattle.mls_fragments.specs.Based.{state_of};
ghost use Rattle.mls_fragments.specs.Holdings.{Holdings, holdings_of};
ghost use Rattle.mls_fragments.specs.declared.open_fault.OpenFault.{OpenFault};
ghost use Rattle.mls_lattice.specs.Policy.{Policy};
ghost use Rattle.mls_scheme.specs.declared.file.SchemesFile.{SchemesFile};
ghost use Rattle.mls_fragments.specs.Opening.{IsFoundUnadopted};
ghost use Rattle.mls_command.specs.Closing.{KeepIn};
ghost use Rattle.sqlite.specs.Recovery.{Image};

use mls_fragments::{SqlBase, let_go};
use mls_host::CloseFault;
use sqlite::{Connection, FileStore, Files};
use sqlite_disk::Disk;

/// What is given back of a store that is not opened.
pub trait Refused {
    // Why it is not, under a policy and schemes: in its files this was found.
    ghost bars: { Self → Image → Policy → SchemesFile → OpenFault → Type 0 };

    /// Lets it go. What is given back of files is dearer to drop, in a proof, than these.
    fn let_go(self);
}

impl<D: Disk + Drop> Refused for Connection<FileStore<D>> {
    ghost bars = { λ conn image policy file e. IsFoundUnadopted policy file image e conn };

    fn let_go(self) {
        let _files = let_go(self);
    }
}

/// What is left of a store.
pub trait Left {
    // What it keeps, by whether the connection was open that was to be closed.
    ghost keeps: { Self → Bool → Holdings → Type 0 };

    // The store was not closed.
    ghost is_open: { Self → Type 0 };
}

/// The files of a store that was closed, or could not be.
#[derive(Drop)]
pub struct LeftFiles<D: Disk + Drop> {
    files: Files<D>,
    is_closed: bool,
}

impl<D: Disk + Drop> Left for LeftFiles<D> {
    ghost keeps = { λ l is_open h. KeepIn D.Disk is_open l.is_closed l.files h };

    ghost is_open = { λ l. l.is_closed ≡ false };
}

/// Closes the store of a base.
pub fn close<D: Disk + Drop>(store: SqlBase<FileStore<D>>) -> (Result<(), CloseFault>, LeftFiles<D>)
    requires idle { (state_of store).begun ≡ false }
    ensures kept { IsClean store.tables → (row : MetaRow)
        × KeepIn D.Disk store.tables.is_open result.1.is_closed result.1.files
        (holdings_of row (state_of store).now) }
    ensures closed { (result.1.is_closed ≡ false) ↔ IsErr result.0 }
{
    match store.close_files() {
        Ok(files) => (
            Ok(()),
            LeftFiles {
                files,
                is_closed: true,
            },
        ),
        Err((_, files)) => (
            Err(CloseFault),
            LeftFiles {
                files,
                is_closed: false,
            },
        ),
    }
}
