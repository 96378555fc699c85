//! What a command other than a run prints on standard output, and tells on standard error.
ghost use Rattle.std.specs.Prelude.{◌≡◌, OnErr, IsOkAnd};
ghost use Rattle.mls_host.specs.Deed.{deed};
ghost use Rattle.mls_host.specs.declared.reason.Reason.TheVariants.{Memory};
ghost use Rattle.mls_command.specs.Printing.{IsListed, IsPrinting};

use mls_host::{Ending, Errors, Reason, Stop};
use mls_sessions::write_whole;
use std::alloc::AllocError;
use std::io::Write;

/// The texts that are printed and told, and how the command ends.
#[derive(Drop)]
pub struct Listing {
    /// What is printed.
    pub text: Vec<u8>,
    /// What is told.
    pub told: String,
    pub ending: Ending,
}

impl Listing {
    /// Prints the one text, and tells the other. `Output` where the first is not taken: then nothing is told.
    pub(crate) fn print<W: Write, E: Write>(
        &self,
        out: &mut W,
        err: &mut Errors<E>,
    ) -> Result<Ending, Stop>
        ensures print { IsPrinting (IsListed self.now) (λ reason. ⊥)
            (deed W.contents out.old out.new E.contents err.old err.new result) }
        ensures quiet { OnErr result (err.new ≡ err.old) }
    {
        if write_whole(out, &self.text).is_err() {
            return Err(Stop::Output);
        }
        err.tell(self.told.as_bytes());
        Ok(self.ending)
    }
}

/// Prints a listing, where there was memory for one.
/// It takes what could be made, or want of memory: a listing made beside the inputs of a job, with `?` at each, cost
/// six minutes of proof.
pub(crate) fn print_made<W: Write, E: Write>(
    made: Result<Listing, AllocError>,
    out: &mut W,
    err: &mut Errors<E>,
) -> Result<Ending, Stop>
    ensures { IsPrinting (λ text told end. IsOkAnd made (λ l. IsListed l text told end)) (λ reason. reason ≡ Memory)
        (deed W.contents out.old out.new E.contents err.old err.new result) }
{
    match made {
        Ok(listing) => listing.print(out, err),
        Err(_) => Err(Stop::Before(Reason::Memory)),
    }
}
