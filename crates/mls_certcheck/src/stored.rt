//! Stored transactions, with a certificate or without.
ghost use Rattle.std.specs.Prelude.{◌≡◌};

use crate::certified::Certified;
use mls_translang::Tx;

/// A stored transaction.
#[derive(Drop)]
pub enum Stored {
    /// With a certificate, under which it was checked.
    Certified(Certified),
    /// Without one: it is never run.
    Plain(Tx),
}

impl Stored {
    ghost use Rattle.mls_certcheck.specs.Stored.{tx_of};

    /// The transaction.
    pub fn tx(&self) -> &Tx
        ensures { result.now ≡ tx_of self.now }
    {
        match self {
            Stored::Certified(certified) => certified.tx(),
            Stored::Plain(tx) => tx,
        }
    }
}
