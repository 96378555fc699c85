//! What sessions are answered.
ghost use Rattle.std.specs.Prelude.{◌≡◌};
ghost use Rattle.mls_machine.specs.Reply.{code_of, word_of};

use mls_audit::Entry;
use mls_certcheck::Run;
use mls_lattice::{Items, UserNo, words};
use mls_queries::Selection;
use mls_scheme::Tuple;
use mls_updates::Outcome;

/// Why a command is denied. A denial changes no tuple and no session.
#[derive(Clone, Copy, PartialEq, Eq, Debug)]
pub enum Denial {
    /// No such session is open.
    NoSession = 31,
    /// The session is open already.
    AlreadyOpen,
    /// The policy has no such user.
    UnknownUser,
    /// No transaction of the name is stored.
    UnknownTransaction,
    /// The transaction is stored without a certificate.
    NotCertified,
    /// The user lacks the mode that the command needs on its relation or transaction.
    Ds,
    /// The user's clearance does not dominate the level to open at, a label that the command names, or the highest
    /// label
    /// of what the transaction reads.
    Ss,
    /// The session's level does not dominate a label that the command names, or is not the transaction's lowest one.
    Star,
    /// The transaction reads above its lowest label, and the user is not trusted in an interval that has both ends.
    Trust,
    /// There are more or fewer arguments than parameters, or one at a parameter of the lowest label has the wrong kind.
    Arguments,
}

/// The names of the denials, in the order of their numbers.
static WORDS: [&str; 10] = words! {
    NoSession AlreadyOpen UnknownUser UnknownTransaction NotCertified Ds Ss Star Trust Arguments
};

impl Denial {
    /// The number of the denial.
    pub fn code(self) -> u8
        ensures { result ≡ code_of self }
    {
        self as u8
    }

    /// The name of the denial.
    pub fn word(self) -> &'static str
        ensures { result.now ≡ word_of self }
    {
        WORDS[self as usize - 31]
    }
}

/// What one of the commands of a batch is answered.
#[derive(Drop)]
pub enum Answer {
    /// What was found of a view, in the order of rows.
    Rows(Selection),
    /// What became of a write, or of what was expected.
    Became(Outcome),
}

/// What a command is answered.
#[derive(Drop)]
pub enum Reply {
    /// The session is open, for this user.
    Opened(UserNo),
    /// The session is open no more.
    Closed,
    /// What was found of a view, in the order of rows.
    Rows(Selection),
    /// The tuples of a relation whose classes the session's level dominates, in the order in which they can be made.
    Dumped(Items<Tuple>),
    /// What became of a write.
    Wrote(Outcome),
    /// What the transaction that was called gave.
    Ran(Run),
    /// The entries of the audit list that the session's level dominates, in order.
    Entries(Items<Entry>),
    /// The commands of a batch are done, and answered so, in order.
    Did(Items<Answer>),
    /// None of the commands of a batch is done: the one of this number, from 1, is refused.
    Undone { number: usize, outcome: Outcome },
    Denied(Denial),
}
