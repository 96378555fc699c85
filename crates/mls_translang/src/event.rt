//! What sessions do.
use crate::query::Query;
use mls_lattice::{Items, LabelNo, Str};
use mls_scheme::{RelNo, Value, Write};

/// A command of a session, which is named by its level and its name.
#[derive(Drop)]
pub struct Event {
    pub level: LabelNo,
    pub session: Str,
    /// When it was given, if its line tells it.
    pub time: Option<Str>,
    pub command: Command,
}

/// What a session is to do. Numbers of labels and relations are those of the policy and the schemes that the script
/// was read under.
#[derive(Drop)]
pub enum Command {
    /// Opens the session for the user of a name.
    Open(Str),
    /// Closes the session, so that it may be opened again.
    Close,
    /// Shows the entries of the audit list that the session's level dominates.
    Audit,
    /// Shows what a query finds of what is seen of a relation at a label.
    View {
        relation: RelNo,
        label: LabelNo,
        query: Query,
        /// Whether only the number of the rows that are found is told.
        counts: bool,
    },
    /// Shows the lines of a script that make again what the session's level sees of a relation.
    Dump {
        relation: RelNo,
    },
    /// Writes at the session's level.
    Write {
        relation: RelNo,
        write: Write<Option<Value>>,
    },
    /// Runs the transaction of a name on arguments. Whether it is stored, and whether they are its parameters', is left
    /// to the denials.
    Call {
        tx: Str,
        args: Items<Option<Value>>,
    },
    /// Does commands in order, each over what those before it left: all of them, or, where one is refused, none.
    All(Items<One>),
}

/// One of the commands of a batch.
#[derive(Drop)]
pub enum One {
    /// Shows what a query finds, as [`Command::View`] does.
    View {
        relation: RelNo,
        label: LabelNo,
        query: Query,
        /// Whether only the number of the rows that are found is told.
        counts: bool,
    },
    /// Is refused, unless a query finds so many rows.
    Expect {
        rows: usize,
        relation: RelNo,
        label: LabelNo,
        query: Query,
    },
    /// Writes at the session's level.
    Write {
        relation: RelNo,
        write: Write<Option<Value>>,
    },
}
