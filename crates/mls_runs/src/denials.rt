//! Why a command is denied, and what to do.
use crate::explaining::Listener;
use crate::words::{clearance, first_beyond, label_name, relation_name, trusted};
use bitflags::Flags;
use mls_lattice::{LabelNo, Modes};
use mls_machine::Denial;
use mls_scheme::{RelNo, Value, Write};
use mls_translang::{Command, One};
use std::alloc::AllocError;

const NO_SESSION: &str = "  The session is not open.\n";

const ALREADY_OPEN: &str = "  The session is open already. Go on in it, or close it.\n";

const NOT_DONE: &str = "  Nothing of the batch is done.\n";

/// What is done to a relation, with the labels that it names beside the session's own.
#[derive(Clone, Copy)]
enum Deed {
    Looks(LabelNo),
    Inserts,
    Changes(LabelNo, LabelNo),
}

fn deed_of_write(write: &Write<Option<Value>>) -> Deed {
    match write {
        Write::Insert { .. } => Deed::Inserts,
        Write::Update {
            key_class,
            from,
            ..
        } => Deed::Changes(*key_class, *from),
        Write::Delete { key_class, .. } => Deed::Changes(*key_class, *key_class),
    }
}

fn deed_of_one(one: &One) -> (RelNo, Deed) {
    match one {
        One::View {
            relation,
            label,
            ..
        }
        | One::Expect {
            relation,
            label,
            ..
        } => (*relation, Deed::Looks(*label)),
        One::Write { relation, write } => (*relation, deed_of_write(write)),
    }
}

/// What a command does to a relation, if it does something to one; of a batch, what the first of its commands does that
/// is denied so.
fn deed_of(to: &Listener<'_>, command: &Command, denial: Denial) -> Option<(RelNo, Deed)> {
    match command {
        Command::View {
            relation,
            label,
            ..
        } => Some((*relation, Deed::Looks(*label))),
        Command::Dump { relation } => Some((*relation, Deed::Looks(to.session.level))),
        Command::Write { relation, write } => Some((*relation, deed_of_write(write))),
        Command::All(batch) => denied_deed(to, batch, denial),
        Command::Open(_) | Command::Close | Command::Audit | Command::Call { .. } => None,
    }
}

/// What the first of some commands does that is denied for this.
fn denied_deed(to: &Listener<'_>, batch: &[One], denial: Denial) -> Option<(RelNo, Deed)> {
    for one in batch {
        if is_denied(to, one, denial) {
            return Some(deed_of_one(one));
        }
    }
    None
}

fn is_denied(to: &Listener<'_>, one: &One, denial: Denial) -> bool {
    let (relation, deed) = deed_of_one(one);
    match denial {
        Denial::Ds => !has_right(to, relation, deed),
        Denial::Ss => match clearance(to.policy, to.session.user.as_str()) {
            Some(limit) => named_beyond(to, deed, limit).is_some(),
            None => false,
        },
        Denial::Star => named_beyond(to, deed, to.session.level).is_some(),
        _ => false,
    }
}

/// Why a command is denied.
pub(crate) fn denial_text(
    to: &Listener<'_>,
    command: &Command,
    denial: Denial,
) -> Result<String, AllocError> {
    let mut text = String::new(to.alloc);
    let deed = deed_of(to, command, denial);
    match denial {
        Denial::NoSession => text.push_str(NO_SESSION)?,
        Denial::AlreadyOpen => text.push_str(ALREADY_OPEN)?,
        Denial::UnknownUser => unknown_user_to(&mut text, to)?,
        Denial::Ds => no_right_to(&mut text, to, deed, called(command))?,
        Denial::Ss => not_cleared_to(&mut text, to, command, deed)?,
        Denial::Star => not_dominated_to(&mut text, to, command, deed)?,
        Denial::UnknownTransaction | Denial::NotCertified | Denial::Trust | Denial::Arguments =>
            call_to(&mut text, to, called(command), denial)?,
    }
    if let Command::All(_) = command {
        text.push_str(NOT_DONE)?;
    }
    Ok(text)
}

fn unknown_user_to(text: &mut String, to: &Listener<'_>) -> Result<(), AllocError> {
    let user = to.session.user.as_str();
    writeln!(text, "  The policy has no user {user}.")?;
    text.push_str("  Declare the user there, or spell the name as it is declared.\n")
}

/// The name of the transaction that a command calls.
fn called(command: &Command) -> &str {
    match command {
        Command::Call { tx, .. } => tx.as_str(),
        _ => "",
    }
}

/// What is done to a relation, and the modes of which one is wanted.
fn right_of(deed: Deed) -> (&'static str, &'static str) {
    match deed {
        Deed::Looks(_) => ("read", "no read and no write"),
        Deed::Inserts => ("write", "no append and no write"),
        Deed::Changes(..) => ("change", "no write"),
    }
}

/// A mode that is enough beside write.
fn mode_of(deed: Deed) -> Modes {
    match deed {
        Deed::Looks(_) => Modes::READ,
        Deed::Inserts => Modes::APPEND,
        Deed::Changes(..) => Modes::WRITE,
    }
}

/// Whether the session's user has a right to do something to a relation.
fn has_right(to: &Listener<'_>, relation: RelNo, deed: Deed) -> bool {
    match to.policy.user(to.session.user.as_str()) {
        Some(user) => {
            let granted = to.policy.modes(user, relation_name(to.schemes, relation));
            granted.contains(Modes::WRITE) || granted.contains(mode_of(deed))
        }
        None => false,
    }
}

fn no_right_to(
    text: &mut String,
    to: &Listener<'_>,
    deed: Option<(RelNo, Deed)>,
    called: &str,
) -> Result<(), AllocError> {
    match deed {
        Some((relation, deed)) => {
            let object = relation_name(to.schemes, relation);
            not_granted_to(text, to, object, right_of(deed))
        }
        None => not_granted_to(text, to, &*called, ("run", "no execute")),
    }
}

fn not_granted_to(
    text: &mut String,
    to: &Listener<'_>,
    object: &str,
    right: (&'static str, &'static str),
) -> Result<(), AllocError> {
    let user = to.session.user.as_str();
    let (done, modes) = right;
    write!(text, "  {user} has no right to {done} ")?;
    text.push_str(object)?;
    writeln!(text, ": the policy's matrix gives {user} {modes} on it.")
}

/// The label that is named and another does not dominate, the first if there are several.
fn named_beyond(to: &Listener<'_>, deed: Deed, limit: LabelNo) -> Option<LabelNo> {
    match deed {
        Deed::Looks(label) => first_beyond(to.policy, limit, &[label]),
        Deed::Inserts => None,
        Deed::Changes(key_class, from) => first_beyond(to.policy, limit, &[key_class, from]),
    }
}

/// The label that a command names, its own session's where it names none, and another does not dominate.
fn label_beyond(to: &Listener<'_>, deed: Option<(RelNo, Deed)>, limit: LabelNo) -> Option<LabelNo> {
    match deed {
        Some((_, deed)) => named_beyond(to, deed, limit),
        None => Some(to.session.level),
    }
}

fn not_cleared_to(
    text: &mut String,
    to: &Listener<'_>,
    command: &Command,
    deed: Option<(RelNo, Deed)>,
) -> Result<(), AllocError> {
    let user = to.session.user.as_str();
    let Some(limit) = clearance(to.policy, user) else {
        return Ok(());
    };
    let cleared = label_name(to.policy, limit);
    if let Command::Call { tx, .. } = command {
        let tx = tx.as_str();
        writeln!(
            text,
            "  {user} is cleared for {cleared}, which does not dominate the upper label of {tx}."
        )?;
        return text.push_str("  Another user has to call it.\n");
    }
    if let Some(label) = label_beyond(to, deed, limit) {
        let label = label_name(to.policy, label);
        writeln!(
            text,
            "  {user} is cleared for {cleared}, which does not dominate {label}."
        )?;
        writeln!(text, "  Name a label that {cleared} dominates.")?;
    }
    Ok(())
}

fn not_dominated_to(
    text: &mut String,
    to: &Listener<'_>,
    command: &Command,
    deed: Option<(RelNo, Deed)>,
) -> Result<(), AllocError> {
    let level = to.session.label.as_str();
    if let Command::Call { tx, .. } = command {
        let tx = tx.as_str();
        writeln!(
            text,
            "  {tx} runs only in a session at its lower label, and this one is at {level}."
        )?;
        return text.push_str("  Open a session at that label.\n");
    }
    if let Some(label) = label_beyond(to, deed, to.session.level) {
        let label = label_name(to.policy, label);
        writeln!(
            text,
            "  The session is at {level}, which does not dominate {label}: it sees nothing there."
        )?;
        writeln!(
            text,
            "  Name a label that {level} dominates, or open a session at {label}."
        )?;
    }
    Ok(())
}

/// Appends in which interval the user is trusted.
fn trusted_to(text: &mut String, to: &Listener<'_>) -> Result<(), AllocError> {
    let user = to.session.user.as_str();
    match trusted(to.policy, user) {
        Some((low, high)) => {
            let (low, high) = (label_name(to.policy, low), label_name(to.policy, high));
            writeln!(text, "  That of {user} is from {low} to {high}.")
        }
        None => writeln!(text, "  {user} has none."),
    }
}

/// Appends why a call is denied for what is stored, or for its arguments.
fn call_to(
    text: &mut String,
    to: &Listener<'_>,
    tx: &str,
    denial: Denial,
) -> Result<(), AllocError> {
    match denial {
        Denial::UnknownTransaction => {
            writeln!(text, "  No transaction {tx} is stored.")?;
            text.push_str(
                "  Give its file with --transactions, and its certificate with --certificates.\n",
            )
        }
        Denial::NotCertified => {
            writeln!(text, "  {tx} is stored without a certificate that holds.")?;
            text.push_str(
                "  `mldb certify` makes one, and `mldb check` tells why one does not hold.\n",
            )
        }
        Denial::Trust => {
            writeln!(text, "  {tx} may release what it reads.")?;
            text.push_str(
                "  It wants a user whose trusted interval in the policy has both of its labels.\n",
            )?;
            trusted_to(text, to)
        }
        _ => {
            writeln!(
                text,
                "  The arguments are not those of {tx}: it wants one for each parameter, of that parameter's kind."
            )?;
            writeln!(text, "  `describe {tx}` shows them, at a terminal.")
        }
    }
}
