//! What there is to explain of an answer.
ghost use Rattle.std.specs.Prelude.{◌≡◌};
ghost use Rattle.mls_sessions.specs.Run.{notice_of, last_of};

use mls_machine::{Denial, Reply};
use mls_updates::Outcome;

/// Why an event was not done.
#[derive(Clone, Copy)]
pub enum Notice {
    Denied(Denial),
    /// A write was refused: the outcome is none that is done.
    Refused(Outcome),
    /// A command of a batch was refused, by its number, from 1, and so none of them is done.
    Undone { number: usize, outcome: Outcome },
}

/// Why an event with this reply was not done. What became of the statements of a call is no part of that.
fn notice_of(reply: &Reply) -> Option<Notice>
    ensures { result ≡ notice_of reply.now }
{
    match reply {
        Reply::Denied(denial) => Some(Notice::Denied(*denial)),
        Reply::Wrote(outcome) if !outcome.is_done() => Some(Notice::Refused(*outcome)),
        Reply::Undone { number, outcome } => Some(Notice::Undone {
            number: *number,
            outcome: *outcome,
        }),
        _ => None,
    }
}

/// Why the last event that was not done was not, from what is known of the events before one with this reply.
pub(crate) fn next_notice(earlier: Option<Notice>, reply: &Reply) -> Option<Notice>
    ensures { result ≡ last_of (notice_of reply.now) earlier }
{
    match notice_of(reply) {
        Some(notice) => Some(notice),
        None => earlier,
    }
}
