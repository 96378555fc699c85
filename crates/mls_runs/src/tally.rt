//! What is counted of the lines of a shell.
ghost use Rattle.std.specs.Prelude.{◌≡◌, ◌+◌, ◌<◌, ◌^◌, not, is_some};
ghost use Rattle.mls_runs.specs.Shell.{verdict_of, is_short};
ghost use Rattle.mls_runs.specs.Tally.{tally_with};

use crate::shell_session::Fate;
use mls_host::Tally;
use mls_sessions::Notice;

/// What is counted before the first line.
pub(crate) const NO_LINES: Tally = Tally {
    lines: 0,
    refused: 0,
    misunderstood: 0,
};

/// What is counted of a line.
#[derive(Clone, Copy)]
pub enum Verdict {
    /// It says nothing.
    Silent,
    /// All that it asks for is done.
    Done,
    /// Something that it asks for is denied or refused.
    Refused,
    /// It is no command, or was not read.
    Misunderstood,
}

/// What is counted of a line whose events are all done, or not.
fn verdict_of(is_done: bool, fate: &Fate) -> Verdict
    ensures { result ≡ verdict_of is_done fate.now }
{
    match fate {
        Fate::Over | Fate::Blank | Fate::Lost(_) => Verdict::Silent,
        Fate::Help | Fate::Asked => Verdict::Done,
        Fate::Said(_) => if is_done {
            Verdict::Done
        } else {
            Verdict::Refused
        },
        Fate::Refused(_) | Fate::TooLong | Fate::Unreadable => Verdict::Misunderstood,
    }
}

/// A tally, and a line more, of which it is known why not all was done.
pub(crate) fn tally_with(tally: Tally, fate: &Fate, notice: Option<Notice>) -> Tally
    requires lines { tally.lines + 1 < 2 ^ 64 }
    requires refused { tally.refused + 1 < 2 ^ 64 }
    requires misunderstood { tally.misunderstood + 1 < 2 ^ 64 }
    ensures { result ≡ tally_with tally (verdict_of (not (is_some notice)) fate.now) }
{
    match verdict_of(notice.is_none(), fate) {
        Verdict::Silent => tally,
        Verdict::Done => Tally {
            lines: tally.lines + 1,
            ..tally
        },
        Verdict::Refused => Tally {
            lines: tally.lines + 1,
            refused: tally.refused + 1,
            ..tally
        },
        Verdict::Misunderstood => Tally {
            lines: tally.lines + 1,
            misunderstood: tally.misunderstood + 1,
            ..tally
        },
    }
}

/// Whether not all lines are done.
pub(crate) fn is_short(tally: &Tally) -> bool
    ensures { result ≡ is_short tally.now }
{
    tally.refused > 0 || tally.misunderstood > 0
}
