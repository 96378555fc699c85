//! Why a line is refused, or what it asks for is not done, in sentences.
ghost use Rattle.std.specs.Prelude.{IfOk, string_bytes};
ghost use Rattle.mls_certcheck.specs.Site.{site_of};
ghost use Rattle.mls_runs.specs.Explaining.{Explaining};

use crate::denials::denial_text;
use crate::describing::asked_text;
use crate::refusals::{refusal_text, undone_text};
use crate::shell_session::{Fate, ShellSession};
use crate::telling::column_of;
use crate::typed::text_of;
use mls_advice::{Names, Slip, command_advice, form_at, typed_excerpt};
use mls_lattice::Policy;
use mls_scheme::Schemes;
use mls_script::{ScriptCause, ScriptFault};
use mls_sessions::{Notice, Stored};
use mls_translang::Event;
use std::alloc::{AllocError, Global};

const TOO_LONG: &str =
    "  A line has at most 1,048,575 bytes before its end. Nothing of this one was done.\n";

const NO_VERB: &str =
    "  A line begins with view, count, dump, insert, update, delete, all, call, audit or close. `help` has examples.\n";

const MORE_WORDS: &str =
    "  `describe` shows what is declared, and `quit` and `exit` end the shell too.\n";

const GREETING: &str =
    "  Type a command, `help` for examples, `describe` for what is declared, or `close` to leave.\n";

/// What can be asked for at a terminal beside the commands.
pub(crate) const MORE_HELP: &str = "\
help COMMAND                                                   tells how a command is typed
describe                                                       shows relations, transactions, your rights and the labels
describe SOD                                                   shows one relation, or one transaction
";

/// Who is told why: a session, at the policy, the schemes and the stored transactions that it is under.
#[derive(Drop)]
pub struct Listener<'a> {
    pub alloc: Global,
    pub policy: &'a Policy,
    pub schemes: &'a Schemes,
    pub stored: &'a [Stored],
    pub session: &'a ShellSession,
}

/// What is told beside all else where somebody reads standard error at a terminal.
///
/// Whoever tells it is given what a session has said and why that was not done, and has nothing else to tell of: no
/// content, and nothing
/// that is kept from one call to the next.
pub trait Explains {
    // What may be told.
    ghost explaining: { Explaining };

    /// What is told behind the opening of a session: why it was not done, or, to who types at a terminal, what can be
    /// typed.
    fn greeting(
        to: &Listener<'_>,
        events: &[Event],
        notice: Option<Notice>,
    ) -> Result<String, AllocError>
        ensures { IfOk result (λ text. explaining.greets
            (site_of to.now.policy.now to.now.schemes.now to.now.stored.now)
            to.now.session.now events.now notice (string_bytes text)) };

    /// What is told behind what is said of a line: why nothing was done of it, or what it asks for.
    fn words(
        to: &Listener<'_>,
        line: &[u8],
        fate: &Fate,
        notice: Option<Notice>,
    ) -> Result<String, AllocError>
        ensures { IfOk result (λ text. explaining.says (site_of to.now.policy.now to.now.schemes.now to.now.stored.now)
            to.now.session.now line.now fate.now notice (string_bytes text)) };
}

/// The sentences of this crate. Contracts know nothing of their words.
pub struct Advice;

impl Explains for Advice {
    ghost use Rattle.mls_runs.specs.Explaining.{any_text};

    ghost explaining = { any_text };

    fn greeting(
        to: &Listener<'_>,
        events: &[Event],
        notice: Option<Notice>,
    ) -> Result<String, AllocError> {
        to.opening_text(events, notice)
    }

    fn words(
        to: &Listener<'_>,
        line: &[u8],
        fate: &Fate,
        notice: Option<Notice>,
    ) -> Result<String, AllocError> {
        to.line_text(line, fate, notice)
    }
}

impl Listener<'_> {
    /// What is told behind the opening: why it was not done, or, to who types at a terminal, what can be typed.
    fn opening_text(&self, events: &[Event], notice: Option<Notice>) -> Result<String, AllocError> {
        if notice.is_none() && self.session.has_prompt {
            return String::from_str(self.alloc, GREETING);
        }
        self.event_text(events, notice)
    }

    /// Why an event was not done, where somebody reads that.
    fn event_text(&self, events: &[Event], notice: Option<Notice>) -> Result<String, AllocError> {
        match (events.first(), notice) {
            (Some(event), Some(notice)) if self.session.is_watched => self.notice_text(
                event, notice,
            ),
            _ => Ok(String::new(self.alloc)),
        }
    }

    fn notice_text(&self, event: &Event, notice: Notice) -> Result<String, AllocError> {
        match notice {
            Notice::Denied(denial) => denial_text(self, &event.command, denial),
            Notice::Refused(outcome) => refusal_text(self, &event.command, outcome),
            Notice::Undone { number, outcome } => {
                undone_text(self, &event.command, number, outcome)
            }
        }
    }

    /// What is told behind what is said of a line: why nothing was done of it, or what it asks for.
    fn line_text(
        &self,
        line: &[u8],
        fate: &Fate,
        notice: Option<Notice>,
    ) -> Result<String, AllocError> {
        match fate {
            Fate::Said(events) => self.event_text(events, notice),
            Fate::Refused(fault) if self.session.is_watched => self.fault_text(line, fault),
            Fate::TooLong if self.session.is_watched => String::from_str(self.alloc, TOO_LONG),
            Fate::Asked => asked_text(self, line),
            Fate::Help if self.session.has_prompt => String::from_str(self.alloc, MORE_HELP),
            _ => Ok(String::new(self.alloc)),
        }
    }

    /// The line with a caret where it goes wrong, what could stand there, and what to do.
    fn fault_text(&self, line: &[u8], fault: &ScriptFault) -> Result<String, AllocError> {
        let column = column_of(self.session, fault.column);
        let mut text = typed_excerpt(self.alloc, column, line)?;
        let whole = text_of(self.alloc, self.session, line)?;
        if let ScriptCause::Expected = fault.cause {
            self.form_to(&mut text, &whole)?;
        }
        let names = Names {
            alloc: self.alloc,
            policy: self.policy,
            schemes: self.schemes,
        };
        let slip = Slip {
            code: fault.cause.code(),
            line: 1,
            column: fault.column,
            bytes: &whole,
        };
        text.push_str(&command_advice(names, slip)?)?;
        Ok(text)
    }

    /// Appends the form of the command in a line.
    fn form_to(&self, text: &mut String, whole: &[u8]) -> Result<(), AllocError> {
        match form_at(1, whole).split_once("LABEL SESSION ") {
            Some((_, form)) => write!(text, "  The form: {form}"),
            None if self.session.has_prompt => {
                text.push_str(NO_VERB)?;
                text.push_str(MORE_WORDS)
            }
            None => text.push_str(NO_VERB),
        }
    }
}
