//! Shells over a database: over an empty one in memory, or over that of a store.
ghost use Rattle.std.specs.Prelude.{◌≡◌, ◌∷◌, [], true, IfOk, refl};
ghost use Rattle.mls_lattice.specs.Name.{is_name};
ghost use Rattle.mls_host.specs.Hosting.{hosted, IsAppended, IsTold};
ghost use Rattle.mls_host.specs.Stopping.{IsCaused};
ghost use Rattle.mls_host.specs.Words.{named};
ghost use Rattle.mls_host.specs.Stop.{IsEnd};
ghost use Rattle.mls_host.specs.Reading.{FitSetting};
ghost use Rattle.mls_runs.specs.Access.{AreEventsOf};
ghost use Rattle.mls_runs.specs.Shell.{opening, MayTalk, IsShell, IsShellFate};
ghost use Rattle.mls_runs.specs.ShellRun.{shell_session_of, IsShellRun, IsShellRefused};

use crate::explaining::Explains;
use crate::shell::shell_over_base;
use crate::shell_session::ShellSession;
use crate::typed::opening;
use crate::work::{Work, over_store};
use mls_filterview::Base;
use mls_host::{Ending, Errors, Host, Inputs, Reason, Stop, stored_of};
use mls_lattice::{Items, LabelNo, Policy, Str};
use mls_scheme::Schemes;
use mls_sessions::{RunFault, Stored};
use mls_tokens::TypedLines;
use mls_translang::Event;
use std::alloc::{AllocError, Global};
use std::io::Write;
use std::marker::PhantomData;

/// A shell: the opening of a session, and lines that are answered.
#[derive(Drop)]
pub(crate) struct Shell<'s, 'f, 'l, 'o, 'e, X: Explains, L: TypedLines, W: Write, E: Write> {
    explains: PhantomData<X>,
    session: &'s ShellSession,
    first: &'f [Event],
    lines: &'l mut L,
    out: &'o mut W,
    err: &'e mut Errors<E>,
}

impl<'s, 'f, 'l, 'o, 'e, X: Explains, L: TypedLines, W: Write, E: Write> Work
    for Shell<'s, 'f, 'l, 'o, 'e, X, L, W, E> {
    type End = Ending;

    ghost may = { λ w site. MayTalk site w.session.now w.first.now };

    ghost leads = { λ old new site end first left. IsShell X.explaining L.echo site old.session.now
        (L.remaining old.lines.now) (L.remaining new.lines.now) (L.breaks new.lines.now)
        (IsAppended W.contents old.out.now new.out.now)
        (IsTold E.contents old.err.now new.err.now) end first left };

    ghost answered = { λ old new site events. AreEventsOf L.echo
        (IsShellFate site.policy site.schemes old.session.now) (L.remaining old.lines.now) (L.remaining new.lines.now)
        events };

    ghost is_same = { λ old new. (new.lines.ghost_name ≡ old.lines.ghost_name)
        × (new.out.ghost_name ≡ old.out.ghost_name) × (new.err.ghost_name ≡ old.err.ghost_name) };

    ghost keeps_streams = { λ w. (refl, refl, refl) };

    fn over<B: Base>(
        &mut self,
        alloc: Global,
        policy: &Policy,
        schemes: &Schemes,
        stored: Items<Stored>,
        base: B,
    ) -> (Result<Ending, RunFault>, B) {
        let (session, first) = (self.session, self.first);
        shell_over_base::<X, B, L, W, E>(
            alloc, policy, schemes, stored, base, session, first, self.lines, self.out, self.err,
        )
    }
}

/// Who sits at a shell, by its words, and the event that opens the session.
fn seated(
    alloc: Global,
    label: &str,
    user: &str,
    level: LabelNo,
    has_prompt: bool,
    is_watched: bool,
) -> Result<(ShellSession, Vec<Event>), AllocError>
    ensures session { IfOk result (λ s. s.0 ≡ shell_session_of label.now user.now level has_prompt is_watched) }
    ensures first { IfOk result (λ s. s.1.items ≡ opening s.0 ∷ []) }
{
    let session = ShellSession {
        level,
        label: Str::copy_of(alloc, label)?,
        user: Str::copy_of(alloc, user)?,
        has_prompt,
        is_watched,
    };
    let first = opening(alloc, &session)?;
    Ok((session, first))
}

/// A shell for a user, at the label of a name, over what a job stores. The opening is made as an event and
/// never as text. The status is the same at a pipe and at a terminal, and tells no more than the replies do.
pub fn run_shell<X: Explains, H: Host, W: Write, E: Write>(
    alloc: Global,
    host: &mut H,
    store: Option<&str>,
    inputs: Inputs,
    label: &str,
    user: &str,
    out: &mut W,
    err: &mut Errors<E>,
) -> Result<Ending, Stop>
    requires fit { FitSetting inputs.setting inputs.transactions inputs.events }
    requires user { is_name user.now ≡ true }
    ensures shell { IsEnd (IsShellRun X.explaining (hosted H.hosting H.Lines.echo host.old host.new) inputs
        (named store.entry) label.now user.now (IsAppended W.contents out.old out.new)
        (IsTold E.contents err.old err.new))
        (λ reason. IsShellRefused (H.hosting host.new) inputs.setting (named store.entry) reason
        × IsAppended W.contents out.old out.new [] × IsTold E.contents err.old err.new []) result }
    ensures caused { IsCaused (hosted H.hosting H.Lines.echo host.old host.new) (named store.entry) result }
{
    let Inputs {
        setting,
        transactions,
        certificates,
        ..
    } = inputs;
    let level = match setting.reader {
        Some(level) => level,
        None => return Err(Stop::Before(Reason::Label)),
    };
    let stored = stored_of(alloc, &setting.policy, transactions, &certificates)?;
    let (session, first) = seated(
        alloc,
        label,
        user,
        level,
        host.is_terminal(),
        host.is_watched(),
    )?;
    let mut lines = host.lines();
    let explains: PhantomData<X> = PhantomData;
    let mut shell = Shell {
        explains,
        session: &session,
        first: &first,
        lines: &mut lines,
        out,
        err,
    };
    over_store(alloc, host, store, &setting, stored, &mut shell)
}
