//! Desks over a database: over an empty one in memory, or over that of a store.
ghost use Rattle.std.specs.Prelude.{◌≡◌, [], refl};
ghost use Rattle.mls_host.specs.Words.{named};
ghost use Rattle.mls_host.specs.Causes.{IsNotBegun};
ghost use Rattle.mls_host.specs.Hosting.{hosted, IsAppended};
ghost use Rattle.mls_host.specs.Reading.{FitSetting};
ghost use Rattle.mls_host.specs.Stop.{IsEnd};
ghost use Rattle.mls_host.specs.Stopping.{IsCaused};
ghost use Rattle.mls_runs.specs.Access.{AreEventsOf};
ghost use Rattle.mls_runs.specs.Desk.{IsDesk, IsDeskFate};
ghost use Rattle.mls_sessions.specs.Engine.{MayServe};
ghost use Rattle.mls_runs.specs.DeskRun.{IsDeskRun};

use crate::desk::desk_over_base;
use crate::work::{Work, over_store};
use mls_filterview::Base;
use mls_host::{Ending, Host, Inputs, Stop, stored_of};
use mls_lattice::{Items, Policy};
use mls_scheme::Schemes;
use mls_sessions::{RunFault, Stored};
use mls_tokens::TypedLines;
use std::alloc::Global;
use std::io::Write;

/// A desk: lines that are answered.
#[derive(Drop)]
pub(crate) struct Desk<'l, 'o, L: TypedLines, W: Write> {
    lines: &'l mut L,
    out: &'o mut W,
}

impl<'l, 'o, L: TypedLines, W: Write> Work for Desk<'l, 'o, L, W> {
    type End = Ending;

    ghost may = { λ w site. MayServe site };

    ghost leads = { λ old new site end first left. IsDesk L.echo site (L.remaining old.lines.now)
        (L.remaining new.lines.now) (L.breaks new.lines.now) (IsAppended W.contents old.out.now new.out.now)
        end first left };

    ghost answered = { λ old new site events. AreEventsOf L.echo (IsDeskFate site.policy site.schemes)
        (L.remaining old.lines.now) (L.remaining new.lines.now) events };

    ghost is_same = { λ old new. (new.lines.ghost_name ≡ old.lines.ghost_name)
        × (new.out.ghost_name ≡ old.out.ghost_name) };

    ghost keeps_streams = { λ w. (refl, refl) };

    fn over<B: Base>(
        &mut self,
        alloc: Global,
        policy: &Policy,
        schemes: &Schemes,
        stored: Items<Stored>,
        base: B,
    ) -> (Result<Ending, RunFault>, B) {
        desk_over_base(alloc, policy, schemes, stored, base, self.lines, self.out)
    }
}

/// A desk over what a job stores. It is refused where a line could not be read.
pub fn run_desk<H: Host, W: Write>(
    alloc: Global,
    host: &mut H,
    store: Option<&str>,
    inputs: Inputs,
    out: &mut W,
) -> Result<Ending, Stop>
    requires { FitSetting inputs.setting inputs.transactions inputs.events }
    ensures desk { IsEnd (IsDeskRun (hosted H.hosting H.Lines.echo host.old host.new) inputs (named store.entry)
        (IsAppended W.contents out.old out.new))
        (λ reason. IsNotBegun (H.hosting host.new) inputs.setting.policy inputs.setting.file (named store.entry) reason
        × IsAppended W.contents out.old out.new []) result }
    ensures caused { IsCaused (hosted H.hosting H.Lines.echo host.old host.new) (named store.entry) result }
{
    let Inputs {
        setting,
        transactions,
        certificates,
        ..
    } = inputs;
    let stored = stored_of(alloc, &setting.policy, transactions, &certificates)?;
    let mut lines = host.lines();
    let mut desk = Desk {
        lines: &mut lines,
        out,
    };
    over_store(alloc, host, store, &setting, stored, &mut desk)
}
