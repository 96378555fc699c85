//! Scripts that are run over a database: over an empty one in memory, or over that of a store.
ghost use Rattle.std.specs.Prelude.{◌≡◌, [], refl};
ghost use Rattle.mls_sessions.specs.Access.{ArePermitted};
ghost use Rattle.mls_sessions.specs.Engine.{IsAtRest, Leaves};
ghost use Rattle.mls_host.specs.Hosting.{hosted, IsAppended};
ghost use Rattle.mls_host.specs.Stopping.{IsCaused};
ghost use Rattle.mls_host.specs.Causes.{IsNotBegun};
ghost use Rattle.mls_host.specs.Reading.{FitSetting};
ghost use Rattle.mls_host.specs.Words.{named};
ghost use Rattle.mls_host.specs.Stop.{IsEnd};
ghost use Rattle.mls_runs.specs.Running.{IsRun};
ghost use Rattle.mls_certcheck.specs.Site.{site_of};
ghost use Rattle.mls_runs.specs.ScriptRun.{MayRun, IsScriptRun};

use crate::form::form_of;
use crate::work::{Work, over_store};
use mls_filterview::Base;
use mls_host::{Host, Inputs, Stop, stored_of};
use mls_lattice::{Items, Policy};
use mls_machine::Audience;
use mls_scheme::Schemes;
use mls_sessions::{Engine, RunFault, Stored, run_to};
use mls_translang::Event;
use std::alloc::Global;
use std::io::Write;

/// Answers events over a base, for an audience, and gives the base back.
pub fn run_over_base<B: Base, W: Write>(
    alloc: Global,
    policy: &Policy,
    schemes: &Schemes,
    stored: Items<Stored>,
    base: B,
    events: &[Event],
    audience: Audience,
    out: &mut W,
) -> (Result<(), RunFault>, B)
    requires may { MayRun (site_of policy.now schemes.now stored) audience events.now }
    requires rest { IsAtRest B.seen policy.now schemes.now base }
    ensures leaves { Leaves B.seen base result.1 result.0 }
    ensures access { ArePermitted B.seen (site_of policy.now schemes.now stored) events.now base result.1 }
    ensures run { (B.seen result.1).is_clean → IsRun (site_of policy.now schemes.now stored) audience events.now
        (IsAppended W.contents out.old out.new) result.0 (B.seen base).state.now (B.seen result.1).state.now }
{
    let mut engine = Engine::new(alloc, base, policy, schemes, stored);
    let outcome = run_to(&mut engine, events, audience, out);
    (outcome, engine.finish())
}

/// A script: events that are answered for an audience.
#[derive(Drop)]
pub(crate) struct Script<'e, 'o, W: Write> {
    events: &'e [Event],
    audience: Audience,
    out: &'o mut W,
}

impl<'e, 'o, W: Write> Work for Script<'e, 'o, W> {
    type End = ();

    ghost may = { λ w site. MayRun site w.audience w.events.now };

    ghost leads = { λ old new site end first left. IsRun site old.audience old.events.now
        (IsAppended W.contents old.out.now new.out.now) end first left };

    ghost answered = { λ old new site events. events ≡ old.events.now };

    ghost is_same = { λ old new. new.out.ghost_name ≡ old.out.ghost_name };

    ghost keeps_streams = { λ w. refl };

    fn over<B: Base>(
        &mut self,
        alloc: Global,
        policy: &Policy,
        schemes: &Schemes,
        stored: Items<Stored>,
        base: B,
    ) -> (Result<(), RunFault>, B) {
        let (events, audience) = (self.events, self.audience);
        run_over_base(
            alloc, policy, schemes, stored, base, events, audience, self.out,
        )
    }
}

/// Runs the events of a job over what it stores, for its reader alone where there is one.
pub fn run_script<H: Host, W: Write>(
    alloc: Global,
    host: &mut H,
    store: Option<&str>,
    inputs: Inputs,
    is_table: bool,
    out: &mut W,
) -> Result<(), Stop>
    requires { FitSetting inputs.setting inputs.transactions inputs.events }
    ensures run { IsEnd (IsScriptRun (hosted H.hosting H.Lines.echo host.old host.new) inputs
        (named store.entry) is_table
        (IsAppended W.contents out.old out.new))
        (λ reason. IsNotBegun (H.hosting host.new) inputs.setting.policy inputs.setting.file (named store.entry) reason
        × IsAppended W.contents out.old out.new []) result }
    ensures caused { IsCaused (hosted H.hosting H.Lines.echo host.old host.new) (named store.entry) result }
{
    let Inputs {
        setting,
        transactions,
        certificates,
        events,
    } = inputs;
    let stored = stored_of(alloc, &setting.policy, transactions, &certificates)?;
    let mut script = Script {
        events: &events,
        audience: Audience {
            reader: setting.reader,
            form: form_of(is_table),
        },
        out,
    };
    over_store(alloc, host, store, &setting, stored, &mut script)
}
