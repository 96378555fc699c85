//! What is done over a database: over an empty one in memory, or over that of a store.
ghost use Rattle.std.specs.Prelude.{◌≡◌, List, Result};
ghost use Rattle.mls_filterview.specs.Content.{Content, no_content};
ghost use Rattle.mls_certcheck.specs.Site.{Site, site_of};
ghost use Rattle.mls_host.specs.Causes.{IsBarred};
ghost use Rattle.mls_host.specs.Hosting.{hosted};
ghost use Rattle.mls_host.specs.Stop.{IsEnd};
ghost use Rattle.mls_host.specs.Stopping.{IsCaused, IsCausedInMemory};
ghost use Rattle.mls_host.specs.Words.{named};
ghost use Rattle.mls_runs.specs.Access.{IsAccessedAs};
ghost use Rattle.mls_runs.specs.Work.{IsOverStore};
ghost use Rattle.mls_translang.specs.declared.event.Event.{Event};
ghost use Rattle.mls_translang.specs.declared.run_fault.RunFault.{RunFault as SpecRunFault};
ghost use Rattle.mls_sessions.specs.Access.{ArePermitted};
ghost use Rattle.mls_sessions.specs.Engine.{IsAtRest, Leaves};

use mls_filterview::Base;
use mls_fragments::{MemoryBase, OpenFault};
use mls_host::{Host, Reason, Setting, Stop, ended};
use mls_lattice::{Items, Policy};
use mls_scheme::Schemes;
use mls_sessions::{RunFault, Stored};
use std::alloc::{AllocError, Global};

/// What is done over a base. It holds the streams that it reads and writes.
pub(crate) trait Work {
    /// How it ends.
    type End: Drop;

    // What it may be done over.
    ghost may: { Self → Site → Type 0 };

    // It leads from one content to another, by what it was and is: what its streams had and have.
    ghost leads: { Self → Self → Site → Result Self.End SpecRunFault → Content → Content → Type 0 };

    // The events that it answered may be these, by what its streams had and have.
    ghost answered: { Self → Self → Site → List Event → Type 0 };

    // It holds the same streams.
    ghost is_same: { Self → Self → Type 0 };

    /// Does it, and gives the base back.
    fn over<B: Base>(
        &mut self,
        alloc: Global,
        policy: &Policy,
        schemes: &Schemes,
        stored: Items<Stored>,
        base: B,
    ) -> (Result<Self::End, RunFault>, B)
        requires may { may self.old (site_of policy.now schemes.now stored) }
        requires rest { IsAtRest B.seen policy.now schemes.now base }
        ensures same { is_same self.old self.new }
        ensures leaves { Leaves B.seen base result.1 result.0 }
        ensures access { (events : List Event)
            × answered self.old self.new (site_of policy.now schemes.now stored) events
            × ArePermitted B.seen (site_of policy.now schemes.now stored) events base result.1 }
        ensures led { (B.seen result.1).is_clean → leads self.old self.new
            (site_of policy.now schemes.now stored) result.0
            (B.seen base).state.now (B.seen result.1).state.now };

    ghost keeps_streams: { (w : Self) → is_same w w };
}

/// Does it over an empty database in memory.
fn in_memory<K: Work>(
    alloc: Global,
    setting: &Setting,
    stored: Items<Stored>,
    work: &mut K,
) -> Result<K::End, Stop>
    requires { K.may work.old (site_of setting.now.policy setting.now.file.schemes stored) }
    ensures same { K.is_same work.old work.new }
    ensures ends { IsEnd (λ end. (left : Content)
        × K.leads work.old work.new (site_of setting.now.policy setting.now.file.schemes stored) end no_content left)
        (λ reason. (reason ≡ Reason.Store OpenFault.Memory) × (work.new ≡ work.old)) result }
    ensures caused { IsCausedInMemory result }
{
    let base = match MemoryBase::open(alloc, &setting.policy, &setting.file) {
        Ok(base) => base,
        Err(AllocError) => return Err(Stop::Before(Reason::Store(OpenFault::Memory))),
    };
    let (outcome, left) = work.over(alloc, &setting.policy, &setting.file.schemes, stored, base);
    left.close();
    ended(outcome, Ok(()))
}

/// Does it over the database in a store of the host, or over an empty one in memory.
pub(crate) fn over_store<H: Host, K: Work>(
    alloc: Global,
    host: &mut H,
    store: Option<&str>,
    setting: &Setting,
    stored: Items<Stored>,
    work: &mut K,
) -> Result<K::End, Stop>
    requires { K.may work.old (site_of setting.now.policy setting.now.file.schemes stored) }
    ensures same { K.is_same work.old work.new }
    ensures ends { IsEnd (λ end. IsOverStore (hosted H.hosting H.Lines.echo host.old host.new)
        setting.now.policy setting.now.file
        (named store.entry) (K.leads work.old work.new (site_of setting.now.policy setting.now.file.schemes stored)) end
        × IsAccessedAs (H.hosting host.new) (site_of setting.now.policy setting.now.file.schemes stored)
        (K.answered work.old work.new (site_of setting.now.policy setting.now.file.schemes stored)) (named store.entry))
        (λ reason. IsBarred (H.hosting host.new) setting.now.policy setting.now.file (named store.entry) reason
        × (work.new ≡ work.old)) result }
    ensures caused { IsCaused (hosted H.hosting H.Lines.echo host.old host.new) (named store.entry) result }
{
    let path = match store {
        None => return in_memory(alloc, setting, stored, work),
        Some(path) => path,
    };
    let base = match host.store(alloc, path, &setting.policy, &setting.file) {
        Ok(base) => base,
        Err(fault) => return Err(Stop::Before(Reason::Store(fault))),
    };
    let (outcome, left) = work.over(alloc, &setting.policy, &setting.file.schemes, stored, base);
    let closed = host.keep(path, left);
    ended(outcome, closed)
}
