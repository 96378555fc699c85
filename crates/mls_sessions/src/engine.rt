//! The machine of sessions over a base.
ghost use Rattle.std.specs.Prelude.{◌≡◌, Some, None, is_some, IfOk};
ghost use Rattle.mls_translang.specs.Event.{EventFits};
ghost use Rattle.mls_machine.specs.Machine.{no_sessions};
ghost use Rattle.mls_certcheck.specs.Site.{site_of};
ghost use Rattle.mls_sessions.specs.Sessions.{sessions_of};
ghost use Rattle.mls_sessions.specs.World.{world_at};
ghost use Rattle.mls_sessions.specs.Access.{IsPermitted};
ghost use Rattle.mls_sessions.specs.Engine.{site, world_of, MayServe, IsAtRest, IsEngineReady, Answers};
ghost use Rattle.mls_machine.specs.Known.{HasKnownNumbers};

use crate::batch::do_batch;
use crate::change::{Effect, change};
use crate::denying::denial_of;
use crate::looking::{audit, dump, look};
use crate::notice::Notice;
use crate::session::{Session, close, open, user_of};
use crate::site::Site;
use mls_certcheck::Stored;
use mls_filterview::{Base, BaseFault};
use mls_lattice::{Items, LabelNo, Policy, UserNo};
use mls_machine::Reply;
use mls_queries::Views;
use mls_scheme::Schemes;
use mls_translang::{Command, Event};
use std::alloc::Global;

/// Sessions over a base, under a policy and its schemes. It keeps the views that were asked for last.
pub struct Engine<'a, B: Base> {
    pub(crate) site: Site<'a>,
    base: B,
    sessions: Vec<Session>,
    views: Views,
    pub(crate) notice: Option<Notice>,
}

impl<'a, B: Base> Engine<'a, B> {
    /// An engine with no session open. It takes no memory. The strings of the base's audit list are entries of declared
    /// labels; the stored transactions were read under the policy and the schemes, and those with certificates were
    /// checked under the policy. Where two have one name, the first is called.
    pub fn new(
        alloc: Global,
        base: B,
        policy: &'a Policy,
        schemes: &'a Schemes,
        stored: Items<Stored>,
    ) -> Engine<'a, B>
        requires serves { MayServe (site_of policy.now schemes.now stored) }
        requires rest { IsAtRest B.seen policy.now schemes.now base }
        ensures base { result.base ≡ base }
        ensures site { site result ≡ site_of policy.now schemes.now stored }
        ensures world { world_of B.seen result
            ≡ world_at (site_of policy.now schemes.now stored) no_sessions (B.seen base).state.now }
        ensures ready { IsEngineReady B.seen result }
    {
        policy.use_invariant();
        let site = Site {
            alloc,
            policy,
            schemes,
            stored,
        };
        Engine {
            site,
            base,
            sessions: Vec::new(alloc),
            views: Views::new(),
            notice: None,
        }
    }

    /// The base, with its content.
    pub fn finish(self) -> B
        ensures { result ≡ self.entry.base }
    {
        let Engine {
            base,
            site: _,
            sessions: _,
            views: _,
            notice: _,
        } = self;
        base
    }

    /// Whether the session of a level and a name is open.
    pub fn is_open(&self, level: LabelNo, name: &str) -> bool
        ensures { result ≡ is_some ((world_of B.seen self.now).sessions level name.now) }
    {
        user_of(&self.sessions, level, name).is_some()
    }

    /// Why the last event of the last run that was not done was not, where there is one.
    pub fn notice(&self) -> Option<Notice>
        ensures { result ≡ self.now.notice }
    {
        self.notice
    }

    /// What is stored of the transactions.
    pub fn stored(&self) -> &[Stored]
        ensures { result.now ≡ (site self.now).stored }
    {
        &self.site.stored
    }

    /// Answers an event whose session is not open. It asks nothing of the base.
    fn outside(&mut self, event: &Event) -> Result<Reply, BaseFault>
        requires ready { IsEngineReady B.seen self.old }
        requires fits { EventFits (site self.old).policy (site self.old).schemes event.now }
        requires closed { sessions_of self.old.sessions.items event.now.level event.now.session ≡ None }
        ensures answers { Answers B.seen self.old event.now self.new result }
        ensures access { IsPermitted B.seen (site self.old) event.now self.old.base self.new.base }
        ensures known { IfOk result (HasKnownNumbers (site self.old).policy) }
    {
        open(&self.site, &mut self.sessions, event)
    }

    /// Answers an event of the open session of a user.
    fn inside(&mut self, event: &Event, user: UserNo) -> Result<Reply, BaseFault>
        requires ready { IsEngineReady B.seen self.old }
        requires fits { EventFits (site self.old).policy (site self.old).schemes event.now }
        requires held { sessions_of self.old.sessions.items event.now.level event.now.session ≡ Some user }
        ensures answers { Answers B.seen self.old event.now self.new result }
        ensures access { IsPermitted B.seen (site self.old) event.now self.old.base self.new.base }
        ensures known { IfOk result (HasKnownNumbers (site self.old).policy) }
    {
        if let Some(denial) = denial_of(&self.site, event.level, user, &event.command) {
            let effect = Effect::Deny { user, denial };
            return change(&self.site, &mut self.base, &mut self.views, event, effect);
        }
        match &event.command {
            Command::Open(_) => unreachable!(),
            Command::Close => {
                close(&mut self.sessions, event.level, &event.session);
                Ok(Reply::Closed)
            }
            Command::View {
                relation,
                label,
                query,
                ..
            } => look(
                &self.site,
                &mut self.base,
                &mut self.views,
                *relation,
                *label,
                query,
            ),
            Command::Dump { relation } => dump(&self.site, &mut self.base, *relation, event.level),
            Command::Audit => audit(&self.site, &mut self.base, event.level),
            Command::Write { .. } => {
                let effect = Effect::Write;
                change(&self.site, &mut self.base, &mut self.views, event, effect)
            }
            Command::Call { .. } => {
                let effect = Effect::Call { user };
                change(&self.site, &mut self.base, &mut self.views, event, effect)
            }
            Command::All(batch) => do_batch(
                &self.site,
                &mut self.base,
                &mut self.views,
                event.level,
                batch,
            ),
        }
    }

    /// Answers an event, as one change of the base where it writes or calls, or where its denial is entered.
    ///
    /// `Store` comes where the store fails, `Memory` where a growth is refused; content, sessions and the audit list are
    /// then as they were before the event.
    pub fn step(&mut self, event: &Event) -> Result<Reply, BaseFault>
        requires ready { IsEngineReady B.seen self.old }
        requires fits { EventFits (site self.old).policy (site self.old).schemes event.now }
        ensures answers { Answers B.seen self.old event.now self.new result }
        ensures access { IsPermitted B.seen (site self.old) event.now self.old.base self.new.base }
        ensures known { IfOk result (HasKnownNumbers (site self.old).policy) }
    {
        match user_of(&self.sessions, event.level, &event.session) {
            None => self.outside(event),
            Some(user) => self.inside(event, user),
        }
    }
}
