//! Commands that are denied in open sessions, after Bell and LaPadula (1976).
ghost use Rattle.std.specs.Prelude.{◌≡◌, ◌==◌, ◌<◌, bit_and, length, map};
ghost use Rattle.std.specs.List.{AllByRecursion, list_any};
ghost use Rattle.mls_scheme.specs.Scheme.{scheme_of};
ghost use Rattle.mls_translang.specs.Event.{IsWriteOf, OneFits, CommandFits};
ghost use Rattle.mls_certcheck.specs.Site.{AreRead};
ghost use Rattle.mls_machine.specs.Denying.{first_denial, clearance_of, exceed, lacks_rights_on, lacks, access_denials};
ghost use Rattle.mls_machine.specs.Denying.{view_denials, write_denials, one_denials, batch_denials};
ghost use Rattle.mls_sessions.specs.Denying.{denial_in};
ghost use Rattle.mls_sessions.specs.Sessions.{site_of_run};

use crate::denying_calls::call_denial;
use crate::site::Site;
use bitflags::Flags;
use mls_lattice::{LabelNo, Modes, Policy, UserNo};
use mls_machine::Denial;
use mls_scheme::{RelNo, Value, Write};
use mls_translang::{Command, One};

fn has_any(granted: Modes, modes: &[Modes]) -> bool
    ensures { result ≡ list_any (λ mode. bit_and granted.0 mode == mode) (map (λ m. m.0) modes.now) }
{
    for mode in modes {
        if granted.contains(*mode) {
            return true;
        }
    }
    false
}

/// Whether the matrix grants a user none of the modes on what has a name.
pub(crate) fn lacks_rights_on(site: &Site, user: UserNo, object: &str, modes: &[Modes]) -> bool
    ensures { result ≡ lacks_rights_on (site_of_run site.now) user object.now (map (λ m. m.0) modes.now) }
{
    !has_any(site.policy.modes(user, object), modes)
}

/// Whether the matrix grants a user none of the modes on a relation.
fn lacks(site: &Site, user: UserNo, relation: RelNo, modes: &[Modes]) -> bool
    requires { relation < length site.now.schemes.now }
    ensures { result ≡ lacks (site_of_run site.now) user relation (map (λ m. m.0) modes.now) }
{
    lacks_rights_on(site, user, site.schemes.scheme(relation).name(), modes)
}

/// Whether one of the labels is not dominated by a limit.
pub(crate) fn exceed(site: &Site, limit: LabelNo, labels: &[LabelNo]) -> bool
    requires limit { limit < length site.now.policy.now.labels }
    requires labels { AllByRecursion (λ l. l < length site.now.policy.now.labels) labels.now }
    ensures { result ≡ exceed (site_of_run site.now) limit labels.now }
{
    for label in labels {
        if !site.policy.dominates(limit, *label) {
            return true;
        }
    }
    false
}

/// Up to which label a user may open sessions and look.
pub(crate) fn clearance(policy: &Policy, user: UserNo) -> LabelNo
    requires { user < length policy.now.users }
    ensures same { result ≡ clearance_of policy.now user }
    ensures declared { result < length policy.now.labels }
{
    policy.clearance(user)
}

/// Why what needs one of the modes on a relation, and names labels, is denied, if it is.
#[tactic(auto, unfolding(mls_machine::specs::Denying::first_denial))]
fn access_denial(
    site: &Site,
    level: LabelNo,
    user: UserNo,
    relation: RelNo,
    modes: &[Modes],
    labels: &[LabelNo],
) -> Option<Denial>
    requires level { level < length site.now.policy.now.labels }
    requires user { user < length site.now.policy.now.users }
    requires relation { relation < length site.now.schemes.now }
    requires labels { AllByRecursion (λ l. l < length site.now.policy.now.labels) labels.now }
    ensures { result ≡ first_denial (access_denials (site_of_run site.now) level user relation
        (map (λ m. m.0) modes.now) labels.now) }
{
    if lacks(site, user, relation, modes) {
        return Some(Denial::Ds);
    }
    if exceed(site, clearance(site.policy, user), labels) {
        return Some(Denial::Ss);
    }
    if exceed(site, level, labels) {
        return Some(Denial::Star);
    }
    None
}

/// Why a view is denied in a session of a level and a user, if it is.
fn view_denial(
    site: &Site,
    level: LabelNo,
    user: UserNo,
    relation: RelNo,
    label: LabelNo,
) -> Option<Denial>
    requires level { level < length site.now.policy.now.labels }
    requires user { user < length site.now.policy.now.users }
    requires relation { relation < length site.now.schemes.now }
    requires label { label < length site.now.policy.now.labels }
    ensures { result ≡ first_denial (view_denials (site_of_run site.now) level user relation label) }
{
    let modes = [Modes::READ, Modes::WRITE];
    access_denial(site, level, user, relation, &modes, &[label])
}

/// Why a write is denied in a session of a level and a user, if it is.
fn write_denial(
    site: &Site,
    level: LabelNo,
    user: UserNo,
    relation: RelNo,
    write: &Write<Option<Value>>,
) -> Option<Denial>
    requires level { level < length site.now.policy.now.labels }
    requires user { user < length site.now.policy.now.users }
    requires relation { relation < length site.now.schemes.now }
    requires fits { IsWriteOf site.now.policy.now (scheme_of site.now.schemes.now relation) write.now }
    ensures { result ≡ first_denial (write_denials (site_of_run site.now) level user relation write.now) }
{
    match write {
        Write::Insert { .. } => {
            let modes = [Modes::APPEND, Modes::WRITE];
            access_denial(site, level, user, relation, &modes, &[])
        }
        Write::Update {
            key_class,
            from,
            ..
        } => {
            let labels = [*key_class, *from];
            access_denial(site, level, user, relation, &[Modes::WRITE], &labels)
        }
        Write::Delete { key_class, .. } => {
            access_denial(site, level, user, relation, &[Modes::WRITE], &[*key_class])
        }
    }
}

/// Why a command of a batch is denied in a session of a level and a user, if it is.
fn one_denial(site: &Site, level: LabelNo, user: UserNo, one: &One) -> Option<Denial>
    requires level { level < length site.now.policy.now.labels }
    requires user { user < length site.now.policy.now.users }
    requires fits { OneFits site.now.policy.now site.now.schemes.now one.now }
    ensures { result ≡ first_denial (one_denials (site_of_run site.now) level user one.now) }
{
    match one {
        One::View {
            relation,
            label,
            ..
        } => view_denial(site, level, user, *relation, *label),
        One::Expect {
            relation,
            label,
            ..
        } => view_denial(site, level, user, *relation, *label),
        One::Write { relation, write } => write_denial(site, level, user, *relation, write),
    }
}

/// Why a batch is denied in a session of a level and a user, if it is: the first denial of the first command that has
/// one.
fn batch_denial(site: &Site, level: LabelNo, user: UserNo, batch: &[One]) -> Option<Denial>
    requires level { level < length site.now.policy.now.labels }
    requires user { user < length site.now.policy.now.users }
    requires fits { AllByRecursion (OneFits site.now.policy.now site.now.schemes.now) batch.now }
    ensures { result ≡ first_denial (batch_denials (site_of_run site.now) level user batch.now) }
{
    for one in batch {
        if let Some(denial) = one_denial(site, level, user, one) {
            return Some(denial);
        }
    }
    None
}

/// Why a command is denied in an open session of a level and a user, if it is.
pub(crate) fn denial_of(
    site: &Site,
    level: LabelNo,
    user: UserNo,
    command: &Command,
) -> Option<Denial>
    requires level { level < length site.now.policy.now.labels }
    requires user { user < length site.now.policy.now.users }
    requires read { AreRead (site_of_run site.now) }
    requires fits { CommandFits site.now.policy.now site.now.schemes.now command.now }
    ensures { result ≡ denial_in (site_of_run site.now) level user command.now }
{
    match command {
        Command::Open(_) => Some(Denial::AlreadyOpen),
        Command::Close | Command::Audit => None,
        Command::View {
            relation,
            label,
            ..
        } => view_denial(site, level, user, *relation, *label),
        Command::Dump { relation } => view_denial(site, level, user, *relation, level),
        Command::Write { relation, write } => write_denial(site, level, user, *relation, write),
        Command::Call { tx, args } => call_denial(site, level, user, tx, args),
        Command::All(batch) => batch_denial(site, level, user, batch),
    }
}
