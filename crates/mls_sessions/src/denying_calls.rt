//! Calls that are denied in open sessions.
ghost use Rattle.std.specs.Prelude.{◌≡◌, ◌<◌, ◌&&◌, not, nat_eq, length, IfSome, Some, [], ◌∷◌};
ghost use Rattle.std.specs.List.{AllByRecursion};
ghost use Rattle.mls_lattice.specs.Labels.{below};
ghost use Rattle.mls_certcheck.specs.Site.{site_labels, AreRead};
ghost use Rattle.mls_machine.specs.Denying.{first_denial, trusted_of, lie_outside, stored_named, call_denials};
ghost use Rattle.mls_machine.specs.Denying.{call_denial};
ghost use Rattle.mls_sessions.specs.Sessions.{site_of_run};

use crate::arguments::are_wrong;
use crate::denying::{clearance, exceed, lacks_rights_on};
use crate::finding::stored_named;
use crate::site::Site;
use mls_certcheck::Stored;
use mls_lattice::{LabelNo, Modes, Policy, UserNo};
use mls_machine::Denial;
use mls_scheme::Value;
use mls_translang::Tx;

/// The interval in which a user is trusted, if there is one.
fn trusted(policy: &Policy, user: UserNo) -> Option<(LabelNo, LabelNo)>
    requires { user < length policy.now.users }
    ensures same { result ≡ trusted_of policy.now user }
    ensures declared { IfSome result (λ i. (i.0 < length policy.now.labels) × (i.1 < length policy.now.labels)) }
{
    policy.trusted(user)
}

/// Whether a label lies between two others.
fn is_between(site: &Site, low: LabelNo, high: LabelNo, label: LabelNo) -> bool
    requires low { low < length site.now.policy.now.labels }
    requires high { high < length site.now.policy.now.labels }
    requires label { label < length site.now.policy.now.labels }
    ensures { result ≡ (below (site_labels (site_of_run site.now)) low label
        && below (site_labels (site_of_run site.now)) label high) }
{
    site.policy.dominates(label, low) && site.policy.dominates(high, label)
}

/// Whether one of the labels does not lie between two others.
fn leave(site: &Site, low: LabelNo, high: LabelNo, labels: &[LabelNo]) -> bool
    requires low { low < length site.now.policy.now.labels }
    requires high { high < length site.now.policy.now.labels }
    requires labels { AllByRecursion (λ l. l < length site.now.policy.now.labels) labels.now }
    ensures { result ≡ lie_outside (site_labels (site_of_run site.now)) (Some (low, high)) labels.now }
{
    for label in labels {
        if !is_between(site, low, high, *label) {
            return true;
        }
    }
    false
}

/// Whether a transaction reads above its lowest label and a user is not trusted with that.
fn is_untrusted(site: &Site, user: UserNo, tx: &Tx) -> bool
    requires user { user < length site.now.policy.now.users }
    requires lo { tx.now.lo < length site.now.policy.now.labels }
    requires hi { tx.now.hi < length site.now.policy.now.labels }
    ensures { result ≡ (not (nat_eq tx.now.hi tx.now.lo)
        && lie_outside (site_labels (site_of_run site.now)) (trusted_of site.now.policy.now user)
        (tx.now.lo ∷ tx.now.hi ∷ [])) }
{
    if tx.hi() == tx.lo() {
        return false;
    }
    match trusted(site.policy, user) {
        None => true,
        Some((low, high)) => leave(site, low, high, &[tx.lo(), tx.hi()]),
    }
}

/// Why a call of a transaction with a certificate is denied, if it is.
#[tactic(auto, unfolding(mls_machine::specs::Denying::first_denial))]
fn certified_denial(
    site: &Site,
    level: LabelNo,
    user: UserNo,
    tx: &Tx,
    args: &[Option<Value>],
) -> Option<Denial>
    requires user { user < length site.now.policy.now.users }
    requires lo { tx.now.lo < length site.now.policy.now.labels }
    requires hi { tx.now.hi < length site.now.policy.now.labels }
    ensures { result ≡ first_denial (call_denials (site_of_run site.now) level user tx.now args.now) }
{
    if lacks_rights_on(site, user, tx.name(), &[Modes::EXECUTE]) {
        return Some(Denial::Ds);
    }
    if exceed(site, clearance(site.policy, user), &[tx.hi()]) {
        return Some(Denial::Ss);
    }
    if tx.lo() != level {
        return Some(Denial::Star);
    }
    if is_untrusted(site, user, tx) {
        return Some(Denial::Trust);
    }
    if are_wrong(tx, args) {
        return Some(Denial::Arguments);
    }
    None
}

/// Why a call of what is stored by a name is denied, if it is.
pub(crate) fn call_denial(
    site: &Site,
    level: LabelNo,
    user: UserNo,
    name: &str,
    args: &[Option<Value>],
) -> Option<Denial>
    requires user { user < length site.now.policy.now.users }
    requires read { AreRead (site_of_run site.now) }
    ensures { result ≡ call_denial (site_of_run site.now) level user args.now (stored_named site.now.stored name.now) }
{
    match stored_named(&site.stored, name) {
        None => Some(Denial::UnknownTransaction),
        Some(Stored::Plain(_)) => Some(Denial::NotCertified),
        Some(Stored::Certified(certified)) => {
            certified_denial(site, level, user, certified.tx(), args)
        }
    }
}
