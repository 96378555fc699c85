//! What sessions run under.
ghost use Rattle.std.specs.Prelude.{length};
ghost use Rattle.std.proofs.Props.{props};
ghost use Rattle.mls_lattice.specs.Policy.{labels_of};
ghost use Rattle.mls_lattice.specs.Labels.{AreDistinct};
ghost use Rattle.mls_scheme.specs.Scheme.{AreUnder};
ghost use Rattle.mls_certcheck.specs.Site.{site_of, AreCertified};
ghost use Rattle.mls_sessions.specs.Sites.{certified-prop};

use mls_certcheck::Stored;
use mls_lattice::{Items, Policy};
use mls_scheme::Schemes;
use std::alloc::Global;

/// A policy, the schemes of its relations, the stored transactions, and where memory comes from. That the transactions
/// were read under
/// it (`AreRead`) it does not keep: what a type keeps has one proof at most, and `null` is of each kind.
#[derive(Drop)]
pub(crate) struct Site<'a> {
    pub alloc: Global,
    pub policy: &'a Policy,
    pub schemes: &'a Schemes,
    pub stored: Items<Stored>,
    pub ghost under: { AreUnder (length policy.now.labels) schemes.now } by { Prim.hlevel props },
    pub ghost distinct: { AreDistinct (labels_of policy.now) } by { Prim.hlevel props },
    pub ghost certified: { AreCertified (site_of policy.now schemes.now stored) } by { certified-prop
        (site_of policy.now schemes.now stored) },
}
