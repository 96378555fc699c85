//! What most cases are under.
ghost use Rattle.std.specs.Prelude.{length};
ghost use Rattle.std.proofs.Props.{props};
ghost use Rattle.mls_scheme.specs.Scheme.{AreUnder};

use mls_lattice::Policy;
use mls_scheme::Schemes;

/// The sample policy and its schemes, or those of a case under that policy.
#[derive(Clone, Copy)]
pub struct Sample<'a> {
    pub policy: &'a Policy,
    pub schemes: &'a Schemes,
    ghost under: { AreUnder (length policy.now.labels) schemes.now } by { Prim.hlevel props },
}
