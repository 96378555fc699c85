//! What a store is opened under.
ghost use Rattle.std.specs.Prelude.{length};
ghost use Rattle.std.proofs.Props.{props};
ghost use Rattle.mls_scheme.specs.Scheme.{AreUnder};

use mls_lattice::Policy;
use mls_scheme::SchemesFile;

/// A policy, and the file of schemes under it: what a store says of itself is compared with them.
#[derive(Clone, Copy)]
pub struct Design<'a> {
    pub policy: &'a Policy,
    pub file: &'a SchemesFile,
    pub ghost under: { AreUnder (length policy.now.labels) file.now.schemes } by { Prim.hlevel props },
}
