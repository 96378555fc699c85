//! What a job has read before it does anything.
ghost use Rattle.std.specs.Prelude.{◌<◌, length, IfSome};
ghost use Rattle.std.proofs.Props.{props};
ghost use Rattle.mls_scheme.specs.Scheme.{AreUnder};

use mls_certcheck::Certificate;
use mls_lattice::{Items, LabelNo, Policy, Str};
use mls_scheme::SchemesFile;
use mls_translang::{Event, Tx};

/// The policy and the schemes that a job is done under, and the label for which alone it prints, if there is one. The
/// schemes have
/// labels of the policy, and so is the reader one.
#[derive(Drop)]
pub struct Setting {
    pub policy: Policy,
    pub file: SchemesFile,
    pub reader: Option<LabelNo>,
    pub ghost under: { AreUnder (length policy.labels) file.schemes } by { Prim.hlevel props },
    pub ghost declared: { IfSome reader (λ c. c < length policy.labels) } by { Prim.hlevel props },
}

/// All that a job reads: no transactions, certificates or events where it names no file of them.
#[derive(Drop)]
pub struct Inputs {
    pub setting: Setting,
    pub transactions: Items<Tx>,
    /// With the names of their transactions.
    pub certificates: Items<(Str, Certificate)>,
    pub events: Items<Event>,
}
