//! What came of the least labels of a transaction.
ghost use Rattle.std.specs.Prelude.{◌≡◌, IfOk};
ghost use Rattle.mls_explain.specs.Explaining.{IsLabelling, has_labels};

use crate::chain::{Chain, chain_to};
use mls_certcheck::{Certificate, Refusal, Rule};
use mls_labeller::{LabelFault, label_tx, label_tx2};
use mls_lattice::Policy;
use mls_translang::Tx;
use std::alloc::{AllocError, Global};

/// The least labels, where they pass, or the first rule that those of version 2 break, the number of its statement, and
/// how what must not
/// flow there came, if it came by a chain of flows.
#[derive(Drop)]
pub enum Labelling {
    Labelled(Certificate),
    Refused {
        stmt: usize,
        rule: Rule,
        chain: Option<Chain>,
    },
}

impl Labelling {
    /// Whether there are labels.
    pub fn has_labels(&self) -> bool
        ensures { result ≡ has_labels self.now }
    {
        match self {
            Labelling::Labelled(_) => true,
            Labelling::Refused { .. } => false,
        }
    }
}

/// What comes of the least labels: version 1 where its certificates pass, else version 2.
pub(crate) fn labelling_of(alloc: Global, policy: &Policy, tx: &Tx) -> Result<Labelling, AllocError>
    ensures { IfOk result (IsLabelling policy.now tx.now) }
{
    match label_tx(alloc, policy, tx) {
        Ok(cert) => return Ok(Labelling::Labelled(Certificate::One(cert))),
        Err(LabelFault::NoLabels { .. }) => {}
        Err(LabelFault::Memory) => return Err(AllocError),
    }
    match label_tx2(alloc, policy, tx) {
        Ok(cert) => Ok(Labelling::Labelled(Certificate::Two(cert))),
        Err(LabelFault::NoLabels { stmt, rule }) => {
            let chain = chain_to(alloc, policy, tx, Refusal { stmt, rule })?;
            Ok(Labelling::Refused { stmt, rule, chain })
        }
        Err(LabelFault::Memory) => Err(AllocError),
    }
}
