//! Why a transaction gets no certificate.
use mls_certcheck::{Refusal, Rule};
use std::alloc::AllocError;
use thiserror::Error;

/// Why a transaction gets no certificate.
#[derive(Clone, Copy, PartialEq, Eq, Debug, Error)]
pub enum LabelFault {
    /// No certificate passes: the first rule that the least labels break, and the number of its statement.
    #[error("no labels: statement {stmt}")]
    NoLabels { stmt: usize, rule: Rule },
    #[error("out of memory")]
    Memory,
}

impl From<AllocError> for LabelFault {
    ghost use Rattle.std.specs.Prelude.{◌≡◌};
    ghost use Rattle.mls_labeller.specs.declared.fault.LabelFault.TheVariants.{Memory};

    ghost from_gives = { λ _ e. e ≡ Memory };

    fn from(_e: AllocError) -> LabelFault {
        LabelFault::Memory
    }
}

impl From<Refusal> for LabelFault {
    ghost use Rattle.std.specs.Prelude.{◌≡◌};
    ghost use Rattle.mls_labeller.specs.declared.fault.LabelFault.TheVariants.{NoLabels};

    ghost from_gives = { λ r e. e ≡ NoLabels r.stmt r.rule };

    fn from(refusal: Refusal) -> LabelFault {
        LabelFault::NoLabels {
            stmt: refusal.stmt,
            rule: refusal.rule,
        }
    }
}
