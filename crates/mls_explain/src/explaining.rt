//! What is told of a transaction.
ghost use Rattle.std.specs.Prelude.{string_bytes, IfOk};
ghost use Rattle.mls_translang.specs.Fits.{IsReadUnder};
ghost use Rattle.mls_explain.specs.Telling.{TellsLabelling, IsExplanation};

use crate::labelling::{Labelling, labelling_of};
use crate::numbering::numbered;
use crate::statements::block_to;
use crate::teller::Teller;
use mls_lattice::Policy;
use mls_scheme::Schemes;
use mls_translang::{Tx, print};
use std::alloc::{AllocError, Global};

/// What is told of a transaction, and what came of its least labels.
#[derive(Drop)]
pub struct Explained {
    pub text: String,
    pub labelling: Labelling,
}

/// The canonical text of a transaction with the number of each statement, and what came of its least labels.
fn text_of(
    alloc: Global,
    policy: &Policy,
    schemes: &Schemes,
    tx: &Tx,
    labelling: &Labelling,
) -> Result<String, AllocError>
    requires { IsReadUnder policy.now schemes.now tx.now }
    ensures { IfOk result (λ s. TellsLabelling policy.now schemes.now tx.now labelling.now (string_bytes s)) }
{
    let printed = print(alloc, policy, schemes, tx)?;
    let printed = String::from_utf8_lossy(alloc, &printed)?;
    let (mut text, lines) = numbered(alloc, 1 + tx.vars().len(), &printed)?;
    let mut statements = Vec::new(alloc);
    block_to(&mut statements, 0, tx.body())?;
    let teller = Teller {
        alloc,
        policy,
        schemes,
        tx,
        statements: &statements,
        lines: &lines,
    };
    teller.head_to(&mut text, labelling)?;
    let advice = teller.advice_of(labelling)?;
    text.push_str(&advice)?;
    Ok(text)
}

/// What is told of a transaction that was read under a policy and schemes: its canonical text with the number of each
/// statement, and its
/// least labels, of version 1 where these pass, else of version 2; where neither pass, the first rule that those of
/// version 2 break, why,
/// by a shortest chain of flows, and how it is mended.
pub fn explain(
    alloc: Global,
    policy: &Policy,
    schemes: &Schemes,
    tx: &Tx,
) -> Result<Explained, AllocError>
    requires { IsReadUnder policy.now schemes.now tx.now }
    ensures { IfOk result (IsExplanation policy.now schemes.now tx.now) }
{
    let labelling = labelling_of(alloc, policy, tx)?;
    let text = text_of(alloc, policy, schemes, tx, &labelling)?;
    Ok(Explained { text, labelling })
}
