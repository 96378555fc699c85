//! Transactions of a text.
ghost use Rattle.std.specs.Prelude.{◌≡◌, ◌≢◌, map, IfOk, IfErr};
ghost use Rattle.std.specs.List.{AllByRecursion};
ghost use Rattle.mls_translang.specs.Tx.{IsTx};
ghost use Rattle.mls_translang.specs.Fits.{AreReadUnder};
ghost use Rattle.mls_translang.specs.Tells.{Tells};
ghost use Rattle.mls_parser.specs.declared.fault.TextCause.TheVariants.{Memory};
ghost use Rattle.mls_parser.specs.ReadTx.{tx_of};
ghost use Rattle.mls_parser.specs.Laws.{TellsNone};
ghost use Rattle.mls_parser.specs.Noted.{GivesPlaced};
ghost use Rattle.mls_parser.specs.Parsing.{parsed, parse_at, IsParsed, IsJudged};

use crate::draft::Draft;
use crate::fault::{PlacedFault, TextFault};
use crate::read_tx::transactions;
use crate::reader::Reader;
use mls_lattice::{Items, Policy};
use mls_scheme::Schemes;
use mls_tokens::Tokens;
use mls_translang::Tx;
use std::alloc::{AllocError, Global};

/// What was read without a fault, as transactions.
fn without_fault(alloc: Global, drafts: Vec<Draft>) -> Result<Items<Tx>, AllocError>
    requires { AllByRecursion IsTx (map tx_of drafts.items) }
    ensures { IfOk result (λ xs. xs ≡ map tx_of drafts.items) }
{
    let mut txs = Vec::new(alloc);
    for draft in drafts {
        txs.push(Tx::new(
            draft.name,
            draft.lo,
            draft.hi,
            draft.params,
            draft.vars,
            draft.body,
        ))?;
    }
    Ok(Items::from(txs))
}

/// The transactions of a text, or its fault and the place of that.
#[tactic(auto, unfolding(crate::specs::Parsing::parsed), using(crate::proofs::ParsedLemmas::parsed_steps))]
fn placed(
    alloc: Global,
    policy: &Policy,
    schemes: &Schemes,
    bytes: &[u8],
) -> Result<Items<Tx>, PlacedFault>
    ensures exact { GivesPlaced (λ txs. txs) result (parsed policy.now schemes.now bytes.now) }
    ensures told { IfOk result (λ xs. Tells policy.now schemes.now bytes.now xs) }
{
    let mut reader = Reader::new(alloc, Tokens::new(alloc, bytes)?);
    let drafts = transactions(alloc, policy, schemes, &mut reader)?;
    match reader.least() {
        Some(fault) => Err(fault),
        None => Ok(without_fault(alloc, drafts)?),
    }
}

/// The transactions of a text, in order; or its first fault by its form: 21 Token where no token stands, 22 Expected at
/// the first
/// token that nothing goes on with (the end is one), 26 Depth at the first token of a statement inside 16 others and at
/// a `(` or
/// `not` of an expression inside 16 others, and 27 TooLong at a long text between quotes, at the first token of the 1,001st
/// statement of a transaction, of its 65th parameter or variable, and of the 65th transaction. Where its form is right,
/// the least
/// fault, by place and then by number: 23 UnknownName, 24 Kind, 25 Repeated and 28 LabelOrder. 29 Memory may stand in
/// place of any answer.
pub fn parse(
    alloc: Global,
    policy: &Policy,
    schemes: &Schemes,
    bytes: &[u8],
) -> Result<Items<Tx>, TextFault>
    // The transactions, or the fault with its line, column and cause.
    ensures exact { IsParsed result (parse_at policy.now schemes.now bytes.now) }
    // The text tells the transactions that are read.
    ensures told { IfOk result (λ txs. Tells policy.now schemes.now bytes.now txs) }
    // Unless memory runs out, a text that is refused tells none.
    ensures refused { IfErr result (λ e. e.cause ≢ Memory → TellsNone policy.now schemes.now bytes.now) }
    // What is read has no fault, and of all faults of a text whose form is right the least is answered.
    ensures judged { IsJudged policy.now schemes.now bytes.now result }
    // What is read is read under both.
    ensures read { IfOk result (λ txs. AreReadUnder policy.now schemes.now txs) }
    ensures each { IfOk result (λ txs. AllByRecursion IsTx txs) }
{
    policy.use_invariant();
    schemes.use_invariant();
    match placed(alloc, policy, schemes, bytes) {
        Ok(txs) => Ok(txs),
        Err(fault) => Err(fault.in_text(bytes)),
    }
}
