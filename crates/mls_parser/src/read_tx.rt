//! Transactions, from the tokens that are left.
ghost use Rattle.std.specs.Prelude.{◌≡◌, ◌++◌, ◌<◌, ◌≤◌, ◌∷◌, ◌||◌, [], length, map, option_map, IfOk, IfSome};
ghost use Rattle.std.specs.Prelude.{OnOk, bytes_eq};
ghost use Rattle.std.specs.List.{list_any};
ghost use Rattle.mls_parser.specs.Noted.{GivesPlaced, note};
ghost use Rattle.mls_parser.specs.ReadTx.{name_faults, levels_faults, heading_at, outermost, body_at, transaction_at};
ghost use Rattle.mls_parser.specs.ReadTx.{next_transaction, transactions_at};

use crate::context::{Context, label, label_or_first, relation};
use crate::draft::Draft;
use crate::fault::{PlacedFault, TextCause, ill_formed};
use crate::header::{params, vars};
use crate::limits::{MAX_DEPTH, MAX_TRANSACTIONS};
use crate::names::Name;
use crate::reader::Reader;
use mls_lattice::{LabelNo, Policy, Str};
use mls_scheme::{Kind, Named, Schemes};
use mls_tokens::Sign;
use mls_translang::{Block, Parameter};
use std::alloc::{AllocError, Global};

/// Whether one of some transactions has a name.
fn is_earlier(earlier: &[Draft], name: &Name) -> bool
    ensures { result ≡ list_any (bytes_eq name.now.0) (map (λ t. t.name) earlier.now) }
{
    for tx in earlier {
        if name.0.as_str() == tx.name.as_str() {
            return true;
        }
    }
    false
}

/// The fault of a transaction's name, behind some transactions.
fn note_name(
    reader: &mut Reader,
    schemes: &Schemes,
    earlier: &[Draft],
    name: &Name,
) -> Result<(), AllocError>
    ensures { OnOk result (reader.new ≡ note (name_faults schemes.now earlier.now name.now) reader.old) }
{
    let taken = relation(schemes, name).is_some() || is_earlier(earlier, name);
    reader.note(!taken, name.1, TextCause::Repeated)
}

/// The faults of the labels that a transaction runs between.
fn note_levels(reader: &mut Reader, policy: &Policy, lo: &Name, hi: &Name) -> Result<(), AllocError>
    ensures { OnOk result (reader.new ≡ note (levels_faults policy.now lo.now hi.now) reader.old) }
{
    reader.note(label(policy, lo).is_some(), lo.1, TextCause::UnknownName)?;
    reader.note(label(policy, hi).is_some(), hi.1, TextCause::UnknownName)?;
    let ordered = policy.dominates(label_or_first(policy, hi), label_or_first(policy, lo));
    reader.note(ordered, hi.1, TextCause::LabelOrder)
}

/// The name of a transaction, and the labels that it runs between.
#[tactic(auto, unfolding(crate::specs::ReadTx::heading_at))]
fn heading(
    policy: &Policy,
    schemes: &Schemes,
    earlier: &[Draft],
    reader: &mut Reader,
) -> Result<(Str, LabelNo, LabelNo), PlacedFault>
    ensures exact { GivesPlaced (λ x. ((x.0, x.1, x.2), reader.new)) result
        (heading_at policy.now schemes.now earlier.now reader.old) }
    ensures within { IfOk result (λ x. x.2 < length policy.now.labels) }
{
    let name = reader.name()?;
    note_name(reader, schemes, earlier, &name)?;
    let lo = reader.name_behind("levels")?;
    let hi = reader.name_behind("to")?;
    note_levels(reader, policy, &lo, &hi)?;
    Ok((
        name.0,
        label_or_first(policy, &lo),
        label_or_first(policy, &hi),
    ))
}

/// The variables and the statements of a transaction.
#[tactic(auto, unfolding(crate::specs::ReadTx::body_at))]
fn body(
    alloc: Global,
    policy: &Policy,
    schemes: &Schemes,
    hi: LabelNo,
    params: &Named<Parameter>,
    reader: &mut Reader,
) -> Result<(Named<Kind>, Block), PlacedFault>
    requires hi { hi < length policy.now.labels }
    requires few { length params.now ≤ 64 }
    ensures { GivesPlaced (λ x. ((x.0, x.1), reader.new)) result
        (body_at policy.now schemes.now hi params.now reader.old) }
{
    reader.sign(Sign::LeftBrace)?;
    let vars = vars(alloc, params, reader)?;
    let outermost = Context {
        policy,
        schemes,
        hi,
        params,
        vars: &vars,
        rows: &[],
    };
    let (body, _) = outermost.stmts(alloc, reader, MAX_DEPTH, 0)?;
    Ok((vars, body))
}

/// A transaction behind its first word, and behind some others.
#[tactic(auto, unfolding(crate::specs::ReadTx::transaction_at))]
fn transaction(
    alloc: Global,
    policy: &Policy,
    schemes: &Schemes,
    earlier: &[Draft],
    reader: &mut Reader,
) -> Result<Draft, PlacedFault>
    ensures { GivesPlaced (λ t. (t, reader.new)) result (transaction_at policy.now schemes.now earlier.now reader.old) }
{
    let (name, lo, hi) = heading(policy, schemes, earlier, reader)?;
    let params = params(alloc, policy, reader)?;
    let (vars, body) = body(alloc, policy, schemes, hi, &params, reader)?;
    Ok(Draft {
        name,
        lo,
        hi,
        params,
        vars,
        body,
    })
}

/// One transaction more, behind some, if the text is not over.
#[tactic(auto, unfolding(crate::specs::ReadTx::next_transaction))]
fn next_transaction(
    alloc: Global,
    policy: &Policy,
    schemes: &Schemes,
    earlier: &[Draft],
    reader: &mut Reader,
) -> Result<Option<Draft>, PlacedFault>
    ensures exact { GivesPlaced (λ x. (option_map (λ t. earlier.now ++ t ∷ []) x, reader.new)) result
        (next_transaction policy.now schemes.now earlier.now reader.old) }
    ensures room { IfOk result (λ x. IfSome x (λ _. length earlier.now < 64)) }
{
    if reader.has_ended() {
        return Ok(None);
    }
    let at = reader.word("transaction")?;
    if earlier.len() >= MAX_TRANSACTIONS {
        return Err(ill_formed(at, TextCause::TooLong));
    }
    let draft = transaction(alloc, policy, schemes, earlier, reader)?;
    Ok(Some(draft))
}

/// The transactions up to the end.
#[tactic(auto, using(crate::proofs::HeaderSteps::thing_steps), unfolding(crate::specs::ReadTx::transactions_at))]
pub(crate) fn transactions(
    alloc: Global,
    policy: &Policy,
    schemes: &Schemes,
    reader: &mut Reader,
) -> Result<Vec<Draft>, PlacedFault>
    ensures { GivesPlaced (λ v. (v.items, reader.new)) result (transactions_at policy.now schemes.now reader.old) }
{
    let mut drafts = Vec::new(alloc);
    while let Some(next) = next_transaction(alloc, policy, schemes, drafts.as_slice(), reader)? {
        drafts.push(next)?;
    }
    Ok(drafts)
}
