//! What is told of transactions: their labels, or why they have none.
ghost use Rattle.std.specs.Prelude.{◌≡◌, ◌++◌, [], Some, None, IfOk, IfErr, IfSome, string_bytes, flat_map};
ghost use Rattle.std.specs.List.{list_any, AllByRecursion};
ghost use Rattle.mls_translang.specs.Fits.{IsReadUnder};
ghost use Rattle.mls_command.specs.Explaining.{AreChosen, HaveNone, AreExplained, lacks_labels, IsExplained};
ghost use Rattle.mls_command.specs.Explaining.{IsUnexplained, is_some_refused};
ghost use Rattle.mls_host.specs.Ending.{ending_if};
ghost use Rattle.mls_host.specs.Words.{named};

use crate::listing::Listing;
use mls_explain::{Explained, explain};
use mls_host::{Reason, ending_if};
use mls_lattice::Policy;
use mls_scheme::Schemes;
use mls_translang::Tx;
use std::alloc::{AllocError, Global};

/// The first transaction of a name.
fn first_of<'a>(txs: &'a [Tx], name: &str) -> Option<&'a [Tx]>
    ensures chosen { IfSome result (λ chosen. AreChosen (Some name.now) txs.now chosen.now) }
    ensures none { result ≡ None → HaveNone (Some name.now) txs.now }
{
    for (place, tx) in txs.iter().enumerate() {
        if tx.name() == name {
            return Some(&txs[place..place + 1]);
        }
    }
    None
}

/// The transactions of a name, one at most, or all.
fn chosen_of<'a>(txs: &'a [Tx], name: Option<&str>) -> Option<&'a [Tx]>
    ensures chosen { IfSome result (λ chosen. AreChosen (named name.entry) txs.now chosen.now) }
    ensures none { result ≡ None → HaveNone (named name.entry) txs.now }
{
    match name {
        Some(name) => first_of(txs, name),
        None => Some(txs),
    }
}

/// What is told of each transaction, in order.
fn each_explained(
    alloc: Global,
    policy: &Policy,
    schemes: &Schemes,
    txs: &[Tx],
) -> Result<Vec<Explained>, AllocError>
    requires { AllByRecursion (IsReadUnder policy.now schemes.now) txs.now }
    ensures { IfOk result (λ v. AreExplained policy.now schemes.now txs.now v.items) }
{
    let mut told = Vec::new(alloc);
    for tx in txs {
        let explained = explain(alloc, policy, schemes, tx)?;
        told.push(explained)?;
    }
    Ok(told)
}

/// What is told of each, one behind the other.
fn text_of(alloc: Global, explained: &[Explained]) -> Result<Vec<u8>, AllocError>
    ensures { IfOk result (λ text. text.items ≡ flat_map (λ e. string_bytes e.text) explained.now) }
{
    let mut text = Vec::new(alloc);
    for one in explained {
        text.extend_from_slice(one.text.as_bytes())?;
    }
    Ok(text)
}

fn lacks_labels(one: &Explained) -> bool
    ensures { result ≡ lacks_labels one.now }
{
    !one.labelling.has_labels()
}

fn lacks_some(explained: &[Explained]) -> bool
    ensures { result ≡ list_any lacks_labels explained.now }
{
    explained.iter().any(|one| lacks_labels(one))
}

/// Whether one lacks labels, or something is said of fields that nobody reads.
fn is_some_refused(explained: &[Explained], ignored: &str) -> bool
    ensures { result ≡ is_some_refused explained.now ignored.now }
{
    lacks_some(explained) || !ignored.is_empty()
}

fn listing_of(alloc: Global, explained: &[Explained], ignored: &str) -> Result<Listing, AllocError>
    ensures text { IfOk result (λ l. l.text.items
        ≡ flat_map (λ e. string_bytes e.text) explained.now ++ ignored.now) }
    ensures told { IfOk result (λ l. string_bytes l.told ≡ []) }
    ensures end { IfOk result (λ l. l.ending ≡ ending_if (is_some_refused explained.now ignored.now)) }
{
    let mut text = text_of(alloc, explained)?;
    text.extend_from_slice(ignored.as_bytes())?;
    Ok(Listing {
        text,
        told: String::new(alloc),
        ending: ending_if(is_some_refused(explained, ignored)),
    })
}

/// Transactions, or the one of a name, explained, and behind them what is said of fields that nobody reads. `Name`
/// where none has the
/// name.
pub(crate) fn explained(
    alloc: Global,
    policy: &Policy,
    schemes: &Schemes,
    txs: &[Tx],
    name: Option<&str>,
    ignored: &str,
) -> Result<Listing, Reason>
    requires { AllByRecursion (IsReadUnder policy.now schemes.now) txs.now }
    ensures listing { IfOk result (λ l. IsExplained policy.now schemes.now txs.now (named name.entry)
        (λ text. text ≡ ignored.now) l.text.items (string_bytes l.told) l.ending) }
    ensures refused { IfErr result (IsUnexplained txs.now (named name.entry)) }
{
    let chosen = match chosen_of(txs, name) {
        Some(chosen) => chosen,
        None => return Err(Reason::Name),
    };
    let explained = each_explained(alloc, policy, schemes, chosen)?;
    Ok(listing_of(alloc, &explained, ignored)?)
}
