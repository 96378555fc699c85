//! What is told of the releases of transactions.
use case_tables::Told;
use mls_labeller::{Releases, Told as Release, ranges_of, whole, words};
use mls_lattice::Policy;
use mls_scheme::Kind;
use mls_translang::Tx;
use std::alloc::Global;

/// Adds the line of a release: its label, whether it stands in a loop, and its values.
fn push_release(alloc: Global, policy: &Policy, tx: &Tx, release: &Release, out: &mut Told) {
    let vars = tx.vars();
    let place = usize::from(release.into);
    let kind = if place < vars.len() {
        *vars.get(place)
    } else {
        Kind::Int
    };
    if release.to.index() < policy.label_count() {
        out.push(policy.name(release.to));
    }
    if release.looped {
        out.push(" in a loop");
    }
    out.push(": ");
    match words(alloc, release, kind) {
        Ok(text) => out.push_line(&text),
        Err(_) => out.fail(),
    }
}

fn push_releases(alloc: Global, policy: &Policy, tx: &Tx, releases: &Releases, out: &mut Told) {
    for release in releases.told.as_slice() {
        push_release(alloc, policy, tx, release, out);
    }
    match whole(alloc, releases) {
        Ok(Some(text)) => {
            out.push("in all: ");
            out.push_line(&text);
        }
        Ok(None) => {}
        Err(_) => out.fail(),
    }
}

/// Adds what is told of the releases of transactions.
pub fn push_ranges(alloc: Global, policy: &Policy, txs: &[Tx], out: &mut Told) {
    for tx in txs {
        match ranges_of(alloc, tx) {
            Ok(releases) => push_releases(alloc, policy, tx, &releases, out),
            Err(_) => out.fail(),
        }
    }
}
