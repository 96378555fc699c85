//! Which older schemes schemes extend: those of their first relations, whose lines of attributes begin their own.
ghost use Rattle.std.specs.Prelude.{◌≡◌, ◌≢◌, ◌↔◌, ◌<◌, ◌++◌, ℕ, true, List, length, drop, codes, None, IfOk, IfSome};
ghost use Rattle.std.specs.Prelude.{IsSomeAnd, MatchOption};
ghost use Rattle.std.specs.List.{AllByRecursion};
ghost use Rattle.mls_lattice.specs.Labels.{below};
ghost use Rattle.mls_lattice.specs.Policy.{labels_of};
ghost use Rattle.mls_lattice.specs.declared.version.Version.{Version as FileVersion};
ghost use Rattle.mls_lattice.specs.Extending.{BeginWith};
ghost use Rattle.mls_scheme.specs.Scheme.{IsAmongLabels, IsUnder, AreUnder};
ghost use Rattle.mls_scheme.specs.Canon.{attribute_line, first_line};
ghost use Rattle.mls_scheme.specs.Extending.{Contains, CoversKey, BeginsWith, AreLines, IsPastAttributes};

use crate::attributes::{Attributes, Column};
use crate::canon::{attribute_to, head_to};
use crate::scheme::Scheme;
use mls_lattice::{LabelNo, Policy};
use std::alloc::{AllocError, Global};

/// What comes after a line that begins the text.
fn after_line<'a>(text: &'a [u8], line: &str) -> Option<&'a [u8]>
    ensures { MatchOption result ((more : List ℕ)
        → text.now ≢ line.now ++ more) (λ rest. text.now ≡ line.now ++ rest.now) }
{
    text.strip_prefix(line.as_bytes())
}

/// What comes after the first line, which has a version.
pub(crate) fn after_first<'a>(text: &'a [u8]) -> Option<&'a [u8]>
    ensures { MatchOption result
        ((v : FileVersion) (more : List ℕ) → text.now ≢ first_line v ++ more)
        (λ rest. (v : FileVersion) × (text.now ≡ first_line v ++ rest.now)) }
{
    match after_line(text, "schemes 1\n") {
        Some(rest) => Some(rest),
        None => after_line(text, "schemes 2\n"),
    }
}

/// How many attributes there are whose lines begin the text, and what comes after them.
fn attributes_before<'a>(
    alloc: Global,
    policy: &Policy,
    attributes: &Attributes,
    text: &'a [u8],
) -> Result<(usize, &'a [u8]), AllocError>
    requires { AllByRecursion (IsAmongLabels (length policy.now.labels)) attributes.now }
    ensures { IfOk result (λ r. BeginWith (attribute_line policy.now (codes "attribute")) attributes.now text.now r.0
        r.1.now) }
{
    let mut rest = text;
    for place in 0..attributes.len() {
        let name = attributes.name(place);
        let mut line = String::new(alloc);
        attribute_to(&mut line, policy, "attribute", name, *attributes.get(place))?;
        match after_line(rest, &line) {
            Some(after) => rest = after,
            None => return Ok((place, rest)),
        }
    }
    Ok((attributes.len(), rest))
}

/// Whether an attribute may have each class from low to high.
fn contains(policy: &Policy, attribute: Column, low: LabelNo, high: LabelNo) -> bool
    requires attribute_low { attribute.low < length policy.now.labels }
    requires attribute_high { attribute.high < length policy.now.labels }
    requires low { low < length policy.now.labels }
    requires high { high < length policy.now.labels }
    ensures { (result ≡ true) ↔ ((below (labels_of policy.now) attribute.low low ≡ true)
        × (below (labels_of policy.now) high attribute.high ≡ true)) }
{
    policy.dominates(low, attribute.low) && policy.dominates(attribute.high, high)
}

/// Whether each attribute past the first so many may have each class from low to high.
fn all_contain(
    policy: &Policy,
    attributes: &Attributes,
    count: usize,
    low: LabelNo,
    high: LabelNo,
) -> bool
    requires among { AllByRecursion (IsAmongLabels (length policy.now.labels)) attributes.now }
    requires low { low < length policy.now.labels }
    requires high { high < length policy.now.labels }
    ensures { (result ≡ true) ↔ AllByRecursion (Contains (labels_of policy.now) low high) (drop count attributes.now) }
{
    for place in count..attributes.len() {
        if !contains(policy, *attributes.get(place), low, high) {
            return false;
        }
    }
    true
}

/// Whether each attribute past the first so many may have every class that the key may have.
fn covers_key(policy: &Policy, scheme: &Scheme, count: usize) -> bool
    requires { IsUnder (length policy.now.labels) scheme.now }
    ensures { (result ≡ true) ↔ CoversKey (labels_of policy.now) count scheme.now }
{
    let key = scheme.keys().get(0);
    all_contain(policy, scheme.others(), count, key.low, key.high)
}

/// How many attributes outside the key a relation had, where a text begins with its lines, and what comes after them.
fn relation_before<'a>(
    alloc: Global,
    policy: &Policy,
    scheme: &Scheme,
    text: &'a [u8],
) -> Result<Option<(usize, &'a [u8])>, AllocError>
    requires { IsUnder (length policy.now.labels) scheme.now }
    ensures found { IfOk result (λ o. IfSome o (λ r. BeginsWith policy.now scheme.now text.now r.0 r.1.now)) }
    ensures only { IfOk result (λ o. (n : ℕ) (rest : List ℕ) → IsPastAttributes policy.now rest
        → BeginsWith policy.now scheme.now text.now n rest → IsSomeAnd o (λ r. (r.0 ≡ n) × (r.1.now ≡ rest))) }
{
    let mut head = String::new(alloc);
    head_to(&mut head, policy, scheme)?;
    let Some(rest) = after_line(text, &head) else {
        return Ok(None);
    };
    let (count, rest) = attributes_before(alloc, policy, scheme.others(), rest)?;
    if covers_key(policy, scheme, count) {
        Ok(Some((count, rest)))
    } else {
        Ok(None)
    }
}

/// How many attributes outside the key each of the first relations had, where a text is their lines.
pub(crate) fn relations_before(
    alloc: Global,
    policy: &Policy,
    relations: &[Scheme],
    text: &[u8],
) -> Result<Option<Vec<usize>>, AllocError>
    requires { AreUnder (length policy.now.labels) relations.now }
    ensures found { IfOk result (λ o. IfSome o (λ counts. AreLines policy.now relations.now text.now counts.items)) }
    ensures none { IfOk result (λ o. o ≡ None → (counts : List ℕ) → AreLines policy.now relations.now text.now counts
        → ⊥) }
{
    let mut counts = Vec::new(alloc);
    let mut rest = text;
    for scheme in relations {
        if rest.is_empty() {
            return Ok(Some(counts));
        }
        let Some((count, after)) = relation_before(alloc, policy, scheme, rest)? else {
            return Ok(None);
        };
        counts.push(count)?;
        rest = after;
    }
    if rest.is_empty() {
        Ok(Some(counts))
    } else {
        Ok(None)
    }
}
