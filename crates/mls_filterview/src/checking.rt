//! The stored form, asked of a list of tuples.
ghost use Rattle.std.specs.Prelude.{◌≡◌, ◌↔◌, ◌<◌, length, None, IfSome};
ghost use Rattle.std.specs.List.{AllByRecursion};
ghost use Rattle.mls_lattice.specs.Policy.{labels_of};
ghost use Rattle.mls_scheme.specs.Scheme.{IsUnder};
ghost use Rattle.mls_scheme.specs.Tuple.{HasClassesBelow};
ghost use Rattle.mls_filterview.specs.Rules.{IsStoredList, IsFirstBroken};
ghost use Rattle.mls_filterview.specs.Checking.{is_above_key, has_nulls_at_key, is_right_alone, broken_rule};

use crate::entity_rules::{has_each_class, is_chain, is_determined};
use crate::fitting::fits_scheme;
use crate::rule::{Broken, Rule};
use mls_lattice::Policy;
use mls_scheme::{Scheme, Tuple};

/// The first row that breaks the stored form, and the first rule that it breaks. None where the tuples are those of a
/// relation of the stored form, each once, with the kinds and intervals of the scheme.
///
/// It takes tuples in any order, and no memory: so it compares each with each, where `is_content` looks up by
/// places.
pub fn integrity(policy: &Policy, scheme: &Scheme, tuples: &[Tuple]) -> Option<Broken>
    requires classes { AllByRecursion (HasClassesBelow (length policy.now.labels)) tuples.now }
    requires under { IsUnder (length policy.now.labels) scheme.now }
    ensures none { (result ≡ None) ↔ IsStoredList (labels_of policy.now) scheme.now tuples.now }
    ensures first { IfSome result (λ b. IsFirstBroken (labels_of policy.now) scheme.now tuples.now b.row b.rule) }
{
    policy.use_invariant();
    for row in 0..tuples.len() {
        if let Some(rule) = broken_rule(policy, scheme, tuples, row) {
            return Some(Broken { row, rule });
        }
    }
    None
}

/// The first rule that a row breaks.
fn broken_rule(policy: &Policy, scheme: &Scheme, tuples: &[Tuple], row: usize) -> Option<Rule>
    requires classes { AllByRecursion (HasClassesBelow (length policy.now.labels)) tuples.now }
    requires under { IsUnder (length policy.now.labels) scheme.now }
    requires row { row < length tuples.now }
    ensures { result ≡ broken_rule (labels_of policy.now) scheme.now tuples.now row }
{
    let tuple = &tuples[row];
    if !is_above_key(policy, tuple) {
        return Some(Rule::Entity);
    }
    if !has_nulls_at_key(tuple) {
        return Some(Rule::Null);
    }
    if !fits_scheme(policy, scheme, tuple) {
        return Some(Rule::Interval);
    }
    if !is_determined(policy, tuples, row) {
        return Some(Rule::Poly);
    }
    if !(is_chain(policy, tuple) && has_each_class(policy, tuples, tuple)) {
        return Some(Rule::Closure);
    }
    None
}

/// Whether a tuple keeps the rules that speak of no other tuple.
pub(crate) fn is_right_alone(policy: &Policy, scheme: &Scheme, tuple: &Tuple) -> bool
    requires classes { HasClassesBelow (length policy.now.labels) tuple.now }
    requires under { IsUnder (length policy.now.labels) scheme.now }
    ensures { result ≡ is_right_alone (labels_of policy.now) scheme.now tuple.now }
{
    is_above_key(policy, tuple)
        && has_nulls_at_key(tuple)
        && fits_scheme(policy, scheme, tuple)
        && is_chain(policy, tuple)
}

/// Whether each class dominates the key class.
fn is_above_key(policy: &Policy, tuple: &Tuple) -> bool
    requires { HasClassesBelow (length policy.now.labels) tuple.now }
    ensures { result ≡ is_above_key (labels_of policy.now) tuple.now }
{
    for element in tuple.elements.as_slice() {
        if !policy.dominates(element.class, tuple.key_class) {
            return false;
        }
    }
    true
}

/// Whether each null has the key class.
fn has_nulls_at_key(tuple: &Tuple) -> bool
    ensures { result ≡ has_nulls_at_key tuple.now }
{
    for element in tuple.elements.as_slice() {
        if element.is_null() && element.class != tuple.key_class {
            return false;
        }
    }
    true
}
