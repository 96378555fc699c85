//! Labels as words. One that is not declared is told by the declared ones below it, since a rank or a category
//! has no look-up by its number.
ghost use Rattle.std.specs.Prelude.{◌≡◌, string_bytes, IfOk};
ghost use Rattle.mls_lattice.specs.Lattice.{pair_of};
ghost use Rattle.mls_explain.specs.Telling.{is_named, names_of, words_of};

use mls_lattice::{Label, LabelNo, Policy, flows};
use std::alloc::{AllocError, Global};

/// Whether a label is a declared one, or, where it need not be that, dominates it.
fn is_named(exact: bool, label: Label, declared: Label) -> bool
    ensures { result ≡ is_named exact (pair_of label) (pair_of declared) }
{
    if exact {
        label.same(declared)
    } else {
        flows(declared, label)
    }
}

/// The names of the declared labels that are this one, or, where they need not be, that it dominates.
fn names_of(alloc: Global, policy: &Policy, exact: bool, label: Label) -> Result<String, AllocError>
    ensures { IfOk result (λ s. string_bytes s ≡ names_of exact policy.now label) }
{
    let mut text = String::new(alloc);
    for place in 0..policy.label_count() {
        let number = LabelNo::new(place as u8);
        if !is_named(exact, label, policy.value(number)) {
            continue;
        }
        let name = policy.name(number);
        write!(text, " {name}")?;
    }
    Ok(text)
}

/// A declared label by its name; another one, by those that it dominates.
pub(crate) fn words_of(alloc: Global, policy: &Policy, label: Label) -> Result<String, AllocError>
    ensures { IfOk result (λ s. string_bytes s ≡ words_of policy.now label) }
{
    let same = names_of(alloc, policy, true, label)?;
    if !same.is_empty() {
        return Ok(same);
    }
    let under = names_of(alloc, policy, false, label)?;
    if under.is_empty() {
        return String::from_str(alloc, " lowest");
    }
    format!(in alloc; " over{under}")
}
