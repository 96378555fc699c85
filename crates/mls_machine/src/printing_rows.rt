//! The rows of a view.
ghost use Rattle.std.specs.Prelude.{◌≡◌, ◌<◌, ◌++◌, length, codes, OnOk, Some, flat_map};
ghost use Rattle.std.specs.List.{AllByRecursion};
ghost use Rattle.mls_lattice.specs.Lattice.{pair_of};
ghost use Rattle.mls_lattice.specs.Canon.{label_name};
ghost use Rattle.mls_scheme.specs.Tuple.{tuple_class, HasClassesBelow};
ghost use Rattle.mls_machine.specs.Output.{cell_entry, name_of, row_text};

use mls_filterview::is_same_label;
use mls_lattice::{Label, LabelNo, Policy};
use mls_scheme::{Element, Tuple, Value, tuple_class};
use mls_tokens::push_str;
use mls_translang::{push_cell, push_value};
use std::alloc::{AllocError, Global};

fn push_class(text: &mut Vec<u8>, policy: &Policy, class: LabelNo) -> Result<(), AllocError>
    requires { class < length policy.now.labels }
    ensures { OnOk result (text.new.items ≡ text.old.items ++ codes " " ++ label_name policy.now.labels class
        ++ codes " | ") }
{
    push_str(text, " ")?;
    push_str(text, policy.name(class))?;
    push_str(text, " | ")
}

fn push_key(
    alloc: Global,
    text: &mut Vec<u8>,
    policy: &Policy,
    class: LabelNo,
    key: &[Value],
) -> Result<(), AllocError>
    requires { class < length policy.now.labels }
    ensures { OnOk result (text.new.items ≡ text.old.items
        ++ flat_map (λ v. cell_entry policy.now.labels class (Some v)) key.now) }
{
    for value in key {
        push_value(alloc, text, value)?;
        push_class(text, policy, class)?;
    }
    Ok(())
}

fn push_elements(
    alloc: Global,
    text: &mut Vec<u8>,
    policy: &Policy,
    elements: &[Element],
) -> Result<(), AllocError>
    requires { AllByRecursion (λ e. e.class < length policy.now.labels) elements.now }
    ensures { OnOk result (text.new.items ≡ text.old.items
        ++ flat_map (λ e. cell_entry policy.now.labels e.class e.value) elements.now) }
{
    for element in elements {
        push_cell(alloc, text, &element.value)?;
        push_class(text, policy, element.class)?;
    }
    Ok(())
}

/// The name of the first label of a value, or nothing.
#[tactic(auto, using(crate::proofs::PrintingSteps::naming))]
pub(crate) fn name_of(policy: &Policy, class: Label) -> &str
    ensures { result.now ≡ name_of policy.now.labels (pair_of class) }
{
    for number in 0..policy.label_count() {
        let label = LabelNo::new(number as u8);
        if is_same_label(policy.value(label), class) {
            return policy.name(label);
        }
    }
    ""
}

/// Appends the text of a row.
pub(crate) fn push_row(
    alloc: Global,
    text: &mut Vec<u8>,
    policy: &Policy,
    tuple: &Tuple,
) -> Result<(), AllocError>
    requires { HasClassesBelow (length policy.now.labels) tuple.now }
    ensures { OnOk result (text.new.items ≡ text.old.items ++ row_text policy.now tuple.now) }
{
    push_str(text, "row ")?;
    push_key(alloc, text, policy, tuple.key_class, &tuple.key)?;
    push_elements(alloc, text, policy, &tuple.elements)?;
    push_str(text, name_of(policy, tuple_class(policy, tuple)))
}
