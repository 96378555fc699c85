//! The canonical text.
ghost use Rattle.std.specs.Prelude.{◌≡◌, ◌<◌, ◌++◌, length, string_bytes, OnOk, flat_map};
ghost use Rattle.std.specs.List.{AllByRecursion};
ghost use Rattle.mls_scheme.specs.Scheme.{IsAmongLabels, IsUnder, AreUnder};
ghost use Rattle.mls_scheme.specs.Canon.{attribute_line, head_lines, relation_lines};

use crate::attributes::{Attributes, Column};
use crate::scheme::Scheme;
use mls_lattice::Policy;
use std::alloc::AllocError;

/// Writes the line of an attribute.
pub(crate) fn attribute_to(
    text: &mut String,
    policy: &Policy,
    word: &str,
    name: &str,
    column: Column,
) -> Result<(), AllocError>
    requires low { column.low < length policy.now.labels }
    requires high { column.high < length policy.now.labels }
    ensures { OnOk result (string_bytes text.new ≡ string_bytes text.old
        ++ attribute_line policy.now word.now (name.now, column)) }
{
    let kind = column.kind.word();
    let low = policy.name(column.low);
    let high = policy.name(column.high);
    writeln!(text, "{word} {name} {kind} {low} {high}")?;
    Ok(())
}

/// Writes the lines of attributes.
fn attributes_to(
    text: &mut String,
    policy: &Policy,
    word: &str,
    attributes: &Attributes,
) -> Result<(), AllocError>
    requires { AllByRecursion (IsAmongLabels (length policy.now.labels)) attributes.now }
    ensures { OnOk result (string_bytes text.new ≡ string_bytes text.old
        ++ flat_map (attribute_line policy.now word.now) attributes.now) }
{
    for place in 0..attributes.len() {
        attribute_to(
            text,
            policy,
            word,
            attributes.name(place),
            *attributes.get(place),
        )?;
    }
    Ok(())
}

/// Writes the first line of a relation, and those of its key.
pub(crate) fn head_to(text: &mut String, policy: &Policy, scheme: &Scheme) -> Result<(), AllocError>
    requires { IsUnder (length policy.now.labels) scheme.now }
    ensures { OnOk result (string_bytes text.new ≡ string_bytes text.old ++ head_lines policy.now scheme.now) }
{
    let name = scheme.name();
    writeln!(text, "relation {name}")?;
    attributes_to(text, policy, "key", scheme.keys())
}

/// Writes the lines of a relation.
fn relation_to(text: &mut String, policy: &Policy, scheme: &Scheme) -> Result<(), AllocError>
    requires { IsUnder (length policy.now.labels) scheme.now }
    ensures { OnOk result (string_bytes text.new ≡ string_bytes text.old ++ relation_lines policy.now scheme.now) }
{
    head_to(text, policy, scheme)?;
    attributes_to(text, policy, "attribute", scheme.others())
}

/// Writes the lines of relations.
pub(crate) fn relations_to(
    text: &mut String,
    policy: &Policy,
    relations: &[Scheme],
) -> Result<(), AllocError>
    requires { AreUnder (length policy.now.labels) relations.now }
    ensures { OnOk result (string_bytes text.new ≡ string_bytes text.old
        ++ flat_map (relation_lines policy.now) relations.now) }
{
    for scheme in relations {
        relation_to(text, policy, scheme)?;
    }
    Ok(())
}
