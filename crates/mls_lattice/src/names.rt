//! Lists of names.
ghost use Rattle.std.specs.Prelude.{◌≡◌, ◌<◌, [], length, IfOk, OnOk, IfSome, position, bytes_eq};
ghost use Rattle.toml.specs.View.{items_view};
ghost use Rattle.mls_lattice.specs.Reading.{Shows, Gives};
ghost use Rattle.mls_lattice.specs.PolicyReading.{rows_at, with_name, new_name_at, place_in};
ghost use Rattle.mls_lattice.specs.Known.{KnowsNames};

use crate::document::name_of;
use crate::failed::Failed;
use crate::fault::FieldFault;
use crate::text::Str;
use crate::trail::Trail;
use std::alloc::Global;
use std::collections::BTreeSet;
use toml::Value;

/// Adds a name to those that a reader has met, where it is new.
#[tactic(auto, using(crate::proofs::KnownLemmas::add_steps))]
fn add_name(
    names: &mut Vec<Str>,
    known: &mut BTreeSet<Str>,
    name: Str,
) -> Result<(), Failed<FieldFault>>
    requires known { KnowsNames known.old names.old.items }
    ensures adds { Gives (λ _. names.new.items) result (with_name names.old.items name) }
    ensures known { OnOk result (KnowsNames known.new names.new.items) }
{
    if !known.insert(name.clone()?)? {
        return Err(Failed::Fault(FieldFault::Repeated));
    }
    names.push(name)?;
    Ok(())
}

/// The names of an array, none of them twice; it stands so many steps below the top.
#[tactic(auto, using(crate::proofs::KnownLemmas::name_steps))]
pub(crate) fn names_of(
    alloc: Global,
    items: &[Value],
    at: &mut Trail,
    depth: usize,
) -> Result<Vec<Str>, Failed<FieldFault>>
    ensures reads { Gives (λ v. v.items) result (rows_at new_name_at [] (items_view items.now)) }
    ensures count { IfOk result (λ v. length v.items ≡ length items.now) }
{
    let mut names = Vec::new(alloc);
    let mut known = BTreeSet::new(alloc);
    for value in items {
        at.next(depth);
        let name = Str::copy_of(alloc, name_of(value)?)?;
        add_name(&mut names, &mut known, name)?;
    }
    Ok(names)
}

fn position_of(names: &[Str], name: &str) -> Option<usize>
    ensures exact { result ≡ position (λ other. bytes_eq other name.now) names.now }
    ensures within { IfSome result (λ place. place < length names.now) }
{
    names.iter().position(|other| other.as_str() == name)
}

/// Where a name stands.
pub(crate) fn place_of(names: &[Str], name: &str) -> Result<usize, FieldFault>
    ensures reads { Shows (λ place. place) result (place_in names.now name.now) }
    ensures within { IfOk result (λ place. place < length names.now) }
{
    match position_of(names, name) {
        Some(place) => Ok(place),
        None => Err(FieldFault::UnknownName),
    }
}
