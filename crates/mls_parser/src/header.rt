//! The parameters and variables of a transaction, from the tokens that are left.
ghost use Rattle.std.specs.Prelude.{◌≡◌, [], ◌+◌, ◌<◌, ◌≤◌, length, option_map, IfOk, IfSome, IsNone, OnOk};
ghost use Rattle.mls_scheme.specs.Named.{has_name};
ghost use Rattle.mls_parser.specs.Noted.{GivesPlaced};
ghost use Rattle.mls_parser.specs.ReadList.{items_at};
ghost use Rattle.mls_parser.specs.ReadTx.{kept, param_behind, next_param, params_at, var_behind, next_var, vars_at};

use crate::context::{label, label_or_first};
use crate::fault::{PlacedFault, TextCause, ill_formed};
use crate::limits::MAX_NAMES;
use crate::names::Name;
use crate::reader::Reader;
use mls_lattice::Policy;
use mls_scheme::{Kind, Named};
use mls_tokens::Sign;
use mls_translang::Parameter;
use std::alloc::{AllocError, Global};

fn has<T>(named: &Named<T>, name: &Name) -> bool
    ensures { result ≡ has_name named.now name.now.0 }
{
    named.has(name.0.as_str())
}

/// One thing more, unless the name is taken.
fn keep<T: Drop>(named: &mut Named<T>, name: Name, item: T) -> Result<(), AllocError>
    ensures kept { OnOk result (named.new ≡ kept named.old (name.0, item)) }
    ensures few { OnOk result (length named.new ≤ length named.old + 1) }
{
    if has(named, &name) {
        return Ok(());
    }
    named.push(name.0.into_string(), item)
}

/// One parameter more, behind its name.
#[tactic(auto, unfolding(crate::specs::ReadTx::param_behind))]
fn param(
    policy: &Policy,
    reader: &mut Reader,
    params: &mut Named<Parameter>,
    name: Name,
) -> Result<(), PlacedFault>
    ensures exact { GivesPlaced (λ _. (params.new, reader.new)) result
        (param_behind policy.now params.old (name.0, name.1) reader.old) }
    ensures few { OnOk result (length params.new ≤ length params.old + 1) }
{
    reader.sign(Sign::Colon)?;
    let (kind, _) = reader.kind()?;
    let of = reader.name_behind("at")?;
    reader.note(!has(params, &name), name.1, TextCause::Repeated)?;
    reader.note(label(policy, &of).is_some(), of.1, TextCause::UnknownName)?;
    let label = label_or_first(policy, &of);
    keep(params, name, Parameter { kind, label })?;
    Ok(())
}

/// One parameter more, behind so many.
#[tactic(auto, unfolding(crate::specs::ReadTx::next_param))]
fn next_param(
    policy: &Policy,
    reader: &mut Reader,
    params: &mut Named<Parameter>,
    count: usize,
) -> Result<(), PlacedFault>
    ensures exact { GivesPlaced (λ _. ((params.new, count + 1), reader.new)) result
        (next_param policy.now (params.old, count) reader.old) }
    ensures few { OnOk result (length params.new ≤ length params.old + 1) }
    ensures room { OnOk result (count < 64) }
{
    let name = reader.name()?;
    if count >= MAX_NAMES {
        return Err(ill_formed(name.1, TextCause::TooLong));
    }
    param(policy, reader, params, name)
}

/// Parameters, one or more with a comma between each two.
#[tactic(auto, using(crate::proofs::ItemSteps::item_steps))]
fn some_params(
    alloc: Global,
    policy: &Policy,
    reader: &mut Reader,
) -> Result<(Named<Parameter>, usize), PlacedFault>
    ensures exact { GivesPlaced (λ x. ((x.0, x.1), reader.new)) result (items_at (next_param policy.now) (
      [],
      0,
    ) reader.old) }
    ensures few { IfOk result (λ x. length x.0 ≤ 64) }
{
    let mut params = Named::new(alloc);
    let mut count = 0;
    loop {
        next_param(policy, reader, &mut params, count)?;
        count += 1;
        if reader.takes_sign(Sign::Comma).is_none() {
            return Ok((params, count));
        }
    }
}

/// The parameters in their parentheses.
#[tactic(auto, unfolding(crate::specs::ReadTx::params_at))]
pub(crate) fn params(
    alloc: Global,
    policy: &Policy,
    reader: &mut Reader,
) -> Result<Named<Parameter>, PlacedFault>
    ensures exact { GivesPlaced (λ ps. (ps, reader.new)) result (params_at policy.now reader.old) }
    ensures few { IfOk result (λ ps. length ps ≤ 64) }
{
    reader.sign(Sign::LeftParen)?;
    if reader.takes_sign(Sign::RightParen).is_some() {
        return Ok(Named::new(alloc));
    }
    let (params, _) = some_params(alloc, policy, reader)?;
    reader.sign(Sign::RightParen)?;
    Ok(params)
}

/// One variable more, behind its first word.
#[tactic(auto, unfolding(crate::specs::ReadTx::var_behind))]
fn var(
    params: &Named<Parameter>,
    reader: &mut Reader,
    vars: &mut Named<Kind>,
) -> Result<(), PlacedFault>
    ensures exact { GivesPlaced (λ _. (vars.new, reader.new)) result (var_behind params.now vars.old reader.old) }
    ensures few { OnOk result (length vars.new ≤ length vars.old + 1) }
{
    let name = reader.name()?;
    reader.sign(Sign::Colon)?;
    let (kind, _) = reader.kind()?;
    reader.sign(Sign::Semicolon)?;
    let again = has(params, &name) || has(vars, &name);
    reader.note(!again, name.1, TextCause::Repeated)?;
    keep(vars, name, kind)?;
    Ok(())
}

/// One variable more, behind so many, if one stands here; and how many there are then.
#[tactic(auto, unfolding(crate::specs::ReadTx::next_var))]
fn next_var(
    params: &Named<Parameter>,
    reader: &mut Reader,
    vars: &mut Named<Kind>,
    count: usize,
) -> Result<Option<usize>, PlacedFault>
    ensures exact { GivesPlaced (λ x. (option_map (λ n. (vars.new, n)) x, reader.new)) result
        (next_var params.now (vars.old, count) reader.old) }
    ensures few { OnOk result (length vars.new ≤ length vars.old + 1) }
    ensures counted { IfOk result (λ x. IfSome x (λ n. (count < 64) × (n ≡ count + 1))) }
    ensures stays { IfOk result (λ x. IsNone x → vars.new ≡ vars.old) }
{
    let Some(at) = reader.takes_word("var") else {
        return Ok(None);
    };
    if count >= MAX_NAMES {
        return Err(ill_formed(at, TextCause::TooLong));
    }
    var(params, reader, vars)?;
    Ok(Some(count + 1))
}

/// The variables.
#[tactic(auto, using(crate::proofs::HeaderSteps::thing_steps), unfolding(crate::specs::ReadTx::vars_at))]
pub(crate) fn vars(
    alloc: Global,
    params: &Named<Parameter>,
    reader: &mut Reader,
) -> Result<Named<Kind>, PlacedFault>
    ensures exact { GivesPlaced (λ vs. (vs, reader.new)) result (vars_at params.now reader.old) }
    ensures few { IfOk result (λ vs. length vs ≤ 64) }
{
    let mut vars = Named::new(alloc);
    let mut count = 0;
    while let Some(next) = next_var(params, reader, &mut vars, count)? {
        count = next;
    }
    Ok(vars)
}
