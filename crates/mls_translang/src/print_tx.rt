//! The text of transactions.
ghost use Rattle.std.specs.Prelude.{◌≡◌, ◌<◌, ◌++◌, drop, OnOk, IfOk, flat_map};
ghost use Rattle.std.specs.List.{AllByRecursion};
ghost use Rattle.mls_translang.specs.Layout.{puts};
ghost use Rattle.mls_translang.specs.Fits.{IsLabel, IsReadUnder};
ghost use Rattle.mls_tokens.specs.Text.{comma_tokens, separated};
ghost use Rattle.mls_translang.specs.Tokens.{param_tokens, params_tokens, var_tokens, heading_tokens, braced};
ghost use Rattle.mls_translang.specs.Tokens.{block_tokens, outermost, tx_tokens, printed};

use crate::layout::Printer;
use crate::names::Names;
use crate::print_block::block_to;
use crate::print_parts::label_to;
use crate::tx::{Parameter, Tx};
use mls_lattice::{LabelNo, Policy};
use mls_scheme::{Kind, Named, Schemes};
use mls_tokens::Sign;
use std::alloc::{AllocError, Global};

fn param_to(
    names: &Names<'_>,
    out: &mut Printer,
    name: &str,
    param: Parameter,
) -> Result<(), AllocError>
    requires { IsLabel names.now.policy param.label }
    ensures { OnOk result (out.new ≡ puts out.old (param_tokens names.now (name.now, param))) }
{
    out.word(name)?;
    out.sign(Sign::Colon)?;
    out.word(param.kind.word())?;
    label_to(names, out, "at", param.label)
}

/// Writes the parameters behind the first, a comma before each.
fn params_rest_to(
    names: &Names<'_>,
    out: &mut Printer,
    params: &Named<Parameter>,
) -> Result<(), AllocError>
    requires { AllByRecursion (λ p. IsLabel names.now.policy p.1.label) params.now }
    ensures { OnOk result (out.new ≡ puts out.old
        (flat_map (comma_tokens (param_tokens names.now)) (drop 1 params.now))) }
{
    for place in 1..params.len() {
        out.sign(Sign::Comma)?;
        param_to(names, out, params.name(place), *params.get(place))?;
    }
    Ok(())
}

fn params_to(
    names: &Names<'_>,
    out: &mut Printer,
    params: &Named<Parameter>,
) -> Result<(), AllocError>
    requires { AllByRecursion (λ p. IsLabel names.now.policy p.1.label) params.now }
    ensures { OnOk result (out.new ≡ puts out.old (separated (param_tokens names.now) params.now)) }
{
    if params.is_empty() {
        return Ok(());
    }
    param_to(names, out, params.name(0), *params.get(0))?;
    params_rest_to(names, out, params)?;
    Ok(())
}

/// Writes the parameters between parentheses.
#[tactic(auto, using(crate::proofs::LayoutLemmas::lists))]
fn listed_to(
    names: &Names<'_>,
    out: &mut Printer,
    params: &Named<Parameter>,
) -> Result<(), AllocError>
    requires { AllByRecursion (λ p. IsLabel names.now.policy p.1.label) params.now }
    ensures { OnOk result (out.new ≡ puts out.old (params_tokens names.now params.now)) }
{
    out.sign(Sign::LeftParen)?;
    params_to(names, out, params)?;
    out.sign(Sign::RightParen)
}

fn var_to(out: &mut Printer, name: &str, kind: Kind) -> Result<(), AllocError>
    ensures { OnOk result (out.new ≡ puts out.old (var_tokens (name.now, kind))) }
{
    out.word("var")?;
    out.word(name)?;
    out.sign(Sign::Colon)?;
    out.word(kind.word())?;
    out.sign(Sign::Semicolon)
}

fn vars_to(out: &mut Printer, vars: &Named<Kind>) -> Result<(), AllocError>
    ensures { OnOk result (out.new ≡ puts out.old (flat_map var_tokens vars.now)) }
{
    for place in 0..vars.len() {
        var_to(out, vars.name(place), *vars.get(place))?;
    }
    Ok(())
}

fn heading_to(
    names: &Names<'_>,
    out: &mut Printer,
    name: &str,
    lo: LabelNo,
    hi: LabelNo,
) -> Result<(), AllocError>
    requires lo { IsLabel names.now.policy lo }
    requires hi { IsLabel names.now.policy hi }
    ensures { OnOk result (out.new ≡ puts out.old (heading_tokens names.now name.now lo hi)) }
{
    out.word("transaction")?;
    out.word(name)?;
    label_to(names, out, "levels", lo)?;
    label_to(names, out, "to", hi)
}

/// Writes the variables and the statements in their braces.
#[tactic(auto, using(crate::proofs::LayoutLemmas::lists))]
fn body_to(alloc: Global, names: &Names<'_>, out: &mut Printer, tx: &Tx) -> Result<(), AllocError>
    requires names { names.now ≡ outermost names.now.policy names.now.schemes tx.now }
    requires read { IsReadUnder names.now.policy names.now.schemes tx.now }
    ensures { OnOk result (out.new ≡ puts out.old (braced (flat_map var_tokens tx.now.vars
        ++ block_tokens names.now tx.now.body))) }
{
    out.sign(Sign::LeftBrace)?;
    vars_to(out, tx.vars())?;
    block_to(alloc, names, out, tx.body())?;
    out.sign(Sign::RightBrace)
}

#[tactic(auto, using(crate::proofs::LayoutLemmas::lists))]
fn tx_to(alloc: Global, names: &Names<'_>, out: &mut Printer, tx: &Tx) -> Result<(), AllocError>
    requires names { names.now ≡ outermost names.now.policy names.now.schemes tx.now }
    requires read { IsReadUnder names.now.policy names.now.schemes tx.now }
    ensures { OnOk result (out.new ≡ puts out.old (tx_tokens names.now tx.now)) }
{
    heading_to(names, out, tx.name(), tx.lo(), tx.hi())?;
    listed_to(names, out, tx.params())?;
    body_to(alloc, names, out, tx)
}

/// The canonical text of a transaction that was read under a policy and schemes.
pub fn print(
    alloc: Global,
    policy: &Policy,
    schemes: &Schemes,
    tx: &Tx,
) -> Result<Vec<u8>, AllocError>
    requires { IsReadUnder policy.now schemes.now tx.now }
    ensures { IfOk result (λ text. text.items ≡ printed policy.now schemes.now tx.now) }
{
    let names = Names {
        policy,
        schemes,
        tx,
        rows: &[],
    };
    let mut out = Printer::new(alloc);
    tx_to(alloc, &names, &mut out, tx)?;
    let text = out.finish()?;
    Ok(text)
}
