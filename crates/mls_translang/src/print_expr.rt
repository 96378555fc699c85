//! The text of expressions.
ghost use Rattle.std.specs.Prelude.{◌≡◌, ◌<◌, length, OnOk, flat_map};
ghost use Rattle.std.specs.List.{AllByRecursion};
ghost use Rattle.mls_tokens.specs.declared.token.Token.TheVariants as token;
ghost use Rattle.mls_translang.specs.Layout.{put, puts};
ghost use Rattle.mls_scheme.specs.Scheme.{scheme_of};
ghost use Rattle.mls_translang.specs.Scope.{row_at};
ghost use Rattle.mls_translang.specs.Tx.{HasOwn, IsOwn};
ghost use Rattle.mls_translang.specs.Fits.{ExprFits, width};
ghost use Rattle.mls_translang.specs.Kinds.{field_of};
ghost use Rattle.mls_tokens.specs.Text.{comma_tokens, separated};
ghost use Rattle.mls_translang.specs.Tokens.{value_token, operator_token, field_tokens, expr_tokens, list_tokens};

use crate::expr::{Expr, Term};
use crate::layout::Printer;
use crate::names::{Names, field_name};
use crate::operator::Operator;
use mls_scheme::Value;
use mls_tokens::Sign;
use std::alloc::AllocError;

fn value_to(out: &mut Printer, value: &Value) -> Result<(), AllocError>
    ensures { OnOk result (out.new ≡ put out.old (value_token value.now)) }
{
    match value {
        Value::Int(number) => out.int(*number),
        Value::Text(text) => out.quoted(text.as_str()),
    }
}

fn operator_to(out: &mut Printer, operator: Operator) -> Result<(), AllocError>
    ensures { OnOk result (out.new ≡ put out.old (operator_token operator)) }
{
    match operator {
        Operator::Plus => out.sign(Sign::Plus),
        Operator::Minus => out.sign(Sign::Minus),
        Operator::Times => out.sign(Sign::Times),
        Operator::Equal => out.sign(Sign::Equals),
        Operator::Unequal => out.sign(Sign::Differs),
        Operator::Less => out.sign(Sign::Less),
        Operator::AtMost => out.sign(Sign::AtMost),
        Operator::Greater => out.sign(Sign::Greater),
        Operator::AtLeast => out.sign(Sign::AtLeast),
        Operator::And => out.word("and"),
        Operator::Or => out.word("or"),
    }
}

/// Writes the name of an attribute of the row at a depth.
fn attribute_of<'a>(names: &'a Names<'_>, depth: u8, attribute: u8) -> &'a str
    requires row { depth < length names.now.scope.rows }
    requires attribute { attribute < width (scheme_of names.now.schemes (row_at names.now.scope depth).relation) }
    ensures { result.now ≡ (field_of (scheme_of names.now.schemes (row_at names.now.scope depth).relation)
        attribute).0 }
{
    field_name(names.scheme(names.row(depth).relation), attribute as usize)
}

fn field_to(
    names: &Names<'_>,
    out: &mut Printer,
    depth: u8,
    attribute: u8,
) -> Result<(), AllocError>
    requires row { depth < length names.now.scope.rows }
    requires attribute { attribute < width (scheme_of names.now.schemes (row_at names.now.scope depth).relation) }
    ensures { OnOk result (out.new ≡ puts out.old (field_tokens names.now depth attribute)) }
{
    out.word(names.row(depth).name.as_str())?;
    out.sign(Sign::Dot)?;
    out.word(attribute_of(names, depth, attribute))
}

/// Writes an expression: each operation in its own parentheses.
#[tactic(auto, using(crate::proofs::LayoutLemmas::lists))]
pub(crate) fn expr_to(names: &Names<'_>, out: &mut Printer, expr: &Expr) -> Result<(), AllocError>
    requires own { HasOwn names.now.scope expr.now }
    requires fits { ExprFits names.now.schemes names.now.scope expr.now }
    ensures { OnOk result (out.new ≡ puts out.old (expr_tokens names.now expr.now)) }
{
    match &expr.term {
        Term::Known(value) => value_to(out, value),
        Term::Null => out.word("null"),
        Term::Variable(number) => out.word(names.variable(*number)),
        Term::Parameter(number) => out.word(names.parameter(*number)),
        Term::Field { depth, attribute } => field_to(names, out, *depth, *attribute),
        Term::Not(inner) => {
            out.word("not")?;
            expr_to(names, out, inner)
        }
        Term::Op(operator, left, right) => {
            out.sign(Sign::LeftParen)?;
            expr_to(names, out, left)?;
            operator_to(out, *operator)?;
            expr_to(names, out, right)?;
            out.sign(Sign::RightParen)
        }
    }
}

/// Writes expressions, a comma before each.
#[tactic(auto, using(crate::proofs::LayoutLemmas::lists))]
fn rest_to(names: &Names<'_>, out: &mut Printer, exprs: &[Expr]) -> Result<(), AllocError>
    requires own { AllByRecursion (IsOwn names.now.scope) exprs.now }
    requires fits { AllByRecursion (ExprFits names.now.schemes names.now.scope) exprs.now }
    ensures { OnOk result (out.new ≡ puts out.old (flat_map (comma_tokens (expr_tokens names.now)) exprs.now)) }
{
    for expr in exprs {
        out.sign(Sign::Comma)?;
        expr_to(names, out, expr)?;
    }
    Ok(())
}

/// Writes expressions, with commas between.
#[tactic(auto, using(crate::proofs::LayoutLemmas::lists))]
fn exprs_to(names: &Names<'_>, out: &mut Printer, exprs: &[Expr]) -> Result<(), AllocError>
    requires own { AllByRecursion (IsOwn names.now.scope) exprs.now }
    requires fits { AllByRecursion (ExprFits names.now.schemes names.now.scope) exprs.now }
    ensures { OnOk result (out.new ≡ puts out.old (separated (expr_tokens names.now) exprs.now)) }
{
    match exprs {
        [] => Ok(()),
        [first, rest @ ..] => {
            expr_to(names, out, first)?;
            rest_to(names, out, rest)?;
            Ok(())
        }
    }
}

/// Writes expressions between parentheses.
#[tactic(auto, using(crate::proofs::LayoutLemmas::lists))]
pub(crate) fn list_to(
    names: &Names<'_>,
    out: &mut Printer,
    exprs: &[Expr],
) -> Result<(), AllocError>
    requires own { AllByRecursion (IsOwn names.now.scope) exprs.now }
    requires fits { AllByRecursion (ExprFits names.now.schemes names.now.scope) exprs.now }
    ensures { OnOk result (out.new ≡ puts out.old (list_tokens names.now exprs.now)) }
{
    out.sign(Sign::LeftParen)?;
    exprs_to(names, out, exprs)?;
    out.sign(Sign::RightParen)
}
