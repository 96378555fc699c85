//! The text of statements that are no writes and hold no others.
ghost use Rattle.std.specs.Prelude.{◌≡◌, ◌<◌, length, OnOk, [], ◌∷◌, IfSome};
ghost use Rattle.mls_tokens.specs.declared.token.Token.TheVariants as token;
ghost use Rattle.mls_translang.specs.Layout.{puts};
ghost use Rattle.mls_translang.specs.Tx.{IsOwn};
ghost use Rattle.mls_translang.specs.Fits.{IsLabel, ExprFits};
ghost use Rattle.mls_translang.specs.Tree.{Assign, Release, Emit};
ghost use Rattle.mls_translang.specs.Tokens.{var_token, label_token, stmt_end, stmt_tokens};

use crate::expr::Expr;
use crate::layout::Printer;
use crate::names::Names;
use crate::print_expr::expr_to;
use mls_lattice::LabelNo;
use mls_tokens::Sign;
use std::alloc::AllocError;

/// Writes a word and a label.
pub(crate) fn label_to(
    names: &Names<'_>,
    out: &mut Printer,
    word: &str,
    label: LabelNo,
) -> Result<(), AllocError>
    requires { IsLabel names.now.policy label }
    ensures { OnOk result (out.new ≡ puts out.old (token.Word word.now ∷ label_token names.now label ∷ [])) }
{
    out.word(word)?;
    out.word(names.label(label))
}

/// Writes a word and a variable.
fn variable_to(
    names: &Names<'_>,
    out: &mut Printer,
    word: &str,
    variable: u8,
) -> Result<(), AllocError>
    requires { variable < length names.now.scope.vars }
    ensures { OnOk result (out.new ≡ puts out.old (token.Word word.now ∷ var_token names.now variable ∷ [])) }
{
    out.word(word)?;
    out.word(names.variable(variable))
}

/// Writes the variable of an outcome, if there is one, and the end of the statement.
pub(crate) fn end_to(
    names: &Names<'_>,
    out: &mut Printer,
    outcome: Option<u8>,
) -> Result<(), AllocError>
    requires { IfSome outcome (λ x. x < length names.now.scope.vars) }
    ensures { OnOk result (out.new ≡ puts out.old (stmt_end names.now outcome)) }
{
    if let Some(variable) = outcome {
        variable_to(names, out, "as", variable)?;
    }
    out.sign(Sign::Semicolon)
}

/// Writes `x := e;`.
#[tactic(auto, using(crate::proofs::LayoutLemmas::lists))]
pub(crate) fn assign_to(
    names: &Names<'_>,
    out: &mut Printer,
    variable: u8,
    value: &Expr,
) -> Result<(), AllocError>
    requires variable { variable < length names.now.scope.vars }
    requires own { IsOwn names.now.scope value.now }
    requires fits { ExprFits names.now.schemes names.now.scope value.now }
    ensures { OnOk result (out.new ≡ puts out.old (stmt_tokens names.now (Assign variable value.now))) }
{
    out.word(names.variable(variable))?;
    out.sign(Sign::Becomes)?;
    expr_to(names, out, value)?;
    out.sign(Sign::Semicolon)
}

/// Writes `release e to L into x;`.
#[tactic(auto, using(crate::proofs::LayoutLemmas::lists))]
pub(crate) fn release_to(
    names: &Names<'_>,
    out: &mut Printer,
    value: &Expr,
    to: LabelNo,
    into: u8,
) -> Result<(), AllocError>
    requires to { IsLabel names.now.policy to }
    requires into { into < length names.now.scope.vars }
    requires own { IsOwn names.now.scope value.now }
    requires fits { ExprFits names.now.schemes names.now.scope value.now }
    ensures { OnOk result (out.new ≡ puts out.old (stmt_tokens names.now (Release value.now to into))) }
{
    out.word("release")?;
    expr_to(names, out, value)?;
    label_to(names, out, "to", to)?;
    variable_to(names, out, "into", into)?;
    out.sign(Sign::Semicolon)
}

/// Writes `emit e at L;`.
#[tactic(auto, using(crate::proofs::LayoutLemmas::lists))]
pub(crate) fn emit_to(
    names: &Names<'_>,
    out: &mut Printer,
    value: &Expr,
    label: LabelNo,
) -> Result<(), AllocError>
    requires label { IsLabel names.now.policy label }
    requires own { IsOwn names.now.scope value.now }
    requires fits { ExprFits names.now.schemes names.now.scope value.now }
    ensures { OnOk result (out.new ≡ puts out.old (stmt_tokens names.now (Emit value.now label))) }
{
    out.word("emit")?;
    expr_to(names, out, value)?;
    label_to(names, out, "at", label)?;
    out.sign(Sign::Semicolon)
}
