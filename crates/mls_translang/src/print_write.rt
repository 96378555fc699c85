//! The text of writes.
ghost use Rattle.std.specs.Prelude.{◌≡◌, ◌<◌, length, OnOk, [], IfSome, flat_map};
ghost use Rattle.std.specs.List.{AllByRecursion};
ghost use Rattle.mls_scheme.specs.Scheme.{scheme_of};
ghost use Rattle.mls_translang.specs.Layout.{puts};
ghost use Rattle.mls_translang.specs.Tx.{IsOwn, StmtIsOwn};
ghost use Rattle.mls_translang.specs.Fits.{IsLabel, ExprFits, StmtFits};
ghost use Rattle.mls_translang.specs.Tree.{Write_at};
ghost use Rattle.mls_tokens.specs.Text.{comma_tokens, separated};
ghost use Rattle.mls_translang.specs.Tokens.{head_tokens, class_tokens, set_tokens, stmt_end, write_end, update_end};
ghost use Rattle.mls_translang.specs.Tokens.{write_tokens};

use crate::expr::Expr;
use crate::layout::Printer;
use crate::names::Names;
use crate::print_expr::{expr_to, list_to};
use crate::print_parts::{end_to, label_to};
use mls_lattice::LabelNo;
use mls_scheme::{RelNo, Scheme, Write};
use mls_tokens::Sign;
use std::alloc::AllocError;

/// Writes what each write begins with: its word, its relation and its key.
#[tactic(auto, using(crate::proofs::LayoutLemmas::lists))]
fn head_to(
    names: &Names<'_>,
    out: &mut Printer,
    word: &str,
    relation: RelNo,
    key: &[Expr],
) -> Result<(), AllocError>
    requires relation { relation < length names.now.schemes }
    requires own { AllByRecursion (IsOwn names.now.scope) key.now }
    requires fits { AllByRecursion (ExprFits names.now.schemes names.now.scope) key.now }
    ensures { OnOk result (out.new ≡ puts out.old (head_tokens names.now word.now relation key.now)) }
{
    out.word(word)?;
    out.word(names.relation(relation))?;
    out.word("key")?;
    list_to(names, out, key)
}

/// Writes the label of a write, and its end.
#[tactic(auto, using(crate::proofs::LayoutLemmas::lists))]
fn write_end_to(
    names: &Names<'_>,
    out: &mut Printer,
    at: LabelNo,
    outcome: Option<u8>,
) -> Result<(), AllocError>
    requires at { IsLabel names.now.policy at }
    requires outcome { IfSome outcome (λ x. x < length names.now.scope.vars) }
    ensures { OnOk result (out.new ≡ puts out.old (write_end names.now at (stmt_end names.now outcome))) }
{
    label_to(names, out, "at", at)?;
    end_to(names, out, outcome)
}

/// Writes `ATTRIBUTE = e`.
#[tactic(auto, using(crate::proofs::LayoutLemmas::lists))]
fn set_to(
    names: &Names<'_>,
    out: &mut Printer,
    scheme: &Scheme,
    set: &(usize, Expr),
) -> Result<(), AllocError>
    requires attribute { set.now.0 < length scheme.now.others }
    requires own { IsOwn names.now.scope set.now.1 }
    requires fits { ExprFits names.now.schemes names.now.scope set.now.1 }
    ensures { OnOk result (out.new ≡ puts out.old (set_tokens names.now scheme.now set.now)) }
{
    out.word(scheme.others().name(set.0))?;
    out.sign(Sign::Equals)?;
    expr_to(names, out, &set.1)
}

/// Writes sets, a comma before each.
#[tactic(auto, using(crate::proofs::LayoutLemmas::lists))]
fn set_rest_to(
    names: &Names<'_>,
    out: &mut Printer,
    scheme: &Scheme,
    sets: &[(usize, Expr)],
) -> Result<(), AllocError>
    requires own { AllByRecursion (λ x. IsOwn names.now.scope x.1) sets.now }
    requires fits { AllByRecursion (λ x. (x.0 < length scheme.now.others)
        × ExprFits names.now.schemes names.now.scope x.1) sets.now }
    ensures { OnOk result (out.new ≡ puts out.old
        (flat_map (comma_tokens (set_tokens names.now scheme.now)) sets.now)) }
{
    for set in sets {
        out.sign(Sign::Comma)?;
        set_to(names, out, scheme, set)?;
    }
    Ok(())
}

/// Writes sets, with commas between.
#[tactic(auto, using(crate::proofs::LayoutLemmas::lists))]
fn sets_to(
    names: &Names<'_>,
    out: &mut Printer,
    scheme: &Scheme,
    sets: &[(usize, Expr)],
) -> Result<(), AllocError>
    requires own { AllByRecursion (λ x. IsOwn names.now.scope x.1) sets.now }
    requires fits { AllByRecursion (λ x. (x.0 < length scheme.now.others)
        × ExprFits names.now.schemes names.now.scope x.1) sets.now }
    ensures { OnOk result (out.new ≡ puts out.old (separated (set_tokens names.now scheme.now) sets.now)) }
{
    match sets {
        [] => Ok(()),
        [first, rest @ ..] => {
            set_to(names, out, scheme, first)?;
            set_rest_to(names, out, scheme, rest)?;
            Ok(())
        }
    }
}

/// Writes the three labels of an update.
#[tactic(auto, using(crate::proofs::LayoutLemmas::lists))]
fn classes_to(
    names: &Names<'_>,
    out: &mut Printer,
    key_class: LabelNo,
    from: LabelNo,
    at: LabelNo,
) -> Result<(), AllocError>
    requires key_class { IsLabel names.now.policy key_class }
    requires from { IsLabel names.now.policy from }
    requires at { IsLabel names.now.policy at }
    ensures { OnOk result (out.new ≡ puts out.old (class_tokens names.now key_class from at)) }
{
    label_to(names, out, "class", key_class)?;
    label_to(names, out, "from", from)?;
    label_to(names, out, "at", at)
}

/// Writes the sets of an update, and its end.
#[tactic(auto, using(crate::proofs::LayoutLemmas::lists))]
fn update_end_to(
    names: &Names<'_>,
    out: &mut Printer,
    relation: RelNo,
    sets: &[(usize, Expr)],
    outcome: Option<u8>,
) -> Result<(), AllocError>
    requires relation { relation < length names.now.schemes }
    requires outcome { IfSome outcome (λ x. x < length names.now.scope.vars) }
    requires own_sets { AllByRecursion (λ x. IsOwn names.now.scope x.1) sets.now }
    requires sets { AllByRecursion (λ x. (x.0 < length (scheme_of names.now.schemes relation).others)
        × ExprFits names.now.schemes names.now.scope x.1) sets.now }
    ensures { OnOk result (out.new ≡ puts out.old (update_end names.now relation sets.now outcome)) }
{
    let scheme = names.scheme(relation);
    out.word("set")?;
    sets_to(names, out, scheme, sets)?;
    end_to(names, out, outcome)
}

/// Writes a write.
#[tactic(auto, using(crate::proofs::LayoutLemmas::lists))]
pub(crate) fn write_to(
    names: &Names<'_>,
    out: &mut Printer,
    relation: RelNo,
    at: LabelNo,
    write: &Write<Expr>,
    outcome: Option<u8>,
) -> Result<(), AllocError>
    requires own { StmtIsOwn names.now.scope (Write_at relation at write.now outcome) }
    requires fits { StmtFits names.now.policy names.now.schemes names.now.hi names.now.scope
        (Write_at relation at write.now outcome) }
    ensures { OnOk result (out.new ≡ puts out.old (write_tokens names.now relation at outcome write.now)) }
{
    match write {
        Write::Insert { key, values } => {
            head_to(names, out, "insert", relation, key)?;
            out.word("values")?;
            list_to(names, out, values)?;
            write_end_to(names, out, at, outcome)
        }
        Write::Update {
            key,
            key_class,
            from,
            sets,
        } => {
            head_to(names, out, "update", relation, key)?;
            classes_to(names, out, *key_class, *from, at)?;
            update_end_to(names, out, relation, sets, outcome)
        }
        Write::Delete { key, key_class } => {
            head_to(names, out, "delete", relation, key)?;
            label_to(names, out, "class", *key_class)?;
            write_end_to(names, out, at, outcome)
        }
    }
}
