//! Expressions, from the tokens that are left.
ghost use Rattle.std.specs.Prelude.{◌≡◌, ◌<◌, ◌≤◌, length, IfOk, OnOk, IfErr, IfSome};
ghost use Rattle.mls_translang.specs.Exprs.{expr_of};
ghost use Rattle.mls_translang.specs.Fits.{width};
ghost use Rattle.mls_translang.specs.Tree.{No, Op};
ghost use Rattle.mls_parser.specs.declared.fault.TextCause.TheVariants.{Memory};
ghost use Rattle.mls_parser.specs.declared.inferred.Inferred.TheVariants.{Truth};
ghost use Rattle.mls_parser.specs.Infer.{given_by_operator};
ghost use Rattle.mls_parser.specs.Names.{referent, row_named, row_scheme};
ghost use Rattle.mls_parser.specs.Noted.{GivesPlaced, known, note};
ghost use Rattle.mls_parser.specs.ReadExpr.{given, refer, name_given, attribute_given, field_given, field_faults};
ghost use Rattle.mls_parser.specs.ReadExpr.{named_at, term_at, second, negation_at, operation_at, expr_at, whole_at};

use crate::context::Context;
use crate::fault::{PlacedFault, TextCause, ill_formed};
use crate::given::Given;
use crate::inferred::{Inferred, given_by_operator, operands_fit};
use crate::limits::MAX_DEPTH;
use crate::names::{Name, Referent, attribute};
use crate::reader::Reader;
use crate::words::Head;
use mls_tokens::Sign;
use mls_translang::{Expr, Operator, Term};
use std::alloc::{AllocError, Global};

fn negated(alloc: Global, operand: Expr, at: usize) -> Result<Given, PlacedFault>
    ensures new { IfOk result (λ g. g ≡ given (No operand) Truth at) }
    ensures memory { IfErr result (λ e. e.cause ≡ Memory) }
{
    let operand = Box::new(alloc, operand)?;
    Ok(Given {
        expr: Expr::from(Term::Not(operand)),
        gives: Inferred::Truth,
        at,
    })
}

pub(crate) fn combined(
    alloc: Global,
    operator: Operator,
    left: Expr,
    right: Expr,
    at: usize,
) -> Result<Given, PlacedFault>
    ensures new { IfOk result (λ g. g ≡ given (Op operator left right) (given_by_operator operator) at) }
    ensures memory { IfErr result (λ e. e.cause ≡ Memory) }
{
    let left = Box::new(alloc, left)?;
    let right = Box::new(alloc, right)?;
    Ok(Given {
        expr: Expr::from(Term::Op(operator, left, right)),
        gives: given_by_operator(operator),
        at,
    })
}

impl Context<'_> {
    fn refer(&self, name: &Name) -> Term
        ensures { expr_of result ≡ refer (referent self.now name.now.0) }
    {
        // what holds of every place
        let _few = (self.params.len(), self.vars.len());
        match self.referent(name) {
            Some(Referent::Variable(place)) => Term::Variable(place as u8),
            Some(Referent::Parameter(place)) => Term::Parameter(place as u8),
            None => Term::Null,
        }
    }

    /// A name alone.
    fn alone(&self, reader: &mut Reader, name: &Name) -> Result<Given, AllocError>
        ensures given { IfOk result (λ g. g ≡ name_given self.now name.now) }
        ensures noted { OnOk result (reader.new ≡ note (known (referent self.now name.now.0) name.now.1) reader.old) }
    {
        let known = self.referent(name).is_some();
        reader.note(known, name.1, TextCause::UnknownName)?;
        Ok(Given {
            expr: Expr::from(self.refer(name)),
            gives: self.name_gives(name),
            at: name.1,
        })
    }

    /// An attribute of the row at a depth, or the first.
    fn attribute(&self, at: usize, depth: usize, number: Option<usize>) -> Given
        requires row { depth < length self.now.scope.rows }
        requires few { length self.now.scope.rows ≤ 16 }
        requires within { IfSome number (λ i. i < width (row_scheme self.now depth)) }
        ensures { result ≡ attribute_given self.now at depth number }
    {
        // what holds of every scheme
        let _scheme = self.row_scheme(depth);
        let attribute = match number {
            Some(number) => number as u8,
            None => 0,
        };
        Given {
            expr: Expr::from(Term::Field {
                depth: depth as u8,
                attribute,
            }),
            gives: self.attribute_gives(depth, number),
            at,
        }
    }

    /// An attribute of a row.
    fn field(&self, reader: &mut Reader, row: &Name, name: &Name) -> Result<Given, AllocError>
        ensures given { IfOk result (λ g. g ≡ field_given self.now row.now name.now (row_named self.now row.now.0)) }
        ensures noted { OnOk result (reader.new
            ≡ note (field_faults self.now row.now name.now (row_named self.now row.now.0)) reader.old) }
    {
        let Some(depth) = self.row(row) else {
            reader.note(false, row.1, TextCause::UnknownName)?;
            return Ok(Given {
                expr: Expr::from(Term::Null),
                gives: Inferred::Unknown,
                at: row.1,
            });
        };
        let number = attribute(self.row_scheme(depth), name.0.as_str());
        reader.note(number.is_some(), name.1, TextCause::UnknownName)?;
        Ok(self.attribute(row.1, depth, number))
    }

    /// The name, or an attribute of the row that it names.
    fn named(&self, reader: &mut Reader, name: Name) -> Result<Given, PlacedFault>
        ensures { GivesPlaced (λ g. (g, reader.new)) result (named_at self.now (name.0, name.1) reader.old) }
    {
        if reader.takes_sign(Sign::Dot).is_none() {
            return Ok(self.alone(reader, &name)?);
        }
        let attribute = reader.name()?;
        Ok(self.field(reader, &name, &attribute)?)
    }

    /// What stands behind a `not`, which stands at `at` and may stand inside fewer than `depth` others.
    #[cycle(expr)]
    #[tactic(auto, unfolding(crate::specs::ReadExpr::negation_at))]
    fn negation(
        &self,
        alloc: Global,
        reader: &mut Reader,
        depth: usize,
        at: usize,
    ) -> Result<Given, PlacedFault>
        ensures { GivesPlaced (λ g. (g, reader.new)) result (negation_at self.now depth at reader.old) }
    {
        if depth == 0 {
            return Err(ill_formed(at, TextCause::Depth));
        }
        let operand = self.expr(alloc, reader, depth - 1)?;
        reader.note(operand.gives.may_be_truth(), at, TextCause::Kind)?;
        negated(alloc, operand.expr, at)
    }

    /// The operator of an operation and its second operand, up to the parenthesis that closes it.
    #[cycle(expr)]
    fn second(
        &self,
        alloc: Global,
        reader: &mut Reader,
        depth: usize,
    ) -> Result<((Operator, usize), Given), PlacedFault>
        ensures { GivesPlaced (λ x. (((x.0.0, x.0.1), x.1), reader.new)) result
            (second (expr_at self.now depth) reader.old) }
    {
        let operator = reader.operator()?;
        let right = self.expr(alloc, reader, depth)?;
        reader.sign(Sign::RightParen)?;
        Ok((operator, right))
    }

    /// What stands behind a parenthesis, which stands at `at` and may stand inside fewer than `depth` others.
    #[cycle(expr)]
    #[tactic(auto, unfolding(crate::specs::ReadExpr::operation_at))]
    fn operation(
        &self,
        alloc: Global,
        reader: &mut Reader,
        depth: usize,
        at: usize,
    ) -> Result<Given, PlacedFault>
        ensures { GivesPlaced (λ g. (g, reader.new)) result (operation_at self.now depth at reader.old) }
    {
        if depth == 0 {
            return Err(ill_formed(at, TextCause::Depth));
        }
        let left = self.expr(alloc, reader, depth - 1)?;
        let ((operator, operator_at), right) = self.second(alloc, reader, depth - 1)?;
        let fit = operands_fit(operator, left.gives, right.gives);
        reader.note(fit, operator_at, TextCause::Kind)?;
        combined(alloc, operator, left.expr, right.expr, at)
    }

    /// An expression by its first token, whose `(` and `not` stand inside no more than `depth` others.
    #[cycle(expr)]
    fn term(&self, alloc: Global, reader: &mut Reader, depth: usize) -> Result<Given, PlacedFault>
        ensures { GivesPlaced (λ g. (g, reader.new)) result
            (term_at self.now (negation_at self.now depth) (operation_at self.now depth) reader.old) }
    {
        let (head, at) = reader.head()?;
        match head {
            Head::Literal(value) => {
                let gives = Inferred::Value(value.kind());
                let expr = Expr::from(Term::Known(value));
                Ok(Given { expr, gives, at })
            }
            Head::Null => Ok(Given {
                expr: Expr::from(Term::Null),
                gives: Inferred::Null,
                at,
            }),
            Head::Name(text) => self.named(reader, (text, at)),
            Head::Not => self.negation(alloc, reader, depth, at),
            Head::Paren => self.operation(alloc, reader, depth, at),
        }
    }

    /// An expression whose `(` and `not` stand inside no more than `depth` others.
    #[cycle(expr)]
    #[tactic(auto, using(crate::proofs::ExprSteps::expr_steps))]
    fn expr(&self, alloc: Global, reader: &mut Reader, depth: usize) -> Result<Given, PlacedFault>
        ensures { GivesPlaced (λ g. (g, reader.new)) result (expr_at self.now depth reader.old) }
    {
        self.term(alloc, reader, depth)
    }

    /// An expression of a statement. An unknown name is noted, and may give anything.
    #[tactic(auto, unfolding(crate::specs::ReadExpr::whole_at))]
    pub fn whole(&self, alloc: Global, reader: &mut Reader) -> Result<Given, PlacedFault>
        ensures { GivesPlaced (λ g. (g, reader.new)) result (whole_at self.now reader.old) }
    {
        self.expr(alloc, reader, MAX_DEPTH)
    }
}
