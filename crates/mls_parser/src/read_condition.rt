//! Conditions on a row, from the tokens that are left.
ghost use Rattle.std.specs.Prelude.{◌≡◌, ◌≢◌, ◌<◌, ◌++◌, [], length, map, option_map, IfOk, IfErr, IfSome, IsNone};
ghost use Rattle.std.specs.Prelude.{OnOk, bytes_eq};
ghost use Rattle.std.specs.List.{IsDistinct};
ghost use Rattle.mls_tokens.specs.Scanning.{without_places};
ghost use Rattle.mls_parser.specs.declared.fault.TextCause.TheVariants.{Memory};
ghost use Rattle.mls_parser.specs.Condition.{AreOfText, IsCondition};
ghost use Rattle.mls_translang.specs.Fits.{IsConditionOf};
ghost use Rattle.mls_parser.specs.Noted.{GivesPlaced, note, token};
ghost use Rattle.mls_parser.specs.ReadCondition.{comparison_of, joiner_of, taken_as, between, between_faults, test_at};
ghost use Rattle.mls_parser.specs.ReadCondition.{are_mixed, past_most, next_test_at, tests_at, attribute_var, row_vars};
ghost use Rattle.mls_parser.specs.ReadCondition.{as_fields, condition_at};
ghost use Rattle.mls_parser.specs.Words.{pass_head};

use crate::context::Context;
use crate::fault::{PlacedFault, TextCause, ill_formed};
use crate::given::Given;
use crate::inferred::operands_fit;
use crate::limits::MAX_TESTS;
use crate::read_expr::combined;
use crate::reader::Reader;
use mls_lattice::{LabelNo, Policy, Str};
use mls_scheme::{Attributes, Kind, Named, RelNo, Scheme, Schemes};
use mls_tokens::{Sign, Tokens};
use mls_translang::{Expr, LoopRow, Operator, Term};
use std::alloc::{AllocError, Global};

/// Passes a comparison if it is next, and gives its place too.
#[tactic(auto, using(crate::proofs::ConditionSteps::comparison_steps))]
fn takes_comparison(tokens: &mut Tokens) -> Option<(Operator, usize)>
    ensures taken { option_map (λ x. ((x.0, x.1), tokens.new)) result ≡ taken_as comparison_of tokens.old }
    ensures stays { IsNone result → tokens.new ≡ tokens.old }
{
    if let Some(at) = tokens.takes_sign(Sign::Equals) {
        return Some((Operator::Equal, at));
    }
    if let Some(at) = tokens.takes_sign(Sign::Differs) {
        return Some((Operator::Unequal, at));
    }
    if let Some(at) = tokens.takes_sign(Sign::Less) {
        return Some((Operator::Less, at));
    }
    if let Some(at) = tokens.takes_sign(Sign::AtMost) {
        return Some((Operator::AtMost, at));
    }
    if let Some(at) = tokens.takes_sign(Sign::Greater) {
        return Some((Operator::Greater, at));
    }
    let at = tokens.takes_sign(Sign::AtLeast)?;
    Some((Operator::AtLeast, at))
}

/// Passes the word between two tests if it is next, and gives its place too.
#[tactic(auto, using(crate::proofs::ConditionSteps::joiner_steps))]
fn takes_joiner(tokens: &mut Tokens) -> Option<(Operator, usize)>
    ensures taken { option_map (λ x. ((x.0, x.1), tokens.new)) result ≡ taken_as joiner_of tokens.old }
    ensures stays { IsNone result → tokens.new ≡ tokens.old }
{
    if let Some(at) = tokens.takes_word("and") {
        return Some((Operator::And, at));
    }
    let at = tokens.takes_word("or")?;
    Some((Operator::Or, at))
}

/// Two parts with an operator between them. An operation with no parentheses has the place of its first token.
fn between(
    alloc: Global,
    reader: &mut Reader,
    left: Given,
    operator: (Operator, usize),
    right: Given,
) -> Result<Given, PlacedFault>
    ensures new { IfOk result (λ g. g ≡ between left (operator.0, operator.1) right) }
    ensures noted { OnOk result (reader.new ≡ note (between_faults left (operator.0, operator.1) right) reader.old) }
    ensures memory { IfErr result (λ e. e.cause ≡ Memory) }
{
    let (operator, at) = operator;
    let fit = operands_fit(operator, left.gives, right.gives);
    reader.note(fit, at, TextCause::Kind)?;
    combined(alloc, operator, left.expr, right.expr, left.at)
}

/// Whether a word is another than the one between the tests before.
fn are_mixed(before: Option<Operator>, operator: Operator) -> bool
    ensures { result ≡ are_mixed before operator }
{
    match (before, operator) {
        (Some(Operator::And), Operator::Or) | (Some(Operator::Or), Operator::And) => true,
        _ => false,
    }
}

/// The fault of one test more than there may be.
fn past_most(reader: &mut Reader) -> PlacedFault
    ensures { result.cause ≢ Memory → result ≡ past_most (token pass_head reader.old) }
{
    match reader.head() {
        Ok((_, at)) => ill_formed(at, TextCause::Depth),
        Err(fault) => fault,
    }
}

impl Context<'_> {
    /// An expression, or two with a comparison between them.
    #[tactic(auto, unfolding(crate::specs::ReadCondition::test_at))]
    fn test(&self, alloc: Global, reader: &mut Reader) -> Result<Given, PlacedFault>
        ensures { GivesPlaced (λ g. (g, reader.new)) result (test_at self.now reader.old) }
    {
        let left = self.whole(alloc, reader)?;
        let Some(operator) = takes_comparison(&mut reader.tokens) else {
            return Ok(left);
        };
        let right = self.whole(alloc, reader)?;
        between(alloc, reader, left, operator, right)
    }

    /// The word that joins one test more, and this test, if there is one. There is room for so many, and one word
    /// stands between those before.
    #[tactic(auto, unfolding(crate::specs::ReadCondition::next_test_at))]
    fn next_test(
        &self,
        alloc: Global,
        reader: &mut Reader,
        room: usize,
        before: Option<Operator>,
    ) -> Result<Option<((Operator, usize), Given)>, PlacedFault>
        ensures exact { GivesPlaced (λ x. (option_map (λ y. ((y.0.0, y.0.1), y.1)) x, reader.new)) result
            (next_test_at self.now room before reader.old) }
        ensures within { IfOk result (λ x. IfSome x (λ _. 0 < room)) }
    {
        let Some((operator, at)) = takes_joiner(&mut reader.tokens) else {
            return Ok(None);
        };
        if are_mixed(before, operator) {
            return Err(ill_formed(at, TextCause::Expected));
        }
        if room == 0 {
            return Err(past_most(reader));
        }
        let next = self.test(alloc, reader)?;
        Ok(Some(((operator, at), next)))
    }

    /// Tests with one word between each two.
    #[tactic(auto, using(crate::proofs::ConditionSteps::condition_steps))]
    fn tests(&self, alloc: Global, reader: &mut Reader) -> Result<Given, PlacedFault>
        ensures { GivesPlaced (λ g. (g, reader.new)) result (tests_at self.now reader.old) }
    {
        let mut whole = self.test(alloc, reader)?;
        let mut before = None;
        let mut room = MAX_TESTS - 1;
        loop {
            let Some((operator, next)) = self.next_test(alloc, reader, room, before)? else {
                return Ok(whole);
            };
            whole = between(alloc, reader, whole, operator, next)?;
            before = Some(operator.0);
            room -= 1;
        }
    }
}

/// Attributes as variables, behind those before.
fn push_vars(
    alloc: Global,
    vars: &mut Named<Kind>,
    attributes: &Attributes,
) -> Result<(), AllocError>
    requires { IsDistinct bytes_eq (map (λ v. v.0) (vars.old ++ map attribute_var attributes.now)) }
    ensures { OnOk result (vars.new ≡ vars.old ++ map attribute_var attributes.now) }
{
    for place in 0..attributes.len() {
        let name = String::from_str(alloc, attributes.name(place))?;
        vars.push(name, attributes.get(place).kind)?;
    }
    Ok(())
}

/// The attributes of a relation as variables.
#[tactic(auto, using(crate::proofs::ConditionLemmas::vars_steps))]
fn row_vars(alloc: Global, scheme: &Scheme) -> Result<Named<Kind>, AllocError>
    ensures { IfOk result (λ vs. vs ≡ row_vars scheme.now) }
{
    let mut vars = Named::new(alloc);
    push_vars(alloc, &mut vars, scheme.keys())?;
    push_vars(alloc, &mut vars, scheme.others())?;
    Ok(vars)
}

/// Makes each variable the attribute of its number.
fn make_fields(expr: &mut Expr)
    ensures { expr.new ≡ as_fields expr.old }
{
    match &mut expr.term {
        Term::Variable(number) => {
            let attribute = *number;
            expr.term = Term::Field {
                depth: 0,
                attribute,
            };
        }
        Term::Not(operand) => make_fields(operand),
        Term::Op(_, left, right) => {
            make_fields(left);
            make_fields(right);
        }
        _ => {}
    }
}

/// Tests of the attributes of a row, which have to be a truth value.
#[tactic(auto, unfolding(crate::specs::ReadCondition::condition_at))]
fn tests_of_row(
    alloc: Global,
    policy: &Policy,
    schemes: &Schemes,
    relation: RelNo,
    reader: &mut Reader,
) -> Result<Expr, PlacedFault>
    requires { relation < length schemes.now }
    ensures { GivesPlaced (λ e. (e, reader.new)) result (condition_at policy.now schemes.now relation reader.old) }
{
    policy.use_invariant();
    let scheme = schemes.scheme(relation);
    let rows = [LoopRow {
        name: Str::copy_of(alloc, scheme.name())?,
        relation,
    }];
    let params = Named::new(alloc);
    let vars = row_vars(alloc, scheme)?;
    let context = Context {
        policy,
        schemes,
        hi: LabelNo::new(0),
        params: &params,
        vars: &vars,
        rows: &rows,
    };
    let mut given = context.tests(alloc, reader)?;
    reader.note(given.gives.may_be_truth(), given.at, TextCause::Kind)?;
    make_fields(&mut given.expr);
    Ok(given.expr)
}

/// A condition on a row of a relation: a test, or several with `and` between each two, or with `or`; and what stands
/// behind is left to the caller. A name is an attribute of the row, key or other, and so is a name behind the name of
/// the relation. Or the first fault by its form: Token where no token stands, Expected at the first token that nothing
/// goes on with (the end is one) and at the second word where `and` and `or` are mixed without parentheses, Depth at a
/// `(` or `not` inside 16 others on one side of a comparison and at the first token of a 17th test, if that can begin
/// one, and TooLong at a long text between quotes. Where the form is right, faults of names and kinds are noted:
/// UnknownName, and Kind at a `not` or an operator whose operands do not fit and at the first token of what is no
/// truth value. Memory may stand in place of any answer.
pub fn condition(
    alloc: Global,
    policy: &Policy,
    schemes: &Schemes,
    relation: RelNo,
    reader: &mut Reader,
) -> Result<Expr, PlacedFault>
    requires { relation < length schemes.now }
    // The condition, what is left behind it, and the faults that are noted; or the fault of its form.
    ensures exact { GivesPlaced (λ e. (e, reader.new)) result
        (condition_at policy.now schemes.now relation reader.old) }
    // What was passed tells what is read, where no fault was noted and the tokens are those of a text.
    ensures told { AreOfText (without_places reader.old.1.placed) → reader.new.0 ≡ []
        → IfOk result (IsCondition policy.now schemes.now relation reader.old.1 reader.new.1) }
    // And that is a truth value of the row.
    ensures fits { AreOfText (without_places reader.old.1.placed) → reader.new.0 ≡ []
        → IfOk result (IsConditionOf schemes.now relation) }
{
    tests_of_row(alloc, policy, schemes, relation, reader)
}
