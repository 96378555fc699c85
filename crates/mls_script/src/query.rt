//! What stands behind the label of a view: which of its rows are asked for.
ghost use Rattle.std.specs.Prelude.{◌≡◌, ◌<◌, length};
ghost use Rattle.mls_parser.specs.Noted.{GivesPlaced, token};
ghost use Rattle.mls_parser.specs.Words.{pass_known};
ghost use Rattle.mls_script.specs.ReadQuery.{comparison_of_sign, comparison_of, class_at, number_of, is_count};
ghost use Rattle.mls_script.specs.ReadQuery.{count_of, rows_at, first_at, where_at, query_at};

use mls_lattice::Policy;
use mls_parser::{PlacedFault, Reader, TextCause, ill_formed};
use mls_scheme::{RelNo, Schemes};
use mls_tokens::{Sign, Token};
use mls_translang::{ClassTest, Comparison, Expr, Query};
use std::alloc::Global;

fn comparison_of_sign(sign: Sign) -> Option<Comparison>
    ensures { result ≡ comparison_of_sign sign }
{
    match sign {
        Sign::Equals => Some(Comparison::Equal),
        Sign::Differs => Some(Comparison::Unequal),
        Sign::Less => Some(Comparison::Less),
        Sign::AtMost => Some(Comparison::AtMost),
        Sign::Greater => Some(Comparison::Greater),
        Sign::AtLeast => Some(Comparison::AtLeast),
        _ => None,
    }
}

fn comparison_of(token: &Token) -> Option<Comparison>
    ensures { result ≡ comparison_of token.now }
{
    match token {
        Token::Sign(sign) => comparison_of_sign(*sign),
        _ => None,
    }
}

/// Passes a comparison, and gives its place too.
fn comparison(reader: &mut Reader) -> Result<(Comparison, usize), PlacedFault>
    ensures { GivesPlaced (λ x. ((x.0, x.1), reader.new)) result (token (pass_known comparison_of) reader.old) }
{
    let first = reader.tokens.pop().ok_or(reader.tokens.refused())?;
    let comparison = comparison_of(&first.token).ok_or(ill_formed(first.at, TextCause::Expected))?;
    Ok((comparison, first.at))
}

/// Passes a test of classes if its word is next.
#[tactic(auto, unfolding(crate::specs::ReadQuery::class_at))]
fn class(policy: &Policy, reader: &mut Reader) -> Result<Option<ClassTest>, PlacedFault>
    ensures { GivesPlaced (λ c. (c, reader.new)) result (class_at policy.now reader.old) }
{
    if reader.takes_word("class").is_none() {
        return Ok(None);
    }
    let (comparison, _) = comparison(reader)?;
    let label = reader.label(policy)?;
    Ok(Some(ClassTest { comparison, label }))
}

fn number_of(token: &Token) -> Option<i64>
    ensures { result ≡ number_of token.now }
{
    match token {
        Token::Int(number) => Some(*number),
        _ => None,
    }
}

/// Passes a number, and gives its place too.
fn number(reader: &mut Reader) -> Result<(i64, usize), PlacedFault>
    ensures { GivesPlaced (λ x. ((x.0, x.1), reader.new)) result (token (pass_known number_of) reader.old) }
{
    let first = reader.tokens.pop().ok_or(reader.tokens.refused())?;
    let number = number_of(&first.token).ok_or(ill_formed(first.at, TextCause::Expected))?;
    Ok((number, first.at))
}

/// A number of rows; none, where it is negative.
fn count_of(number: i64) -> usize
    ensures { result ≡ count_of number }
{
    if number >= 0 { number as usize } else { 0 }
}

fn is_count(number: i64) -> bool
    ensures { result ≡ is_count number }
{
    number >= 0
}

/// Passes a number of rows. A negative one is noted.
#[tactic(auto, unfolding(crate::specs::ReadQuery::rows_at))]
pub(crate) fn rows(reader: &mut Reader) -> Result<usize, PlacedFault>
    ensures { GivesPlaced (λ n. (n, reader.new)) result (rows_at reader.old) }
{
    let (number, at) = number(reader)?;
    reader.note(is_count(number), at, TextCause::Kind)?;
    Ok(count_of(number))
}

/// Passes how many rows are asked for, if the word is next. Rows that are counted are all that are found.
#[tactic(auto, unfolding(crate::specs::ReadQuery::first_at))]
fn first(counts: bool, reader: &mut Reader) -> Result<Option<usize>, PlacedFault>
    ensures { GivesPlaced (λ f. (f, reader.new)) result (first_at counts reader.old) }
{
    if counts || reader.takes_word("first").is_none() {
        return Ok(None);
    }
    Ok(Some(rows(reader)?))
}

/// Passes a condition if its word is next.
#[tactic(auto, unfolding(crate::specs::ReadQuery::where_at))]
fn condition(
    alloc: Global,
    policy: &Policy,
    schemes: &Schemes,
    relation: RelNo,
    reader: &mut Reader,
) -> Result<Option<Expr>, PlacedFault>
    requires { relation < length schemes.now }
    ensures { GivesPlaced (λ t. (t, reader.new)) result (where_at policy.now schemes.now relation reader.old) }
{
    if reader.takes_word("where").is_none() {
        return Ok(None);
    }
    let test = mls_parser::condition(alloc, policy, schemes, relation, reader)?;
    Ok(Some(test))
}

/// Passes what is asked of the rows of a view.
#[tactic(auto, unfolding(crate::specs::ReadQuery::query_at))]
pub(crate) fn query(
    alloc: Global,
    policy: &Policy,
    schemes: &Schemes,
    counts: bool,
    relation: RelNo,
    reader: &mut Reader,
) -> Result<Query, PlacedFault>
    requires { relation < length schemes.now }
    ensures { GivesPlaced (λ q. (q, reader.new)) result (query_at policy.now schemes.now counts relation reader.old) }
{
    let highest = reader.takes_word("highest").is_some();
    let class = class(policy, reader)?;
    let first = first(counts, reader)?;
    let test = condition(alloc, policy, schemes, relation, reader)?;
    Ok(Query {
        highest,
        class,
        test,
        first,
    })
}
