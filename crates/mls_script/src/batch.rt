//! The commands of a batch.
ghost use Rattle.std.specs.Prelude.{◌≡◌, []};
ghost use Rattle.mls_parser.specs.Noted.{GivesPlaced};
ghost use Rattle.mls_script.specs.ReadBatch.{one_of_token, one_verb_at, ends_at, excess_at, looked_at, expect_at};
ghost use Rattle.mls_translang.specs.Event.{most_ones};
ghost use Rattle.mls_script.specs.ReadBatch.{behind_verb, one_at, ones_from, batch_at};

use crate::grammar::{ONE_VERBS, OneVerb, one_among};
use crate::parts::{Look, delete, insert, looking, update};
use crate::query::rows;
use mls_lattice::{Items, Policy};
use mls_parser::{PlacedFault, Reader, TextCause, ill_formed};
use mls_scheme::Schemes;
use mls_tokens::{Sign, Token};
use mls_translang::One;
use std::alloc::Global;

/// How many commands a batch has at most.
const MOST_ONES: usize = 1000;

fn one_of_token(token: &Token) -> Option<OneVerb>
    ensures { result ≡ one_of_token token.now }
{
    match token {
        Token::Word(word) => one_among(&ONE_VERBS, word.as_str()),
        _ => None,
    }
}

/// Passes the verb of a command of a batch, and gives its place too.
fn one_verb(reader: &mut Reader) -> Result<(OneVerb, usize), PlacedFault>
    ensures { GivesPlaced (λ x. ((x.0, x.1), reader.new)) result (one_verb_at reader.old) }
{
    let first = reader.tokens.pop().ok_or(reader.tokens.refused())?;
    let verb = one_of_token(&first.token).ok_or(ill_formed(first.at, TextCause::Expected))?;
    Ok((verb, first.at))
}

/// Passes what stands behind a command: the end of the batch, or a semicolon. Whether it was the end.
#[tactic(auto, unfolding(crate::specs::ReadBatch::ends_at))]
fn ends(reader: &mut Reader) -> Result<bool, PlacedFault>
    ensures { GivesPlaced (λ b. (b, reader.new)) result (ends_at reader.old) }
{
    if reader.takes_sign(Sign::Semicolon).is_some() {
        return Ok(reader.takes_sign(Sign::RightBrace).is_some());
    }
    reader.sign(Sign::RightBrace)?;
    Ok(true)
}

/// Refuses a command more than a batch may have.
#[tactic(auto, unfolding(crate::specs::ReadBatch::excess_at))]
fn excess(reader: &mut Reader) -> Result<Vec<One>, PlacedFault>
    ensures { GivesPlaced (λ v. (v.items, reader.new)) result (excess_at reader.old) }
{
    let (_, at) = one_verb(reader)?;
    Err(ill_formed(at, TextCause::TooLong))
}

fn looked(
    alloc: Global,
    policy: &Policy,
    schemes: &Schemes,
    counts: bool,
    reader: &mut Reader,
) -> Result<One, PlacedFault>
    ensures { GivesPlaced (λ o. (o, reader.new)) result (looked_at policy.now schemes.now counts reader.old) }
{
    let Look {
        relation,
        label,
        query,
    } = looking(alloc, policy, schemes, counts, reader)?;
    Ok(One::View {
        relation,
        label,
        query,
        counts,
    })
}

#[tactic(auto, unfolding(crate::specs::ReadBatch::expect_at))]
fn expect(
    alloc: Global,
    policy: &Policy,
    schemes: &Schemes,
    reader: &mut Reader,
) -> Result<One, PlacedFault>
    ensures { GivesPlaced (λ o. (o, reader.new)) result (expect_at policy.now schemes.now reader.old) }
{
    let rows = rows(reader)?;
    reader.word("count")?;
    let Look {
        relation,
        label,
        query,
    } = looking(alloc, policy, schemes, true, reader)?;
    Ok(One::Expect {
        rows,
        relation,
        label,
        query,
    })
}

fn behind_verb(
    alloc: Global,
    policy: &Policy,
    schemes: &Schemes,
    verb: OneVerb,
    reader: &mut Reader,
) -> Result<One, PlacedFault>
    ensures { GivesPlaced (λ o. (o, reader.new)) result (behind_verb policy.now schemes.now verb reader.old) }
{
    let (relation, write) = match verb {
        OneVerb::View => return looked(alloc, policy, schemes, false, reader),
        OneVerb::Count => return looked(alloc, policy, schemes, true, reader),
        OneVerb::Expect => return expect(alloc, policy, schemes, reader),
        OneVerb::Insert => insert(alloc, schemes, reader)?,
        OneVerb::Update => update(alloc, policy, schemes, reader)?,
        OneVerb::Delete => delete(alloc, policy, schemes, reader)?,
    };
    Ok(One::Write { relation, write })
}

#[tactic(auto, unfolding(crate::specs::ReadBatch::one_at))]
fn one(
    alloc: Global,
    policy: &Policy,
    schemes: &Schemes,
    reader: &mut Reader,
) -> Result<One, PlacedFault>
    ensures { GivesPlaced (λ o. (o, reader.new)) result (one_at policy.now schemes.now reader.old) }
{
    let (verb, _) = one_verb(reader)?;
    behind_verb(alloc, policy, schemes, verb, reader)
}

/// The commands of a batch, with a semicolon between each two, and perhaps one behind the last, up to the brace.
#[tactic(auto, using(crate::proofs::BatchSteps::batch_steps))]
fn ones(
    alloc: Global,
    policy: &Policy,
    schemes: &Schemes,
    reader: &mut Reader,
) -> Result<Vec<One>, PlacedFault>
    ensures { GivesPlaced (λ v. (v.items, reader.new)) result
        (ones_from policy.now schemes.now most_ones [] reader.old) }
{
    let mut ones = Vec::new(alloc);
    for _ in 0..MOST_ONES {
        let one = one(alloc, policy, schemes, reader)?;
        ones.push(one)?;
        if ends(reader)? {
            return Ok(ones);
        }
    }
    excess(reader)
}

/// The commands of a batch, in braces.
#[tactic(auto, unfolding(crate::specs::ReadBatch::batch_at))]
pub(crate) fn batch(
    alloc: Global,
    policy: &Policy,
    schemes: &Schemes,
    reader: &mut Reader,
) -> Result<Items<One>, PlacedFault>
    ensures { GivesPlaced (λ ones. (ones, reader.new)) result (batch_at policy.now schemes.now reader.old) }
{
    reader.sign(Sign::LeftBrace)?;
    let ones = ones(alloc, policy, schemes, reader)?;
    Ok(Items::from(ones))
}
