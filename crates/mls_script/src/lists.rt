//! Values, lists of them, and new values of attributes, from the tokens that are left.
ghost use Rattle.std.specs.Prelude.{◌≡◌, [], option_map};
ghost use Rattle.mls_parser.specs.Noted.{GivesPlaced};
ghost use Rattle.mls_parser.specs.ReadList.{numbered_in, items_at};
ghost use Rattle.mls_script.specs.ReadList.{value_of_token, value_at, fits_attribute, attribute_at, are_as_many};
ghost use Rattle.mls_script.specs.ReadList.{item_at, list_at, set_at, sets_at};

use mls_lattice::Items;
use mls_parser::{PlacedFault, Reader, TextCause, ill_formed, with_set};
use mls_scheme::{Attributes, Scheme, Value, fits_kind};
use mls_tokens::{Sign, Token};
use std::alloc::Global;

/// A value or null as it is written, and the place of its first byte.
type PlacedValue = (Option<Value>, usize);

/// New values of attributes outside the key, by their numbers.
pub(crate) type Sets = Items<(usize, Option<Value>)>;

/// The value or null that a token is, if it is one.
fn value_of_token(token: Token) -> Option<Option<Value>>
    ensures { result ≡ value_of_token token }
{
    match token {
        Token::Int(number) => Some(Some(Value::Int(number))),
        Token::Text(text) => Some(Some(Value::Text(text))),
        Token::Word(word) => {
            if word.as_str() == "null" {
                Some(None)
            } else {
                None
            }
        }
        Token::Sign(_) => None,
    }
}

/// Passes a value or null, and gives it with its place.
fn value(reader: &mut Reader) -> Result<PlacedValue, PlacedFault>
    ensures { GivesPlaced (λ x. ((x.0, x.1), reader.new)) result (value_at reader.old) }
{
    let first = reader.tokens.pop().ok_or(reader.tokens.stop())?;
    let value = value_of_token(first.token).ok_or(ill_formed(first.at, TextCause::Expected))?;
    Ok((value, first.at))
}

/// Whether a value may stand for the attribute of a number, or where there is none.
#[tactic(auto, using(crate::proofs::ItemSteps::slot_steps))]
fn fits_attribute(attributes: &Attributes, number: Option<usize>, value: &Option<Value>) -> bool
    ensures { result ≡ fits_attribute (numbered_in attributes.now number) value.now }
{
    match number {
        Some(number) if number < attributes.len() => {
            fits_kind(value, attributes.get(number).kind)
        }
        _ => true,
    }
}

// ---- lists

/// Whether a value may stand at a place of a list.
fn fits_item(attributes: Option<&Attributes>, place: usize, value: &Option<Value>) -> bool
    ensures { result ≡ fits_attribute (attribute_at (option_map (λ a. a.now) attributes.entry) place) value.now }
{
    match attributes {
        Some(attributes) => fits_attribute(attributes, Some(place), value),
        None => true,
    }
}

/// Whether a list has a value for each attribute.
fn are_as_many(attributes: Option<&Attributes>, count: usize) -> bool
    ensures { result ≡ are_as_many (option_map (λ a. a.now) attributes.entry) count }
{
    match attributes {
        Some(attributes) => count == attributes.len(),
        None => true,
    }
}

/// One value more, behind those before.
#[tactic(auto, unfolding(crate::specs::ReadList::item_at))]
fn item(
    reader: &mut Reader,
    attributes: Option<&Attributes>,
    front: &mut Vec<Option<Value>>,
) -> Result<(), PlacedFault>
    ensures { GivesPlaced (λ _. (front.new.items, reader.new)) result
        (item_at (option_map (λ a. a.now) attributes.entry) front.old.items reader.old) }
{
    let (value, at) = value(reader)?;
    let fits = fits_item(attributes, front.as_slice().len(), &value);
    reader.note(fits, at, TextCause::Kind)?;
    front.push(value)?;
    Ok(())
}

/// Values, one or more with a comma between each two.
#[tactic(auto, using(crate::proofs::ItemSteps::item_steps))]
fn items(
    alloc: Global,
    reader: &mut Reader,
    attributes: Option<&Attributes>,
) -> Result<Vec<Option<Value>>, PlacedFault>
    ensures { GivesPlaced (λ v. (v.items, reader.new)) result
        (items_at (item_at (option_map (λ a. a.now) attributes.entry)) [] reader.old) }
{
    let mut items = Vec::new(alloc);
    loop {
        item(reader, attributes, &mut items)?;
        if reader.takes_sign(Sign::Comma).is_none() {
            return Ok(items);
        }
    }
}

/// A list in parentheses, with a value for each of some attributes, or with any values.
#[tactic(auto, unfolding(crate::specs::ReadList::list_at))]
pub(crate) fn list(
    alloc: Global,
    reader: &mut Reader,
    attributes: Option<&Attributes>,
) -> Result<Items<Option<Value>>, PlacedFault>
    ensures { GivesPlaced (λ vs. (vs, reader.new)) result
        (list_at (option_map (λ a. a.now) attributes.entry) reader.old) }
{
    reader.sign(Sign::LeftParen)?;
    if let Some(end) = reader.takes_sign(Sign::RightParen) {
        reader.note(are_as_many(attributes, 0), end, TextCause::Kind)?;
        return Ok(Items::from(Vec::new(alloc)));
    }
    let items = items(alloc, reader, attributes)?;
    let end = reader.sign(Sign::RightParen)?;
    let fits = are_as_many(attributes, items.as_slice().len());
    reader.note(fits, end, TextCause::Kind)?;
    Ok(Items::from(items))
}

// ---- new values

/// An attribute and its new value, behind those before.
#[tactic(auto, unfolding(crate::specs::ReadList::set_at))]
fn set(
    reader: &mut Reader,
    scheme: &Scheme,
    front: &mut Vec<(usize, Option<Value>)>,
) -> Result<(), PlacedFault>
    ensures { GivesPlaced (λ _. (front.new.items, reader.new)) result (set_at scheme.now front.old.items reader.old) }
{
    let number = reader.target(scheme, front.as_slice())?;
    let (value, at) = value(reader)?;
    let fits = fits_attribute(scheme.others(), number, &value);
    reader.note(fits, at, TextCause::Kind)?;
    with_set(front, number, value)?;
    Ok(())
}

/// New values, one or more with a comma between each two.
#[tactic(auto, using(crate::proofs::ItemSteps::item_steps))]
fn new_values(alloc: Global, reader: &mut Reader, scheme: &Scheme) -> Result<Sets, PlacedFault>
    ensures { GivesPlaced (λ xs. (xs, reader.new)) result (items_at (set_at scheme.now) [] reader.old) }
{
    let mut sets = Vec::new(alloc);
    loop {
        set(reader, scheme, &mut sets)?;
        if reader.takes_sign(Sign::Comma).is_none() {
            return Ok(Items::from(sets));
        }
    }
}

/// A word, and new values behind it.
#[tactic(auto, unfolding(crate::specs::ReadList::sets_at))]
pub(crate) fn sets(alloc: Global, reader: &mut Reader, scheme: &Scheme) -> Result<Sets, PlacedFault>
    ensures { GivesPlaced (λ xs. (xs, reader.new)) result (sets_at scheme.now reader.old) }
{
    reader.word("set")?;
    new_values(alloc, reader, scheme)
}
