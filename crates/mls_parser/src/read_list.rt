//! Lists of expressions, and new values of attributes, from the tokens that are left.
ghost use Rattle.std.specs.Prelude.{◌≡◌, [], nat_eq, map, OnOk};
ghost use Rattle.std.specs.List.{list_any};
ghost use Rattle.mls_parser.specs.Noted.{GivesPlaced};
ghost use Rattle.mls_parser.specs.ReadList.{with_set, numbered_in, target_at, fits_item, items_at, item_at, list_at};
ghost use Rattle.mls_parser.specs.ReadList.{set_at, sets_at};

use crate::context::Context;
use crate::fault::{PlacedFault, TextCause};
use crate::inferred::Inferred;
use crate::names::other;
use crate::reader::Reader;
use mls_lattice::Items;
use mls_scheme::{Attributes, Scheme};
use mls_tokens::Sign;
use mls_translang::Expr;
use std::alloc::{AllocError, Global};

// ---- new values

/// Whether an attribute has a new value already.
fn is_set<T>(sets: &[(usize, T)], number: usize) -> bool
    ensures { result ≡ list_any (nat_eq number) (map (λ s. s.0) sets.now) }
{
    for set in sets {
        if number == set.0 {
            return true;
        }
    }
    false
}

/// One new value more, where the attribute is known.
pub fn with_set<T: Drop>(
    front: &mut Vec<(usize, T)>,
    number: Option<usize>,
    value: T,
) -> Result<(), AllocError>
    ensures { OnOk result (front.new.items ≡ with_set front.old.items number value) }
{
    if let Some(number) = number {
        front.push((number, value))?;
    }
    Ok(())
}

impl Reader {
    /// Passes the name of an attribute outside the key that gets a value behind those before, and the sign behind
    /// it; an unknown name stands for none.
    #[tactic(auto, unfolding(crate::specs::ReadList::target_at))]
    pub fn target<T>(
        &mut self,
        scheme: &Scheme,
        front: &[(usize, T)],
    ) -> Result<Option<usize>, PlacedFault>
        ensures { GivesPlaced (λ o. (o, self.new)) result (target_at scheme.now front.now self.old) }
    {
        let name = self.name()?;
        self.sign(Sign::Equals)?;
        let number = other(scheme, &name);
        match number {
            Some(number) => self.note(!is_set(front, number), name.1, TextCause::Repeated)?,
            None => self.note(false, name.1, TextCause::UnknownName)?,
        }
        Ok(number)
    }
}

// ---- expressions

/// Whether what an expression gives may stand for the attribute of a number, or where there is none.
#[tactic(auto, using(crate::proofs::ItemSteps::slot_steps))]
fn fits_item(attributes: &Attributes, number: Option<usize>, gives: Inferred) -> bool
    ensures { result ≡ fits_item (numbered_in attributes.now number) gives }
{
    match number {
        Some(number) if number < attributes.len() => gives.may_be(attributes.get(number).kind),
        _ => gives.may_be_value(),
    }
}

impl Context<'_> {
    /// One expression more, behind those before.
    #[tactic(auto, unfolding(crate::specs::ReadList::item_at))]
    fn item(
        &self,
        alloc: Global,
        reader: &mut Reader,
        attributes: &Attributes,
        front: &mut Vec<Expr>,
    ) -> Result<(), PlacedFault>
        ensures { GivesPlaced (λ _. (front.new.items, reader.new)) result
            (item_at self.now attributes.now front.old.items reader.old) }
    {
        let given = self.whole(alloc, reader)?;
        let fits = fits_item(attributes, Some(front.as_slice().len()), given.gives);
        reader.note(fits, given.at, TextCause::Kind)?;
        front.push(given.expr)?;
        Ok(())
    }

    /// Expressions, one or more with a comma between each two.
    #[tactic(auto, using(crate::proofs::ItemSteps::item_steps))]
    fn items(
        &self,
        alloc: Global,
        reader: &mut Reader,
        attributes: &Attributes,
    ) -> Result<Vec<Expr>, PlacedFault>
        ensures { GivesPlaced (λ v. (v.items, reader.new)) result
            (items_at (item_at self.now attributes.now) [] reader.old) }
    {
        let mut items = Vec::new(alloc);
        loop {
            self.item(alloc, reader, attributes, &mut items)?;
            if reader.takes_sign(Sign::Comma).is_none() {
                return Ok(items);
            }
        }
    }

    /// A list in parentheses, with an expression for each attribute.
    #[tactic(auto, unfolding(crate::specs::ReadList::list_at))]
    pub fn list(
        &self,
        alloc: Global,
        reader: &mut Reader,
        attributes: &Attributes,
    ) -> Result<Items<Expr>, PlacedFault>
        ensures { GivesPlaced (λ es. (es, reader.new)) result (list_at self.now attributes.now reader.old) }
    {
        reader.sign(Sign::LeftParen)?;
        if let Some(end) = reader.takes_sign(Sign::RightParen) {
            reader.note(attributes.len() == 0, end, TextCause::Kind)?;
            return Ok(Items::from(Vec::new(alloc)));
        }
        let items = self.items(alloc, reader, attributes)?;
        let end = reader.sign(Sign::RightParen)?;
        let fits = items.as_slice().len() == attributes.len();
        reader.note(fits, end, TextCause::Kind)?;
        Ok(Items::from(items))
    }

    /// An attribute and its new value, behind those before.
    #[tactic(auto, unfolding(crate::specs::ReadList::set_at))]
    fn set(
        &self,
        alloc: Global,
        reader: &mut Reader,
        scheme: &Scheme,
        front: &mut Vec<(usize, Expr)>,
    ) -> Result<(), PlacedFault>
        ensures { GivesPlaced (λ _. (front.new.items, reader.new)) result
            (set_at self.now scheme.now front.old.items reader.old) }
    {
        let number = reader.target(scheme, front.as_slice())?;
        let given = self.whole(alloc, reader)?;
        let fits = fits_item(scheme.others(), number, given.gives);
        reader.note(fits, given.at, TextCause::Kind)?;
        with_set(front, number, given.expr)?;
        Ok(())
    }

    /// New values of attributes, one or more with a comma between each two.
    #[tactic(auto, using(crate::proofs::ItemSteps::item_steps), unfolding(crate::specs::ReadList::sets_at))]
    pub fn sets(
        &self,
        alloc: Global,
        reader: &mut Reader,
        scheme: &Scheme,
    ) -> Result<Items<(usize, Expr)>, PlacedFault>
        ensures { GivesPlaced (λ xs. (xs, reader.new)) result (sets_at self.now scheme.now reader.old) }
    {
        let mut sets = Vec::new(alloc);
        loop {
            self.set(alloc, reader, scheme, &mut sets)?;
            if reader.takes_sign(Sign::Comma).is_none() {
                return Ok(Items::from(sets));
            }
        }
    }
}
