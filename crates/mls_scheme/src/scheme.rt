//! Schemes: relations, their attributes and the intervals of these.
ghost use Rattle.std.specs.Prelude.{◌≡◌, ◌<◌, ◌≤◌, ℕ, List, length, position, None, IfOk, IfSome, bytes_eq};
ghost use Rattle.mls_scheme.specs.Scheme.{Scheme as Relation, scheme_of, IsScheme, AreSchemes, AreUnder};
ghost use Rattle.mls_scheme.specs.Extending.{scheme_before, schemes_before, AllFirst, AtMost, Extends};

use crate::attributes::{Attributes, first_of};
use crate::extending::{after_first, relations_before};
use crate::number::RelNo;
use mls_lattice::{Items, Policy, Str};
use std::alloc::{AllocError, Global};
use std::marker::Model;

/// A relation: its name, its key attributes and the others (Jajodia and Sandhu 1991).
#[derive(Drop)]
pub struct Scheme {
    name: Str,
    keys: Attributes,
    others: Attributes,
}

impl Model for Scheme {
    ghost use Rattle.mls_scheme.specs.Scheme.{Scheme as Relation, IsScheme};

    ghost Value = { Relation };

    ghost view = { λ a. record { name = a.name; keys = a.keys; others = a.others } };

    ghost invariant = { λ a. IsScheme (record { name = a.name; keys = a.keys; others = a.others }) };
}

impl Scheme {
    pub(crate) fn new(name: Str, keys: Attributes, others: Attributes) -> Scheme
        requires { IsScheme (record { name = name; keys = keys; others = others }) }
        ensures { result ≡ record { name = name; keys = keys; others = others } }
    {
        Scheme { name, keys, others }
    }

    /// A NAME, as the file writes it: case matters. No two relations of schemes have the same.
    pub fn name(&self) -> &str
        ensures { result.now ≡ self.now.name }
    {
        self.name.as_str()
    }

    /// The key attributes, in the order of their file: a tuple's key has its values in this order.
    pub fn keys(&self) -> &Attributes
        ensures keys { result.now ≡ self.now.keys }
        ensures valid { IsScheme self.now }
    {
        &self.keys
    }

    /// The attributes outside the key, in the order of their file: a tuple has its elements in this order.
    pub fn others(&self) -> &Attributes
        ensures others { result.now ≡ self.now.others }
        ensures valid { IsScheme self.now }
    {
        &self.others
    }

    /// A copy with the first so many of the attributes outside the key.
    pub fn before(&self, alloc: Global, count: usize) -> Result<Scheme, AllocError>
        requires { count ≤ length self.now.others }
        ensures { IfOk result (λ s. s ≡ scheme_before count self.now) }
    {
        let name = Str::copy_of(alloc, self.name())?;
        let keys = self.keys();
        let keys = first_of(alloc, keys, keys.len())?;
        let others = first_of(alloc, self.others(), count)?;
        Ok(Scheme::new(name, keys, others))
    }
}

/// The relations, in the order of their file.
#[derive(Drop)]
pub struct Schemes {
    relations: Items<Scheme>,
}

impl Model for Schemes {
    ghost use Rattle.std.specs.Prelude.{List};
    ghost use Rattle.mls_scheme.specs.Scheme.{Scheme as Relation, AreSchemes};

    ghost Value = { List Relation };

    ghost view = { λ a. a.relations };

    ghost invariant = { λ a. AreSchemes a.relations };
}

impl Schemes {
    pub(crate) fn new(relations: Vec<Scheme>) -> Schemes
        requires { AreSchemes relations.items }
        ensures { result ≡ relations.items }
    {
        Schemes {
            relations: Items::from(relations),
        }
    }

    /// The relations, in the order of their file.
    pub(crate) fn relations(&self) -> &[Scheme]
        ensures { result.now ≡ self.now }
    {
        &self.relations
    }

    /// What holds of all schemes. A caller sees of a value what its getters tell, and not its invariant.
    pub fn use_invariant(&self)
        ensures { AreSchemes self.now }
    {
        let _relations = &self.relations;
    }

    /// How many relations there are.
    pub fn count(&self) -> usize
        ensures { result ≡ length self.now }
    {
        self.relations.len()
    }

    /// The number of the relation of a name.
    pub fn relation(&self, name: &str) -> Option<RelNo>
        ensures exact { result ≡ position (λ s. bytes_eq s.name name.now) self.now }
        ensures within { IfSome result (λ relation. relation < length self.now) }
    {
        match position_of(&self.relations, name) {
            Some(place) => Some(RelNo::new(place as u8)),
            None => None,
        }
    }

    /// A relation by its number.
    pub fn scheme(&self, relation: RelNo) -> &Scheme
        requires { relation < length self.now }
        ensures row { result.now ≡ scheme_of self.now relation }
        ensures valid { IsScheme result.now }
    {
        let scheme = &self.relations[relation.index()];
        // for what holds of each scheme
        let _keys = scheme.keys();
        scheme
    }

    /// How many attributes outside its key each relation had in older schemes that these extend: the first relations
    /// with these keys, and later attributes whose classes may be all that the key may have. They are given as their
    /// canonical text.
    #[tactic(auto, using(crate::proofs::ExtendingLemmas::extended_steps))]
    pub fn extends(
        &self,
        alloc: Global,
        policy: &Policy,
        old: &[u8],
    ) -> Result<Option<Vec<usize>>, AllocError>
        requires { AreUnder (length policy.now.labels) self.now }
        ensures found { IfOk result (λ o. IfSome o (λ counts. Extends policy.now self.now old.now counts.items)) }
        ensures none { IfOk result (λ o. o ≡ None → (counts : List ℕ) → Extends policy.now self.now old.now counts
            → ⊥) }
    {
        let Some(rest) = after_first(old) else {
            return Ok(None);
        };
        let Some(counts) = relations_before(alloc, policy, &self.relations, rest)? else {
            return Ok(None);
        };
        if counts.is_empty() {
            return Ok(None);
        }
        Ok(Some(counts))
    }

    /// A copy of the first relations, in which each has the first so many of its attributes outside the key.
    pub fn before(&self, alloc: Global, counts: &[usize]) -> Result<Schemes, AllocError>
        requires some { 0 < length counts.now }
        requires first { AllFirst AtMost counts.now self.now }
        ensures { IfOk result (λ s. s ≡ schemes_before counts.now self.now) }
    {
        self.use_invariant();
        let older = relations_of(alloc, self.relations(), counts)?;
        Ok(Schemes::new(older))
    }
}

/// Copies of the first relations, each with the first so many of its attributes outside the key.
fn relations_of(
    alloc: Global,
    relations: &[Scheme],
    counts: &[usize],
) -> Result<Vec<Scheme>, AllocError>
    requires { AllFirst AtMost counts.now relations.now }
    ensures { IfOk result (λ v. v.items ≡ schemes_before counts.now relations.now) }
{
    let mut older = Vec::new(alloc);
    for (place, scheme) in relations.iter().enumerate() {
        if place >= counts.len() {
            return Ok(older);
        }
        let copy = scheme.before(alloc, counts[place])?;
        older.push(copy)?;
    }
    Ok(older)
}

fn position_of(relations: &[Scheme], name: &str) -> Option<usize>
    ensures exact { result ≡ position (λ s. bytes_eq s.name name.now) relations.now }
    ensures within { IfSome result (λ place. place < length relations.now) }
{
    relations.iter().position(|scheme| scheme.name() == name)
}
