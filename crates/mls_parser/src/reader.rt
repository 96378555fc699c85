//! What is left of a text, and the faults of names and kinds that were noted on the way.
ghost use Rattle.std.specs.Prelude.{◌≡◌, ◌<◌, [], length, option_map, IsNone, IfOk, OnOk};
ghost use Rattle.mls_tokens.specs.Passing.{has_ended};
ghost use Rattle.mls_parser.specs.Fault.{unless, least};
ghost use Rattle.mls_parser.specs.Names.{label_named, numbered};
ghost use Rattle.mls_parser.specs.Noted.{GivesPlaced, note, token, takes_sign, takes_word, sign_at, word_at, name_at};
ghost use Rattle.mls_parser.specs.Noted.{name_behind, known, label_at, label_behind, relation_at};
ghost use Rattle.mls_parser.specs.Words.{pass_head, pass_known, opening_of, operator_of, kind_of};

use crate::context::{label, label_or_first, relation, relation_or_first};
use crate::fault::{PlacedFault, TextCause, ill_formed, least};
use crate::names::Name;
use crate::words::{Head, Opening, head_of, kind_of, opening_of, operator_of};
use mls_lattice::{LabelNo, Policy};
use mls_scheme::{Kind, RelNo, Schemes};
use mls_tokens::{Sign, Tokens};
use mls_translang::Operator;
use std::alloc::{AllocError, Global};
use std::marker::Model;

/// The tokens that are left of a text, and the faults of names and kinds that were noted. A name that is unknown
/// counts as the first of what it may name, so that the form is read to its end.
#[derive(Drop)]
pub struct Reader {
    pub tokens: Tokens,
    faults: Vec<PlacedFault>,
}

impl Model for Reader {
    ghost use Rattle.mls_parser.specs.Noted.{State};

    ghost Value = { State };

    ghost view = { λ a. (a.faults.items, a.tokens) };
}

impl Reader {
    /// Nothing is noted.
    pub fn new(alloc: Global, tokens: Tokens) -> Reader
        ensures { result ≡ ([], tokens) }
    {
        Reader {
            tokens,
            faults: Vec::new(alloc),
        }
    }

    /// Notes a fault, unless a test holds.
    pub fn note(&mut self, holds: bool, at: usize, cause: TextCause) -> Result<(), AllocError>
        ensures { OnOk result (self.new ≡ note (unless holds at cause) self.old) }
    {
        if !holds {
            self.faults.push(PlacedFault { at, cause })?;
        }
        Ok(())
    }

    /// The least fault that was noted.
    pub fn least(&self) -> Option<PlacedFault>
        ensures { result ≡ least self.now.0 }
    {
        least(self.faults.as_slice())
    }

    /// Whether the text is over.
    pub fn has_ended(&self) -> bool
        ensures { result ≡ has_ended self.now.1 }
    {
        self.tokens.has_ended()
    }

    /// Passes a sign if it is next, and gives its place.
    pub fn takes_sign(&mut self, sign: Sign) -> Option<usize>
        ensures taken { option_map (λ at. (at, self.new)) result ≡ takes_sign sign self.old }
        ensures stays { IsNone result → self.new ≡ self.old }
    {
        self.tokens.takes_sign(sign)
    }

    /// Passes a word if it is next, and gives its place.
    pub fn takes_word(&mut self, word: &str) -> Option<usize>
        ensures taken { option_map (λ at. (at, self.new)) result ≡ takes_word word.now self.old }
        ensures stays { IsNone result → self.new ≡ self.old }
    {
        self.tokens.takes_word(word)
    }

    /// Passes a sign, and gives its place.
    pub fn sign(&mut self, sign: Sign) -> Result<usize, PlacedFault>
        ensures { GivesPlaced (λ at. (at, self.new)) result (sign_at sign self.old) }
    {
        Ok(self.tokens.sign(sign)?)
    }

    /// Passes a word, and gives its place.
    pub fn word(&mut self, word: &str) -> Result<usize, PlacedFault>
        ensures { GivesPlaced (λ at. (at, self.new)) result (word_at word.now self.old) }
    {
        Ok(self.tokens.word(word)?)
    }

    /// Passes a name, and gives it with its place.
    pub fn name(&mut self) -> Result<Name, PlacedFault>
        ensures { GivesPlaced (λ x. ((x.0, x.1), self.new)) result (name_at self.old) }
    {
        Ok(self.tokens.name()?)
    }

    /// Passes a word, and a name behind it.
    pub fn name_behind(&mut self, word: &str) -> Result<Name, PlacedFault>
        ensures { GivesPlaced (λ x. ((x.0, x.1), self.new)) result (name_behind word.now self.old) }
    {
        self.word(word)?;
        self.name()
    }

    /// The label of a name.
    pub(crate) fn noted_label(
        &mut self,
        policy: &Policy,
        name: &Name,
    ) -> Result<LabelNo, AllocError>
        ensures exact { IfOk result (λ n. n ≡ numbered (label_named policy.now name.now.0)) }
        ensures within { IfOk result (λ n. n < length policy.now.labels) }
        ensures noted { OnOk result (self.new ≡ note (known (label_named policy.now name.now.0) name.now.1) self.old) }
    {
        self.note(
            label(policy, name).is_some(),
            name.1,
            TextCause::UnknownName,
        )?;
        Ok(label_or_first(policy, name))
    }

    /// Passes the name of a label.
    #[tactic(auto, unfolding(crate::specs::Noted::label_at))]
    pub fn label(&mut self, policy: &Policy) -> Result<LabelNo, PlacedFault>
        ensures { GivesPlaced (λ n. (n, self.new)) result (label_at policy.now self.old) }
    {
        let name = self.name()?;
        Ok(self.noted_label(policy, &name)?)
    }

    /// Passes a word, and the name of a label behind it.
    #[tactic(auto, unfolding(crate::specs::Noted::label_behind))]
    pub fn label_behind(&mut self, policy: &Policy, word: &str) -> Result<LabelNo, PlacedFault>
        ensures { GivesPlaced (λ n. (n, self.new)) result (label_behind policy.now word.now self.old) }
    {
        let name = self.name_behind(word)?;
        Ok(self.noted_label(policy, &name)?)
    }

    /// Passes the name of a relation.
    #[tactic(auto, unfolding(crate::specs::Noted::relation_at))]
    pub fn relation(&mut self, schemes: &Schemes) -> Result<RelNo, PlacedFault>
        ensures exact { GivesPlaced (λ n. (n, self.new)) result (relation_at schemes.now self.old) }
        ensures within { IfOk result (λ n. n < length schemes.now) }
    {
        let name = self.name()?;
        let known = relation(schemes, &name).is_some();
        self.note(known, name.1, TextCause::UnknownName)?;
        Ok(relation_or_first(schemes, &name))
    }

    /// Passes what an expression begins with, and gives its place too.
    pub(crate) fn head(&mut self) -> Result<(Head, usize), PlacedFault>
        ensures { GivesPlaced (λ x. ((x.0, x.1), self.new)) result (token pass_head self.old) }
    {
        let first = self.tokens.pop().ok_or(self.tokens.stop())?;
        let head = head_of(first.token).ok_or(ill_formed(first.at, TextCause::Expected))?;
        Ok((head, first.at))
    }

    /// Passes what a statement begins with, and gives its place too.
    pub(crate) fn opening(&mut self) -> Result<(Opening, usize), PlacedFault>
        ensures { GivesPlaced (λ x. ((x.0, x.1), self.new)) result (token (pass_known opening_of) self.old) }
    {
        let first = self.tokens.pop().ok_or(self.tokens.refused())?;
        let opening = opening_of(first.token).ok_or(ill_formed(first.at, TextCause::Expected))?;
        Ok((opening, first.at))
    }

    /// Passes an operator, and gives its place too.
    pub(crate) fn operator(&mut self) -> Result<(Operator, usize), PlacedFault>
        ensures { GivesPlaced (λ x. ((x.0, x.1), self.new)) result (token (pass_known operator_of) self.old) }
    {
        let first = self.tokens.pop().ok_or(self.tokens.refused())?;
        let operator = operator_of(&first.token).ok_or(ill_formed(first.at, TextCause::Expected))?;
        Ok((operator, first.at))
    }

    /// Passes the word of a kind, and gives its place too.
    pub(crate) fn kind(&mut self) -> Result<(Kind, usize), PlacedFault>
        ensures { GivesPlaced (λ x. ((x.0, x.1), self.new)) result (token (pass_known kind_of) self.old) }
    {
        let first = self.tokens.pop().ok_or(self.tokens.refused())?;
        let kind = kind_of(&first.token).ok_or(ill_formed(first.at, TextCause::Expected))?;
        Ok((kind, first.at))
    }
}
