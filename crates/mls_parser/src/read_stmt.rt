//! Statements with no statement inside, from the tokens that are left, each behind what it begins with.
ghost use Rattle.std.specs.Prelude.{◌≡◌, ◌<◌, length, IfOk, OnOk};
ghost use Rattle.mls_scheme.specs.Scheme.{IsScheme, scheme_of};
ghost use Rattle.mls_parser.specs.Names.{variable_named};
ghost use Rattle.mls_parser.specs.Noted.{GivesPlaced, note};
ghost use Rattle.mls_parser.specs.ReadBlock.{variable, target_faults, outcome_at, written_at, keyed_at, assign_at};
ghost use Rattle.mls_parser.specs.ReadBlock.{insert_at, classes_at, changes_at, update_at, delete_at, lower_behind};
ghost use Rattle.mls_parser.specs.ReadBlock.{value_at, release_at, emit_at, plain_at};

use crate::context::Context;
use crate::fault::{PlacedFault, TextCause};
use crate::given::Given;
use crate::inferred::Inferred;
use crate::names::Name;
use crate::reader::Reader;
use crate::words::Plain;
use mls_lattice::{Items, LabelNo};
use mls_scheme::{Kind, RelNo, Scheme, Write};
use mls_tokens::Sign;
use mls_translang::{Expr, Stmt};
use std::alloc::{AllocError, Global};

impl Context<'_> {
    /// The number of a variable, or 0.
    fn variable_or_first(&self, name: &Name) -> u8
        ensures { result ≡ variable self.now name.now }
    {
        // what holds of every place
        let _few = self.vars.len();
        match self.variable(name) {
            Some(place) => place as u8,
            None => 0,
        }
    }

    /// A variable that gets what an expression gives.
    fn target(&self, reader: &mut Reader, name: &Name, gives: Inferred) -> Result<u8, AllocError>
        ensures exact { IfOk result (λ n. n ≡ variable self.now name.now) }
        ensures noted { OnOk result (reader.new
            ≡ note (target_faults self.now name.now (variable_named self.now name.now.0) gives) reader.old) }
    {
        match self.variable(name) {
            Some(place) => {
                let fits = gives.may_be(*self.vars.get(place));
                reader.note(fits, name.1, TextCause::Kind)?;
            }
            None => reader.note(false, name.1, TextCause::UnknownName)?,
        }
        Ok(self.variable_or_first(name))
    }

    /// The variable of an outcome, if one is named, and the end of the statement.
    #[tactic(auto, unfolding(crate::specs::ReadBlock::outcome_at))]
    fn outcome(&self, reader: &mut Reader) -> Result<Option<u8>, PlacedFault>
        ensures { GivesPlaced (λ n. (n, reader.new)) result (outcome_at self.now reader.old) }
    {
        if reader.takes_word("as").is_none() {
            reader.sign(Sign::Semicolon)?;
            return Ok(None);
        }
        let name = reader.name()?;
        let variable = self.target(reader, &name, Inferred::Value(Kind::Int))?;
        reader.sign(Sign::Semicolon)?;
        Ok(Some(variable))
    }

    /// Where a tuple is written, and the outcome.
    #[tactic(auto, unfolding(crate::specs::ReadBlock::written_at))]
    fn written(&self, reader: &mut Reader) -> Result<(LabelNo, Option<u8>), PlacedFault>
        ensures { GivesPlaced (λ x. ((x.0, x.1), reader.new)) result (written_at self.now reader.old) }
    {
        let at = reader.label_behind(self.policy, "at")?;
        let outcome = self.outcome(reader)?;
        Ok((at, outcome))
    }

    fn scheme(&self, relation: RelNo) -> &Scheme
        requires { relation < length self.now.schemes }
        ensures exact { result.now ≡ scheme_of self.now.schemes relation }
        ensures valid { IsScheme result.now }
    {
        self.schemes.scheme(relation)
    }

    /// The relation and the key of a write.
    #[tactic(auto, unfolding(crate::specs::ReadBlock::keyed_at))]
    fn keyed(&self, alloc: Global, reader: &mut Reader) -> Result<(RelNo, Items<Expr>), PlacedFault>
        ensures exact { GivesPlaced (λ x. ((x.0, x.1), reader.new)) result (keyed_at self.now reader.old) }
        ensures within { IfOk result (λ x. x.0 < length self.now.schemes) }
    {
        let relation = reader.relation(self.schemes)?;
        reader.word("key")?;
        let key = self.list(alloc, reader, self.scheme(relation).keys())?;
        Ok((relation, key))
    }

    #[tactic(auto, unfolding(crate::specs::ReadBlock::assign_at))]
    fn assign(&self, alloc: Global, reader: &mut Reader, target: Name) -> Result<Stmt, PlacedFault>
        ensures { GivesPlaced (λ x. (x, reader.new)) result (assign_at self.now (target.0, target.1) reader.old) }
    {
        reader.sign(Sign::Becomes)?;
        let given = self.whole(alloc, reader)?;
        reader.sign(Sign::Semicolon)?;
        Ok(Stmt::Assign {
            variable: self.target(reader, &target, given.gives)?,
            value: given.expr,
        })
    }

    #[tactic(auto, unfolding(crate::specs::ReadBlock::insert_at))]
    fn insert(&self, alloc: Global, reader: &mut Reader) -> Result<Stmt, PlacedFault>
        ensures { GivesPlaced (λ x. (x, reader.new)) result (insert_at self.now reader.old) }
    {
        let (relation, key) = self.keyed(alloc, reader)?;
        reader.word("values")?;
        let values = self.list(alloc, reader, self.scheme(relation).others())?;
        let (at, outcome) = self.written(reader)?;
        Ok(Stmt::Write {
            relation,
            at,
            write: Write::Insert { key, values },
            outcome,
        })
    }

    /// The key class of an update, the class of its tuple, and where it is written.
    #[tactic(auto, unfolding(crate::specs::ReadBlock::classes_at))]
    fn classes(&self, reader: &mut Reader) -> Result<(LabelNo, LabelNo, LabelNo), PlacedFault>
        ensures { GivesPlaced (λ x. ((x.0, x.1, x.2), reader.new)) result (classes_at self.now reader.old) }
    {
        let key_class = reader.label_behind(self.policy, "class")?;
        let from = reader.label_behind(self.policy, "from")?;
        let at = reader.label_behind(self.policy, "at")?;
        Ok((key_class, from, at))
    }

    /// The new values of an update, and the outcome.
    #[tactic(auto, unfolding(crate::specs::ReadBlock::changes_at))]
    fn changes(
        &self,
        alloc: Global,
        reader: &mut Reader,
        scheme: &Scheme,
    ) -> Result<(Items<(usize, Expr)>, Option<u8>), PlacedFault>
        ensures { GivesPlaced (λ x. ((x.0, x.1), reader.new)) result (changes_at self.now scheme.now reader.old) }
    {
        reader.word("set")?;
        let sets = self.sets(alloc, reader, scheme)?;
        let outcome = self.outcome(reader)?;
        Ok((sets, outcome))
    }

    #[tactic(auto, unfolding(crate::specs::ReadBlock::update_at))]
    fn update(&self, alloc: Global, reader: &mut Reader) -> Result<Stmt, PlacedFault>
        ensures { GivesPlaced (λ x. (x, reader.new)) result (update_at self.now reader.old) }
    {
        let (relation, key) = self.keyed(alloc, reader)?;
        let (key_class, from, at) = self.classes(reader)?;
        let (sets, outcome) = self.changes(alloc, reader, self.scheme(relation))?;
        Ok(Stmt::Write {
            relation,
            at,
            write: Write::Update {
                key,
                key_class,
                from,
                sets,
            },
            outcome,
        })
    }

    #[tactic(auto, unfolding(crate::specs::ReadBlock::delete_at))]
    fn delete(&self, alloc: Global, reader: &mut Reader) -> Result<Stmt, PlacedFault>
        ensures { GivesPlaced (λ x. (x, reader.new)) result (delete_at self.now reader.old) }
    {
        let (relation, key) = self.keyed(alloc, reader)?;
        let key_class = reader.label_behind(self.policy, "class")?;
        let (at, outcome) = self.written(reader)?;
        Ok(Stmt::Write {
            relation,
            at,
            write: Write::Delete { key, key_class },
            outcome,
        })
    }

    /// A word, and behind it a label that the ceiling dominates.
    #[tactic(auto, unfolding(crate::specs::ReadBlock::lower_behind))]
    fn lower_behind(&self, reader: &mut Reader, word: &str) -> Result<LabelNo, PlacedFault>
        ensures { GivesPlaced (λ n. (n, reader.new)) result (lower_behind self.now word.now reader.old) }
    {
        let name = reader.name_behind(word)?;
        let label = reader.noted_label(self.policy, &name)?;
        let below = self.policy.dominates(self.hi, label);
        reader.note(below, name.1, TextCause::LabelOrder)?;
        Ok(label)
    }

    /// An expression that gives a value.
    #[tactic(auto, unfolding(crate::specs::ReadBlock::value_at))]
    fn value(&self, alloc: Global, reader: &mut Reader) -> Result<Given, PlacedFault>
        ensures { GivesPlaced (λ g. (g, reader.new)) result (value_at self.now reader.old) }
    {
        let given = self.whole(alloc, reader)?;
        reader.note(given.gives.may_be_value(), given.at, TextCause::Kind)?;
        Ok(given)
    }

    #[tactic(auto, unfolding(crate::specs::ReadBlock::release_at))]
    fn release(&self, alloc: Global, reader: &mut Reader) -> Result<Stmt, PlacedFault>
        ensures { GivesPlaced (λ x. (x, reader.new)) result (release_at self.now reader.old) }
    {
        let given = self.value(alloc, reader)?;
        let to = self.lower_behind(reader, "to")?;
        let into = reader.name_behind("into")?;
        reader.sign(Sign::Semicolon)?;
        Ok(Stmt::Release {
            to,
            into: self.target(reader, &into, given.gives)?,
            value: given.expr,
        })
    }

    #[tactic(auto, unfolding(crate::specs::ReadBlock::emit_at))]
    fn emit(&self, alloc: Global, reader: &mut Reader) -> Result<Stmt, PlacedFault>
        ensures { GivesPlaced (λ x. (x, reader.new)) result (emit_at self.now reader.old) }
    {
        let given = self.value(alloc, reader)?;
        let label = reader.label_behind(self.policy, "at")?;
        reader.sign(Sign::Semicolon)?;
        Ok(Stmt::Emit {
            value: given.expr,
            label,
        })
    }

    /// A statement, of which the first token stands at `at`.
    pub fn plain(
        &self,
        alloc: Global,
        reader: &mut Reader,
        plain: Plain,
        at: usize,
    ) -> Result<Stmt, PlacedFault>
        ensures { GivesPlaced (λ x. (x, reader.new)) result (plain_at self.now plain at reader.old) }
    {
        match plain {
            Plain::Assign(name) => self.assign(alloc, reader, (name, at)),
            Plain::Insert => self.insert(alloc, reader),
            Plain::Update => self.update(alloc, reader),
            Plain::Delete => self.delete(alloc, reader),
            Plain::Release => self.release(alloc, reader),
            Plain::Emit => self.emit(alloc, reader),
        }
    }
}
