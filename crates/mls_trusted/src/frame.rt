//! What a call holds while it runs.
ghost use Rattle.std.specs.Prelude.{◌≡◌, ◌<◌, ◌++◌, ◌∷◌, [], ℕ, List, None, length, slice_index_or, IfOk, IfSome, OnOk};
ghost use Rattle.mls_lattice.specs.Policy.{labels_of};
ghost use Rattle.mls_scheme.specs.Table.{Database};
ghost use Rattle.mls_scheme.specs.declared.tuple.Tuple.{Tuple as Row};
ghost use Rattle.mls_scheme.specs.Writes.{key_class_of};
ghost use Rattle.mls_certcheck.specs.Meaning.{set_outcome, set_var, start};
ghost use Rattle.mls_updates.specs.Writes.{named};
ghost use Rattle.mls_queries.specs.Views.{AreDeclared, AreLeftBy};
ghost use Rattle.mls_trusted.specs.Environment.{env_of};
ghost use Rattle.mls_trusted.specs.Frames.{vars_of, progress_of, env_in, IsFrame, HasVars};

use crate::call::Call;
use crate::environment::Environment;
use mls_certcheck::Run;
use mls_filterview::SharedTuple;
use mls_lattice::{Items, LabelNo};
use mls_queries::Views;
use mls_scheme::{RelNo, Value, Write};
use mls_updates::Outcome;
use std::alloc::{AllocError, Global};

/// Variables and items of a call, the rows of the loops that it is in, and the views that are kept.
#[derive(Drop)]
pub(crate) struct Frame {
    /// The variables, by number.
    pub vars: Vec<Option<Value>>,
    /// The rows of the loops around, the outermost first.
    pub rows: Vec<SharedTuple>,
    pub emitted: Vec<(LabelNo, Option<Value>)>,
    pub released: Vec<(LabelNo, Option<Value>)>,
    /// Views of the database as it is now.
    pub views: Views,
}

/// As many nulls.
fn nulls(alloc: Global, count: usize) -> Result<Vec<Option<Value>>, AllocError>
    ensures count { IfOk result (λ v. length v.items ≡ count) }
    ensures null { IfOk result (λ v. (i : ℕ) → slice_index_or v.items i None ≡ None) }
{
    let mut values = Vec::new(alloc);
    for place in 0..count {
        values.push(None)?;
    }
    Ok(values)
}

impl Frame {
    /// Before the first statement: variables are null.
    pub fn new(call: &Call<'_>, views: Views) -> Result<Frame, AllocError>
        ensures frame { IfOk result (IsFrame call.now) }
        ensures rows { IfOk result (λ f. f.rows.items ≡ []) }
        ensures start { IfOk result (λ f. (db : Database) → progress_of db f ≡ start db) }
        ensures views { IfOk result (λ f. f.views ≡ views) }
    {
        let vars = nulls(call.alloc, call.tx.vars().len())?;
        Ok(Frame {
            vars,
            rows: Vec::new(call.alloc),
            emitted: Vec::new(call.alloc),
            released: Vec::new(call.alloc),
            views,
        })
    }

    /// What expressions read.
    pub fn environment<'a>(&'a self, args: &'a [Option<Value>]) -> Environment<'a>
        ensures { env_of result ≡ env_in args.now self.now }
    {
        Environment {
            args,
            rows: &self.rows,
            vars: &self.vars,
        }
    }

    /// Gives a variable a value.
    pub fn set(&mut self, variable: u8, value: Option<Value>)
        requires { variable < length self.old.vars.items }
        ensures { HasVars (set_var variable value (vars_of self.old)) self.old.views self.old self.new }
    {
        self.vars[usize::from(variable)] = value;
    }

    /// Keeps the number of an outcome, where a variable is named for it.
    fn set_outcome(&mut self, variable: Option<u8>, outcome: Outcome)
        requires { IfSome variable (λ x. x < length self.old.vars.items) }
        ensures { HasVars (set_outcome variable outcome (vars_of self.old)) self.old.views self.old self.new }
    {
        match variable {
            None => {}
            Some(variable) => self.set(variable, Some(Value::Int(i64::from(outcome.code())))),
        }
    }

    /// Keeps what a write of a relation at a label came to: its outcome, and what it leaves of the views.
    pub fn wrote(
        &mut self,
        call: &Call<'_>,
        relation: RelNo,
        at: LabelNo,
        write: &Write<Option<Value>>,
        variable: Option<u8>,
        outcome: Outcome,
    )
        requires at { at < length call.now.policy.now.labels }
        requires key_class { key_class_of at write.now < length call.now.policy.now.labels }
        requires variable { IfSome variable (λ x. x < length self.old.vars.items) }
        requires declared { AreDeclared (length call.now.policy.now.labels) self.old.views }
        ensures vars { HasVars (set_outcome variable outcome (vars_of self.old)) self.new.views self.old self.new }
        ensures views { AreLeftBy (labels_of call.now.policy.now) relation at (named at write.now) outcome
            self.old.views self.new.views }
    {
        self.views
            .follow(call.alloc, call.policy, relation, at, write, outcome);
        self.set_outcome(variable, outcome);
    }

    /// Enters a loop over rows, at this row.
    pub fn enter(&mut self, row: SharedTuple) -> Result<(), AllocError>
        ensures rest { OnOk result (self.new ≡ record self.old { rows = self.new.rows }) }
        ensures rows { OnOk result (self.new.rows.items ≡ self.old.rows.items ++ row ∷ []) }
    {
        self.rows.push(row)?;
        Ok(())
    }

    /// Leaves the innermost loop.
    pub fn leave(&mut self)
        ensures rest { self.new ≡ record self.old { rows = self.new.rows } }
        ensures rows { (rows : List Row) (row : Row) → self.old.rows.items ≡ rows ++ row ∷ []
            → self.new.rows.items ≡ rows }
    {
        let _ = self.rows.pop();
    }

    /// What was emitted and released, and the views.
    pub fn into_parts(self) -> (Run, Views)
        ensures emitted { result.0.emitted ≡ self.emitted.items }
        ensures released { result.0.released ≡ self.released.items }
        ensures views { result.1 ≡ self.views }
    {
        let Frame {
            vars: _,
            rows: _,
            emitted,
            released,
            views,
        } = self;
        let run = Run {
            emitted: Items::from(emitted),
            released: Items::from(released),
        };
        (run, views)
    }
}
