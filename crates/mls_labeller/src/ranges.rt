//! A range for each variable.
ghost use Rattle.std.specs.Prelude.{◌≡◌, ◌≢◌, None, Some, IsTrue, IfOk, Option as SpecOption, pos, slice_index_or};
ghost use Rattle.mls_scheme.specs.declared.value.Value.{Value as SpecValue};
ghost use Rattle.mls_scheme.specs.declared.value.Value.TheVariants.{Int};
ghost use Rattle.mls_updates.specs.declared.outcome.Outcome.{Outcome};
ghost use Rattle.mls_updates.specs.declared.outcome.Outcome.TheVariants.{Unexpected};
ghost use Rattle.mls_updates.specs.Outcome.{code_of};
ghost use Rattle.mls_certcheck.specs.Meaning.{Variables, set_var, set_outcome};
ghost use Rattle.mls_labeller.specs.Ranges.{Admits, any_value, AreHeld, Wider, HasRange};

use crate::bounds::Bounds;
use crate::range::Range;
use mls_translang::{Expr, Term};
use std::alloc::{AllocError, Global};

/// A range for each variable, by number. A variable past them can have any value.
#[derive(Clone, PartialEq, Drop)]
pub(crate) struct Ranges {
    pub vars: Vec<Range>,
}

/// The numbers of outcomes of a write, which expects no number of rows.
fn outcomes() -> Range
    ensures { (o : Outcome) → o ≢ Unexpected → Admits result (Some (Int (pos (code_of o)))) }
{
    Range {
        null: false,
        listed: None,
        bounds: Some(Bounds { low: 0, high: 17 }),
    }
}

impl Ranges {
    /// Null, so many times.
    pub fn nulls(alloc: Global, count: usize) -> Result<Ranges, AllocError>
        ensures { IfOk result (λ r. AreHeld r.vars.items (λ x. None)) }
    {
        let vars = vec![in alloc; Range::null(alloc); count]?;
        Ok(Ranges { vars })
    }

    /// The same ranges again.
    pub fn copy(&self) -> Result<Ranges, AllocError>
        ensures { IfOk result (λ r. r.vars.items ≡ self.now.vars.items) }
    {
        self.clone()
    }

    /// Whether these are the same as others.
    pub fn same(&self, others: &Ranges) -> bool
        ensures { IsTrue result → self.now.vars.items ≡ others.now.vars.items }
    {
        self == others
    }

    /// The range of a variable.
    fn of(&self, place: usize) -> Result<Range, AllocError>
        ensures { IfOk result (λ r. r ≡ slice_index_or self.now.vars.items place any_value) }
    {
        if place < self.vars.len() {
            self.vars[place].copy()
        } else {
            Ok(Range::any())
        }
    }

    /// What values an expression can have.
    #[tactic(auto, unfolding(mls_translang::specs::Expressions::eval))]
    pub fn range_of(&self, alloc: Global, expr: &Expr) -> Result<Range, AllocError>
        ensures { IfOk result (HasRange self.now.vars.items expr.now) }
    {
        match &expr.term {
            Term::Known(value) => Range::one(alloc, value),
            Term::Null => Ok(Range::null(alloc)),
            Term::Variable(variable) => self.of(usize::from(*variable)),
            Term::Op(operator, left, right) => {
                let first = self.range_of(alloc, left)?;
                let second = self.range_of(alloc, right)?;
                Ok(first.apply(*operator, &second))
            }
            Term::Parameter(_) | Term::Field { .. } | Term::Not(_) => Ok(Range::any()),
        }
    }

    /// The ranges after a variable got a value of another.
    pub fn put(&self, variable: u8, range: Range) -> Result<Ranges, AllocError>
        ensures { IfOk result (λ r. (vars : Variables) (v : SpecOption SpecValue) → AreHeld self.now.vars.items vars
            → Admits range v → AreHeld r.vars.items (set_var variable v vars)) }
    {
        let mut ranges = self.copy()?;
        let place = usize::from(variable);
        if place < ranges.vars.len() {
            ranges.vars[place] = range;
        }
        Ok(ranges)
    }

    /// The ranges after a write, whose outcome a variable may get.
    pub fn put_outcome(&self, variable: Option<u8>) -> Result<Ranges, AllocError>
        ensures { IfOk result (λ r. (vars : Variables) (o : Outcome) → o ≢ Unexpected
            → AreHeld self.now.vars.items vars → AreHeld r.vars.items (set_outcome variable o vars)) }
    {
        match variable {
            Some(variable) => self.put(variable, outcomes()),
            None => self.copy(),
        }
    }

    /// What holds the variables here or there.
    pub fn joined(&self, alloc: Global, others: &Ranges, widens: bool) -> Result<Ranges, AllocError>
        ensures these { IfOk result (λ r. Wider self.now.vars.items r.vars.items) }
        ensures those { IfOk result (λ r. Wider others.now.vars.items r.vars.items) }
    {
        let mut vars = Vec::new(alloc);
        for place in 0..self.vars.len() {
            let this = self.of(place)?;
            let that = others.of(place)?;
            vars.push(this.join(&that, widens)?)?;
        }
        Ok(Ranges { vars })
    }
}
