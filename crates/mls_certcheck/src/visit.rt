//! Who is shown the lines of a transaction.
ghost use Rattle.std.specs.Prelude.{List, [], ◌∷◌, ◌++◌, Result, Ok, Err};
ghost use Rattle.mls_certcheck.specs.Lines.{Line};
ghost use Rattle.mls_certcheck.specs.Lent.{line_of};

use crate::lent::{Here, LentFlow};
use crate::refusal::Rule;

/// What is shown lines one by one, and may stop.
///
/// Contracts see what lines were visited, from one state to another, and whether that ended in a stop.
pub trait Visit {
    type Stop;

    ghost visits: { Self → List Line → Result (Unit {0}) Self.Stop → Self → Type 0 };

    /// One line more, by a rule at a statement.
    fn line(&mut self, here: &Here, rule: Rule, flow: &LentFlow<'_>) -> Result<(), Self::Stop>
        ensures { visits self.old (line_of here.now rule flow.now ∷ []) result self.new };

    ghost none: { (v : Self) → visits v [] (Ok tt) v };

    ghost more: { (v w x : Self) (ls ms : List Line) (r : Result (Unit {0}) Self.Stop)
        → visits v ls (Ok tt) w → visits w ms r x → visits v (ls ++ ms) r x };

    ghost stops: { (v w : Self) (ls ms : List Line) (e : Self.Stop)
        → visits v ls (Err e) w → visits v (ls ++ ms) (Err e) w };
}
