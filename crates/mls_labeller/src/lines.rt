//! The lines of a transaction, noted.
ghost use Rattle.std.specs.Prelude.{◌≡◌, ◌<◌, ◌+◌, ◌^◌, ◌++◌, map, IfOk, OnOk};
ghost use Rattle.mls_scheme.specs.Writes.{operands};
ghost use Rattle.mls_translang.specs.Tree.{statements};
ghost use Rattle.mls_certcheck.specs.Lines.{names, variables};
ghost use Rattle.mls_certcheck.specs.Loops.{loops_of};
ghost use Rattle.mls_certcheck.specs.Lent.{slots_of, names_here, more_of, sources_of, flow_of};
ghost use Rattle.mls_labeller.specs.Flows.{body_lines, own_slots};

use mls_certcheck::{
    Flow, Here, LentFlow, Line, More, Refusal, Rule, Slot, Source, Targets, Visit, walk,
};
use mls_lattice::Items;
use mls_scheme::Write;
use mls_translang::{Block, Expr, Term, Tx};
use std::alloc::{AllocError, Global};

/// Adds a block's own statements, the first of which has this number.
fn own_slots(slots: &mut Vec<Slot>, first: usize, block: &Block) -> Result<(), AllocError>
    requires { first + statements block.now < 2 ^ 63 }
    ensures { OnOk result (slots.new.items ≡ slots.old.items ++ own_slots first block.now) }
{
    let mut number = first;
    for stmt in block.stmts() {
        slots.push(Slot::Statement(number))?;
        number += stmt.statements();
    }
    Ok(())
}

#[tactic(auto, using(crate::proofs::WalkLemmas::slots_are))]
fn slots_of(alloc: Global, targets: &Targets<'_>) -> Result<Items<Slot>, AllocError>
    ensures { IfOk result (λ slots. slots ≡ slots_of targets.now) }
{
    let mut slots = Vec::new(alloc);
    match targets {
        Targets::One(slot) => slots.push(*slot)?,
        Targets::Inside(one) => own_slots(&mut slots, one.first, one.block)?,
        Targets::Either(one, other) => {
            own_slots(&mut slots, one.first, one.block)?;
            own_slots(&mut slots, other.first, other.block)?;
        }
    }
    Ok(Items::from(slots))
}

/// Adds the names in an expression of a statement.
fn names_to(sources: &mut Vec<Source>, here: &Here, expr: &Expr) -> Result<(), AllocError>
    ensures { OnOk result (sources.new.items ≡ sources.old.items
        ++ names here.now.before (loops_of here.now.loops) expr.now) }
{
    match &expr.term {
        Term::Known(_) | Term::Null => {}
        Term::Variable(place) => {
            let after = here.before;
            let place = usize::from(*place);
            sources.push(Source::Held(Slot::Variable { after, place }))?;
        }
        Term::Parameter(place) => sources.push(Source::Parameter(*place))?,
        Term::Field { depth, .. } => sources.push(Source::Declared(here.loops.label(*depth)))?,
        Term::Not(expr) => names_to(sources, here, expr)?,
        Term::Op(_, left, right) => {
            names_to(sources, here, left)?;
            names_to(sources, here, right)?;
        }
    }
    Ok(())
}

/// Adds those in expressions.
fn all_to(sources: &mut Vec<Source>, here: &Here, exprs: &[Expr]) -> Result<(), AllocError>
    ensures { OnOk result (sources.new.items ≡ sources.old.items ++ names_here here.now exprs.now) }
{
    for expr in exprs {
        names_to(sources, here, expr)?;
    }
    Ok(())
}

/// Adds those in the new values of an update.
fn sets_to(sources: &mut Vec<Source>, here: &Here, sets: &[(usize, Expr)]) -> Result<(), AllocError>
    ensures { OnOk result (sources.new.items ≡ sources.old.items
        ++ names_here here.now (map (λ s. s.1) sets.now)) }
{
    for set in sets {
        names_to(sources, here, &set.1)?;
    }
    Ok(())
}

/// Adds those in the operands of a write.
fn operands_to(
    sources: &mut Vec<Source>,
    here: &Here,
    write: &Write<Expr>,
) -> Result<(), AllocError>
    ensures { OnOk result (sources.new.items ≡ sources.old.items ++ names_here here.now (operands write.now)) }
{
    all_to(sources, here, write.key())?;
    match write {
        Write::Insert { values, .. } => all_to(sources, here, values),
        Write::Update { sets, .. } => sets_to(sources, here, sets),
        Write::Delete { .. } => Ok(()),
    }
}

/// Adds the variables after a statement, the last one first.
fn variables_to(sources: &mut Vec<Source>, after: usize, count: usize) -> Result<(), AllocError>
    ensures { OnOk result (sources.new.items ≡ sources.old.items ++ variables after count) }
{
    let mut place = count;
    while place > 0 {
        place -= 1;
        sources.push(Source::Held(Slot::Variable { after, place }))?;
    }
    Ok(())
}

fn more_to(sources: &mut Vec<Source>, here: &Here, more: &More<'_>) -> Result<(), AllocError>
    ensures { OnOk result (sources.new.items ≡ sources.old.items ++ more_of here.now more.now) }
{
    match more {
        More::Nothing => {}
        More::Label(label) => sources.push(Source::Declared(*label))?,
        More::Variables(count) => variables_to(sources, here.number, *count)?,
        More::Names(expr) => names_to(sources, here, expr)?,
        More::Operands(write) => operands_to(sources, here, write)?,
    }
    Ok(())
}

fn sources_of(
    alloc: Global,
    here: &Here,
    one: Option<Source>,
    more: &More<'_>,
) -> Result<Items<Source>, AllocError>
    ensures { IfOk result (λ sources. sources ≡ sources_of here.now one more.now) }
{
    let mut sources = Vec::new(alloc);
    if let Some(source) = one {
        sources.push(source)?;
    }
    more_to(&mut sources, here, more)?;
    Ok(Items::from(sources))
}

fn flow_of(alloc: Global, here: &Here, flow: &LentFlow<'_>) -> Result<Flow, AllocError>
    ensures { IfOk result (λ f. f ≡ flow_of here.now flow.now) }
{
    match flow {
        LentFlow::Into(targets, one, more) => {
            let targets = slots_of(alloc, targets)?;
            let sources = sources_of(alloc, here, *one, more)?;
            Ok(Flow::Into { targets, sources })
        }
        LentFlow::Kept { from, but } => {
            let (from, to, but) = (*from, here.number, *but);
            Ok(Flow::Kept { from, to, but })
        }
        LentFlow::Within(limit, one, more) => {
            let limit = *limit;
            let sources = sources_of(alloc, here, *one, more)?;
            Ok(Flow::Within { limit, sources })
        }
        LentFlow::Under(one, more) => {
            let sources = sources_of(alloc, here, *one, more)?;
            Ok(Flow::Under { sources })
        }
    }
}

/// Lines that were noted.
#[derive(Drop)]
struct Notes {
    alloc: Global,
    lines: Vec<Line>,
}

impl Visit for Notes {
    ghost use Rattle.std.proofs.Common.{sym, ap, ◌∙◌, append_assoc};
    ghost use Rattle.std.proofs.lemmas.List.{append-nil};
    ghost use Rattle.std.proofs.lemmas.Result.{on_ok_weaker};

    type Stop = AllocError;

    ghost visits = { λ v ls r w. OnOk r (w.lines.items ≡ v.lines.items ++ ls) };

    ghost none = { λ v. sym (append-nil v.lines.items) };

    ghost more = { λ v w x ls ms r h. on_ok_weaker r (λ k. k ∙ ap (λ l. l ++ ms) h
        ∙ append_assoc v.lines.items ls ms) };

    ghost stops = { λ v w ls ms e h. tt };

    fn line(&mut self, here: &Here, rule: Rule, flow: &LentFlow<'_>) -> Result<(), AllocError> {
        let flow = flow_of(self.alloc, here, flow)?;
        let stmt = here.number;
        self.lines.push(Line {
            flow,
            refusal: Refusal { stmt, rule },
        })?;
        Ok(())
    }
}

/// The lines of all statements, in the order in which a checker names the first that is broken.
pub fn lines_of(alloc: Global, tx: &Tx) -> Result<Vec<Line>, AllocError>
    ensures { IfOk result (λ v. v.items ≡ body_lines tx.now) }
{
    let lines = Vec::new(alloc);
    let mut notes = Notes { alloc, lines };
    walk(tx, &mut notes)?;
    Ok(notes.lines)
}
