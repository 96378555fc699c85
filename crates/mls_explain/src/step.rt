//! What flows, one source into one slot.
ghost use Rattle.std.specs.Prelude.{◌≡◌, ◌++◌, IfOk, OnOk, flat_map};
ghost use Rattle.mls_explain.specs.Steps.{steps_to, into_steps, kept_steps, steps_in};

use crate::teller::Told;
use mls_certcheck::{Flow, Line, Slot, Source, is_target};
use std::alloc::{AllocError, Global};

/// Something of a source comes into a slot.
#[derive(Clone, Copy)]
pub(crate) struct Step {
    pub source: Source,
    pub target: Slot,
}

/// From each of the sources into one slot.
fn steps_into_one(steps: &mut Vec<Step>, target: Slot, sources: &[Source]) -> Told
    ensures { OnOk result (steps.new.items ≡ steps.old.items ++ steps_to target sources.now) }
{
    for source in sources {
        let source = *source;
        steps.push(Step { source, target })?;
    }
    Ok(())
}

/// From each of the sources into each of the slots.
fn steps_into_each(steps: &mut Vec<Step>, targets: &[Slot], sources: &[Source]) -> Told
    ensures { OnOk result (steps.new.items ≡ steps.old.items ++ into_steps targets.now sources.now) }
{
    for target in targets {
        steps_into_one(steps, *target, sources)?;
    }
    Ok(())
}

/// Of so many variables, but one, from after the one statement to after the other.
fn kept(steps: &mut Vec<Step>, from: usize, to: usize, but: Option<u8>, vars: usize) -> Told
    ensures { OnOk result (steps.new.items ≡ steps.old.items ++ kept_steps from to but vars) }
{
    for place in 0..vars {
        if is_target(but, place) {
            continue;
        }
        let source = Source::Held(Slot::Variable { after: from, place });
        let target = Slot::Variable { after: to, place };
        steps.push(Step { source, target })?;
    }
    Ok(())
}

fn flow_steps(steps: &mut Vec<Step>, flow: &Flow, vars: usize) -> Told
    ensures { OnOk result (steps.new.items ≡ steps.old.items ++ steps_in vars flow.now) }
{
    match flow {
        Flow::Into { targets, sources } => steps_into_each(steps, targets, sources),
        Flow::Kept { from, to, but } => kept(steps, *from, *to, *but, vars),
        Flow::Within { .. } | Flow::Under { .. } => Ok(()),
    }
}

/// Those by lines where there are so many variables.
pub(crate) fn steps_of(alloc: Global, lines: &[Line], vars: usize) -> Result<Vec<Step>, AllocError>
    ensures { IfOk result (λ v. v.items ≡ flat_map (λ l. steps_in vars l.flow) lines.now) }
{
    let mut steps = Vec::new(alloc);
    for line in lines {
        flow_steps(&mut steps, &line.flow, vars)?;
    }
    Ok(steps)
}
