//! Scripts, line by line.
ghost use Rattle.std.specs.Prelude.{List, ◌≡◌, ◌≢◌, [], IfOk, ◌++◌, ◌∷◌, OnOk, IfErr, IsTrue, IsFalse, option_to_list};
ghost use Rattle.std.specs.List.{AllByRecursion};
ghost use Rattle.mls_translang.specs.declared.event.Event.{Event as TheEvent};
ghost use Rattle.mls_script.specs.declared.fault.ScriptCause.TheVariants.{Memory};
ghost use Rattle.mls_translang.specs.Event.{EventFits};
ghost use Rattle.mls_script.specs.Script.{ReadsScript};
ghost use Rattle.mls_tokens.specs.Scanning.{tokens_at};
ghost use Rattle.mls_parser.specs.Noted.{GivesPlaced};
ghost use Rattle.mls_script.specs.Reading.{GivesLine, GivesScript, told_at, line_at, script_at};

use crate::command::told;
use crate::fault::{LineFault, ScriptCause, ScriptFault};
use mls_lattice::Policy;
use mls_parser::{PlacedFault, Reader};
use mls_scheme::Schemes;
use mls_tokens::Tokens;
use mls_translang::Event;
use std::alloc::Global;

/// A line, whether it has its LF, and what follows it.
fn split_line(bytes: &[u8]) -> (&[u8], bool, &[u8])
    ensures ended { IsTrue result.1 → bytes.now ≡ result.0.now ++ 10 ∷ result.2.now }
    ensures last { IsFalse result.1 → (bytes.now ≡ result.0.now) × (result.2.now ≡ []) }
    ensures one { AllByRecursion (λ b. b ≢ 10) result.0.now }
{
    match bytes.iter().position(|byte| *byte == b'\n') {
        Some(end) => (&bytes[..end], true, &bytes[end + 1..]),
        None => (bytes, false, &[]),
    }
}

/// What a line tells, and the reader behind it.
fn line_told(
    alloc: Global,
    policy: &Policy,
    schemes: &Schemes,
    line: &[u8],
) -> Result<(Option<Event>, Reader), PlacedFault>
    ensures { GivesPlaced (λ x. (x.0, x.1)) result (told_at policy.now schemes.now ([], tokens_at line.now)) }
{
    let mut reader = Reader::new(alloc, Tokens::new(alloc, line)?);
    let told = told(alloc, policy, schemes, &mut reader)?;
    Ok((told, reader))
}

/// What a line tells, or its first fault.
#[tactic(auto, unfolding(crate::specs::Reading::line_at))]
fn line_event(
    alloc: Global,
    policy: &Policy,
    schemes: &Schemes,
    line: &[u8],
    ended: bool,
) -> Result<Option<Event>, LineFault>
    ensures { GivesLine (λ e. e) result (line_at policy.now schemes.now line.now ended) }
{
    let (told, reader) = line_told(alloc, policy, schemes, line)?;
    if !ended {
        return Err(LineFault {
            at: line.len() + 1,
            cause: ScriptCause::Unterminated,
        });
    }
    match reader.least() {
        Some(fault) => Err(LineFault::from(fault)),
        None => Ok(told),
    }
}

fn keep(events: &mut Vec<Event>, told: Option<Event>) -> Result<(), LineFault>
    ensures kept { OnOk result (events.new.items ≡ events.old.items ++ option_to_list told) }
    ensures memory { IfErr result (λ e. e.cause ≡ Memory) }
{
    if let Some(event) = told {
        if events.push(event).is_err() {
            return Err(LineFault {
                at: 1,
                cause: ScriptCause::Memory,
            });
        }
    }
    Ok(())
}

/// The events of a script, in order, or its first fault.
#[tactic(auto, using(crate::proofs::ScriptSteps::script_steps))]
fn events_of(
    alloc: Global,
    policy: &Policy,
    schemes: &Schemes,
    bytes: &[u8],
) -> Result<Vec<Event>, ScriptFault>
    ensures { GivesScript (λ v. v.items) result (script_at policy.now schemes.now bytes.now) }
{
    let mut events = Vec::new(alloc);
    let mut rest = bytes;
    let mut number: usize = 0;
    while !rest.is_empty() {
        number += 1;
        let (line, ended, after) = split_line(rest);
        let told = match line_event(alloc, policy, schemes, line, ended) {
            Ok(told) => told,
            Err(fault) => return Err(fault.in_line(number)),
        };
        if let Err(fault) = keep(&mut events, told) {
            return Err(fault.in_line(number));
        }
        rest = after;
    }
    Ok(events)
}

/// The events of a script, in order. The first line that has a fault refuses the whole: on it 21 Token, 22
/// Expected, 26 Depth, 27 TooLong and 30 Unterminated come before 23 UnknownName, 24 Kind and 25 Repeated, of which
/// the least is answered, by place and then by number. 29 Memory may stand in place of any answer: at the token that
/// is copied, or else at column 0 or 1 of the line. A call has any name and any values, since a script is read
/// without the transactions.
pub fn script(
    alloc: Global,
    policy: &Policy,
    schemes: &Schemes,
    bytes: &[u8],
) -> Result<Vec<Event>, ScriptFault>
    // The events, or the first fault with its line, column and cause.
    ensures exact { GivesScript (λ v. v.items) result (script_at policy.now schemes.now bytes.now) }
    // What is read is what the text tells.
    ensures reads { IfOk result (λ v. ReadsScript policy.now schemes.now bytes.now v.items) }
    // Unless memory runs out, no text that tells events is refused.
    ensures refused { IfErr result (λ e. e.cause ≢ Memory → (es : List TheEvent)
        → ReadsScript policy.now schemes.now bytes.now es → ⊥) }
    // Each event keeps to the numbers and kinds of policy and schemes.
    ensures fits { IfOk result (λ v. AllByRecursion (EventFits policy.now schemes.now) v.items) }
{
    policy.use_invariant();
    schemes.use_invariant();
    events_of(alloc, policy, schemes, bytes)
}
