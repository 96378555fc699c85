//! The lines of a text, each by its place.
ghost use Rattle.std.specs.Prelude.{◌≡◌, ◌<◌, ◌≤◌, ◌+◌, ◌^◌, IfOk, map, drop, length, true};
ghost use Rattle.mls_lattice.specs.Reading.{Gives, Shows};
ghost use Rattle.mls_certcheck.specs.declared.fault.CertCause.TheVariants.{Line};
ghost use Rattle.mls_certcheck.specs.Reading.{whole_in, text_at, line_at, is_past_end, ended_at};

use crate::fault::{CertCause, CertFault};
use crate::line::line_of;
use mls_lattice::{Failed, Label};
use std::alloc::Global;

fn missing(line: usize) -> CertFault
    ensures { result ≡ record { line = line; cause = Line } }
{
    CertFault {
        line,
        cause: CertCause::Line,
    }
}

#[tactic(auto, unfolding(crate::specs::Reading::whole_in))]
fn whole_of<'a>(line: usize, lines: &[&'a [u8]]) -> Result<&'a [u8], CertFault>
    ensures reads { Shows (λ x. x.now) result (whole_in line (map (λ x. x.now) lines.now)) }
    ensures more { IfOk result (λ _. 1 < length lines.now) }
{
    match lines {
        [text, _, ..] => Ok(text),
        _ => Err(missing(line)),
    }
}

/// The line at a place, which has its end.
pub(crate) fn text_of<'a>(lines: &[&'a [u8]], place: usize) -> Result<&'a [u8], CertFault>
    requires inside { place ≤ length lines.now }
    requires short { length lines.now < 2 ^ 62 }
    ensures reads { Shows (λ x. x.now) result (text_at (map (λ x. x.now) lines.now) place) }
    ensures within { IfOk result (λ _. place + 1 < length lines.now) }
{
    whole_of(place + 1, &lines[place..])
}

/// The labels of the line at a place, which begins with a word and has its end.
#[tactic(auto, unfolding(crate::specs::Reading::line_at))]
pub(crate) fn labels_of(
    alloc: Global,
    word: &[u8],
    lines: &[&[u8]],
    place: usize,
) -> Result<Vec<Label>, Failed<CertFault>>
    requires inside { place ≤ length lines.now }
    requires short { length lines.now < 2 ^ 62 }
    ensures reads { Gives (λ v. v.items) result (line_at word.now (map (λ x. x.now) lines.now) place) }
    ensures within { IfOk result (λ _. place + 1 < length lines.now) }
{
    let text = text_of(lines, place)?;
    line_of(alloc, word, place + 1, text)
}

fn is_end(lines: &[&[u8]]) -> bool
    ensures { result ≡ is_past_end (map (λ x. x.now) lines.now) }
{
    match lines {
        [] => true,
        [text] => text.is_empty(),
        _ => false,
    }
}

/// Whether nothing is left at a place.
pub(crate) fn is_past_end(lines: &[&[u8]], place: usize) -> bool
    requires { place ≤ length lines.now }
    ensures { result ≡ is_past_end (drop place (map (λ x. x.now) lines.now)) }
{
    is_end(&lines[place..])
}

/// What was read, where nothing is left.
#[tactic(auto, unfolding(crate::specs::Reading::ended_at))]
pub(crate) fn ended_of<T: Drop>(lines: &[&[u8]], place: usize, value: T) -> Result<T, CertFault>
    requires inside { place ≤ length lines.now }
    requires short { length lines.now < 2 ^ 62 }
    ensures { Shows (λ x. x) result (ended_at (map (λ x. x.now) lines.now) place value) }
{
    if !is_past_end(lines, place) {
        return Err(missing(place + 1));
    }
    Ok(value)
}
