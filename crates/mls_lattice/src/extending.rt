//! Which older policies a policy extends: those whose lines begin its own, kind by kind.
ghost use Rattle.std.specs.Prelude.{◌≡◌, ◌≢◌, ◌≤◌, ◌++◌, ℕ, List, length, map, codes, IfOk, MatchOption};
ghost use Rattle.std.specs.List.{AllByRecursion};
ghost use Rattle.mls_lattice.specs.Policy.{named, HasLevel};
ghost use Rattle.mls_lattice.specs.Canon.{label_line};
ghost use Rattle.mls_lattice.specs.Extending.{BeginWith};

use crate::canon::label_to;
use crate::tables::NamedLabel;
use crate::text::Str;
use std::alloc::{AllocError, Global};

/// What comes after a line that begins the text.
fn after_line<'a>(text: &'a [u8], line: &str) -> Option<&'a [u8]>
    ensures { MatchOption result ((more : List ℕ)
        → text.now ≢ line.now ++ more) (λ rest. text.now ≡ line.now ++ rest.now) }
{
    text.strip_prefix(line.as_bytes())
}

/// How many names there are whose lines, of this word and the name, begin the text; and what comes after them.
pub(crate) fn names_before<'a>(
    alloc: Global,
    word: &str,
    names: &[Str],
    text: &'a [u8],
) -> Result<(usize, &'a [u8]), AllocError>
    ensures { IfOk result (λ r. BeginWith (λ name. word.now ++ name ++ codes "\n") names.now text.now r.0 r.1.now) }
{
    let mut rest = text;
    for (place, name) in names.iter().enumerate() {
        let name = name.as_str();
        let line = format!(in alloc; "{word}{name}\n")?;
        match after_line(rest, &line) {
            Some(after) => rest = after,
            None => return Ok((place, rest)),
        }
    }
    Ok((names.len(), rest))
}

/// How many labels there are whose lines begin the text, and what comes after them.
pub(crate) fn labels_before<'a>(
    alloc: Global,
    levels: &[Str],
    categories: &[Str],
    labels: &[NamedLabel],
    text: &'a [u8],
) -> Result<(usize, &'a [u8]), AllocError>
    requires ranked { AllByRecursion (HasLevel (length levels.now)) (map named labels.now) }
    requires few { length categories.now ≤ 32 }
    ensures { IfOk result (λ r. BeginWith (λ l. label_line levels.now categories.now (named l)) labels.now text.now
        r.0 r.1.now) }
{
    let mut rest = text;
    for (place, label) in labels.iter().enumerate() {
        let mut line = String::new(alloc);
        label_to(&mut line, levels, categories, label)?;
        match after_line(rest, &line) {
            Some(after) => rest = after,
            None => return Ok((place, rest)),
        }
    }
    Ok((labels.len(), rest))
}
