//! A line is words between spaces.
ghost use Rattle.std.specs.Prelude.{◌≡◌, ◌==◌, ◌<◌, IfOk, map, [], Ok};
ghost use Rattle.mls_lattice.specs.Reading.{Gives};
ghost use Rattle.mls_certcheck.specs.Reading.{pieces, labels_in, worded_in, line_in};

use crate::fault::{CertCause, CertFault};
use crate::label::label_of;
use mls_lattice::{Failed, Label};
use std::alloc::{AllocError, Global};

/// What stands between bytes of a value: one piece more than there are of these.
pub(crate) fn pieces_of(alloc: Global, bytes: &[u8], mark: u8) -> Result<Vec<&[u8]>, AllocError>
    ensures { IfOk result (λ v. map (λ x. x.now) v.items ≡ pieces mark bytes.now) }
{
    bytes.split(|byte| *byte == mark).collect(alloc)
}

fn labels_of(alloc: Global, line: usize, words: &[&[u8]]) -> Result<Vec<Label>, Failed<CertFault>>
    ensures { Gives (λ v. v.items) result (labels_in line [] (map (λ x. x.now) words.now)) }
{
    let mut labels = Vec::new(alloc);
    for word in words {
        labels.push(label_of(line, word)?)?;
    }
    Ok(labels)
}

#[tactic(auto, unfolding(crate::specs::Reading::worded_in))]
fn worded_of(
    alloc: Global,
    word: &[u8],
    line: usize,
    words: &[&[u8]],
) -> Result<Vec<Label>, Failed<CertFault>>
    ensures { Gives (λ v. v.items) result (worded_in word.now line (map (λ x. x.now) words.now)) }
{
    match words {
        [first, words @ ..] if *first == word => labels_of(alloc, line, words),
        _ => Err(Failed::Fault(CertFault {
            line,
            cause: CertCause::Line,
        })),
    }
}

/// The labels of a line that begins with a word.
pub(crate) fn line_of(
    alloc: Global,
    word: &[u8],
    line: usize,
    text: &[u8],
) -> Result<Vec<Label>, Failed<CertFault>>
    ensures { Gives (λ v. v.items) result (line_in word.now line text.now) }
{
    let words = pieces_of(alloc, text, b' ')?;
    worded_of(alloc, word, line, &words)
}
