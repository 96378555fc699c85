//! The first line of a block: a word, the version, and the name of a transaction.
ghost use Rattle.std.specs.Prelude.{◌≡◌, bytes_eq};
ghost use Rattle.std.specs.List.{list_any};
ghost use Rattle.mls_lattice.specs.Reading.{Shows};
ghost use Rattle.mls_certcheck.specs.Reading.{fresh_in, proper_in, version_in, versioned_in, named_in, head_in};

use crate::cert::{Certificate, Version};
use crate::fault::{CertCause, CertFault};
use mls_lattice::{Str, digits_len, is_name};

fn contains(blocks: &[(Str, Certificate)], name: &str) -> bool
    ensures { result ≡ list_any (λ b. bytes_eq b.0 name.now) blocks.now }
{
    blocks.iter().any(|block| block.0.as_str() == name)
}

#[tactic(auto, unfolding(crate::specs::Reading::fresh_in))]
fn fresh_of<'a>(
    blocks: &[(Str, Certificate)],
    line: usize,
    name: &'a str,
) -> Result<&'a str, CertFault>
    ensures { Shows (λ s. s.now) result (fresh_in blocks.now line name.now) }
{
    if contains(blocks, name) {
        return Err(CertFault {
            line,
            cause: CertCause::Repeated,
        });
    }
    Ok(name)
}

#[tactic(auto, using(crate::proofs::NameLemmas::proper), unfolding(crate::specs::Reading::proper_in))]
fn proper_of(line: usize, name: &[u8]) -> Result<&str, CertFault>
    ensures { Shows (λ s. s.now) result (proper_in line name.now) }
{
    match std::str::from_utf8(name) {
        Ok(name) if is_name(name) => Ok(name),
        _ => Err(CertFault {
            line,
            cause: CertCause::Line,
        }),
    }
}

#[tactic(auto, unfolding(crate::specs::Reading::version_in))]
fn version_of(line: usize, text: &[u8]) -> Result<Version, CertFault>
    ensures { Shows (λ v. v) result (version_in line text.now) }
{
    if text == b"1".as_slice() {
        return Ok(Version::First);
    }
    if text == b"2".as_slice() {
        return Ok(Version::Second);
    }
    Err(CertFault {
        line,
        cause: CertCause::Version,
    })
}

#[tactic(auto, unfolding(crate::specs::Reading::versioned_in))]
fn versioned_of<'a>(
    blocks: &[(Str, Certificate)],
    line: usize,
    version: &[u8],
    name: &'a [u8],
) -> Result<(Version, &'a str), CertFault>
    ensures { Shows (λ h. (h.0, h.1.now)) result (versioned_in blocks.now line version.now name.now) }
{
    let name = proper_of(line, name)?;
    let version = version_of(line, version)?;
    let name = fresh_of(blocks, line, name)?;
    Ok((version, name))
}

#[tactic(auto, unfolding(crate::specs::Reading::named_in))]
fn named_of<'a>(
    blocks: &[(Str, Certificate)],
    line: usize,
    text: &'a [u8],
) -> Result<(Version, &'a str), CertFault>
    ensures { Shows (λ h. (h.0, h.1.now)) result (named_in blocks.now line text.now) }
{
    let bad = CertFault {
        line,
        cause: CertCause::Line,
    };
    let count = digits_len(text);
    if count == 0 {
        return Err(bad);
    }
    if count == text.len() {
        return Err(bad);
    }
    if text[count] != b' ' {
        return Err(bad);
    }
    versioned_of(blocks, line, &text[..count], &text[count + 1..])
}

/// The version and the name in a line; none of the blocks before has the name.
#[tactic(auto, unfolding(crate::specs::Reading::head_in))]
pub(crate) fn head_of<'a>(
    blocks: &[(Str, Certificate)],
    line: usize,
    text: &'a [u8],
) -> Result<(Version, &'a str), CertFault>
    ensures { Shows (λ h. (h.0, h.1.now)) result (head_in blocks.now line text.now) }
{
    match text.strip_prefix(b"certificate ") {
        Some(rest) => named_of(blocks, line, rest),
        None => Err(CertFault {
            line,
            cause: CertCause::Line,
        }),
    }
}
