//! A label: the rank in decimal, a colon, and the categories as eight hexadecimal digits.
ghost use Rattle.std.specs.Prelude.{◌≡◌, ◌<◌, length, true, IfOk};
ghost use Rattle.mls_lattice.specs.Reading.{Shows};
ghost use Rattle.mls_certcheck.specs.declared.fault.CertCause.TheVariants.{Label as BadLabel};
ghost use Rattle.mls_certcheck.specs.Reading.{are_digits, is_decimal, number_in, rank_in, digit_in, byte_in};
ghost use Rattle.mls_certcheck.specs.Reading.{bytes_in, cats_in, label_in};

use crate::fault::{CertCause, CertFault};
use mls_lattice::{Label, ascii_text};

fn are_digits(text: &[u8]) -> bool
    ensures { result ≡ are_digits text.now }
{
    text.iter().all(|byte| byte.is_ascii_digit())
}

#[tactic(auto, unfolding(crate::specs::Reading::is_decimal))]
fn is_decimal(text: &[u8]) -> bool
    ensures { result ≡ is_decimal text.now }
{
    if text.is_empty() {
        return false;
    }
    if !are_digits(text) {
        return false;
    }
    text.len() == 1 || text[0] != b'0'
}

fn bad_label(line: usize) -> CertFault
    ensures { result ≡ record { line = line; cause = BadLabel } }
{
    CertFault {
        line,
        cause: CertCause::Label,
    }
}

fn number_of(line: usize, text: &str) -> Result<u8, CertFault>
    requires { is_decimal text.now ≡ true }
    ensures { Shows (λ n. n) result (number_in line text.now) }
{
    match text.parse::<u8>() {
        Ok(number) => Ok(number),
        Err(_) => Err(bad_label(line)),
    }
}

#[tactic(auto, using(crate::proofs::CertificateLabelLemmas::decimal_ascii), unfolding(crate::specs::Reading::rank_in))]
fn rank_of(line: usize, text: &[u8]) -> Result<u8, CertFault>
    ensures { Shows (λ n. n) result (rank_in line text.now) }
{
    if !is_decimal(text) {
        return Err(bad_label(line));
    }
    number_of(line, ascii_text(text))
}

#[tactic(auto, unfolding(crate::specs::Reading::digit_in))]
fn digit_of(line: usize, byte: u8) -> Result<u8, CertFault>
    ensures reads { Shows (λ d. d) result (digit_in line byte) }
    ensures within { IfOk result (λ d. d < 16) }
{
    match byte {
        b'0'..=b'9' => Ok(byte - b'0'),
        b'a'..=b'f' => Ok(byte - b'a' + 10),
        _ => Err(bad_label(line)),
    }
}

#[tactic(auto, unfolding(crate::specs::Reading::byte_in))]
fn byte_of(line: usize, high: u8, low: u8) -> Result<u8, CertFault>
    ensures { Shows (λ b. b) result (byte_in line high low) }
{
    let high = digit_of(line, high)?;
    let low = digit_of(line, low)?;
    Ok(16 * high + low)
}

#[tactic(auto, unfolding(crate::specs::Reading::bytes_in))]
fn bytes_of(line: usize, text: &[u8]) -> Result<[u8; 4], CertFault>
    requires { length text.now ≡ 8 }
    ensures { Shows (λ bs. bs) result (bytes_in line text.now) }
{
    let a = byte_of(line, text[0], text[1])?;
    let b = byte_of(line, text[2], text[3])?;
    let c = byte_of(line, text[4], text[5])?;
    let d = byte_of(line, text[6], text[7])?;
    Ok([a, b, c, d])
}

#[tactic(auto, unfolding(crate::specs::Reading::cats_in))]
fn cats_of(line: usize, text: &[u8]) -> Result<u32, CertFault>
    ensures { Shows (λ n. n) result (cats_in line text.now) }
{
    if text.len() != 8 {
        return Err(bad_label(line));
    }
    let bytes = bytes_of(line, text)?;
    Ok(u32::from_be_bytes(bytes))
}

/// The label that a text in a line spells.
#[tactic(auto, unfolding(crate::specs::Reading::label_in))]
pub(crate) fn label_of(line: usize, text: &[u8]) -> Result<Label, CertFault>
    ensures { Shows (λ l. l) result (label_in line text.now) }
{
    if text.len() < 9 {
        return Err(bad_label(line));
    }
    let colon = text.len() - 9;
    if text[colon] != b':' {
        return Err(bad_label(line));
    }
    let rank = rank_of(line, &text[..colon])?;
    let cats = cats_of(line, &text[colon + 1..])?;
    Ok(Label { rank, cats })
}
