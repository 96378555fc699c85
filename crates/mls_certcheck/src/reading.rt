//! Certificates, and files of them.
ghost use Rattle.std.specs.Prelude.{◌≡◌, ◌<◌, ◌≤◌, ◌+◌, IfOk, List, Ok, ◌^◌, map, length, []};
ghost use Rattle.mls_lattice.specs.Reading.{Gives};
ghost use Rattle.mls_certcheck.specs.declared.cert.Cert.{Cert as SpecCert};
ghost use Rattle.mls_certcheck.specs.declared.cert.Cert2.{Cert2 as SpecCert2};
ghost use Rattle.mls_certcheck.specs.Reading.{Block, GivesCert, cert_at, certificate_at, lines_of, block_at, blocks_at};
ghost use Rattle.mls_certcheck.specs.Reading.{lines_in, lines2_in, file_in, text_in, text2_in};
ghost use Rattle.mls_certcheck.specs.Spelling.{IsCert, IsCert2, IsFile, cert_text, cert2_text, file_text};

use crate::cert::{Cert, Cert2, Certificate, Version};
use crate::fault::CertFault;
use crate::head::head_of;
use crate::labels_after::cert2_of;
use crate::line::pieces_of;
use crate::lines::{ended_of, is_past_end, labels_of, text_of};
use mls_lattice::{Failed, Items, Str};
use std::alloc::Global;

#[tactic(auto, unfolding(crate::specs::Reading::cert_at))]
fn cert_of(alloc: Global, lines: &[&[u8]], place: usize) -> Result<Cert, Failed<CertFault>>
    requires inside { place ≤ length lines.now }
    requires short { length lines.now < 2 ^ 62 }
    ensures reads { Gives (λ c. c) result (cert_at (map (λ x. x.now) lines.now) place) }
    ensures within { IfOk result (λ _. place + 2 < length lines.now) }
{
    let vars = labels_of(alloc, b"vars", lines, place)?;
    let pcs = labels_of(alloc, b"pcs", lines, place + 1)?;
    Ok(Cert {
        var_labels: Items::from(vars),
        pc_labels: Items::from(pcs),
    })
}

#[tactic(auto, unfolding(crate::specs::Reading::certificate_at))]
fn certificate_of(
    alloc: Global,
    version: Version,
    lines: &[&[u8]],
    place: usize,
) -> Result<Certificate, Failed<CertFault>>
    requires inside { place ≤ length lines.now }
    requires short { length lines.now < 2 ^ 62 }
    ensures reads { Gives (λ c. c) result (certificate_at version (map (λ x. x.now) lines.now) place) }
    ensures within { IfOk result (λ c. place + lines_of c < length lines.now) }
{
    match version {
        Version::First => {
            let cert = cert_of(alloc, lines, place)?;
            Ok(Certificate::One(cert))
        }
        Version::Second => {
            let cert = cert2_of(alloc, lines, place)?;
            Ok(Certificate::Two(cert))
        }
    }
}

#[tactic(auto, unfolding(crate::specs::Reading::block_at))]
fn block_of(
    alloc: Global,
    blocks: &[(Str, Certificate)],
    lines: &[&[u8]],
    place: usize,
) -> Result<(Str, Certificate), Failed<CertFault>>
    requires inside { place ≤ length lines.now }
    requires short { length lines.now < 2 ^ 62 }
    ensures reads { Gives (λ b. b) result (block_at blocks.now (map (λ x. x.now) lines.now) place) }
    ensures within { IfOk result (λ b. place + 1 + lines_of b.1 < length lines.now) }
{
    let text = text_of(lines, place)?;
    let (version, name) = head_of(blocks, place + 1, text)?;
    let cert = certificate_of(alloc, version, lines, place + 1)?;
    Ok((Str::copy_of(alloc, name)?, cert))
}

fn lines_of(cert: &Certificate) -> usize
    requires { lines_of cert.now < 2 ^ 62 }
    ensures { result ≡ lines_of cert.now }
{
    match cert {
        Certificate::One(_) => 2,
        Certificate::Two(cert) => 1 + cert.pc_labels.len(),
    }
}

fn blocks_of(alloc: Global, lines: &[&[u8]]) -> Result<Vec<(Str, Certificate)>, Failed<CertFault>>
    requires { length lines.now < 2 ^ 62 }
    ensures { Gives (λ v. v.items) result (blocks_at (length lines.now) [] (map (λ x. x.now) lines.now) 0) }
{
    let mut blocks = Vec::new(alloc);
    let mut place = 0;
    while !is_past_end(lines, place) {
        let block = block_of(alloc, &blocks, lines, place)?;
        place += 1 + lines_of(&block.1);
        blocks.push(block)?;
    }
    Ok(blocks)
}

#[tactic(auto, unfolding(crate::specs::Reading::lines_in))]
fn whole_of(alloc: Global, lines: &[&[u8]]) -> Result<Cert, Failed<CertFault>>
    requires { length lines.now < 2 ^ 62 }
    ensures { Gives (λ c. c) result (lines_in (map (λ x. x.now) lines.now)) }
{
    let cert = cert_of(alloc, lines, 0)?;
    Ok(ended_of(lines, 2, cert)?)
}

#[tactic(auto, unfolding(crate::specs::Reading::lines2_in))]
fn cert2_of_lines(alloc: Global, lines: &[&[u8]]) -> Result<Cert2, Failed<CertFault>>
    requires { length lines.now < 2 ^ 62 }
    ensures { Gives (λ c. c) result (lines2_in (map (λ x. x.now) lines.now)) }
{
    let cert = cert2_of(alloc, lines, 0)?;
    let count = cert.pc_labels.len();
    Ok(ended_of(lines, 1 + count, cert)?)
}

fn cert_of_text(alloc: Global, bytes: &[u8]) -> Result<Cert, Failed<CertFault>>
    ensures { Gives (λ c. c) result (text_in bytes.now) }
{
    let lines = pieces_of(alloc, bytes, b'\n')?;
    whole_of(alloc, &lines)
}

fn cert2_of_text(alloc: Global, bytes: &[u8]) -> Result<Cert2, Failed<CertFault>>
    ensures { Gives (λ c. c) result (text2_in bytes.now) }
{
    let lines = pieces_of(alloc, bytes, b'\n')?;
    cert2_of_lines(alloc, &lines)
}

impl Cert {
    /// Reads the bytes of one certificate: a line of labels for the variables, and one for the statements.
    pub fn read(alloc: Global, bytes: &[u8]) -> Result<Cert, CertFault>
        // What is read is a certificate, and the bytes are its text.
        ensures found { IfOk result (λ c. IsCert c × (bytes.now ≡ cert_text c)) }
        // The text of a certificate is read, unless memory runs out.
        ensures only { (c : SpecCert) → IsCert c → bytes.now ≡ cert_text c → GivesCert (λ x. x) result (Ok c) }
        // The first fault, or what is read.
        ensures exact { GivesCert (λ c. c) result (text_in bytes.now) }
    {
        Ok(cert_of_text(alloc, bytes)?)
    }
}

impl Cert2 {
    /// Reads the bytes of one certificate: a line of labels for the statements, and a row for each of them.
    pub fn read(alloc: Global, bytes: &[u8]) -> Result<Cert2, CertFault>
        // What is read is a certificate, and the bytes are its text.
        ensures found { IfOk result (λ c. IsCert2 c × (bytes.now ≡ cert2_text c)) }
        // The text of a certificate is read, unless memory runs out.
        ensures only { (c : SpecCert2) → IsCert2 c → bytes.now ≡ cert2_text c → GivesCert (λ x. x) result (Ok c) }
        // The first fault, or what is read.
        ensures exact { GivesCert (λ c. c) result (text2_in bytes.now) }
    {
        Ok(cert2_of_text(alloc, bytes)?)
    }
}

fn file_of(alloc: Global, bytes: &[u8]) -> Result<Vec<(Str, Certificate)>, Failed<CertFault>>
    ensures { Gives (λ v. v.items) result (file_in bytes.now) }
{
    let lines = pieces_of(alloc, bytes, b'\n')?;
    blocks_of(alloc, &lines)
}

/// Reads a file of certificates of either version, each with the name of its transaction. A line `row` has any
/// number of labels: that there are as many as variables is a rule, since a text knows no transaction.
pub fn certs_read(alloc: Global, bytes: &[u8]) -> Result<Vec<(Str, Certificate)>, CertFault>
    // What is read has names that differ, and the bytes are its text.
    ensures found { IfOk result (λ v. IsFile v.items × (bytes.now ≡ file_text v.items)) }
    // The text of certificates with names that differ is read, unless memory runs out.
    ensures only { (blocks : List Block) → IsFile blocks → bytes.now ≡ file_text blocks
        → GivesCert (λ v. v.items) result (Ok blocks) }
    // The first fault, or what is read.
    ensures exact { GivesCert (λ v. v.items) result (file_in bytes.now) }
{
    Ok(file_of(alloc, bytes)?)
}
