//! Certificates, and files of them: what is read of a text, and what is printed for that.
use crate::show::{push_fault, push_word};
use case_tables::{Told, unfolded};
use mls_certcheck::{Cert, Cert2, CertCause, CertFault, Certificate, certs_read};
use mls_lattice::Str;
use std::alloc::{AllocError, Global};

/// The text of a certificate. One of version 2 has as many rows as statements.
pub fn print(alloc: Global, certificate: &Certificate) -> Result<String, AllocError> {
    match certificate {
        Certificate::One(cert) => cert.print(alloc),
        Certificate::Two(cert) if cert.rows.len() == cert.pc_labels.len() => cert.print(alloc),
        Certificate::Two(_) => Err(AllocError),
    }
}

/// Adds the text of a certificate, a bar for each end of a line.
fn push_certificate(alloc: Global, certificate: &Certificate, out: &mut Told) {
    out.push(" ");
    match print(alloc, certificate) {
        Ok(text) => {
            for line in text.lines() {
                out.push(line);
                out.push("|");
            }
        }
        Err(_) => out.fail(),
    }
}

fn push_fault_at(fault: CertFault, out: &mut Told) {
    out.push(" ");
    push_fault(fault.cause.code(), fault.cause.word(), out);
    out.push(" at ");
    out.push_count(fault.line);
}

/// The certificate that a text is.
fn certificate_in(alloc: Global, is_second: bool, bytes: &[u8]) -> Result<Certificate, CertFault> {
    if is_second {
        Ok(Certificate::Two(Cert2::read(alloc, bytes)?))
    } else {
        Ok(Certificate::One(Cert::read(alloc, bytes)?))
    }
}

/// The certificate that a folded text is, if it is one: of version 2 where it begins with `pcs`.
pub fn certificate_of(alloc: Global, text: &str) -> Option<Certificate> {
    let bytes = unfolded(alloc, text).ok()?;
    certificate_in(alloc, text.starts_with("pcs"), &bytes).ok()
}

fn push_blocks(alloc: Global, blocks: &[(Str, Certificate)], out: &mut Told) {
    for block in blocks {
        push_word(block.0.as_str(), out);
        push_certificate(alloc, &block.1, out);
    }
}

/// Adds how long the parts of a file are that are read, and the fault of each other, where another than Line.
fn push_prefixes(alloc: Global, bytes: &[u8], out: &mut Told) {
    for count in 0..bytes.len() {
        match certs_read(alloc, &bytes[..count]) {
            Ok(_) => {
                out.push(" ");
                out.push_count(count);
            }
            Err(fault) if fault.cause == CertCause::Line => {}
            Err(fault) => push_fault_at(fault, out),
        }
    }
}

/// Adds what is read of a text: a certificate, or several.
fn push_read(alloc: Global, kind: &str, bytes: &[u8], out: &mut Told) {
    if kind == "file" {
        return match certs_read(alloc, bytes) {
            Ok(blocks) => push_blocks(alloc, &blocks, out),
            Err(fault) => push_fault_at(fault, out),
        };
    }
    match certificate_in(alloc, kind == "cert2", bytes) {
        Ok(certificate) => push_certificate(alloc, &certificate, out),
        Err(fault) => push_fault_at(fault, out),
    }
}

/// Adds what texts are read as: a line is `cert`, `cert2`, `file` or `prefixes`, and the text.
pub fn push(alloc: Global, kind: &str, text: &str, out: &mut Told) {
    match unfolded(alloc, text) {
        Ok(bytes) if kind == "prefixes" => push_prefixes(alloc, &bytes, out),
        Ok(bytes) => push_read(alloc, kind, &bytes, out),
        Err(_) => out.fail(),
    }
}
