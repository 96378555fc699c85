//! Policies and schemes: their faults, and their canonical texts.
use crate::show::push_fault;
use case_tables::{Told, text_of};
use mls_lattice::Policy;
use mls_scheme::SchemesFile;
use std::alloc::{AllocError, Global};

/// What is told of a document that is read: that it is, or its canonical text.
#[derive(Clone, Copy)]
pub enum Form {
    Verdict,
    Canon,
}

fn push_canon(canon: Result<Vec<u8>, AllocError>, out: &mut Told) {
    match canon {
        Ok(bytes) => out.push(text_of(&bytes)),
        Err(_) => out.fail(),
    }
}

/// Adds that a policy is read, or its canonical text, a line, and its part that tells labels.
fn push_read(alloc: Global, policy: &Policy, form: Form, out: &mut Told) {
    match form {
        Form::Verdict => out.push("read"),
        Form::Canon => {
            push_canon(policy.canon(alloc), out);
            out.push("lattice\n");
            push_canon(policy.lattice_text(alloc), out);
        }
    }
}

/// Adds what is told of a policy.
pub fn push_policy(alloc: Global, bytes: &[u8], form: Form, out: &mut Told) {
    match Policy::read(alloc, bytes) {
        Ok(policy) => push_read(alloc, &policy, form, out),
        Err(fault) => push_fault(fault.code(), fault.word(), out),
    }
}

/// Adds what is told of schemes under a policy: that they are read, or their canonical text.
pub fn push_schemes(alloc: Global, policy: &Policy, bytes: &[u8], form: Form, out: &mut Told) {
    match SchemesFile::read(alloc, policy, bytes) {
        Ok(file) => match form {
            Form::Verdict => out.push("read"),
            Form::Canon => push_canon(file.canon(alloc, policy), out),
        },
        Err(fault) => push_fault(fault.code(), fault.word(), out),
    }
}
