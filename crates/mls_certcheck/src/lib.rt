//! Certificates as texts, their rules, the checker that says whether these hold, and the laws of them.
#![tactic(auto)]

ghost use Rattle.mls_certcheck.specs.Reading.{FilesAreReadAgain};
ghost use Rattle.mls_certcheck.specs.Spelling.{AreUnambiguous, FilesAreUnambiguous};

mod cert;
mod certified;
mod checker;
mod checking;
mod fault;
mod flow;
mod head;
mod holding;
mod keeping;
mod label;
mod labels_after;
mod laws;
mod lent;
mod line;
mod lines;
mod loops;
mod meaning;
mod own;
mod reading;
mod refusal;
mod run;
mod stored;
mod visit;
mod walking;
mod writing;

pub use cert::{Cert, Cert2, Certificate, Version};
pub use certified::Certified;
pub use checker::{nth_label, parameter_no};
pub use checking::check;
pub use fault::{CertCause, CertFault};
pub use flow::{Flow, Line, Slot, Source};
pub use keeping::is_target;
pub use laws::{flat_certificates_lift, rules_make_secure, rules_make_sharp};
pub use lent::{Here, LentFlow, More, Numbered, Targets};
pub use loops::Loops;
pub use meaning::{
    calls_give_items, calls_keep_content, calls_keep_form, calls_keep_form_throughout,
};
pub use reading::certs_read;
pub use refusal::{Refusal, Rule};
pub use run::Run;
pub use stored::Stored;
pub use visit::Visit;
pub use walking::walk;
pub use writing::block_print;

/// No two certificates have one text.
pub fn certificates_are_unambiguous()
    ensures { AreUnambiguous }
{}

/// No two files have one text.
pub fn files_are_unambiguous()
    ensures { FilesAreUnambiguous }
{}

/// The texts of certificates of different names, one after another, are read as these certificates.
pub fn files_are_read_again()
    ensures { FilesAreReadAgain }
{}
