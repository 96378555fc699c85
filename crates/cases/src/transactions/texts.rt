//! Texts of transactions: whether they are read, or what is told of their transactions, or which fault stands where.
ghost use Rattle.std.specs.List.{AllByRecursion};
ghost use Rattle.mls_translang.specs.Fits.{IsReadUnder};

use super::labels::push_labels;
use super::prints::{push_prints, push_size};
use super::ranges::push_ranges;
use crate::sample::Sample;
use crate::show;
use crate::table::Subject;
use case_tables::Told;
use mls_parser::{TextFault, parse};
use mls_translang::Tx;
use std::alloc::Global;

/// Adds the number and the name of a fault, and where it stands.
fn push_fault(fault: TextFault, out: &mut Told) {
    show::push_fault(fault.cause.code(), fault.cause.word(), out);
    out.push(" at ");
    out.push_count(fault.line);
    out.push(":");
    out.push_count(fault.column);
}

fn push_txs(alloc: Global, sample: &Sample<'_>, subject: Subject, txs: &[Tx], out: &mut Told)
    requires { AllByRecursion (IsReadUnder sample.now.policy.now sample.now.schemes.now) txs.now }
{
    match subject {
        Subject::Prints => push_prints(alloc, sample, txs, out),
        Subject::Labels => push_labels(alloc, sample.policy, txs, false, out),
        Subject::Labels2 => push_labels(alloc, sample.policy, txs, true, out),
        Subject::Ranges => push_ranges(alloc, sample.policy, txs, out),
        Subject::TextLimits => push_size(alloc, sample, txs, out),
        _ => out.push("read"),
    }
}

/// Adds what is told of a text.
pub fn push_text(
    alloc: Global,
    sample: &Sample<'_>,
    subject: Subject,
    text: &[u8],
    out: &mut Told,
) {
    match parse(alloc, sample.policy, sample.schemes, text) {
        Ok(txs) => push_txs(alloc, sample, subject, &txs, out),
        Err(fault) => push_fault(fault, out),
    }
}
