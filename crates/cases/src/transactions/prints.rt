//! What transactions are printed as.
ghost use Rattle.std.specs.List.{AllByRecursion};
ghost use Rattle.mls_translang.specs.Fits.{IsReadUnder};

use crate::sample::Sample;
use case_tables::{Told, text_of};
use mls_translang::{Tx, print};
use std::alloc::Global;

/// Adds what transactions are printed as.
pub fn push_prints(alloc: Global, sample: &Sample<'_>, txs: &[Tx], out: &mut Told)
    requires { AllByRecursion (IsReadUnder sample.now.policy.now sample.now.schemes.now) txs.now }
{
    for tx in txs {
        match print(alloc, sample.policy, sample.schemes, tx) {
            Ok(text) => out.push(text_of(&text)),
            Err(_) => out.fail(),
        }
    }
}

/// Adds that transactions are read, and how many bytes they are printed in.
pub fn push_size(alloc: Global, sample: &Sample<'_>, txs: &[Tx], out: &mut Told)
    requires { AllByRecursion (IsReadUnder sample.now.policy.now sample.now.schemes.now) txs.now }
{
    let mut printed = Told::new(alloc);
    push_prints(alloc, sample, txs, &mut printed);
    match printed.finish() {
        Ok(text) => {
            out.push("read, printed in ");
            out.push_count(text.len());
            out.push(" bytes");
        }
        Err(_) => out.fail(),
    }
}
