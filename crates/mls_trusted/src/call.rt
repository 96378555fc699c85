//! What a call is of, and under what it runs.
use mls_lattice::Policy;
use mls_scheme::{Schemes, Value};
use mls_translang::Tx;
use std::alloc::Global;

/// A transaction that is called, with its arguments, under a policy and schemes, and where memory comes from.
#[derive(Drop)]
pub(crate) struct Call<'a> {
    pub alloc: Global,
    pub policy: &'a Policy,
    pub schemes: &'a Schemes,
    pub tx: &'a Tx,
    pub args: &'a [Option<Value>],
}
