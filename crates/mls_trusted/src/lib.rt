//! Certified transactions, run over a base.
#![tactic(auto)]

mod block;
mod call;
mod environment;
mod evaluation;
mod fitting;
mod frame;
mod operand;
mod plain;
mod write;

pub use evaluation::{evaluate, evaluate_in};
pub use mls_certcheck::Run;
