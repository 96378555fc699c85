//! Certificates of the two versions.
ghost use Rattle.std.specs.Prelude.{◌≡◌, IfOk};

use mls_lattice::{Items, Label};
use std::alloc::AllocError;

/// The labels that a transaction is certified with. They need not be declared by any policy.
#[derive(Clone, Drop)]
pub struct Cert {
    /// One for each variable, in order of declaration.
    pub var_labels: Items<Label>,
    /// One for each statement, in the order of their numbers.
    pub pc_labels: Items<Label>,
}

/// The labels that a transaction is certified with, where a variable may have another label after each statement.
#[derive(Clone, Drop)]
pub struct Cert2 {
    /// For each statement, a row with the label of each variable after it.
    pub rows: Items<Items<Label>>,
    /// One for each statement, in the order of their numbers.
    pub pc_labels: Items<Label>,
}

/// Which of the two forms a certificate has.
#[derive(Clone, Copy)]
pub enum Version {
    /// Each variable has one label.
    First,
    /// A variable has a label after each statement.
    Second,
}

/// A certificate of either version.
#[derive(Clone, Drop)]
pub enum Certificate {
    One(Cert),
    Two(Cert2),
}

impl Certificate {
    /// The same certificate again.
    pub fn copy(&self) -> Result<Certificate, AllocError>
        ensures { IfOk result (λ c. c ≡ self.now) }
    {
        self.clone()
    }
}
