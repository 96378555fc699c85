//! Labels that rise.
ghost use Rattle.std.specs.Prelude.{◌≡◌, ◌<◌, ◌∷◌, [], IfOk, drop, length, replicate, slice_index_or, slice_set};
ghost use Rattle.mls_certcheck.specs.Rules.{pc_labels, row_after};
ghost use Rattle.mls_labeller.specs.Rising.{rows_of, row_count, certificate, cell};

use mls_certcheck::{Cert, Cert2, Certificate, Slot, Version};
use mls_lattice::{Items, Label};
use std::alloc::{AllocError, Global};

/// Rows of labels, in the order of the numbers of what they are of. The first row is of the statements. The others are
/// of the variables:
/// one row in version 1, and one for each statement in version 2.
#[derive(Drop)]
pub(crate) struct Labels {
    pub rows: Vec<Vec<Label>>,
}

/// The same labels again.
fn copied(alloc: Global, labels: &[Label]) -> Result<Items<Label>, AllocError>
    ensures { IfOk result (λ l. l ≡ labels.now) }
{
    let mut copy = Vec::new(alloc);
    for label in labels {
        copy.push(*label)?;
    }
    Ok(Items::from(copy))
}

/// The row of the label of a slot, and its place there.
pub(crate) fn cell(version: Version, slot: Slot) -> (usize, usize)
    ensures { result ≡ cell version slot }
{
    match slot {
        Slot::Statement(number) => (0, number.saturating_sub(1)),
        Slot::Variable { after, place } => match version {
            Version::First => (1, place),
            Version::Second => (after, place),
        },
    }
}

impl Labels {
    /// One label, for so many variables and statements.
    pub(crate) fn all_of(
        alloc: Global,
        version: Version,
        label: Label,
        vars: usize,
        stmts: usize,
    ) -> Result<Labels, AllocError>
        ensures { IfOk result (λ l. rows_of l ≡ replicate stmts label ∷ replicate (row_count version stmts)
            (replicate vars label)) }
    {
        let count = match version {
            Version::First => 1,
            Version::Second => stmts,
        };
        let mut rows = Vec::new(alloc);
        rows.push(vec![in alloc; label; stmts]?)?;
        for _ in 0..count {
            rows.push(vec![in alloc; label; vars]?)?;
        }
        Ok(Labels { rows })
    }

    fn row(&self, place: usize) -> &[Label]
        ensures { result.now ≡ slice_index_or (rows_of self.now) place [] }
    {
        if place < self.rows.len() {
            &self.rows[place]
        } else {
            &[]
        }
    }

    /// The labels of the statements.
    #[tactic(auto, using(crate::proofs::RowLemmas::pc_row))]
    pub(crate) fn stmts(&self, version: Version) -> &[Label]
        ensures { result.now ≡ pc_labels (certificate version (rows_of self.now)) }
    {
        self.row(0)
    }

    /// The labels of the variables after a statement.
    #[tactic(auto, using(crate::proofs::RowLemmas::var_row))]
    pub(crate) fn after(&self, version: Version, after: usize) -> &[Label]
        ensures { result.now ≡ row_after (certificate version (rows_of self.now)) after }
    {
        match version {
            Version::First => self.row(1),
            Version::Second if after == 0 => &[],
            Version::Second => self.row(after),
        }
    }

    /// Puts another label at a place of a row.
    pub(crate) fn put(&mut self, row: usize, place: usize, label: Label)
        requires { place < length (slice_index_or (rows_of self.old) row []) }
        ensures { rows_of self.new ≡ slice_set (rows_of self.old) row
            (slice_set (slice_index_or (rows_of self.old) row []) place label) }
    {
        self.rows[row][place] = label;
    }

    /// All rows but the first.
    fn var_rows(&self, alloc: Global) -> Result<Items<Items<Label>>, AllocError>
        ensures { IfOk result (λ rows. rows ≡ drop 1 (rows_of self.now)) }
    {
        let mut rows = Vec::new(alloc);
        for place in 1..self.rows.len() {
            rows.push(copied(alloc, self.row(place))?)?;
        }
        Ok(Items::from(rows))
    }

    /// The labels as a certificate.
    pub(crate) fn into_cert(
        self,
        alloc: Global,
        version: Version,
    ) -> Result<Certificate, AllocError>
        ensures { IfOk result (λ c. c ≡ certificate version (rows_of self)) }
    {
        let pc_labels = copied(alloc, self.row(0))?;
        match version {
            Version::First => {
                let var_labels = copied(alloc, self.row(1))?;
                Ok(Certificate::One(Cert {
                    var_labels,
                    pc_labels,
                }))
            }
            Version::Second => {
                let rows = self.var_rows(alloc)?;
                Ok(Certificate::Two(Cert2 { rows, pc_labels }))
            }
        }
    }
}
