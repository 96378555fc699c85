//! The lines of a certificate whose variables have a label after each statement.
ghost use Rattle.std.specs.Prelude.{◌<◌, ◌≤◌, ◌+◌, ◌^◌, IfOk, map, length, []};
ghost use Rattle.mls_lattice.specs.Reading.{Gives};
ghost use Rattle.mls_certcheck.specs.Reading.{rows_at, cert2_at};

use crate::cert::Cert2;
use crate::fault::CertFault;
use crate::lines::labels_of;
use mls_lattice::{Failed, Items, Label};
use std::alloc::Global;

fn rows_of(
    alloc: Global,
    lines: &[&[u8]],
    place: usize,
    count: usize,
) -> Result<Vec<Items<Label>>, Failed<CertFault>>
    requires inside { place < length lines.now }
    requires short { length lines.now < 2 ^ 62 }
    ensures reads { Gives (λ v. v.items) result (rows_at [] count (map (λ x. x.now) lines.now) place) }
    ensures within { IfOk result (λ _. place + count < length lines.now) }
{
    let mut rows = Vec::new(alloc);
    let mut next = place;
    let mut left = count;
    while left > 0 {
        let row = labels_of(alloc, b"row", lines, next)?;
        rows.push(Items::from(row))?;
        next += 1;
        left -= 1;
    }
    Ok(rows)
}

/// The certificate at a place: a line of labels for the statements, and a row for each of them.
#[tactic(auto, unfolding(crate::specs::Reading::cert2_at))]
pub(crate) fn cert2_of(
    alloc: Global,
    lines: &[&[u8]],
    place: usize,
) -> Result<Cert2, Failed<CertFault>>
    requires inside { place ≤ length lines.now }
    requires short { length lines.now < 2 ^ 62 }
    ensures reads { Gives (λ c. c) result (cert2_at (map (λ x. x.now) lines.now) place) }
    ensures within { IfOk result (λ c. place + (1 + length c.pc_labels) < length lines.now) }
{
    let pcs = labels_of(alloc, b"pcs", lines, place)?;
    let rows = rows_of(alloc, lines, place + 1, pcs.len())?;
    Ok(Cert2 {
        rows: Items::from(rows),
        pc_labels: Items::from(pcs),
    })
}
