//! Which row stops the opening of a store.
ghost use Rattle.std.specs.Prelude.{◌≡◌, IfOk, IfSome, IsErrAnd, OnOk};
ghost use Rattle.sqlite.specs.Held.{state};
ghost use Rattle.sqlite.specs.State.{HasCleanDisk};
ghost use Rattle.mls_tables.specs.Adopting.{AreAll, IsDescribed};
ghost use Rattle.mls_tables.specs.Rows.{is_meta_row, tables_of};
ghost use Rattle.mls_tables.specs.Statements.{AreRows};
ghost use Rattle.mls_rows.specs.Finding.{IsMemory};
ghost use Rattle.mls_fragments.specs.Opening.{AreBad, IsBad, IsRefused, AreSorted, CondemnsRow};

use crate::design::Design;
use crate::migrating::{Lineage, find_widened, lineage_of};
use crate::open_fault::OpenFault;
use crate::opening::texts_of;
use mls_lattice::Failed;
use mls_rows::{BadRow, Found, RowFault, Where, find};
use mls_tables::{AllRows, MetaRow, read_store};
use sqlite::{Alter, Connection};
use std::alloc::{AllocError, Global};

/// Every row of a store, each table's in order.
fn sorted_rows<S: Alter>(conn: &mut Connection<S>, alloc: Global) -> Result<AllRows, OpenFault>
    requires described { HasCleanDisk (state S.Store conn.old)
        → AreRows is_meta_row ((state S.Store conn.old).now.trees 5) }
    ensures kept { IsRefused (state S.Store conn.old) (state S.Store conn.new) }
    ensures same { HasCleanDisk (state S.Store conn.new)
        → OnOk result ((state S.Store conn.new).now ≡ (state S.Store conn.old).now) }
    ensures all { HasCleanDisk (state S.Store conn.new)
        → IfOk result (AreAll (tables_of (state S.Store conn.old).now.trees)) }
    ensures sorted { IfOk result AreSorted }
{
    let mut rows = read_store(conn, alloc)?;
    rows.nodes.sort()?;
    rows.cells.sort()?;
    rows.entries.sort()?;
    Ok(rows)
}

/// The place where rows are judged, if they are found bad there.
fn stopped(found: &Result<Found, RowFault>, at: Where) -> Result<Option<Where>, AllocError>
    ensures { IfOk result (λ o. IfSome o (λ w. (w ≡ at) × IsErrAnd found.now (λ e. ¬ IsMemory e))) }
{
    match found {
        Ok(_) => Ok(None),
        Err(Failed::Fault(BadRow)) => Ok(Some(at)),
        Err(Failed::Memory) => Err(AllocError),
    }
}

/// Where the judging of a store's rows stops, if it does.
fn stop_of(
    alloc: Global,
    design: &Design<'_>,
    described: &MetaRow,
    rows: AllRows,
) -> Result<Option<Where>, AllocError>
    ensures bad { IfOk result (λ o. IfSome o
        (λ _. AreBad design.now.policy.now design.now.file.now described.now rows)) }
    ensures condemned { AreSorted rows
        → IfOk result (λ o. IfSome o (CondemnsRow design.now.policy.now design.now.file.now described.now rows)) }
{
    let mut at = Where::start();
    let texts = texts_of(alloc, design)?;
    let (policy, schemes) = (design.policy, &design.file.schemes);
    match lineage_of(alloc, design, &texts, described)? {
        Some(Lineage::Same) => {
            let found = find(alloc, policy, schemes, policy.label_count(), rows, &mut at);
            stopped(&found, at)
        }
        Some(Lineage::Older(older)) => {
            let widened = find_widened(alloc, design, &older, rows, &mut at);
            stopped(&widened, at)
        }
        None => Ok(None),
    }
}

/// Where the opening of a store stops that has this description, and every row, among which the place counts; none
/// where it
/// does not stop at rows. The store stays as it is. Where it stops, the rows are those of a store that is bad, and a
/// row
/// that is judged alone is bad itself.
pub fn bad_row<S: Alter>(
    conn: &mut Connection<S>,
    alloc: Global,
    design: &Design<'_>,
    described: &MetaRow,
) -> Result<Option<(Where, AllRows)>, OpenFault>
    requires described { HasCleanDisk (state S.Store conn.old)
        → AreRows is_meta_row ((state S.Store conn.old).now.trees 5) }
    ensures kept { IsRefused (state S.Store conn.old) (state S.Store conn.new) }
    ensures bad { HasCleanDisk (state S.Store conn.new) → IsDescribed described.now (state S.Store conn.old).now
        → IfOk result (λ o. IfSome o (λ it. AreAll (tables_of (state S.Store conn.old).now.trees) it.1
        × IsBad design.now.policy.now design.now.file.now (state S.Store conn.old).now)) }
    ensures condemned { HasCleanDisk (state S.Store conn.new) → IfOk result (λ o. IfSome o
        (λ it. AreSorted it.1 × CondemnsRow design.now.policy.now design.now.file.now described.now it.1 it.0)) }
{
    let rows = sorted_rows(conn, alloc)?;
    match stop_of(alloc, design, described, rows)? {
        Some(at) => Ok(Some((at, sorted_rows(conn, alloc)?))),
        None => Ok(None),
    }
}
