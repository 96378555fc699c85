//! All rows of a store, judged part by part: what is put together of one part is gone before the next.
ghost use Rattle.std.specs.Prelude.{◌≡◌, [], pos, length, IfOk, IfErr, OnOk, IsPermutation};
ghost use Rattle.std.specs.List.{AllByRecursion};
ghost use Rattle.mls_audit.specs.Spelling.{IsEntryOf};
ghost use Rattle.mls_filterview.specs.Content.{Content};
ghost use Rattle.mls_tables.specs.Adopting.{AreAll};
ghost use Rattle.mls_tables.specs.Rows.{Tables};
ghost use Rattle.mls_rows.specs.Changes.{content_of};
ghost use Rattle.mls_rows.specs.Finding.{HasByteClasses, IsMemory, IsSoundWithin};
ghost use Rattle.mls_rows.specs.Holding.{Holds};
ghost use Rattle.mls_fragments.specs.Parts.{Part, before, AreNodesInOrder, AreCellsInOrder, IsCut, IsTakenOff};
ghost use Rattle.mls_fragments.specs.Parts.{IsJudged, rows_in};

use crate::design::Design;
use crate::ghost_content::GhostContent;
use crate::noted::Noted;
use mls_lattice::{Failed, Items};
use mls_rows::{RowFault, Where, entries_of, find};
use mls_tables::{AllRows, CellRow, NodeRow};
use std::alloc::{AllocError, Global};

/// How many nodes a part has, beside those that its first entity has before them.
const PART: usize = 256;

/// Whether an entity comes before another, by relation and key.
fn is_before(rel: u32, ent: &[u8], other_rel: u32, other: &[u8]) -> bool
    ensures { result ≡ before other_rel other.now rel ent.now }
{
    rel.cmp(&other_rel).then(ent.cmp(other)).is_lt()
}

/// How many nodes come before an entity.
fn nodes_before(rows: &[NodeRow], rel: u32, ent: &[u8]) -> usize
    requires { AreNodesInOrder rows.now }
    ensures { IsCut (λ r. before rel ent.now r.rel r.ent) rows.now result }
{
    rows.partition_point(|row| is_before(row.rel, &row.ent, rel, ent))
}

/// How many cells come before an entity.
fn cells_before(rows: &[CellRow], rel: u32, ent: &[u8]) -> usize
    requires { AreCellsInOrder rows.now }
    ensures { IsCut (λ r. before rel ent.now r.rel r.ent) rows.now result }
{
    rows.partition_point(|row| is_before(row.rel, &row.ent, rel, ent))
}

/// How many nodes and how many cells come before the last part.
fn last_part(nodes: &[NodeRow], cells: &[CellRow]) -> (usize, usize)
    requires nodes { AreNodesInOrder nodes.now }
    requires cells { AreCellsInOrder cells.now }
    ensures { (q : Part) × IsCut (λ r. q r.rel r.ent) nodes.now result.0
        × IsCut (λ r. q r.rel r.ent) cells.now result.1 }
{
    match nodes.get(nodes.len().saturating_sub(PART)) {
        Some(first) => (
            nodes_before(nodes, first.rel, &first.ent),
            cells_before(cells, first.rel, &first.ent),
        ),
        None => (0, 0),
    }
}

/// Takes the last part off nodes and cells.
fn take_part(
    alloc: Global,
    nodes: &mut Vec<NodeRow>,
    cells: &mut Vec<CellRow>,
) -> Result<AllRows, AllocError>
    requires nodes { AreNodesInOrder nodes.old.items }
    requires cells { AreCellsInOrder cells.old.items }
    ensures taken { IfOk result (λ rows. (q : Part)
        × IsTakenOff q nodes.old.items nodes.new.items cells.old.items cells.new.items rows) }
    ensures nodes { OnOk result (AreNodesInOrder nodes.new.items) }
    ensures cells { OnOk result (AreCellsInOrder cells.new.items) }
{
    let (first_node, first_cell) = last_part(nodes, cells);
    Ok(AllRows {
        nodes: nodes.split_off(first_node)?,
        cells: cells.split_off(first_cell)?,
        entries: Vec::new(alloc),
    })
}

/// What nodes and cells in order hold, beside entries.
fn judge_rows(
    alloc: Global,
    design: &Design<'_>,
    labels: usize,
    mut nodes: Vec<NodeRow>,
    mut cells: Vec<CellRow>,
    entries: &[Items<u8>],
) -> Result<GhostContent, RowFault>
    requires order { AreNodesInOrder nodes.items × AreCellsInOrder cells.items }
    requires entries { AllByRecursion (IsEntryOf labels) entries.now }
    ensures judged { IfOk result (λ c. IsJudged design.now.policy.now design.now.file.now.schemes labels
        (rows_in nodes.items cells.items) entries.now (content_of c.changes)) }
    ensures only { (t : Tables) → IsPermutation t.nodes nodes.items → IsPermutation t.cells cells.items
        → (c : Content) → Holds t c → IsSoundWithin design.now.policy.now design.now.file.now.schemes labels c
        → IfErr result IsMemory }
{
    let (policy, schemes) = (design.policy, &design.file.schemes);
    let mut content = GhostContent::new();
    content.find(&[], entries);
    'parts: for _ in 0..nodes.len() / PART {
        let part = take_part(alloc, &mut nodes, &mut cells)?;
        let found = find(alloc, policy, schemes, labels, part, &mut Where::start())?;
        content.join(&found.tables);
    }
    let rest = AllRows {
        nodes,
        cells,
        entries: Vec::new(alloc),
    };
    let found = find(alloc, policy, schemes, labels, rest, &mut Where::start())?;
    content.join(&found.tables);
    Ok(content)
}

/// What rows hold, as `find` finds it. Nothing of it is kept but what clauses read, and the number of the last entry.
pub(crate) fn judge(
    alloc: Global,
    design: &Design<'_>,
    labels: usize,
    rows: AllRows,
) -> Result<Noted, RowFault>
    ensures held { IfOk result (λ n. ((t : Tables) → AreAll t rows → Holds t (content_of n.content.changes))
        × HasByteClasses (content_of n.content.changes)) }
    ensures sound { IfOk result (λ n. IsSoundWithin design.now.policy.now design.now.file.now.schemes labels
        (content_of n.content.changes)) }
    ensures last { IfOk result (λ n. n.last ≡ pos (length (content_of n.content.changes).audit)) }
    ensures only { (t : Tables) → AreAll t rows → (c : Content) → Holds t c
        → IsSoundWithin design.now.policy.now design.now.file.now.schemes labels c → IfErr result IsMemory }
{
    let AllRows {
        mut nodes,
        mut cells,
        entries,
    } = rows;
    design.policy.use_invariant();
    let entries = entries_of(alloc, labels, entries, &mut Where::start())?;
    let Ok(last) = i64::try_from(entries.len()) else {
        return Err(Failed::Memory);
    };
    nodes.sort()?;
    cells.sort()?;
    let content = judge_rows(alloc, design, labels, nodes, cells, &entries)?;
    Ok(Noted { content, last })
}
