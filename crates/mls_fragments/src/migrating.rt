//! Stores of older policies and schemes, whose content is widened. That is a transaction of its own, before the
//! base is made: a base has no state between two schemes.
ghost use Rattle.std.specs.Prelude.{◌≡◌, ◌≤◌, ℕ, List, map, length, string_bytes, None, IfOk, IfErr, IfSome, IsSorted};
ghost use Rattle.sqlite.specs.Held.{state};
ghost use Rattle.mls_lattice.specs.Canon as lattice;
ghost use Rattle.mls_lattice.specs.Extending as older_lattice;
ghost use Rattle.mls_scheme.specs.Canon as scheme;
ghost use Rattle.mls_scheme.specs.Extending as older_schemes;
ghost use Rattle.mls_scheme.specs.Extending.{AllFirst, AtMost};
ghost use Rattle.mls_filterview.specs.Content.{Content};
ghost use Rattle.mls_tables.specs.Adopting.{AreAll};
ghost use Rattle.mls_tables.specs.Rows.{Tables};
ghost use Rattle.mls_rows.specs.Finding.{IsMemory};
ghost use Rattle.mls_rows.specs.Condemning.{entry_cmp, Condemns};
ghost use Rattle.mls_rows.specs.Holding.{Holds};
ghost use Rattle.mls_fragments.specs.Migrating.{IsLineage, IsOther, IsBefore, wide_tables, IsSoundBefore, HasWidened};

use crate::design::Design;
use mls_filterview::{TupleMap, widened};
use mls_lattice::Version;
use mls_rows::{Found, RowFault, Where, find};
use mls_scheme::{RelNo, Schemes};
use mls_tables::{AllRows, MetaRow};
use std::alloc::{AllocError, Global};

/// What a store of an older policy or older schemes has.
#[derive(Drop)]
pub(crate) struct Older {
    /// How many of the policy's labels it knows: the first ones.
    pub labels: usize,
    /// How many attributes outside the key each of its relations has: the first ones of the first relations.
    pub counts: Vec<usize>,
}

/// How a store stands to a policy and schemes.
#[derive(Drop)]
pub(crate) enum Lineage {
    /// It is of them.
    Same,
    /// It is of older ones, which they extend.
    Older(Older),
}

/// What a store of these texts has, if policy and schemes extend them.
fn older_of(
    alloc: Global,
    design: &Design<'_>,
    found: &MetaRow,
) -> Result<Option<Older>, AllocError>
    ensures found { IfOk result (λ o. IfSome o (λ older.
        older_lattice.Extends design.now.policy.now found.now.lattice older.labels
        × older_schemes.Extends design.now.policy.now design.now.file.now.schemes found.now.schemes
        older.counts.items)) }
    ensures none { IfOk result (λ o. o ≡ None → (labels : ℕ) (counts : List ℕ)
        → older_lattice.Extends design.now.policy.now found.now.lattice labels
        → older_schemes.Extends design.now.policy.now design.now.file.now.schemes found.now.schemes counts → ⊥) }
{
    let (policy, schemes) = (design.policy, &design.file.schemes);
    let Some(labels) = policy.labels_before(alloc, found.lattice.as_str().as_bytes())? else {
        return Ok(None);
    };
    let Some(counts) = schemes.extends(alloc, policy, found.schemes.as_str().as_bytes())? else {
        return Ok(None);
    };
    Ok(Some(Older { labels, counts }))
}

/// How a store stands to a policy and schemes with these texts, if it is not of others. The texts decide that,
/// and not the version that the store tells: the first line of schemes has their version, so the same schemes
/// in version 2 are another text, and the lines of a policy that a store keeps have none.
pub(crate) fn lineage_of(
    alloc: Global,
    design: &Design<'_>,
    texts: &(String, String),
    found: &MetaRow,
) -> Result<Option<Lineage>, AllocError>
    requires lattice { string_bytes texts.now.0 ≡ lattice.lattice_of design.now.policy.now }
    requires schemes { string_bytes texts.now.1
        ≡ scheme.canon_of design.now.policy.now design.now.file.now.version design.now.file.now.schemes }
    ensures found { IfOk result (λ o. IfSome o (IsLineage design.now.policy.now design.now.file.now found.now)) }
    ensures none { IfOk result (λ o. o ≡ None → IsOther design.now.policy.now design.now.file.now found.now) }
{
    let is_same_lattice = found.lattice.as_str() == texts.0.as_str();
    let are_same_schemes = found.schemes.as_str() == texts.1.as_str();
    if is_same_lattice && are_same_schemes {
        return Ok(Some(Lineage::Same));
    }
    if !is_same_lattice && design.policy.version() != Version::Two {
        return Ok(None);
    }
    if !are_same_schemes && design.file.version != Version::Two {
        return Ok(None);
    }
    match older_of(alloc, design, found)? {
        Some(older) => Ok(Some(Lineage::Older(older))),
        None => Ok(None),
    }
}

/// The tables of the first relations, each widened by the attributes that its scheme has behind the first so many.
fn widened_tables(
    alloc: Global,
    schemes: &Schemes,
    counts: &[usize],
    tables: Vec<TupleMap>,
) -> Result<Vec<TupleMap>, AllocError>
    requires counts { AllFirst AtMost counts.now schemes.now }
    requires count { length tables.items ≡ length counts.now }
    requires few { length tables.items ≤ 256 }
    ensures { IfOk result (λ wide. map (λ t. t.entries) wide.items
        ≡ wide_tables schemes.now counts.now 0 (map (λ t. t.entries) tables.items)) }
{
    let mut wide = Vec::new(alloc);
    let mut relation = 0;
    for table in tables {
        let scheme = schemes.scheme(RelNo::new(relation as u8));
        wide.push(widened(alloc, table, scheme.others().len() - counts[relation])?)?;
        relation += 1;
    }
    Ok(wide)
}

/// What the rows of an older store hold, with its relations widened. The older relations are the first of the new
/// ones with fewer attributes, and the older labels the first ones, so its rows are found as those of any other
/// store, and then widened. Relations behind those of the store are empty.
pub(crate) fn find_widened(
    alloc: Global,
    design: &Design<'_>,
    older: &Older,
    rows: AllRows,
    at: &mut Where,
) -> Result<Found, RowFault>
    requires before { IsBefore design.now.policy.now design.now.file.now.schemes older.now.labels
        older.now.counts.items }
    ensures widened { IfOk result (HasWidened design.now.policy.now design.now.file.now.schemes older.now.labels
        older.now.counts.items rows) }
    ensures only { (t : Tables) → AreAll t rows → (c : Content) → Holds t c
        → IsSoundBefore design.now.policy.now design.now.file.now.schemes older.now.labels older.now.counts.items c
        → IfErr result IsMemory }
    ensures condemned { IsSorted entry_cmp rows.entries.items → IfErr result (λ e. ¬ IsMemory e
        → Condemns older.now.labels rows.nodes.items rows.cells.items rows.entries.items at.new) }
{
    let schemes = &design.file.schemes;
    let before = schemes.before(alloc, &older.counts)?;
    let Found {
        tables,
        entries,
        last,
    } = find(alloc, design.policy, &before, older.labels, rows, at)?;
    Ok(Found {
        tables: widened_tables(alloc, schemes, &older.counts, tables)?,
        entries,
        last,
    })
}
