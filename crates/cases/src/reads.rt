//! Views over a base that fails where it reads what one label holds: a view reads only what labels hold that its own
//! dominates.
ghost use Rattle.std.specs.Prelude.{◌≡◌, ◌<◌, true, length, IfErr, IfSome};
ghost use Rattle.std.specs.List.{AllByRecursion};
ghost use Rattle.mls_lattice.specs.Labels.{below};
ghost use Rattle.mls_lattice.specs.Policy.{labels_of};
ghost use Rattle.mls_scheme.specs.Tuple.{HasClassesBelow};

use crate::tuples::{label_of, push_tuples, tuples_of};
use case_tables::Told;
use mls_filterview::{Base, BaseFault, Cell, Fragment, Node, add_cells, node_of, view};
use mls_lattice::{Items, LabelNo, Policy};
use mls_scheme::{Element, Place, RelNo, Tuple, Value, tuple_class};
use std::alloc::{AllocError, Global};

/// A tuple at its place.
#[derive(Drop)]
struct Row {
    place: Place,
    elements: Items<Element>,
}

/// Tuples at their places, in a store that fails at one label. It takes no change, and nothing is said of what it
/// holds.
#[derive(Drop)]
struct Broken {
    alloc: Global,
    rows: Vec<Row>,
    broken: LabelNo,
    failures: u64,
}

/// Adds the node of a row, and its cells.
fn push_row(
    alloc: Global,
    row: &Row,
    nodes: &mut Vec<Node>,
    cells: &mut Vec<Cell>,
) -> Result<(), AllocError> {
    nodes.push(node_of(alloc, &row.place, &row.elements)?)?;
    add_cells(cells, &row.place, &row.elements)
}

fn fragments_of(alloc: Global, rows: &[Row], labels: &[LabelNo]) -> Result<Fragment, AllocError> {
    let mut nodes = Vec::new(alloc);
    let mut cells = Vec::new(alloc);
    for row in rows {
        if labels.contains(&row.place.class) {
            push_row(alloc, row, &mut nodes, &mut cells)?;
        }
    }
    Ok(Fragment {
        nodes: Items::from(nodes),
        cells: Items::from(cells),
    })
}

impl Broken {
    ghost use Rattle.mls_filterview.specs.Calls.{IsRead, ReadsAmong};

    /// What these labels hold.
    fn held(&mut self, labels: &[LabelNo]) -> Result<Fragment, BaseFault>
        ensures read { IsRead ⟦<Broken as Base>⟧.seen self.old self.new result }
        ensures access { ReadsAmong ⟦<Broken as Base>⟧.seen labels.now self.old self.new }
    {
        if labels.contains(&self.broken) {
            self.failures = self.failures.checked_add(1).ok_or(BaseFault::Memory)?;
            return Err(BaseFault::Store);
        }
        match fragments_of(self.alloc, &self.rows, labels) {
            Ok(fragment) => Ok(fragment),
            Err(_) => Err(BaseFault::Memory),
        }
    }
}

impl Base for Broken {
    ghost use Rattle.std.specs.Prelude.{◌≡◌, ◌<◌, false, []};
    ghost use Rattle.mls_filterview.specs.Content.{no_content, nowhere};

    // Of what is read it notes its own label alone: a call that asks for that fails.
    ghost seen = { λ b. record {
      state = record { now = no_content; kept = no_content; begun = false };
      about = [];
      failures = b.failures;
      is_clean = ⊥;
      asked = λ m. (m ≡ b.broken) × (0 < b.failures);
      changed = nowhere;
    } };

    fn is_begun(&self) -> bool {
        false
    }

    fn begin(&mut self) -> Result<(), BaseFault> {
        Err(BaseFault::Memory)
    }

    fn commit(&mut self) -> Result<(), BaseFault> {
        Err(BaseFault::NotBegun)
    }

    fn rollback(&mut self) -> Result<(), BaseFault> {
        Err(BaseFault::NotBegun)
    }

    fn fragment(&mut self, _rel: RelNo, label: LabelNo) -> Result<Fragment, BaseFault> {
        self.held(&[label])
    }

    fn fragments(&mut self, _rel: RelNo, labels: &[LabelNo]) -> Result<Fragment, BaseFault> {
        self.held(labels)
    }

    fn entity(&mut self, _rel: RelNo, _place: &Place) -> Result<Fragment, BaseFault> {
        Err(BaseFault::Memory)
    }

    fn pattern(
        &mut self,
        _rel: RelNo,
        _place: &Place,
    ) -> Result<Option<Items<LabelNo>>, BaseFault> {
        Err(BaseFault::Memory)
    }

    fn add(&mut self, _rel: RelNo, _node: Node, _cells: &[Cell]) -> Result<(), BaseFault> {
        Err(BaseFault::NotBegun)
    }

    fn set(
        &mut self,
        _rel: RelNo,
        _place: &Place,
        _attr: usize,
        _value: Option<Value>,
    ) -> Result<(), BaseFault> {
        Err(BaseFault::NotBegun)
    }

    fn drop_at(&mut self, _rel: RelNo, _place: &Place) -> Result<(), BaseFault> {
        Err(BaseFault::NotBegun)
    }

    fn audit_add(&mut self, _bytes: &[u8]) -> Result<(), BaseFault> {
        Err(BaseFault::NotBegun)
    }

    fn audit_clear(&mut self) -> Result<(), BaseFault> {
        Err(BaseFault::NotBegun)
    }

    fn audit_all(&mut self) -> Result<Items<Items<u8>>, BaseFault> {
        Ok(Items::from(Vec::new(self.alloc)))
    }

    ghost settled = { λ _ clean _. absurd clean };
}

/// The declared label of a tuple's class, or the key class where there is none.
fn class_of(policy: &Policy, tuple: &Tuple) -> LabelNo
    requires { HasClassesBelow (length policy.now.labels) tuple.now }
{
    let class = tuple_class(policy, tuple);
    for number in 0..policy.label_count().min(64) {
        let label = LabelNo::new(number as u8);
        if policy.value(label).same(class) {
            return label;
        }
    }
    tuple.key_class
}

/// A tuple at the place of its class.
fn row_of(policy: &Policy, tuple: Tuple) -> Row
    requires { HasClassesBelow (length policy.now.labels) tuple }
{
    let class = class_of(policy, &tuple);
    Row {
        place: Place {
            key: tuple.key,
            key_class: tuple.key_class,
            class,
        },
        elements: tuple.elements,
    }
}

fn rows_of(alloc: Global, policy: &Policy, tuples: Vec<Tuple>) -> Result<Vec<Row>, AllocError>
    requires { AllByRecursion (HasClassesBelow (length policy.now.labels)) tuples.items }
{
    let mut rows = Vec::new(alloc);
    for tuple in tuples {
        rows.push(row_of(policy, tuple))?;
    }
    Ok(rows)
}

/// A base with the tuples of lines, which fails at a label.
fn base_of(alloc: Global, policy: &Policy, broken: LabelNo, lines: &[&str]) -> Option<Broken>
    ensures { IfSome result (λ b. b.failures ≡ 0) }
{
    let tuples = tuples_of(alloc, policy, lines)?;
    let rows = rows_of(alloc, policy, tuples).ok()?;
    Some(Broken {
        alloc,
        rows,
        broken,
        failures: 0,
    })
}

/// What a level sees of a base that fails at a label. It fails only where the level dominates that label, which follows
/// from what a view promises over any base.
fn view_over(
    alloc: Global,
    policy: &Policy,
    level: LabelNo,
    base: &mut Broken,
) -> Result<Vec<Tuple>, BaseFault>
    requires level { level < length policy.now.labels }
    requires fresh { base.old.failures ≡ 0 }
    ensures { IfErr result (λ fault. fault ≡ BaseFault.Store
        → below (labels_of policy.now) base.new.broken level ≡ true) }
{
    view(alloc, base, policy, RelNo::new(0), level)
}

/// Adds what a level sees of a base that fails at a label.
fn push_view(alloc: Global, policy: &Policy, level: LabelNo, base: Broken, out: &mut Told)
    requires level { level < length policy.now.labels }
    requires fresh { base.failures ≡ 0 }
{
    let mut base = base;
    match view_over(alloc, policy, level, &mut base) {
        Ok(tuples) => push_tuples(policy, &tuples, out),
        Err(BaseFault::Store) => out.push("  Store\n"),
        Err(_) => out.fail(),
    }
}

fn push_lines(
    alloc: Global,
    policy: &Policy,
    level: LabelNo,
    broken: LabelNo,
    lines: &[&str],
    out: &mut Told,
)
    requires { level < length policy.now.labels }
{
    match base_of(alloc, policy, broken, lines) {
        Some(base) => push_view(alloc, policy, level, base, out),
        None => out.push("  no tuples\n"),
    }
}

/// Adds views: a case is `LABEL BROKEN`, and the tuples of the base below.
pub fn push(
    alloc: Global,
    policy: &Policy,
    level: &str,
    broken: &str,
    body: &[&str],
    out: &mut Told,
) {
    match (label_of(policy, level), label_of(policy, broken)) {
        (Some(level), Some(broken)) => push_lines(alloc, policy, level, broken, body, out),
        _ => out.push("  no labels\n"),
    }
}
