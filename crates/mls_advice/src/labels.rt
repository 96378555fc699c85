//! The labels of a policy for people: in rows, where these can show their order, and each with those that it covers.
ghost use Rattle.std.specs.Prelude.{IfOk, IfSome};
ghost use Rattle.mls_advice.specs.Labels.{AreSmaller};

use crate::columns::Told;
use crate::names::label_name;
use mls_lattice::{LabelNo, Policy};
use std::alloc::{AllocError, Global};

/// The columns of the widest drawing.
const WIDEST: usize = 80;

/// What stands before each row.
const MARGIN: &str = "   ";

/// What stands between two blocks of rows.
const GAP: &str = "   ";

/// Rows of a drawing, each of them with no more columns than these.
#[derive(Drop)]
struct Block {
    columns: usize,
    rows: Vec<String>,
}

/// Two parts of labels, of which the first is to stand over the second, or beside it.
#[derive(Drop)]
struct Parts {
    over: bool,
    first: Vec<LabelNo>,
    second: Vec<LabelNo>,
}

/// The labels of a policy, to be drawn.
#[derive(Clone, Copy)]
struct Labels<'a> {
    alloc: Global,
    policy: &'a Policy,
}

/// Whether a label is among some.
fn is_among(labels: &[LabelNo], label: LabelNo) -> bool {
    labels.iter().any(|other| other.byte() == label.byte())
}

impl<'a> Labels<'a> {
    // ---- the order

    /// Whether the one label dominates the other, and is another one.
    fn is_strictly_above(&self, high: LabelNo, low: LabelNo) -> bool {
        let count = self.policy.label_count();
        if high.index() >= count || low.index() >= count || high.byte() == low.byte() {
            return false;
        }
        self.policy.dominates(high, low)
    }

    /// Whether a declared label stands between two others.
    fn has_between(&self, high: LabelNo, low: LabelNo) -> bool {
        (0..self.policy.label_count()).any(|place| {
            let middle = LabelNo::new(place as u8);
            self.is_strictly_above(high, middle) && self.is_strictly_above(middle, low)
        })
    }

    /// How many other labels a label dominates.
    fn weight(&self, label: LabelNo) -> usize {
        (0..self.policy.label_count())
            .filter(|place| self.is_strictly_above(label, LabelNo::new(*place as u8)))
            .count()
    }

    /// Adds the labels that dominate so many others.
    fn rank_to(&self, ordered: &mut Vec<LabelNo>, weight: usize) -> Told {
        for place in 0..self.policy.label_count() {
            let label = LabelNo::new(place as u8);
            if self.weight(label) == weight {
                ordered.push(label)?;
            }
        }
        Ok(())
    }

    /// All labels, from the top down: none stands before one that dominates it.
    fn ordered(&self) -> Result<Vec<LabelNo>, AllocError> {
        let mut ordered = Vec::new(self.alloc);
        for weight in (0..self.policy.label_count()).rev() {
            self.rank_to(&mut ordered, weight)?;
        }
        Ok(ordered)
    }

    // ---- the list

    /// Appends a label, and those that it covers.
    fn cover_to(&self, text: &mut String, label: LabelNo) -> Told {
        let name = label_name(self.policy, label);
        let mut end = " nothing\n";
        write!(text, "  {name} covers")?;
        for place in 0..self.policy.label_count() {
            let low = LabelNo::new(place as u8);
            if self.is_strictly_above(label, low) && !self.has_between(label, low) {
                let name = label_name(self.policy, low);
                write!(text, " {name}")?;
                end = "\n";
            }
        }
        text.push_str(end)
    }

    fn covers_to(&self, text: &mut String, labels: &[LabelNo]) -> Told {
        text.push_str("labels, from the top down, each with those next below it:\n")?;
        for label in labels {
            self.cover_to(text, *label)?;
        }
        Ok(())
    }

    // ---- parts

    fn are_comparable(&self, one: LabelNo, other: LabelNo) -> bool {
        self.is_strictly_above(one, other) || self.is_strictly_above(other, one)
    }

    /// Adds those of some labels that are comparable to one, or that are not, as is asked.
    fn near_to(
        &self,
        found: &mut Vec<LabelNo>,
        labels: &[LabelNo],
        from: LabelNo,
        comparable: bool,
    ) -> Told {
        for label in labels {
            if self.are_comparable(from, *label) == comparable && !is_among(found, *label) {
                found.push(*label)?;
            }
        }
        Ok(())
    }

    /// Those of some labels to which one comes from the first by steps between comparable ones, or between others.
    fn reached(&self, labels: &[LabelNo], comparable: bool) -> Result<Vec<LabelNo>, AllocError> {
        let mut found = Vec::new(self.alloc);
        if let Some(first) = labels.first() {
            found.push(*first)?;
        }
        for place in 0..labels.len() {
            if let Some(label) = found.get(place) {
                let from = *label;
                self.near_to(&mut found, labels, from, comparable)?;
            }
        }
        Ok(found)
    }

    /// Those of some labels that are among others, or that are not, as is asked, in their order.
    fn kept(
        &self,
        labels: &[LabelNo],
        found: &[LabelNo],
        among: bool,
    ) -> Result<Vec<LabelNo>, AllocError> {
        let mut kept = Vec::new(self.alloc);
        for label in labels {
            if is_among(found, *label) == among {
                kept.push(*label)?;
            }
        }
        Ok(kept)
    }

    /// Labels in two parts, all of one of which are comparable to all of the other, or none, if they fall into such.
    fn parted(&self, labels: &[LabelNo], over: bool) -> Result<Option<Parts>, AllocError>
        ensures { IfOk result (λ o. IfSome o (λ p. AreSmaller p labels.now)) }
    {
        let found = self.reached(labels, !over)?;
        let first = self.kept(labels, &found, true)?;
        let second = self.kept(labels, &found, false)?;
        if first.len() >= labels.len() || second.len() >= labels.len() {
            return Ok(None);
        }
        Ok(Some(Parts {
            over,
            first,
            second,
        }))
    }

    /// Labels from the top down in two parts that stand side by side, or over each other, if they fall into such.
    fn parts_of(&self, labels: &[LabelNo]) -> Result<Option<Parts>, AllocError>
        ensures { IfOk result (λ o. IfSome o (λ p. AreSmaller p labels.now)) }
    {
        match self.parted(labels, false)? {
            Some(parts) => Ok(Some(parts)),
            None => self.parted(labels, true),
        }
    }

    // ---- rows

    /// Labels from the top down, in rows, so that under each, in its columns, stands nothing but what it dominates. Of
    /// two parts of
    /// them that are incomparable, one stands beside the other; of two, one of which dominates the other, over it.
    /// Where they fall into
    /// no such parts, no rows show their order.
    fn block_of(&self, labels: &[LabelNo]) -> Result<Option<Block>, AllocError> {
        if labels.len() < 2 {
            return Ok(Some(self.line_of(labels)?));
        }
        let Some(parts) = self.parts_of(labels)? else {
            return Ok(None);
        };
        let first = self.block_of(&parts.first)?;
        let second = self.block_of(&parts.second)?;
        match (first, second) {
            (Some(first), Some(second)) => { Ok(Some(self.joined(parts.over, &first, &second)?)) }
            _ => Ok(None),
        }
    }

    /// The names of labels in one row.
    fn line_of(&self, labels: &[LabelNo]) -> Result<Block, AllocError> {
        let mut row = String::new(self.alloc);
        for label in labels {
            row.push_str(label_name(self.policy, *label))?;
        }
        Ok(Block {
            columns: row.len(),
            rows: vec![in self.alloc; row]?,
        })
    }

    /// A block over another, or beside it.
    fn joined(&self, over: bool, first: &Block, second: &Block) -> Result<Block, AllocError> {
        if over {
            self.above(first, second)
        } else {
            self.beside(first, second)
        }
    }

    /// A block over another, in the middle of the wider one.
    fn above(&self, high: &Block, low: &Block) -> Result<Block, AllocError> {
        let columns = high.columns.max(low.columns);
        let mut rows = Vec::new(self.alloc);
        self.middle_to(&mut rows, high, columns)?;
        self.middle_to(&mut rows, low, columns)?;
        Ok(Block { columns, rows })
    }

    /// Adds the rows of a block, in the middle of so many columns.
    fn middle_to(&self, rows: &mut Vec<String>, block: &Block, columns: usize) -> Told {
        let indent = columns.saturating_sub(block.columns) / 2;
        for row in &block.rows {
            rows.push(format!(in self.alloc; "{:indent$}{row}", "")?)?;
        }
        Ok(())
    }

    /// A block left of another.
    fn beside(&self, left: &Block, right: &Block) -> Result<Block, AllocError> {
        let width = left.columns;
        let mut rows = Vec::new(self.alloc);
        for place in 0..left.rows.len().max(right.rows.len()) {
            let start = left.rows.get(place).map_or("", |row| row.as_str());
            rows.push(match right.rows.get(place) {
                Some(end) => format!(in self.alloc; "{start:width$}{GAP}{end}")?,
                None => String::from_str(self.alloc, start)?,
            })?;
        }
        let columns = width
            .saturating_add(GAP.len())
            .saturating_add(right.columns);
        Ok(Block { columns, rows })
    }
}

/// Appends a drawing, if it is not too wide.
fn drawing_to(text: &mut String, block: &Block) -> Told {
    if block.columns.saturating_add(MARGIN.len()) > WIDEST {
        return Ok(());
    }
    text.push_str("labels, under each what it dominates:\n")?;
    for row in &block.rows {
        writeln!(text, "{MARGIN}{row}")?;
    }
    Ok(())
}

/// Appends the labels of a policy, in rows that show their order, if such rows are there and not too wide, and each
/// with those that it
/// covers.
pub(crate) fn labels_to(text: &mut String, alloc: Global, policy: &Policy) -> Told {
    let labels = Labels { alloc, policy };
    let ordered = labels.ordered()?;
    if let Some(block) = labels.block_of(&ordered)? {
        drawing_to(text, &block)?;
    }
    labels.covers_to(text, &ordered)
}
