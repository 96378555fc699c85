//! Ranges: sets of values, one of which something has.
ghost use Rattle.std.specs.Prelude.{◌≡◌, ◌<◌, ◌≤◌, List, length, IfOk, OnOk, Option, Some, Contains};
ghost use Rattle.mls_scheme.specs.declared.value.Value.{Value as SpecValue};
ghost use Rattle.mls_translang.specs.Expressions.{Datum, value_of, apply};
ghost use Rattle.mls_labeller.specs.Ranges.{IsAmong, IsBetween, Admits, Includes, any_value, HasValues, uncounted};

use crate::bounds::Bounds;
use mls_lattice::Items;
use mls_scheme::{Value, copy_key};
use mls_translang::Operator;
use std::alloc::{AllocError, Global};

/// How many values are listed at most.
const MOST: usize = 16;

/// A set of values: of those that are listed, if they are, and of the integers between bounds, if there are bounds.
#[derive(Clone, PartialEq, Drop)]
pub struct Range {
    /// Whether null is one of them.
    pub null: bool,
    pub listed: Option<Items<Value>>,
    pub bounds: Option<Bounds>,
}

/// Adds a value, unless it is there.
fn add(all: &mut Vec<Value>, value: &Value) -> Result<(), AllocError>
    ensures kept { OnOk result ((v : SpecValue) → Contains all.old.items v → Contains all.new.items v) }
    ensures added { OnOk result (Contains all.new.items value.now) }
{
    for other in all.iter() {
        if other.same(value) {
            return Ok(());
        }
    }
    all.push(value.copy()?)?;
    Ok(())
}

/// These and others, where they are few enough to be listed.
fn union(values: &Items<Value>, others: &[Value]) -> Result<Option<Items<Value>>, AllocError>
    ensures these { IfOk result (λ all. (v : SpecValue) → Contains values.now v → IsAmong all v) }
    ensures those { IfOk result (λ all. (v : SpecValue) → Contains others.now v → IsAmong all v) }
{
    let mut all = copy_key(values)?.into_vec();
    for value in others {
        add(&mut all, value)?;
    }
    if all.len() > MOST {
        return Ok(None);
    }
    Ok(Some(Items::from(all)))
}

/// The integers from the least to the greatest of these and others.
fn hull(these: Option<Bounds>, those: Option<Bounds>) -> Option<Bounds>
    ensures these { (v : SpecValue) → IsBetween these v → IsBetween result v }
    ensures those { (v : SpecValue) → IsBetween those v → IsBetween result v }
{
    let (these, those) = (these?, those?);
    let low = these.low.min(those.low);
    let high = these.high.max(those.high);
    Some(Bounds { low, high })
}

impl Range {
    /// Any value, or null.
    pub(crate) fn any() -> Range
        ensures { result ≡ any_value }
    {
        Range {
            null: true,
            listed: None,
            bounds: None,
        }
    }

    /// Null alone.
    pub(crate) fn null(alloc: Global) -> Range
        ensures { Admits result None }
    {
        let bounds = Bounds {
            low: i64::MAX,
            high: i64::MIN,
        };
        Range {
            null: true,
            listed: Some(Items::from(Vec::new(alloc))),
            bounds: Some(bounds),
        }
    }

    /// A value alone.
    pub(crate) fn one(alloc: Global, value: &Value) -> Result<Range, AllocError>
        ensures { IfOk result (λ r. Admits r (Some value.now)) }
    {
        let values = vec![in alloc; value.copy()?]?;
        let bounds = match value {
            Value::Int(number) => Some(Bounds {
                low: *number,
                high: *number,
            }),
            Value::Text(_) => None,
        };
        Ok(Range {
            null: false,
            listed: Some(Items::from(values)),
            bounds,
        })
    }

    /// An equal range.
    pub(crate) fn copy(&self) -> Result<Range, AllocError>
        ensures { IfOk result (λ r. r ≡ self.now) }
    {
        self.clone()
    }

    /// What either holds, and perhaps more: any value where it widens and is not listed.
    pub(crate) fn join(&self, other: &Range, widens: bool) -> Result<Range, AllocError>
        ensures these { IfOk result (λ r. Includes r self.now) }
        ensures those { IfOk result (λ r. Includes r other.now) }
    {
        let listed = match (&self.listed, &other.listed) {
            (Some(these), Some(those)) => union(these, those)?,
            _ => None,
        };
        if widens && listed.is_none() {
            return Ok(Range::any());
        }
        Ok(Range {
            null: self.null || other.null,
            listed,
            bounds: hull(self.bounds, other.bounds),
        })
    }

    /// What an operator gives: any value where a result may lie out of bounds, since that is null.
    pub(crate) fn apply(&self, operator: Operator, other: &Range) -> Range
        ensures { (x y : Datum) → Admits self.now (value_of x) → Admits other.now (value_of y)
            → Admits result (value_of (apply operator x y)) }
    {
        let (Some(left), Some(right)) = (self.bounds, other.bounds) else {
            return Range::any();
        };
        match left.apply(operator, right) {
            Some(bounds) => Range {
                null: self.null || other.null,
                listed: None,
                bounds: Some(bounds),
            },
            None => Range::any(),
        }
    }

    /// How many values it holds, as far as they can be counted.
    pub(crate) fn count(&self) -> u64
        ensures { result < uncounted → (values : List (Option SpecValue)) × (length values ≤ result)
            × HasValues self.now values }
    {
        let values = match (&self.listed, self.bounds) {
            (Some(values), _) => values.len() as u64,
            (None, Some(bounds)) => bounds.count(),
            (None, None) => u64::MAX,
        };
        values.saturating_add(u64::from(self.null))
    }
}
