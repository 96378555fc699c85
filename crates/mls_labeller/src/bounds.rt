//! Integers from one to another.
ghost use Rattle.std.specs.Prelude.{ℤ, ◌+ℤ◌, ◌-ℤ◌, ◌<◌, ◌≤◌, List, length, IfSome, IsSome};
ghost use Rattle.mls_labeller.specs.Ranges.{Within, arithmetic, IsArithmetic, HasIntegers, uncounted};

use mls_translang::Operator;

/// The integers from `low` to `high`: none, where `high` is less.
#[derive(Clone, Copy, PartialEq)]
pub struct Bounds {
    pub low: i64,
    pub high: i64,
}

impl Bounds {
    /// What sums lie within, where none is out of bounds.
    fn plus(self, other: Bounds) -> Option<Bounds>
        ensures { IfSome result (λ b. (m n : ℤ) → Within self m → Within other n → Within b (m +ℤ n)) }
    {
        let low = self.low.checked_add(other.low)?;
        let high = self.high.checked_add(other.high)?;
        Some(Bounds { low, high })
    }

    /// What differences lie within.
    fn minus(self, other: Bounds) -> Option<Bounds>
        ensures { IfSome result (λ b. (m n : ℤ) → Within self m → Within other n → Within b (m -ℤ n)) }
    {
        let low = self.low.checked_sub(other.high)?;
        let high = self.high.checked_sub(other.low)?;
        Some(Bounds { low, high })
    }

    /// What the results of an operator lie within, where that is told.
    pub(crate) fn apply(self, operator: Operator, other: Bounds) -> Option<Bounds>
        ensures within { IfSome result (λ b. (m n : ℤ) → Within self m → Within other n
            → Within b (arithmetic operator m n)) }
        ensures arithmetic { IsSome result → IsArithmetic operator }
    {
        match operator {
            Operator::Plus => self.plus(other),
            Operator::Minus => self.minus(other),
            _ => None,
        }
    }

    /// How many there are, as far as they can be counted.
    pub(crate) fn count(self) -> u64
        ensures { result < uncounted → (numbers : List ℤ) × (length numbers ≤ result) × HasIntegers self numbers }
    {
        if self.high < self.low {
            return 0;
        }
        self.high.abs_diff(self.low).saturating_add(1)
    }
}
