//! Relations by their numbers.
ghost use Rattle.std.specs.Prelude.{◌≡◌};

use std::marker::Model;

/// The number of a relation: its place in the schemes, from 0.
#[derive(Clone, Copy, PartialEq, Eq, PartialOrd, Ord)]
pub struct RelNo {
    number: u8,
}

impl Model for RelNo {
    ghost use Rattle.std.specs.Prelude.{ℕ};

    ghost Value = { ℕ };

    ghost view = { λ a. a.number };

    ghost inverse = { λ n. record { number = n } };
}

impl RelNo {
    /// The number as one.
    pub fn new(number: u8) -> RelNo
        ensures { result ≡ number }
    {
        RelNo { number }
    }

    /// The number, as a byte.
    pub fn byte(self) -> u8
        ensures { result ≡ self }
    {
        self.number
    }

    /// The number, as a place in a list.
    pub fn index(self) -> usize
        ensures { result ≡ self }
    {
        self.number as usize
    }
}
