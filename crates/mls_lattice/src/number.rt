//! Labels and users by their numbers.
ghost use Rattle.std.specs.Prelude.{◌≡◌};

use std::marker::Model;

/// The number of a declared label: its place in the policy, from 0.
#[derive(Clone, Copy, PartialEq, Eq, PartialOrd, Ord)]
pub struct LabelNo {
    number: u8,
}

impl Model for LabelNo {
    ghost use Rattle.std.specs.Prelude.{ℕ};

    ghost Value = { ℕ };

    ghost view = { λ a. a.number };

    ghost inverse = { λ n. record { number = n } };
}

impl LabelNo {
    /// The number as one.
    pub fn new(number: u8) -> LabelNo
        ensures { result ≡ number }
    {
        LabelNo { number }
    }

    /// The number, as a byte.
    pub fn byte(self) -> u8
        ensures { result ≡ self }
    {
        self.number
    }

    /// The number, as a place in a list.
    pub fn index(self) -> usize
        ensures { result ≡ self }
    {
        self.byte() as usize
    }
}

/// The number of a user: its place in the policy, from 0.
#[derive(Clone, Copy, PartialEq, Eq, PartialOrd, Ord)]
pub struct UserNo {
    number: u16,
}

impl Model for UserNo {
    ghost use Rattle.std.specs.Prelude.{ℕ};

    ghost Value = { ℕ };

    ghost view = { λ a. a.number };

    ghost inverse = { λ n. record { number = n } };
}

impl UserNo {
    /// The number as one.
    pub fn new(number: u16) -> UserNo
        ensures { result ≡ number }
    {
        UserNo { number }
    }

    /// The number, as a place in a list.
    pub fn index(self) -> usize
        ensures { result ≡ self }
    {
        usize::from(self.number)
    }
}
