//! Sets of modes. The operators are written out, since those of `bitflag_items!` promise nothing. Number
//! formats and an iterator over modes are left out, since nothing uses them.
ghost use Rattle.std.specs.Prelude.{⊤, ◌≡◌, [], ◌∷◌, codes, bit_and, bit_or, bit_xor};
ghost use Rattle.bitflags.specs.Sets.{without};

use bitflags::{Flag, Flags};
use std::ops::{
    BitAnd, BitAndAssign, BitOr, BitOrAssign, BitXor, BitXorAssign, Not, Sub, SubAssign,
};

/// What a user may do with an object: a set with a bit for each mode.
#[derive(Clone, Copy, PartialEq, Eq)]
pub struct Modes(u8);

impl Modes {
    pub const EXECUTE: Modes = Modes(1);

    pub const READ: Modes = Modes(2);

    pub const APPEND: Modes = Modes(4);

    pub const WRITE: Modes = Modes(8);

    /// Each mode with its name.
    pub const FLAGS: &'static [Flag<Modes>] = &[
        Flag {
            name: "EXECUTE",
            value: Modes::EXECUTE,
        },
        Flag {
            name: "READ",
            value: Modes::READ,
        },
        Flag {
            name: "APPEND",
            value: Modes::APPEND,
        },
        Flag {
            name: "WRITE",
            value: Modes::WRITE,
        },
    ];
}

impl Flags for Modes {
    type Bits = u8;

    ghost exact = { ⊤ };

    ghost table = { (codes "EXECUTE", 1) ∷ (codes "READ", 2) ∷ (codes "APPEND", 4) ∷ (codes "WRITE", 8) ∷ [] };

    ghost set_of = { λ m. m.0 };

    fn flags<'a>() -> &'a [Flag<Modes>] {
        Modes::FLAGS
    }

    fn bits(&self) -> u8 {
        self.0
    }

    fn from_bits_retain(bits: u8) -> Modes {
        Modes(bits)
    }
}

/// The modes of either.
impl BitOr for Modes {
    type Output = Modes;

    ghost bitor_gives = { λ a b r. r.0 ≡ bit_or a.0 b.0 };

    fn bitor(self, other: Modes) -> Modes {
        Modes(self.0 | other.0)
    }
}

impl BitOrAssign for Modes {
    ghost bitor_assign_gives = { λ a b r. r.0 ≡ bit_or a.0 b.0 };

    fn bitor_assign(&mut self, other: Modes) {
        self.0 |= other.0;
    }
}

/// The modes of both.
impl BitAnd for Modes {
    type Output = Modes;

    ghost bitand_gives = { λ a b r. r.0 ≡ bit_and a.0 b.0 };

    fn bitand(self, other: Modes) -> Modes {
        Modes(self.0 & other.0)
    }
}

impl BitAndAssign for Modes {
    ghost bitand_assign_gives = { λ a b r. r.0 ≡ bit_and a.0 b.0 };

    fn bitand_assign(&mut self, other: Modes) {
        self.0 &= other.0;
    }
}

/// The modes of one and not of both.
impl BitXor for Modes {
    type Output = Modes;

    ghost bitxor_gives = { λ a b r. r.0 ≡ bit_xor a.0 b.0 };

    fn bitxor(self, other: Modes) -> Modes {
        Modes(self.0 ^ other.0)
    }
}

impl BitXorAssign for Modes {
    ghost bitxor_assign_gives = { λ a b r. r.0 ≡ bit_xor a.0 b.0 };

    fn bitxor_assign(&mut self, other: Modes) {
        self.0 ^= other.0;
    }
}

/// The modes of the first and not of the second.
impl Sub for Modes {
    type Output = Modes;

    ghost sub_gives = { λ a b r. r.0 ≡ without 8 a.0 b.0 };

    fn sub(self, other: Modes) -> Modes {
        Modes(self.0 & !other.0)
    }
}

impl SubAssign for Modes {
    ghost sub_assign_gives = { λ a b r. r.0 ≡ without 8 a.0 b.0 };

    fn sub_assign(&mut self, other: Modes) {
        self.0 &= !other.0;
    }
}

/// The four modes without these.
impl Not for Modes {
    type Output = Modes;

    ghost not_gives = { λ a r. r.0 ≡ without 8 15 a.0 };

    fn not(self) -> Modes {
        Modes(15 & !self.0)
    }
}
