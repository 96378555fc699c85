//! Labels as pairs of a rank and a set of categories.
ghost use Rattle.std.specs.Prelude.{◌≡◌, ◌<◌, ◌↔◌, IsTrue};
ghost use Rattle.std.specs.FinSet as set;
ghost use Rattle.mls_lattice.specs.Lattice.{cats_of, pair_of, same_pair, join, meet, Dominates};

/// A rank and a set of categories: bit k of `cats` stands for category k.
#[derive(Clone, Copy, PartialEq, Eq)]
pub struct Label {
    pub rank: u8,
    pub cats: u32,
}

impl Label {
    /// Whether the rank is at least the other's and the set contains the other's.
    pub fn dominates(self, other: Label) -> bool
        ensures { IsTrue result ↔ Dominates (pair_of self) (pair_of other) }
    {
        other.rank <= self.rank && other.cats & self.cats == other.cats
    }

    /// The greater rank, and the categories of both.
    pub fn join(self, other: Label) -> Label
        ensures { pair_of result ≡ join (pair_of self) (pair_of other) }
    {
        Label {
            rank: self.rank.max(other.rank),
            cats: self.cats | other.cats,
        }
    }

    /// The lesser rank, and the categories that both have.
    pub fn meet(self, other: Label) -> Label
        ensures { pair_of result ≡ meet (pair_of self) (pair_of other) }
    {
        Label {
            rank: self.rank.min(other.rank),
            cats: self.cats & other.cats,
        }
    }

    /// Whether the label lies in an interval.
    pub fn within(self, low: Label, high: Label) -> bool
        ensures { IsTrue result ↔ (Dominates (pair_of self) (pair_of low) × Dominates (pair_of high) (pair_of self)) }
    {
        self.dominates(low) && high.dominates(self)
    }

    /// Whether the two are one label.
    pub fn same(self, other: Label) -> bool
        ensures { result ≡ same_pair (pair_of self) (pair_of other) }
    {
        self == other
    }

    /// Whether a category is in the set.
    pub fn has(self, category: u32) -> bool
        requires { category < 32 }
        ensures { result ≡ set.contains (cats_of self.cats) category }
    {
        self.cats & (1 << category) != 0
    }

    /// The label with one category more.
    #[tactic(auto, using(crate::proofs::CategoryLemmas::with_one))]
    pub fn with(self, category: u32) -> Label
        requires { category < 32 }
        ensures { pair_of result ≡ record (pair_of self) { cats = set.insert (cats_of self.cats) category } }
    {
        Label {
            rank: self.rank,
            cats: self.cats | 1 << category,
        }
    }
}
