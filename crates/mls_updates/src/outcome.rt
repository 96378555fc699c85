//! What becomes of writes.
ghost use Rattle.std.specs.Prelude.{◌≡◌};
ghost use Rattle.mls_updates.specs.Outcome.{is_done, code_of, word_of};

use mls_lattice::words;

/// What became of a write, or of what was expected. Every outcome but Done changes nothing.
#[derive(Clone, Copy, PartialEq, Eq, Debug)]
pub enum Outcome {
    Done,
    /// A key value is null.
    KeyNull,
    /// The entity of this key and the writer's class is there.
    Duplicate,
    /// The entity has no tuple of that class.
    NoTuple,
    /// A null above the key class.
    NullAboveKey,
    /// The class of a named element is not the writer's.
    Inherited,
    /// The writer's label lies outside an attribute's interval.
    OutOfInterval,
    /// The entity has a tuple of the writer's class.
    AlreadyDerived,
    /// Another number of rows was expected. No write has this outcome.
    Unexpected,
}

/// The names of the outcomes, in the order of their numbers.
static WORDS: [&str; 9] = words! {
    Done KeyNull Duplicate NoTuple NullAboveKey Inherited OutOfInterval AlreadyDerived Unexpected
};

impl Outcome {
    /// Whether the write was done.
    pub fn is_done(self) -> bool
        ensures { result ≡ is_done self }
    {
        match self {
            Outcome::Done => true,
            _ => false,
        }
    }

    /// The number of the outcome: 0, or 11 to 18.
    pub fn code(self) -> u8
        ensures { result ≡ code_of self }
    {
        match self {
            Outcome::Done => 0,
            _ => self as u8 + 10,
        }
    }

    /// The name of the outcome.
    pub fn word(self) -> &'static str
        ensures { result.now ≡ word_of self }
    {
        WORDS[self as usize]
    }
}
