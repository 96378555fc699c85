//! Lines that are typed, and why one is not read.

/// The most bytes that a file or the standard input may have.
pub const MOST_BYTES: usize = 1_048_576;

/// What comes next.
#[derive(Drop)]
pub enum Typed {
    /// A line with its LF. The last may have none, and behind it comes an empty one, which is the end.
    Line(Vec<u8>),
    /// A line with `MOST_BYTES` bytes or more before its LF: none of it is kept.
    TooLong,
}

/// Why a line is not read whole.
#[derive(Clone, Copy)]
pub enum TypingFault {
    Unreadable,
    Memory,
    /// What was written before it was not taken.
    Output,
}

/// How far a line is read.
#[derive(Drop)]
pub(crate) enum Part {
    /// Up to its LF.
    Line(Vec<u8>),
    /// Up to the end.
    Last(Vec<u8>),
    /// As many bytes as a line may have, without an LF.
    Full,
}
