//! The parts that a text is written of.

/// A part of a text: it is written without an allocation.
#[derive(Clone, Copy)]
pub enum Piece<'a> {
    Text(&'a str),
    /// In decimal digits.
    Number(usize),
}
