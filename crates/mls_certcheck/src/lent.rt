//! Lines as the walk lends them: what they speak of stands in the transaction, and nothing is copied.
ghost use Rattle.std.specs.Prelude.{◌+◌, ◌<◌, ◌^◌};
ghost use Rattle.mls_translang.specs.Tree.{statements};

use crate::flow::{Slot, Source};
use crate::loops::Loops;
use mls_lattice::LabelNo;
use mls_scheme::Write;
use mls_translang::{Block, Expr};

/// Where a statement stands, among so many variables: its number, those of what is around it and of the
/// statement after which it begins, and the loops around it.
#[derive(Clone, Copy)]
pub struct Here {
    pub vars: usize,
    pub number: usize,
    pub around: usize,
    pub before: usize,
    pub loops: Loops,
}

/// A block, with the number of its first statement.
#[derive(Clone, Copy)]
pub struct Numbered<'a> {
    pub first: usize,
    pub block: &'a Block,
    pub ghost few: { first + statements block.now < 2 ^ 63 },
}

/// What something flows into.
#[derive(Clone, Copy)]
pub enum Targets<'a> {
    /// This slot.
    One(Slot),
    /// The statements directly inside a block.
    Inside(Numbered<'a>),
    /// Those directly inside either of two blocks.
    Either(Numbered<'a>, Numbered<'a>),
}

/// What flows, beside one source.
#[derive(Clone, Copy)]
pub enum More<'a> {
    /// Nothing.
    Nothing,
    /// What is declared to have this label.
    Label(LabelNo),
    /// The first so many variables after the statement.
    Variables(usize),
    /// The names in an expression.
    Names(&'a Expr),
    /// Those in the operands of a write.
    Operands(&'a Write<Expr>),
}

/// What flows, as in a `Flow`, at a statement.
#[derive(Clone, Copy)]
pub enum LentFlow<'a> {
    /// Each source flows into each target.
    Into(Targets<'a>, Option<Source>, More<'a>),
    /// What each variable (but one) holds after another statement, it may hold after this one.
    Kept { from: usize, but: Option<u8> },
    /// Each source flows out to a declared label.
    Within(LabelNo, Option<Source>, More<'a>),
    /// Each source is used.
    Under(Option<Source>, More<'a>),
}
