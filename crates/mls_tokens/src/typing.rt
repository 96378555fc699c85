//! What lines are read from, by whoever answers them.
ghost use Rattle.std.specs.Prelude.{ℕ, List, Option, IfOk, IfErr, OnErr};
ghost use Rattle.mls_tokens.specs.Typing.{IsTyped, IsLost, IsCause};

use crate::typed::{Typed, TypingFault};
use std::alloc::Global;
use std::io::Write;

/// Lines that are typed by somebody who is answered.
pub trait TypedLines {
    // The bytes that are still to come, where they are known.
    ghost remaining: { Self → Option (List ℕ) };

    // What is shown of a line, among what is written, when it is read: nothing where somebody types at a terminal of
    // his own.
    ghost echo: { List ℕ → List ℕ };

    // A read of what they come from has failed.
    ghost breaks: { Self → Type 0 };

    /// Waits for the next line, when all that was written to `out` is there; it may show the line there. So the
    /// order of lines and answers stands in contracts, though what reads and what writes are two values.
    fn next_line<W: Write>(&mut self, alloc: Global, out: &mut W) -> Result<Typed, TypingFault>
        ensures typed { IfOk result (IsTyped echo (remaining self.old) (remaining self.new) (W.contents out.old)
            (W.contents out.new)) }
        ensures lost { OnErr result (IsLost echo (remaining self.old) (remaining self.new) (W.contents out.old)
            (W.contents out.new)) }
        ensures cause { IfErr result (IsCause (breaks self.new)) };
}
