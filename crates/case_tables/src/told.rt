//! What is told of cases.
ghost use Rattle.std.specs.Prelude.{◌≡◌, true, false, [], string_bytes, IsOk, IfOk, flat_map};
ghost use Rattle.std.specs.Str.Lines.{lines as lines_of};
ghost use Rattle.case_tables.specs.Lines.{ended, indented_line};
ghost use Rattle.case_tables.specs.Told.{IsAdded};

use crate::block::{indent, push_line};
use std::alloc::{AllocError, Global};

/// A text that grows. From a growth on that is refused it is not whole.
#[derive(Drop)]
pub struct Told {
    pub text: String,
    pub is_whole: bool,
}

impl Told {
    /// An empty text.
    pub fn new(alloc: Global) -> Told
        ensures { (result.is_whole ≡ true) × (string_bytes result.text ≡ []) }
    {
        Told {
            text: String::new(alloc),
            is_whole: true,
        }
    }

    /// Notes how a growth went.
    pub fn note(&mut self, growth: Result<(), AllocError>)
        ensures same { self.new.text ≡ self.old.text }
        ensures whole { self.new.is_whole ≡ true → (self.old.is_whole ≡ true) × IsOk growth }
    {
        if growth.is_err() {
            self.is_whole = false;
        }
    }

    /// Notes that a growth was refused.
    pub fn fail(&mut self)
        ensures { self.new.is_whole ≡ false }
    {
        self.is_whole = false;
    }

    /// Adds a text.
    pub fn push(&mut self, text: &str)
        ensures { IsAdded self.old self.new text.now }
    {
        let growth = self.text.push_str(text);
        self.note(growth);
    }

    /// Adds a line and its end.
    pub fn push_line(&mut self, line: &str)
        ensures { IsAdded self.old self.new (ended line.now) }
    {
        let growth = push_line(&mut self.text, line);
        self.note(growth);
    }

    /// Adds the lines of a text, each after two blanks where it is not empty.
    pub fn push_indented(&mut self, text: &str)
        ensures { IsAdded self.old self.new (flat_map indented_line (lines_of text.now)) }
    {
        let growth = indent(&mut self.text, text);
        self.note(growth);
    }

    /// Adds a number.
    pub fn push_number(&mut self, number: i64)
        ensures { self.new.is_whole ≡ true → self.old.is_whole ≡ true }
    {
        let growth = write!(self.text, "{number}");
        self.note(growth);
    }

    /// Adds a count.
    pub fn push_count(&mut self, count: usize)
        ensures { self.new.is_whole ≡ true → self.old.is_whole ≡ true }
    {
        let growth = write!(self.text, "{count}");
        self.note(growth);
    }

    /// The text, where it is whole.
    pub fn finish(self) -> Result<String, AllocError>
        ensures { IfOk result (λ text. (self.is_whole ≡ true) × (text ≡ self.text)) }
    {
        if self.is_whole {
            Ok(self.text)
        } else {
            Err(AllocError)
        }
    }
}
