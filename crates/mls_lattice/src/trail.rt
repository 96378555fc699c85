//! Where in a document a reader is.
ghost use Rattle.std.specs.Prelude.{◌≡◌};

/// A field of a document or of a table in it.
#[derive(Clone, Copy)]
pub struct Step {
    /// The key.
    pub field: &'static str,
    /// Which item of the field's array is meant, counted from 1, where it is not the whole field.
    pub item: Option<usize>,
}

/// The field that a reader looks at: its steps from the top of the document, of which there are three at most,
/// so that no memory is asked for them. No contract speaks of it: it would stand in every definition of what a
/// document says.
#[derive(Clone, Copy)]
pub struct Trail {
    steps: [Step; 3],
    len: usize,
}

/// Why a document is refused, and where its reader stopped.
#[derive(Clone, Copy)]
pub struct Refused<F> {
    pub fault: F,
    pub at: Trail,
}

impl Trail {
    /// At the top of a document.
    pub fn new() -> Trail {
        let step = Step {
            field: "",
            item: None,
        };
        Trail {
            steps: [step; 3],
            len: 0,
        }
    }

    /// The steps from the top: at most three.
    pub fn steps(&self) -> &[Step] {
        self.steps.get(..self.len).unwrap_or(&[])
    }

    /// Goes to a field of the document, or of a table so many steps below it, and gives its key.
    pub fn field(&mut self, depth: usize, field: &'static str) -> &'static str
        ensures { result.now ≡ field.now }
    {
        if let Some(step) = self.steps.get_mut(depth) {
            *step = Step { field, item: None };
            self.len = depth + 1;
        }
        field
    }

    /// Goes to the next item of the array at the field of a step, first to the first.
    pub fn next(&mut self, depth: usize) {
        if let Some(step) = self.steps.get_mut(depth) {
            let before = step.item.unwrap_or(0);
            step.item = Some(before.saturating_add(1));
            self.len = depth + 1;
        }
    }

    /// Goes back to a step: what is below it is meant as a whole.
    pub fn back(&mut self, depth: usize) {
        if depth < self.len {
            self.len = depth + 1;
        }
    }
}
