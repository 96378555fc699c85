//! The loops around a statement.
ghost use Rattle.std.specs.Prelude.{◌≡◌, ◌<◌, ◌≤◌, ◌+◌, ◌∷◌, [], slice_index};

use mls_lattice::LabelNo;

/// Statements stand at most this deep in one another.
const DEPTH: usize = 16;

/// The labels of the loops around a statement, the outermost first, in the first places of the array.
#[derive(Clone, Copy)]
pub struct Loops {
    labels: [LabelNo; DEPTH],
    count: usize,
    ghost few: { count ≤ 16 },
}

impl Loops {
    ghost use Rattle.mls_certcheck.specs.Loops.{loops_of};

    /// Outside all loops.
    pub(crate) fn outside() -> Loops
        ensures none { loops_of result ≡ [] }
        ensures count { result.count ≡ 0 }
    {
        Loops {
            labels: [LabelNo::new(0); DEPTH],
            count: 0,
        }
    }

    /// Inside one more.
    #[tactic(auto, using(crate::proofs::LoopLemmas::one_more))]
    pub(crate) fn inside(&self, label: LabelNo) -> Loops
        requires { self.now.count < 16 }
        ensures one { loops_of result ≡ label ∷ loops_of self.now }
        ensures count { result.count ≡ self.now.count + 1 }
    {
        let mut labels = self.labels;
        labels[self.count] = label;
        Loops {
            labels,
            count: self.count + 1,
        }
    }

    /// The label of the loop that stands so many loops outwards, or the first label.
    #[tactic(auto, using(crate::proofs::LoopLemmas::at_depth))]
    pub fn label(&self, depth: u8) -> LabelNo
        ensures { result ≡ slice_index (loops_of self.now) depth }
    {
        let depth = usize::from(depth);
        if depth < self.count {
            self.labels[self.count - 1 - depth]
        } else {
            LabelNo::new(0)
        }
    }
}
