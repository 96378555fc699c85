//! Which labels information may flow between.
ghost use Rattle.std.specs.Prelude.{◌≡◌};
ghost use Rattle.mls_lattice.specs.Labels.{label_of};
ghost use Rattle.mls_lattice.specs.Lattice.{◌⊑◌, bottom, pair_of};
ghost use Rattle.mls_lattice.specs.Policy.{labels_of};

use crate::label::Label;
use crate::number::LabelNo;
use crate::policy::Policy;

/// The bottom of the labels.
#[tactic(auto, using(crate::proofs::FlowLemmas::bottom_pair))]
pub fn lowest() -> Label
    ensures { pair_of result ≡ bottom }
{
    Label { rank: 0, cats: 0 }
}

/// What a number stands for; one that no label has stands for the bottom.
#[tactic(auto, using(crate::proofs::FlowLemmas::past_labels))]
pub fn declared(policy: &Policy, label: LabelNo) -> Label
    ensures { pair_of result ≡ label_of (labels_of policy.now) label }
{
    if label.index() < policy.label_count() {
        policy.value(label)
    } else {
        lowest()
    }
}

/// Whether information may flow from the one label to the other.
pub fn flows(low: Label, high: Label) -> bool
    ensures { result ≡ (pair_of low ⊑ pair_of high) }
{
    high.dominates(low)
}
