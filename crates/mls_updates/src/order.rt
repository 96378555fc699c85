//! The labels that dominate one, the higher ones first.
ghost use Rattle.std.specs.Prelude.{◌≡◌, ◌<◌, ◌≤◌, length, not, IfOk};
ghost use Rattle.std.specs.List.{AllByRecursion, prefix_len};
ghost use Rattle.mls_lattice.specs.Labels.{below};
ghost use Rattle.mls_lattice.specs.Policy.{labels_of};
ghost use Rattle.mls_updates.specs.Steps.{AreAbove};

use mls_lattice::{LabelNo, Policy};
use std::alloc::{AllocError, Global};

/// The place of the first label that is dominated by a new one, or the end.
fn insertion_place(policy: &Policy, order: &[LabelNo], label: LabelNo) -> usize
    requires label { label < length policy.now.labels }
    requires order { AllByRecursion (λ m. m < length policy.now.labels) order.now }
    ensures exact { result ≡ prefix_len (λ x. not (below (labels_of policy.now) x label)) order.now }
    ensures within { result ≤ length order.now }
{
    for place in 0..order.len() {
        if policy.dominates(label, order[place]) {
            return place;
        }
    }
    order.len()
}

/// The labels that dominate one; none of them dominates an earlier one.
#[tactic(auto, using(crate::proofs::DownwardLemmas::downward_steps))]
pub(crate) fn downwards(
    alloc: Global,
    policy: &Policy,
    w: LabelNo,
) -> Result<Vec<LabelNo>, AllocError>
    requires { w < length policy.now.labels }
    ensures { IfOk result (λ order. AreAbove (labels_of policy.now) w order.items) }
{
    policy.use_invariant();
    let mut order = Vec::new(alloc);
    for number in 0..policy.label_count() {
        let label = LabelNo::new(number as u8);
        if !policy.dominates(label, w) {
            continue;
        }
        let place = insertion_place(policy, &order, label);
        order.insert(place, label)?;
    }
    Ok(order)
}
