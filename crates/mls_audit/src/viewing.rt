//! What a level sees of the audit list.
ghost use Rattle.std.specs.Prelude.{◌≡◌, ◌<◌, IfOk, length};
ghost use Rattle.std.specs.List.{AllByRecursion};
ghost use Rattle.mls_lattice.specs.Policy.{labels_of};
ghost use Rattle.mls_audit.specs.Entry.{label_of, visible};

use crate::entry::Entry;
use mls_lattice::{LabelNo, Policy};
use std::alloc::{AllocError, Global};

/// The entries whose labels a label dominates, in order.
pub fn visible(
    alloc: Global,
    policy: &Policy,
    entries: &[Entry],
    label: LabelNo,
) -> Result<Vec<Entry>, AllocError>
    requires entries { AllByRecursion (λ e. label_of e < length policy.now.labels) entries.now }
    requires label { label < length policy.now.labels }
    ensures { IfOk result (λ v. v.items ≡ visible (labels_of policy.now) label entries.now) }
{
    let mut seen = Vec::new(alloc);
    for entry in entries {
        if policy.dominates(label, entry.label()) {
            seen.push(entry.copy()?)?;
        }
    }
    Ok(seen)
}
