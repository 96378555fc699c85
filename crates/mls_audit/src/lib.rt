//! The audit list: calls, denials and releases, as bytes and as a level sees them.
#![tactic(auto)]

ghost use Rattle.mls_audit.specs.Spelling.{AreUnambiguous};

mod entry;
mod reading;
mod viewing;
mod writing;

pub use entry::{Deed, Entry};
// The fault of a value is that of its entry.
pub use mls_scheme::KeyFault as EntryFault;
pub use reading::entry_of;
pub use viewing::visible;
pub use writing::entry_bytes;

/// No two entries have one spelling.
pub fn entries_are_unambiguous()
    ensures { AreUnambiguous }
{}
