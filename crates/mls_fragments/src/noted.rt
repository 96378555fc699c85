//! What the rows hold: the changes that made it, which only clauses read, and the number of its last entry.
ghost use Rattle.std.specs.Prelude.{◌≡◌, pos, [], ◌∷◌, map};
ghost use Rattle.mls_fragments.specs.Based.{fault_of};
ghost use Rattle.mls_rows.specs.Changes.Change.{Finds, Appends, Clears};

use crate::ghost_content::GhostContent;
use mls_filterview::BaseFault;
use mls_rows::Found;
use mls_tables::StoreFault;

#[derive(Drop)]
pub struct Noted {
    pub content: GhostContent,
    /// The number of the last entry, 0 where there is none.
    pub last: i64,
}

impl Noted {
    /// No content.
    pub fn new() -> Noted
        ensures content { result.content.changes ≡ [] }
        ensures last { result.last ≡ pos 0 }
    {
        Noted {
            content: GhostContent::new(),
            last: 0,
        }
    }

    /// What the rows of a store hold when it is opened.
    pub fn find(found: &Found) -> Noted
        ensures content { result.content.changes ≡ Finds
            (map (λ t. t.entries) found.now.tables.items) found.now.entries ∷ [] }
        ensures last { result.last ≡ found.now.last }
    {
        let mut content = GhostContent::new();
        content.find(&found.tables, &found.entries);
        Noted {
            content,
            last: found.last,
        }
    }

    /// What other rows hold.
    pub fn copy(&mut self, other: &Noted)
        ensures content { self.new.content.changes ≡ other.now.content.changes }
        ensures last { self.new.last ≡ other.now.last }
    {
        self.content.note(&other.content);
        self.last = other.last;
    }

    /// One entry more, with its number.
    pub fn append(&mut self, number: i64, bytes: &[u8])
        ensures content { self.new.content.changes ≡ Appends bytes.now ∷ self.old.content.changes }
        ensures last { self.new.last ≡ number }
    {
        self.content.note(&bytes);
        self.last = number;
    }

    /// No entry.
    pub fn clear(&mut self)
        ensures content { self.new.content.changes ≡ Clears ∷ self.old.content.changes }
        ensures last { self.new.last ≡ pos 0 }
    {
        self.content.note(&());
        self.last = 0;
    }
}

/// The fault of the base where the store failed: the rows hold what they held at the last commit.
pub fn abandon_changes(now: &mut Noted, kept: &Noted, fault: StoreFault) -> BaseFault
    ensures fault { result ≡ fault_of fault }
    ensures content { now.new.content.changes ≡ kept.now.content.changes }
    ensures last { now.new.last ≡ kept.now.last }
{
    now.copy(kept);
    match fault {
        StoreFault::Store => BaseFault::Store,
        StoreFault::Memory => BaseFault::Memory,
    }
}
