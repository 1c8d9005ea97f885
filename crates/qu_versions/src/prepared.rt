ghost use Rattle.std.specs.Prelude.{◌≡◌, ◌≤◌, [], ◌∷◌, ◌++◌, length, IfOk, OnOk, OnErr};
ghost use Rattle.qu_versions.specs.declared.limits.TheConstants.{MOST_VERSIONS};

use super::Stored;
use qu_base::NoMemory;
use std::alloc::Global;
use std::collections::LinkedList;
use std::marker::Model;

/// Versions with the room that a store takes to hold them, which a step that is planned will store.
#[derive(Drop)]
pub struct Prepared {
    versions: LinkedList<Stored>,
}

impl Model for Prepared {
    ghost use Rattle.std.specs.Prelude.{List};
    ghost use Rattle.qu_versions.specs.declared.stored.Stored.{Stored as AVersion};

    ghost Value = { List AVersion };

    ghost view = { λ prepared. prepared.versions };
}

impl Prepared {
    /// No version.
    pub fn none(alloc: Global) -> Prepared
        ensures { result ≡ [] }
    {
        Prepared {
            versions: LinkedList::new(alloc),
        }
    }

    /// One version, with its room.
    pub fn one(alloc: Global, stored: Stored) -> Result<Prepared, NoMemory>
        ensures { IfOk result (λ prepared. prepared ≡ stored ∷ []) }
    {
        let mut versions = LinkedList::new(alloc);
        versions.push_back(stored)?;
        Ok(Prepared { versions })
    }

    /// One version more behind the others, with its room. Without memory nothing changes.
    pub fn push(&mut self, stored: Stored) -> Result<(), NoMemory>
        ensures value { OnOk result (self.new ≡ self.old ++ stored ∷ []) }
        ensures err { OnErr result (self.new ≡ self.old) }
    {
        self.versions.push_back(stored)?;
        Ok(())
    }

    /// How many versions there are.
    pub fn len(&self) -> usize
        ensures value { result ≡ length self.now }
        ensures most { result ≤ MOST_VERSIONS }
    {
        self.versions.len()
    }

    /// The versions as a list, whose room they have.
    pub(crate) fn into_list(self) -> LinkedList<Stored>
        ensures { result ≡ self }
    {
        self.versions
    }
}
