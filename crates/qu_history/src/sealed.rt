ghost use Rattle.std.specs.Prelude.{◌≡◌, IfOk};

use super::History;
use qu_base::{List, NoMemory};
use std::alloc::Global;

/// A history, and its HMACs: one for each replica, by which that replica knows that it stood so.
pub struct Sealed {
    pub history: History,
    pub macs: List<[u8; 32]>,
}

/// By hand, so that a value is let go in one step wherever that is.
impl Drop for Sealed {
    fn drop(self) {
        let Sealed {
            history: _,
            macs: _,
        } = self;
    }
}

impl Sealed {
    /// An equal sealed history.
    pub fn copy(&self, alloc: Global) -> Result<Sealed, NoMemory>
        ensures { IfOk result (λ sealed. sealed ≡ self.now) }
    {
        Ok(Sealed {
            history: self.history.copy(alloc)?,
            macs: self.macs.copy(alloc)?,
        })
    }

    /// Equal sealed histories.
    pub fn copy_all(alloc: Global, entries: &[Sealed]) -> Result<List<Sealed>, NoMemory>
        ensures { IfOk result (λ copies. copies ≡ entries.now) }
    {
        let mut copies = List::new(alloc);
        for entry in entries {
            copies.push(entry.copy(alloc)?)?;
        }
        Ok(copies)
    }
}
