ghost use Rattle.std.specs.Prelude.{◌≡◌, IfOk};

use qu_base::{NoMemory, ObjectId};
use qu_objects::ObjState;
use qu_stamp::Stamp;
use std::alloc::Global;

/// A version of an object, under the stamp of its candidate.
pub struct Stored {
    pub object: ObjectId,
    pub stamp: Stamp,
    pub state: ObjState,
}

/// By hand, so that a value is let go in one step wherever that is.
impl Drop for Stored {
    fn drop(self) {
        let Stored {
            object: _,
            stamp: _,
            state: _,
        } = self;
    }
}

impl Stored {
    /// An equal version under the same stamp.
    pub fn copy(&self, alloc: Global) -> Result<Stored, NoMemory>
        ensures { IfOk result (λ stored. stored ≡ self.now) }
    {
        Ok(Stored {
            object: self.object,
            stamp: self.stamp,
            state: self.state.copy(alloc)?,
        })
    }
}
