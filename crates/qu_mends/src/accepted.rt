ghost use Rattle.std.specs.Prelude.{◌≡◌, IfOk};

use qu_base::{NoMemory, ObjectId};
use qu_objects::ObjState;
use qu_stamp::Candidate;
use std::alloc::Global;

/// A candidate that a replica accepts on an object.
pub struct Accepted {
    pub object: ObjectId,
    pub candidate: Candidate,
    /// Its version. A barrier has none, and that of a candidate which was shown is stored already.
    pub state: Option<ObjState>,
}

/// By hand, so that a value is let go in one step wherever that is.
impl Drop for Accepted {
    fn drop(self) {
        let Accepted {
            object: _,
            candidate: _,
            state: _,
        } = self;
    }
}

impl Accepted {
    /// An equal candidate with an equal version, if it has one.
    pub fn copy(&self, alloc: Global) -> Result<Accepted, NoMemory>
        ensures { IfOk result (λ accepted. accepted ≡ self.now) }
    {
        Ok(Accepted {
            object: self.object,
            candidate: self.candidate,
            state: match &self.state {
                Some(state) => Some(state.copy(alloc)?),
                None => None,
            },
        })
    }
}
