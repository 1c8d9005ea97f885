ghost use Rattle.std.specs.Prelude.{◌≡◌, IfOk};
ghost use Rattle.qu_kept.specs.Performing.{copied_state};

use super::links::links_after;
use qu_base::{NoMemory, ObjectId};
use qu_objects::{KeptRow, ObjState};
use qu_stamp::Candidate;
use std::alloc::Global;

/// The version of a copy on an object: that of the candidate which is copied, with links to the other objects of the
/// copy's own group.
pub fn copied(
    alloc: Global,
    state: &ObjState,
    object: ObjectId,
    candidate: &Candidate,
) -> Result<ObjState, NoMemory>
    ensures { IfOk result (λ new. new ≡ copied_state object candidate.now state.now) }
{
    let (links, stamp) = (state.links.as_slice(), candidate.stamp);
    Ok(ObjState {
        value: state.value.copy(alloc)?,
        kept: KeptRow::copy_all(alloc, state.kept.as_slice())?,
        links: links_after(alloc, links, object, stamp, candidate.group.pairs())?,
    })
}
