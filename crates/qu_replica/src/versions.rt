ghost use Rattle.std.specs.Prelude.{◌≡◌, IfOk};
ghost use Rattle.qu_fitting.specs.Holding.{stored_all};

use qu_base::NoMemory;
use qu_mends::Accepted;
use qu_versions::{Prepared, Stored};
use std::alloc::Global;

/// What is stored of accepted candidates, with its room: the version of each that has one.
pub(crate) fn stored(alloc: Global, accepted: &[Accepted]) -> Result<Prepared, NoMemory>
    ensures { IfOk result (λ versions. versions ≡ stored_all accepted.now) }
{
    let mut versions = Prepared::none(alloc);
    for one in accepted {
        if let Some(state) = &one.state {
            versions.push(Stored {
                object: one.object,
                stamp: one.candidate.stamp,
                state: state.copy(alloc)?,
            })?;
        }
    }
    Ok(versions)
}
