ghost use Rattle.std.specs.Prelude.{◌≡◌, IfOk};

use qu_base::{NoMemory, ReplicaId};
use qu_history::{AddFail, History};
use std::alloc::Global;

/// This history, told as this replica's own.
#[tactic(auto, using(qu_history::proofs::Rising::length_above_zero, crate::proofs::Named::begins_open))]
pub fn in_name_of(alloc: Global, me: ReplicaId, history: &History) -> Result<History, NoMemory>
    ensures { IfOk result (λ named. named ≡ record history.now { replica = me }) }
{
    let mut named = History::opening(alloc, history.object(), me)?;
    let candidates = history.candidates().as_slice();
    for place in 1..history.len() {
        match named.add(candidates[place]) {
            Ok(()) => {}
            Err(AddFail::NoMemory) => return Err(NoMemory),
            Err(AddFail::NotLater(_)) => unreachable!(),
            Err(AddFail::HistoryFull) => unreachable!(),
        }
    }
    Ok(named)
}
