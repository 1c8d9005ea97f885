ghost use Rattle.std.specs.Prelude.{◌≡◌, ◌≤◌, length, IfOk};
ghost use Rattle.qu_base.specs.declared.limits.TheConstants.{OBJECT_IDS};
ghost use Rattle.qu_fitting.specs.Holding.{opening_histories};

use qu_base::{NoMemory, ObjectId, ReplicaId};
use qu_history::History;
use qu_objects::KindName;
use std::alloc::Global;

/// The histories with which the objects of these kinds begin, in their order.
#[tactic(auto, using(crate::proofs::States::Opening::histories_step, crate::proofs::States::Opening::no_histories))]
pub(super) fn histories(
    alloc: Global,
    me: ReplicaId,
    kinds: &[KindName],
) -> Result<Vec<History>, NoMemory>
    requires { length kinds.now ≤ OBJECT_IDS }
    ensures { IfOk result (λ histories. histories.items ≡ opening_histories me 0 kinds.now) }
{
    let mut histories = Vec::new(alloc);
    for number in 0..kinds.len() {
        histories.push(History::opening(alloc, ObjectId(number as u16), me)?)?;
    }
    Ok(histories)
}
