ghost use Rattle.std.specs.Prelude.{◌↔◌, ◌<◌, length, All, IsTrue};
ghost use Rattle.qu_machine.specs.Serial.{IsRising, HasObjects};

use super::Point;
use qu_base::ObjectId;
use qu_objects::{KindName, Op};

/// Whether the points can be judged: their events rise, and their operations name objects that
/// there are.
pub fn is_judgeable(kinds: &[KindName], order: &[Point]) -> bool
    ensures { IsTrue result ↔ (IsRising order.now × All (λ point. HasObjects (length kinds.now) point.op) order.now) }
{
    is_rising(order) && have_objects(kinds.len(), order)
}

fn is_rising(order: &[Point]) -> bool
    ensures { IsTrue result ↔ IsRising order.now }
{
    for index in 1..order.len() {
        if order[index - 1].event >= order[index].event {
            return false;
        }
    }
    true
}

fn have_objects(count: usize, order: &[Point]) -> bool
    ensures { IsTrue result ↔ All (λ point. HasObjects count point.op) order.now }
{
    order.iter().all(|point| has_objects(count, &point.op))
}

/// Whether the operation names objects among so many.
fn has_objects(count: usize, op: &Op) -> bool
    ensures { IsTrue result ↔ HasObjects count op.now }
{
    match op {
        Op::Act(act) => are_within(count, act.parts().as_slice()),
        Op::Query(query) => are_within(count, query.parts().as_slice()),
    }
}

fn are_within<X>(count: usize, parts: &[(ObjectId, X)]) -> bool
    ensures { IsTrue result ↔ All (λ part. (part.0).0 < count) parts.now }
{
    parts
        .iter()
        .all(|(object, _)| usize::from(object.0) < count)
}
