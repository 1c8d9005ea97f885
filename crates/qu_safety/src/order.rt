ghost use Rattle.std.specs.Prelude.{IfOk};
ghost use Rattle.qu_machine.specs.Serial.{IsSerial};
ghost use Rattle.qu_trace.specs.Operation.{operations_of};
ghost use Rattle.qu_world.specs.Run.{IsRun};
ghost use Rattle.qu_claims.specs.Chained.{IsChained};
ghost use Rattle.qu_claims.specs.Histories.{HistoriesRise, ForgetsNothing};
ghost use Rattle.qu_claims.specs.Premises.{MeetsPremises};
ghost use Rattle.qu_claims.specs.Named.{StampsNameHistories};
ghost use Rattle.qu_claims.specs.Order.{IsPrintedOrder};
ghost use Rattle.qu_claims.specs.Quorums.{CompletesByQuorums};
ghost use Rattle.qu_claims.specs.Quick.{QuickIsOneRound};
ghost use Rattle.qu_claims.specs.Updates.{DecidesOnce, NumbersRise};
ghost use Rattle.qu_claims.specs.Together.{AcceptsTogether};
ghost use Rattle.qu_claims.specs.Truth.{VersionsAreTrue};
ghost use Rattle.qu_claims.specs.Turns.{DecidesInTurn, DecidesJointly};

use super::parts::have_parts;
use qu_base::{List, NoMemory};
use qu_machine::Point;
use qu_points::printed_order;
use qu_trace::DecodedTrace;
use std::alloc::Global;

/// The points of a run: where each update and each completed query took effect.
///
/// They stand by event. Where no HMAC of a correct party is forged and no two different texts that were digested have
/// one digest, they are a serial order of the operations, whatever up to b faulty replicas and all faulty clients send:
/// one machine that runs whole operations in this order gives each completed one its answer, between its call and its
/// reply, and runs each update once. Updates of faulty clients have a mark in it.
///
/// That histories rise, that nothing is forgotten and that groups are accepted whole holds whatever is forged.
pub fn order_of(alloc: Global, trace: &DecodedTrace<'_>) -> Result<List<Point>, NoMemory>
    requires { IsRun trace.now }
    ensures printed { IfOk result (λ order. IsPrintedOrder trace.now order) }
    ensures serial { IfOk result (λ order. MeetsPremises trace.now
        → IsSerial trace.now.setup.kinds (operations_of trace.now) order) }
    ensures rising { HistoriesRise trace.now }
    ensures grows { ForgetsNothing trace.now }
    ensures together { AcceptsTogether trace.now }
    ensures chained { MeetsPremises trace.now → IsChained trace.now }
    ensures named { MeetsPremises trace.now → StampsNameHistories trace.now }
    ensures jointly { MeetsPremises trace.now → DecidesJointly trace.now }
    ensures in_turn { MeetsPremises trace.now → DecidesInTurn trace.now }
    ensures numbers { MeetsPremises trace.now → NumbersRise trace.now }
    ensures once { MeetsPremises trace.now → DecidesOnce trace.now }
    ensures versions { MeetsPremises trace.now → VersionsAreTrue trace.now }
    ensures one_round { MeetsPremises trace.now → QuickIsOneRound trace.now }
    ensures by_quorums { MeetsPremises trace.now → CompletesByQuorums trace.now }
{
    let run = trace.trace();
    have_parts(run.entries.as_slice());
    printed_order(alloc, trace)
}
