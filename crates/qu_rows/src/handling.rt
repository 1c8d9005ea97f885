ghost use Rattle.std.specs.Prelude.{◌≡◌, None, IfOk};
ghost use Rattle.qu_history.specs.Culling.{culled};
ghost use Rattle.qu_history.specs.Text.{sets_digest};
ghost use Rattle.qu_rows.specs.Allowed.{MayDecide};
ghost use Rattle.qu_rows.specs.Rows.{asked_at, unknown_in, unknown_refused, decision_on};
ghost use Rattle.qu_rows.specs.Named.{named};

use crate::asked::Asked;
use crate::decision::Decision;
use crate::rows::Rows;
use crate::tables::decide;
use qu_base::{Digest, List, NoMemory, ObjectId, ReplicaId};
use qu_frames::Reading;
use qu_history::{Culled, Sets};
use qu_seal::KeyRing;
use std::alloc::Global;

/// What a replica makes of a request: the entries that its reply names, and its decision.
#[derive(Drop)]
pub struct Handled {
    pub named: List<(ObjectId, ReplicaId)>,
    pub decision: Decision,
}

/// What this replica with these keys makes of a request upon what its rows look at. Objects that it does not have are
/// asked for before the sets are culled, and sets whose entries are all right are decided upon as they came.
#[tactic(auto, using(crate::proofs::NamedEntries::handling))]
pub fn handle(
    alloc: Global,
    me: ReplicaId,
    keys: &KeyRing,
    rows: &Rows,
    reading: &Reading,
) -> Result<Handled, NoMemory>
    requires me { rows.now.me ≡ me }
    requires keys { rows.now.keys ≡ keys.now }
    ensures named { IfOk result (λ handled. handled.named ≡ named rows.now reading.now.sets) }
    ensures decision { IfOk result (λ handled. handled.decision ≡ decision_on rows.now
        (asked_at rows.now reading.now.client reading.now.number reading.now.sets reading.now.body)
        reading.now.body) }
    ensures may { IfOk result (λ handled. MayDecide rows.now handled.decision) }
{
    let digested = reading.sets();
    let whole = digested.sets();
    if let Some(refusal) = rows.row_unknown(whole) {
        return Ok(Handled {
            named: List::new(alloc),
            decision: refusal,
        });
    }
    if digested.are_right(me, keys) {
        return Ok(Handled {
            named: List::new(alloc),
            decision: decide_upon(alloc, rows, reading, whole, digested.digest_of())?,
        });
    }
    let Culled { sets, left } = digested.cull(alloc, me, keys)?;
    let set = sets.digest_of(alloc)?;
    Ok(Handled {
        named: left,
        decision: decide_upon(alloc, rows, reading, &sets, set)?,
    })
}

/// What it makes of a request of objects that it has upon the culled sets, which have this digest.
#[tactic(auto, using(crate::proofs::NamedEntries::handling))]
fn decide_upon(
    alloc: Global,
    rows: &Rows,
    reading: &Reading,
    sets: &Sets,
    set: Digest,
) -> Result<Decision, NoMemory>
    requires known { None ≡ unknown_refused (unknown_in rows.now reading.now.sets) }
    requires culled { sets.now ≡ culled rows.now.keys rows.now.me reading.now.sets }
    requires digest { set ≡ sets_digest sets.now }
    ensures value { IfOk result (λ decision. decision ≡ decision_on rows.now
        (asked_at rows.now reading.now.client reading.now.number reading.now.sets reading.now.body)
        reading.now.body) }
    ensures may { IfOk result (λ decision. MayDecide rows.now decision) }
{
    let asked = Asked::new(alloc, reading, sets, set)?;
    decide(alloc, rows, &asked, reading.body())
}
