ghost use Rattle.std.specs.Prelude.{◌≡◌, ℕ, length, map, IfOk, IfErr, OnOk};
ghost use Rattle.qu_base.specs.Bounds.{replicas};
ghost use Rattle.qu_base.specs.declared.party.Party.{Party as AParty};
ghost use Rattle.qu_world.specs.Run.{IsSetup};
ghost use Rattle.qu_journal.specs.Journal.{as_kept};
ghost use Rattle.qu_replay.specs.Replays.{RisesFrom, own_steps};
ghost use Rattle.qu_replay.specs.Merged.{AreByTicket, steps_of_ticket};
ghost use Rattle.qu_gather.specs.Correct.{correct_replicas, correct_clients};
ghost use Rattle.qu_gather.specs.Live.{IsLive, AreCallsOf};
ghost use Rattle.qu_gather.specs.Gathered.{all_steps, HaveEnded, AreTheirOwn, ReplicasStand, ClientsStand};
ghost use Rattle.qu_gather.specs.Torn.{moved_actor, TellsMoved, IsOfLocks, TellsSteps, TellsEarly};

use qu_base::{ClientId, List, NoMemory, Party};
use qu_client::Client;
use qu_gather::{
    LiveFail, Torn, correct_clients, correct_replicas, moved_client, moved_replica, put_clients,
    put_replicas,
};
use qu_journal::steps_filed;
use qu_keeping::by_ticket;
use qu_lock::{Kept, RunName};
use qu_objects::Op;
use qu_post::Filed;
use qu_replay::KeptStep;
use qu_replica::Replica;
use qu_trace::{Setup, Trace};
use qu_whole::{tell, tick_in_time};
use std::alloc::Global;

/// What stood behind the locks of a run of this setup with these calls, as one run: all kept steps in the order of
/// their tickets. It is torn where another actor stands behind a lock, where the steps that were kept are not those
/// that were filed, where a step took what was not sent to it, or where a client ticked before a letter that it waited
/// for was delivered.
pub fn gather<N: RunName>(
    alloc: Global,
    setup: Setup,
    calls: &[(ClientId, Op)],
    held: Vec<Kept<Replica, N>>,
    others: Vec<Kept<Client, N>>,
    journal: List<Filed>,
) -> Result<Trace, LiveFail>
    requires named { (setup ≡ N.setup) × (calls.now ≡ N.calls) }
    requires setup { IsSetup setup }
    requires callable { AreCallsOf setup calls.now }
    requires replicas { length held.items ≡ length (correct_replicas setup (replicas setup.bounds)) }
    requires clients { length others.items ≡ length (correct_clients setup setup.clients) }
    requires ended { HaveEnded calls.now others.items }
    ensures live { IfOk result (λ trace. IsLive setup calls.now trace) }
    ensures moved { TellsMoved (moved_actor setup held.items others.items) result }
    ensures steps { TellsSteps (all_steps held.items others.items) journal result }
    ensures early { TellsEarly setup (all_steps held.items others.items) result }
{
    are_their_own(alloc, &setup, &held, &others)?;
    let steps = steps_behind(alloc, held, others)?;
    let (kept, filed) = in_order(alloc, steps, journal)?;
    let entries = tell(alloc, kept, filed)?;
    tick_in_time(alloc, &setup, entries.as_slice())?;
    Ok(Trace { setup, entries })
}

/// Whether behind each lock stands the actor that it was made for; else the first of which this is not so.
fn are_their_own<N: RunName>(
    alloc: Global,
    setup: &Setup,
    held: &[Kept<Replica, N>],
    others: &[Kept<Client, N>],
) -> Result<(), LiveFail>
    requires replicas { length held.now ≡ length (correct_replicas setup.now (replicas setup.now.bounds)) }
    requires clients { length others.now ≡ length (correct_clients setup.now setup.now.clients) }
    ensures own { OnOk result (AreTheirOwn setup.now held.now others.now) }
    ensures moved { TellsMoved (moved_actor setup.now held.now others.now) result }
    ensures locks { IfErr result IsOfLocks }
{
    let replicas = correct_replicas(alloc, setup)?;
    let clients = correct_clients(alloc, setup)?;
    let moved = moved_replica(replicas.as_slice(), held);
    match moved.or(moved_client(clients.as_slice(), others)) {
        Some((lock, held)) => Err(LiveFail::Torn(Torn::Moved { lock, held })),
        None => Ok(()),
    }
}

/// The steps that stand behind all locks, actor by actor, each with the name of its actor.
fn steps_behind<N: RunName>(
    alloc: Global,
    held: Vec<Kept<Replica, N>>,
    others: Vec<Kept<Client, N>>,
) -> Result<List<(Party, KeptStep)>, NoMemory>
    ensures steps { IfOk result (λ steps. steps ≡ all_steps held.items others.items) }
    ensures replicas { OnOk result (ReplicasStand N.setup held.items) }
    ensures clients { OnOk result (ClientsStand N.setup N.calls others.items) }
{
    let mut steps = List::new(alloc);
    put_replicas(&mut steps, held)?;
    put_clients(&mut steps, others)?;
    Ok(steps)
}

/// The kept steps and those of the journal, both in the order of their tickets.
fn in_order(
    alloc: Global,
    kept: List<(Party, KeptStep)>,
    journal: List<Filed>,
) -> Result<(List<(Party, KeptStep)>, List<(Party, KeptStep)>), NoMemory>
    ensures sorted { IfOk result (λ both. AreByTicket 0 both.0 × AreByTicket 0 both.1) }
    ensures ties { IfOk result (λ both. (ticket : ℕ)
        → steps_of_ticket ticket both.0 ≡ steps_of_ticket ticket kept) }
    ensures filed_ties { IfOk result (λ both. (ticket : ℕ)
        → steps_of_ticket ticket both.1 ≡ steps_of_ticket ticket (map as_kept journal)) }
    ensures own { IfOk result (λ both. (me : AParty) → RisesFrom 0 (own_steps me kept)
        → own_steps me both.0 ≡ own_steps me kept) }
{
    let filed = steps_filed(alloc, journal)?;
    Ok((by_ticket(kept)?, by_ticket(filed)?))
}
