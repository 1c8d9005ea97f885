ghost use Rattle.std.specs.Prelude.{◌≡◌, ◌≢◌, ◌<◌, ◌^◌, length, Err, Some, None, slice_get, IfSome, IfOk, OnOk, OnErr, IfErr};
ghost use Rattle.std.specs.Option.{option_copied};
ghost use Rattle.qu_world.specs.declared.fail.WorldFail.{WorldFail as Fail};
ghost use Rattle.qu_base.specs.declared.party.Party.TheVariants as party;
ghost use Rattle.qu_trace.specs.Faulty.{is_faulty};
ghost use Rattle.qu_world.specs.State.{opening_world, correct_client, correct_replica, history_at};
ghost use Rattle.qu_world.specs.Step.{world_step};
ghost use Rattle.qu_world.specs.Refusals.{cause_of, limit_of, refusal_of};
ghost use Rattle.qu_rows.specs.State.{AreHistories};
ghost use Rattle.qu_world.specs.Growth.{GrowsTo};
ghost use Rattle.qu_world.specs.Run.{IsSetup, IsRun, IsWorld, trace_of};

use super::WorldFail;
use super::opening::{start_clients, start_replicas};
use super::parties::client_at;
use super::recording::record_event;
use super::refusals::{
    limit_at, refuse_delivery, refuse_injection, refuse_invocation, refuse_tick,
};
use qu_base::{ClientId, List, NoMemory, ObjectId, Party, ReplicaId};
use qu_client::Client;
use qu_frames::Reading;
use qu_history::History;
use qu_replica::Replica;
use qu_seal::KeyRing;
use qu_trace::{Entry, Event, Sent, Setup, Starts, Trace};
use std::alloc::Global;
use std::marker::Model;

/// A run under way: the replicas and clients of a setup, and the record of the events so far.
pub struct World {
    alloc: Global,
    trace: Trace,
    replicas: Vec<Replica>,
    /// The last request that a replica was handed: its client sends it to the others as well.
    last: Option<Reading>,
    clients: Vec<Client>,
    /// Where the letters of each entry begin.
    starts: Starts,
    /// How many bytes the letters that were sent have together, at most 2^128 - 1.
    sent: u128,
}

/// By hand, so that a value is let go in one step wherever that is.
impl Drop for World {
    fn drop(self) {
        let World {
            alloc: _,
            trace: _,
            replicas: _,
            last: _,
            clients: _,
            starts: _,
            sent: _,
        } = self;
    }
}

impl Model for World {
    ghost use Rattle.qu_trace.specs.Starts.{AreStarts};
    ghost use Rattle.qu_world.specs.State.{WorldState, world_of};
    ghost use Rattle.qu_rows.specs.State.{AreHistories};
    ghost use Rattle.qu_world.specs.Growth.{GrowsTo};
    ghost use Rattle.qu_world.specs.Run.{IsCounted};

    ghost Value = { WorldState };

    ghost view = { λ world. world_of world.trace.setup world.replicas.items world.clients.items world.trace.entries };

    ghost invariant = { λ world. IsCounted
        (world_of world.trace.setup world.replicas.items world.clients.items world.trace.entries) world.sent
        × AreStarts world.trace.entries world.starts };
}

impl World {
    /// A world in which nothing happened yet.
    pub fn start(alloc: Global, setup: Setup) -> Result<World, NoMemory>
        requires { IsSetup setup }
        ensures { IfOk result (λ world. world ≡ opening_world setup) }
    {
        let keys = KeyRing::derive(setup.seed, &setup.bounds, setup.clients);
        let replicas = start_replicas(alloc, keys, &setup)?;
        let clients = start_clients(alloc, keys, setup.seed, setup.clients)?;
        let entries = List::new(alloc);
        Ok(World {
            alloc,
            trace: Trace { setup, entries },
            replicas,
            last: None,
            clients,
            starts: Starts::none(alloc),
            sent: 0,
        })
    }

    /// Lets an event happen: one party steps, and the event is recorded with what it made.
    ///
    /// Its refusals come in the order of `WorldFail`, before any change. No replica forgets anything.
    #[tactic(auto, using(crate::proofs::WorldGrowth::growth_laws))]
    pub fn apply(&mut self, event: Event) -> Result<(), WorldFail>
        ensures ok { OnOk result (self.new ≡ world_step self.old event) }
        ensures accepted { OnOk result (refusal_of self.old event ≡ None) }
        ensures refused { IfErr result (λ fail. fail ≢ WorldFail.NoMemory → refusal_of self.old event ≡ Some fail) }
        ensures told { (fail : Fail) → refusal_of self.old event ≡ Some fail → result ≡ Err fail }
        ensures err { OnErr result (self.new ≡ self.old) }
        ensures grows { GrowsTo self.old self.new }
    {
        match self.refusal(&event) {
            Some(fail) => Err(fail),
            None => Ok(self.record(event)?),
        }
    }

    /// Lets an event happen as `apply` does, with no limit on the events and letters of the run.
    ///
    /// Its refusals are `NoSuchLetter`, `NoSuchActor` and `Busy`, before any change.
    #[tactic(auto, using(crate::proofs::WorldGrowth::growth_laws))]
    pub fn follow(&mut self, event: Event) -> Result<(), WorldFail>
        ensures ok { OnOk result (self.new ≡ world_step self.old event) }
        ensures accepted { OnOk result (cause_of self.old event ≡ None) }
        ensures refused { IfErr result (λ fail. fail ≢ WorldFail.NoMemory → cause_of self.old event ≡ Some fail) }
        ensures told { (fail : Fail) → cause_of self.old event ≡ Some fail → result ≡ Err fail }
        ensures err { OnErr result (self.new ≡ self.old) }
        ensures grows { GrowsTo self.old self.new }
    {
        match self.cause(&event) {
            Some(fail) => Err(fail),
            None => Ok(self.record(event)?),
        }
    }

    /// Lets an event happen that may happen. Without memory the world is as before.
    #[tactic(auto, using(crate::proofs::WorldGrowth::growth_laws))]
    fn record(&mut self, event: Event) -> Result<(), NoMemory>
        requires { cause_of self.old event ≡ None }
        ensures ok { OnOk result (self.new ≡ world_step self.old event) }
        ensures err { OnErr result (self.new ≡ self.old) }
        ensures grows { GrowsTo self.old self.new }
    {
        are_few(self.trace.entries.as_slice());
        let bytes = record_event(
            self.alloc,
            &mut self.replicas,
            &mut self.last,
            &mut self.clients,
            &mut self.trace,
            &mut self.starts,
            event,
        )?;
        self.sent = self.sent.saturating_add(bytes);
        Ok(())
    }

    /// Why an event does not happen: its cause, and else a limit of the run.
    fn refusal(&self, event: &Event) -> Option<WorldFail>
        ensures { result ≡ refusal_of self.now event.now }
    {
        self.cause(event).or(self.limit())
    }

    /// Why an event cannot happen here.
    fn cause(&self, event: &Event) -> Option<WorldFail>
        ensures { result ≡ cause_of self.now event.now }
    {
        let clients = self.clients.as_slice();
        match event {
            Event::Invoke(me, _) | Event::Tick(me) if self.is_faulty_client(*me) => {
                Some(WorldFail::NoSuchActor(Party::Client(*me)))
            }
            Event::Invoke(me, _) => refuse_invocation(clients, *me),
            Event::Deliver(number) => refuse_delivery(&self.sent(), *number),
            Event::Tick(me) => refuse_tick(clients, *me),
            Event::Inject(who, _) => refuse_injection(self.replicas.as_slice(), clients, *who),
        }
    }

    /// Why no event happens any more.
    #[tactic(auto, using(crate::proofs::RunLaws::limit_counted))]
    fn limit(&self) -> Option<WorldFail>
        ensures { result ≡ limit_of self.now.entries }
    {
        limit_at(self.trace.entries.len(), self.sent)
    }

    /// The record of the events so far.
    pub fn trace(&self) -> &Trace
        ensures value { result.now ≡ trace_of self.now }
        ensures run { IsRun result.now }
        ensures world { IsWorld self.now }
    {
        &self.trace
    }

    /// The entries of the record, in which a letter is found by its number at once.
    pub fn sent(&self) -> Sent<'_>
        ensures { result ≡ self.now.entries }
    {
        Sent::new(self.trace.entries.as_slice(), self.starts.places.as_slice())
    }

    /// The record of all events.
    pub fn into_trace(self) -> Trace
        ensures value { result ≡ trace_of self }
        ensures run { IsRun result }
    {
        let World {
            alloc: _,
            trace,
            replicas: _,
            last: _,
            clients: _,
            starts: _,
            sent: _,
        } = self;
        trace
    }

    /// The replicas as they are now, from that with number 0 on. A faulty one keeps nothing.
    pub fn replicas(&self) -> &[Replica]
        ensures { result.now ≡ self.now.replicas }
    {
        self.replicas.as_slice()
    }

    /// The replica with this number as it is now. None exactly where the setup has no such correct replica.
    pub fn replica(&self, me: ReplicaId) -> Option<&Replica>
        ensures { option_copied result ≡ correct_replica self.now me }
    {
        if self.trace.setup.is_faulty(Party::Replica(me)) {
            return None;
        }
        self.replicas.as_slice().get(usize::from(me.0))
    }

    /// The history of an object at a replica as it is now: it rises from the opening candidate. None
    /// exactly where the setup has no such correct replica or no such object.
    pub fn history(&self, me: ReplicaId, object: ObjectId) -> Option<&History>
        ensures value { option_copied result ≡ history_at self.now me object }
        ensures rising { IfSome (slice_get self.now.replicas me.0) AreHistories }
    {
        let replica = self.replicas.as_slice().get(usize::from(me.0))?;
        replica.history(object)
    }

    /// The client with this number as it is now. None exactly where the setup has no such correct client.
    pub fn client(&self, me: ClientId) -> Option<&Client>
        ensures { option_copied result ≡ correct_client self.now me }
    {
        if self.is_faulty_client(me) {
            return None;
        }
        client_at(self.clients.as_slice(), me)
    }

    fn is_faulty_client(&self, me: ClientId) -> bool
        ensures { result ≡ is_faulty self.now.setup (party.Client me) }
    {
        self.trace.setup.is_faulty(Party::Client(me))
    }
}

/// A list that is in memory has fewer than 2^63 entries.
fn are_few(entries: &[Entry])
    ensures { length entries.now < 2 ^ 63 }
{}
