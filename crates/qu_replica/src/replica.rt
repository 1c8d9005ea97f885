ghost use Rattle.std.specs.Prelude.{◌≡◌, ◌<◌, ◌≤◌, ◌++◌, length, slice_get, None, Some, IfOk, OnOk, OnErr};
ghost use Rattle.std.specs.Option.{option_copied};
ghost use Rattle.std.specs.List.{AllByRecursion};
ghost use Rattle.qu_base.specs.Format.{AreBytes};
ghost use Rattle.qu_base.specs.declared.limits.TheConstants.{OBJECT_IDS, REPLICA_IDS};
ghost use Rattle.qu_rows.specs.State.{AreHistories, without_waiting, one_more};
ghost use Rattle.qu_versions.specs.Versions.{version_at};
ghost use Rattle.qu_fitting.specs.Holding.{replica_at_start};
ghost use Rattle.qu_fitting.specs.Holding.{with_histories};
ghost use Rattle.qu_replica.specs.State.{with_gain};
ghost use Rattle.qu_frames.specs.Signing.{before_mac};
ghost use Rattle.qu_replica.specs.Step.{replica_step};
ghost use Rattle.qu_replica.specs.Growth.{Grows, MayGain};
ghost use Rattle.qu_fitting.specs.Fits.{StateFits, LetterFits};

mod fetching;
mod opening;
mod others;
mod reply;

use crate::planned::{Gain, Planned};
use crate::seals::{Seal, keep_seals, no_seals};
use qu_base::{Bounds, List, NoMemory, ObjectId, Party, ReplicaId};
use qu_frames::{Letter, Reading, read_request};
use qu_history::History;
use qu_objects::{KindName, ObjState};
use qu_rows::{Decision, Handled, Rows, handle};
use qu_seal::KeyRing;
use qu_stamp::Stamp;
use qu_versions::{Stored, VersionStore};
use qu_waiting::{Running, Waiting, empty_slots, turn_slot};
use std::alloc::Global;
use std::marker::Model;

/// One replica. It keeps a history of each object, the versions that it accepted or fetched, and the requests that wait
/// for those that it fetches.
pub struct Replica {
    alloc: Global,
    me: ReplicaId,
    keys: KeyRing,
    kinds: List<KindName>,
    histories: Vec<History>,
    versions: VersionStore,
    /// The waiting request of each client, in slots by the numbers of the clients.
    waiting: Vec<Option<Waiting>>,
    fetching: List<Running>,
    /// Of each object the history that was sealed last.
    seals: Vec<Option<Seal>>,
}

/// By hand, so that a value is let go in one step wherever that is.
impl Drop for Replica {
    fn drop(self) {
        let Replica {
            alloc: _,
            me: _,
            keys: _,
            kinds: _,
            histories: _,
            versions: _,
            waiting: _,
            fetching: _,
            seals: _,
        } = self;
    }
}

impl Model for Replica {
    ghost use Rattle.std.specs.Prelude.{IsTrue};
    ghost use Rattle.qu_rows.specs.State.{ReplicaState, are_own};
    ghost use Rattle.qu_waiting.specs.Slots.{are_slots};

    ghost Value = { ReplicaState };

    ghost view = { λ replica. record {
      me = replica.me;
      keys = replica.keys;
      kinds = replica.kinds;
      histories = replica.histories.items;
      versions = replica.versions;
      waiting = replica.waiting.items;
      fetching = replica.fetching;
    } };

    ghost invariant = { λ replica. IsTrue (are_own replica.me 0 replica.histories.items)
        × IsTrue (are_slots 0 replica.waiting.items) };
}

impl Replica {
    /// A replica that has accepted nothing but the opening candidates of its objects, which are
    /// numbered as their kinds stand.
    #[tactic(auto, using(qu_fitting::proofs::OwnHistories::are_own_opening, qu_waiting::proofs::SlotLaws::opening_slots))]
    pub fn start(
        alloc: Global,
        me: ReplicaId,
        keys: KeyRing,
        kinds: &[KindName],
    ) -> Result<Replica, NoMemory>
        requires { length kinds.now ≤ OBJECT_IDS }
        ensures value { IfOk result (λ replica. replica ≡ replica_at_start me keys kinds.now) }
        ensures fits { me.0 < REPLICA_IDS → IfOk result StateFits }
    {
        // Tells the proof that the number of faults is in its range.
        keys.bounds().b();
        Ok(Replica {
            alloc,
            me,
            keys,
            kinds: List::from_clones(alloc, kinds)?,
            histories: opening::histories(alloc, me, kinds)?,
            versions: VersionStore::fresh(alloc, kinds)?,
            waiting: empty_slots(alloc)?,
            fetching: List::new(alloc),
            seals: no_seals(alloc, kinds.len())?,
        })
    }

    /// How many replicas there are, and how many may lie.
    pub fn bounds(&self) -> Bounds
        ensures { result ≡ self.now.keys.bounds }
    {
        self.keys.bounds()
    }

    /// Its history of an object, None exactly where it does not have the object.
    pub fn history(&self, object: ObjectId) -> Option<&History>
        ensures value { option_copied result ≡ slice_get self.now.histories object.0 }
        ensures rising { AreHistories self.now }
    {
        self.histories.as_slice().get(usize::from(object.0))
    }

    /// The version of an object under a stamp, None exactly where it stores none. Of each candidate that it accepted it
    /// stores one, but of barriers, which have none; and it may store one of a candidate that it has not accepted.
    pub fn version(&self, object: ObjectId, stamp: &Stamp) -> Option<&ObjState>
        ensures { option_copied result ≡ version_at object stamp.now self.now.versions }
    {
        self.versions.get(object, stamp)
    }

    /// Handles a text, and gives the letters that answer it: one to a request that it decides; to a request whose
    /// versions it lacks none, but the fetches of these versions, of each from each other replica; one to a fetch of a
    /// version that it holds; and to a version that completes a fetch those of the request that it wakes, if any. None
    /// to another fetch or version, to a reply, to a text that is no frame, and to a frame whose HMAC is wrong for it.
    /// Without memory it stays as it is.
    pub fn step(&mut self, text: &[u8]) -> Result<List<Letter>, NoMemory>
        ensures state { OnOk result (self.new ≡ (replica_step self.old text.now).0) }
        ensures letters { IfOk result (λ letters. letters ≡ (replica_step self.old text.now).1) }
        ensures err { OnErr result (self.new ≡ self.old) }
        ensures histories { AreHistories self.new }
        ensures grows { Grows self.old self.new }
        ensures holds_what_fits { StateFits self.old → StateFits self.new }
        ensures sends_what_fits { StateFits self.old → IfOk result (AllByRecursion LetterFits) }
    {
        are_bytes(text);
        let planned = self.plan(text)?;
        Ok(self.carry_out(planned))
    }

    /// Handles a text as `step` does, where this is a reading of the request that it says.
    pub fn step_read(&mut self, text: &[u8], reading: &Reading) -> Result<List<Letter>, NoMemory>
        requires { before_mac text.now ≡ reading.now.front }
        ensures state { OnOk result (self.new ≡ (replica_step self.old text.now).0) }
        ensures letters { IfOk result (λ letters. letters ≡ (replica_step self.old text.now).1) }
        ensures err { OnErr result (self.new ≡ self.old) }
        ensures histories { AreHistories self.new }
        ensures grows { Grows self.old self.new }
        ensures holds_what_fits { StateFits self.old → StateFits self.new }
        ensures sends_what_fits { StateFits self.old → IfOk result (AllByRecursion LetterFits) }
    {
        are_bytes(text);
        let planned = self.plan_read(text, reading)?;
        Ok(self.carry_out(planned))
    }

    /// What `step` will make of this text. All that the step takes of memory is taken here.
    pub fn plan(&self, text: &[u8]) -> Result<Planned, NoMemory>
        ensures state { IfOk result (λ planned. with_gain self.now planned.gain
            ≡ (replica_step self.now text.now).0) }
        ensures letters { IfOk result (λ planned. planned.letters ≡ (replica_step self.now text.now).1) }
        ensures may { IfOk result (λ planned. MayGain self.now planned.gain) }
        ensures histories { AreHistories self.now }
    {
        match read_request(self.alloc, text)? {
            Some(reading) => self.plan_read(text, &reading),
            None => self.plan_other(text),
        }
    }

    /// What `step` will make of this text, where this is a reading of the request that it says.
    pub fn plan_read(&self, text: &[u8], reading: &Reading) -> Result<Planned, NoMemory>
        requires { before_mac text.now ≡ reading.now.front }
        ensures state { IfOk result (λ planned. with_gain self.now planned.gain
            ≡ (replica_step self.now text.now).0) }
        ensures letters { IfOk result (λ planned. planned.letters ≡ (replica_step self.now text.now).1) }
        ensures may { IfOk result (λ planned. MayGain self.now planned.gain) }
        ensures histories { AreHistories self.now }
    {
        if !reading.is_brought(&self.keys, Party::Replica(self.me), text) {
            return self.plan_letters(List::new(self.alloc));
        }
        let Handled { named, decision } = handle(
            self.alloc,
            self.me,
            &self.keys,
            &self.rows(None),
            reading,
        )?;
        match decision {
            Decision::Answers { verdict, accepted } => {
                let gain = Gain::nothing(self.alloc);
                self.plan_answer(gain, reading, named, verdict, accepted.as_slice())
            }
            Decision::Waits { missing } => self.plan_waiting(text, reading, missing),
        }
    }

    /// Makes what was planned of the state that the replica has, which takes no memory.
    pub fn carry_out(&mut self, planned: Planned) -> List<Letter>
        requires { MayGain self.old planned.gain }
        ensures state { self.new ≡ with_gain self.old planned.gain }
        ensures letters { result ≡ planned.letters }
    {
        let Planned {
            gain,
            letters,
            seals,
        } = planned;
        self.take(gain);
        keep_seals(&mut self.seals, seals);
        letters
    }

    /// Puts each history in the place of that of its object, the versions after the others, and what waits and is
    /// fetched in the place of what did.
    fn take(&mut self, gain: Gain)
        requires { MayGain self.old gain }
        ensures { self.new ≡ with_gain self.old gain }
    {
        let (histories, found, versions, turn, fetching) = gain.into_parts();
        put_histories(&mut self.histories, histories);
        self.versions.put_prepared(found);
        self.versions.put_prepared(versions);
        if let Some(turn) = turn {
            turn_slot(self.waiting.as_mut_slice(), turn);
        }
        if let Some(fetching) = fetching {
            self.fetching = fetching;
        }
    }

    /// What its rows look at: what it holds, and one version more where there is one.
    fn rows<'a>(&'a self, more: Option<&'a Stored>) -> Rows<'a>
        ensures value { result ≡ without_waiting
            (record self.now { versions = self.now.versions ++ one_more (option_copied more.entry) }) }
        ensures histories { AreHistories self.now }
    {
        let histories = self.histories.as_slice();
        Rows::new(
            self.alloc,
            self.me,
            &self.keys,
            histories,
            &self.versions,
            more,
        )
    }
}

/// Puts each history in the place of that of its object.
fn put_histories(histories: &mut Vec<History>, grown: List<History>)
    requires known { AllByRecursion (λ history. (history.object).0 < length histories.old.items) grown }
    ensures { histories.new.items ≡ with_histories grown histories.old.items }
{
    for history in grown.into_vec() {
        let place = usize::from(history.object().0);
        histories[place] = history;
    }
}

/// What a slice of bytes holds are bytes.
fn are_bytes(text: &[u8])
    ensures { AreBytes text.now }
{}
