ghost use Rattle.std.specs.Prelude.{◌≡◌, ◌+◌, ◌<◌, ◌≤◌, ◌++◌, length, ℕ, List as Sequence, [], ◌∷◌, if◌then◌else◌, option_map, slice_get, None, Some, IfOk};
ghost use Rattle.std.specs.Option.{option_copied};
ghost use Rattle.qu_base.specs.declared.limits.TheConstants.{REPLICA_IDS};
ghost use Rattle.qu_base.specs.declared.party.Party.TheVariants as party;
ghost use Rattle.qu_frames.specs.Reading.{own_mac, request_with};
ghost use Rattle.qu_frames.specs.Signing.{brought};
ghost use Rattle.qu_versions.specs.declared.limits.TheConstants.{MOST_VERSIONS};
ghost use Rattle.qu_versions.specs.Versions.{has_version};
ghost use Rattle.qu_frames.specs.declared.frame.Frame.TheVariants as frame;
ghost use Rattle.qu_objects.specs.States.{state_form};
ghost use Rattle.qu_base.specs.Bounds.{replicas};
ghost use Rattle.qu_waiting.specs.Waiting.{taken_by};
ghost use Rattle.qu_rows.specs.State.{AreHistories};
ghost use Rattle.qu_replica.specs.State.{with_gain};
ghost use Rattle.qu_waiting.specs.Slots.{with_fetches, without_fetch, first_waiting};
ghost use Rattle.qu_replica.specs.Growth.{MayGain};
ghost use Rattle.qu_replica.specs.Step.{is_value_of, has_kind, with_found, with_waiting, fetch_letter, fetches_from, fetches_of, counting, decided, if_handled, replica_on_frame};

use super::Replica;
use crate::planned::{Gain, Planned};
use qu_base::{List, NoMemory, ObjectId, Outbytes, Party, ReplicaId};
use qu_frames::{Frame, Letter, Reading, blank_mac};
use qu_objects::{KindName, ObjState, Value, write_state};
use qu_rows::{Decision, Handled, handle};
use qu_stamp::Stamp;
use qu_versions::{Prepared, Stored};
use qu_waiting::{
    Counting, Next, Running, Waiting, fetch_under, first_waiting, with_fetches, with_votes,
    without_fetch,
};
use std::alloc::Global;

impl Replica {
    /// What the replica will make of a request that a text brought and that lacks these versions: it waits in the slot
    /// of its client, and they are fetched.
    pub(super) fn plan_waiting(
        &self,
        text: &[u8],
        reading: &Reading,
        missing: List<(ObjectId, Stamp)>,
    ) -> Result<Planned, NoMemory>
        requires { brought self.now.keys (party.Replica self.now.me) text.now
            ≡ Some (request_with reading.now (own_mac text.now)) }
        ensures state { IfOk result (λ planned. with_gain self.now planned.gain
            ≡ with_waiting self.now (taken_by reading.now (own_mac text.now)) missing) }
        ensures letters { IfOk result (λ planned. planned.letters ≡ fetches_of self.now.keys self.now.me missing) }
        ensures may { IfOk result (λ planned. MayGain self.now planned.gain) }
    {
        let gain = Gain::nothing(self.alloc);
        let Planned {
            gain,
            letters,
            seals,
        } = self.plan_fetches(gain, self.fetching.as_slice(), missing.as_slice())?;
        let client = reading.client();
        let me = Party::Replica(self.me);
        let waiting = Waiting::new(self.alloc, &self.keys, me, text, reading, missing)?;
        Ok(Planned {
            gain: gain.with_turn(client, Next::Waits(waiting)),
            letters,
            seals,
        })
    }

    /// The plan to gain this, where these fetches and those of the missing versions run, and to ask each other replica
    /// for each of these versions.
    fn plan_fetches(
        &self,
        gain: Gain,
        fetching: &[Running],
        missing: &[(ObjectId, Stamp)],
    ) -> Result<Planned, NoMemory>
        requires histories { gain.histories ≡ [] }
        ensures gain { IfOk result (λ planned. planned.gain ≡ record gain {
          fetching = Some (with_fetches (self.now.keys.bounds + 1) missing.now fetching.now);
        }) }
        ensures letters { IfOk result (λ planned. planned.letters ≡ fetches_of self.now.keys self.now.me missing.now) }
        ensures room { IfOk result (λ planned. length ((self.now.versions ++ planned.gain.found)
            ++ planned.gain.versions) ≤ MOST_VERSIONS) }
    {
        let (fetching, letters) = self.asked(fetching, missing)?;
        let gain = self.with_room(gain.with_fetching(fetching))?;
        Ok(Planned {
            gain,
            letters,
            seals: List::new(self.alloc),
        })
    }

    /// These fetches with those of the missing versions, and the letters that ask each other replica for them.
    fn asked(
        &self,
        fetching: &[Running],
        missing: &[(ObjectId, Stamp)],
    ) -> Result<(List<Running>, List<Letter>), NoMemory>
        ensures fetching { IfOk result (λ asked. asked.0
            ≡ with_fetches (self.now.keys.bounds + 1) missing.now fetching.now) }
        ensures letters { IfOk result (λ asked. asked.1 ≡ fetches_of self.now.keys self.now.me missing.now) }
    {
        let need = self.keys.bounds().b() + 1;
        let fetching = with_fetches(self.alloc, fetching, need, missing)?;
        Ok((fetching, self.fetches(missing)?))
    }

    /// The letters that ask each other replica for each of these versions.
    #[tactic(auto, unfolding(crate::specs::Step::fetches_of), using(std::proofs::Common::append_assoc))]
    fn fetches(&self, missing: &[(ObjectId, Stamp)]) -> Result<List<Letter>, NoMemory>
        ensures { IfOk result (λ letters. letters ≡ fetches_of self.now.keys self.now.me missing.now) }
    {
        let mut letters = List::new(self.alloc);
        for key in missing {
            letters = self.with_fetches_of(letters, key.0, key.1)?;
        }
        Ok(letters)
    }

    /// The letters with those that ask each other replica for this version.
    #[tactic(auto, using(crate::proofs::Requests::Fetches::fetches_on))]
    fn with_fetches_of(
        &self,
        mut letters: List<Letter>,
        object: ObjectId,
        stamp: Stamp,
    ) -> Result<List<Letter>, NoMemory>
        ensures { IfOk result (λ made. made
            ≡ letters ++ fetches_from self.now.keys self.now.me (object, stamp) 0 (replicas self.now.keys.bounds)) }
    {
        for number in 0..self.keys.bounds().n() {
            if number == self.me.0 {
                continue;
            }
            letters.push(self.fetch_letter(object, stamp, ReplicaId(number))?)?;
        }
        Ok(letters)
    }

    /// The letter that asks a replica for this version.
    fn fetch_letter(
        &self,
        object: ObjectId,
        stamp: Stamp,
        replica: ReplicaId,
    ) -> Result<Letter, NoMemory>
        ensures { IfOk result (λ letter. letter
            ≡ fetch_letter self.now.keys self.now.me (object, stamp) replica.0) }
    {
        let frame = Frame::Fetch {
            replica: self.me,
            object,
            stamp,
            mac: blank_mac(),
        };
        self.letter_for(replica, &frame)
    }

    /// What the replica will make of a version that another sent.
    pub(super) fn plan_fetched(
        &self,
        replica: ReplicaId,
        object: ObjectId,
        stamp: Stamp,
        version: ObjState,
    ) -> Result<Planned, NoMemory>
        requires { replica.0 < REPLICA_IDS }
        ensures state { (mac : Sequence ℕ) → IfOk result (λ planned. with_gain self.now planned.gain
            ≡ (replica_on_frame self.now (frame.Fetched replica object stamp version mac)).0) }
        ensures letters { (mac : Sequence ℕ) → IfOk result (λ planned. planned.letters
            ≡ (replica_on_frame self.now (frame.Fetched replica object stamp version mac)).1) }
        ensures may { IfOk result (λ planned. MayGain self.now planned.gain) }
        ensures histories { AreHistories self.now }
    {
        if !self.has_kind(object, &version.value) {
            return self.plan_letters(List::new(self.alloc));
        }
        let fetching = self.fetching.as_slice();
        let Some(running) = fetch_under(fetching, object, &stamp) else {
            return self.plan_letters(List::new(self.alloc));
        };
        let text = spelled(self.alloc, &version)?;
        if running.answers.completes(replica, &text) {
            return self.plan_found(object, stamp, version);
        }
        let fetching = with_votes(self.alloc, fetching, object, &stamp, replica, &text)?;
        self.plan_fetching(fetching)
    }

    /// Whether a version that a replica sends counts as its answer, and is found by it.
    pub fn counting(
        &self,
        replica: ReplicaId,
        object: ObjectId,
        stamp: &Stamp,
        version: &ObjState,
    ) -> Result<Counting, NoMemory>
        ensures { IfOk result (λ counts. counts ≡ counting self.now replica object stamp.now version.now) }
    {
        let Some(running) = fetch_under(self.fetching.as_slice(), object, stamp) else {
            return Ok(Counting::NotFetched);
        };
        if !self.has_kind(object, &version.value) {
            return Ok(Counting::OtherKind);
        }
        if running.answers.has_answered(replica) {
            return Ok(Counting::Twice);
        }
        let text = spelled(self.alloc, version)?;
        if running.answers.completes(replica, &text) {
            return Ok(Counting::Found);
        }
        Ok(Counting::Counted)
    }

    /// The waiting request of the lowest client that lacks the version of the object under this stamp: the one that is
    /// handled anew where this version is found.
    pub fn first_waiting(&self, object: ObjectId, stamp: &Stamp) -> Option<&Waiting>
        ensures { option_copied result ≡ first_waiting object stamp.now self.now.waiting }
    {
        first_waiting(self.waiting.as_slice(), object, stamp)
    }

    /// Whether the object has a kind, and the value is of this kind.
    fn has_kind(&self, object: ObjectId, value: &Value) -> bool
        ensures { result ≡ has_kind (slice_get self.now.kinds object.0) value.now }
    {
        match self.kinds.as_slice().get(usize::from(object.0)) {
            Some(kind) => is_value_of(*kind, value),
            None => false,
        }
    }

    /// The plan of a step after which these fetches run.
    fn plan_fetching(&self, fetching: List<Running>) -> Result<Planned, NoMemory>
        ensures state { IfOk result (λ planned. with_gain self.now planned.gain
            ≡ record self.now { fetching = fetching }) }
        ensures letters { IfOk result (λ planned. planned.letters ≡ []) }
        ensures may { IfOk result (λ planned. MayGain self.now planned.gain) }
    {
        let Planned {
            gain,
            letters,
            seals,
        } = self.plan_letters(List::new(self.alloc))?;
        Ok(Planned {
            gain: gain.with_fetching(fetching),
            letters,
            seals,
        })
    }

    /// What the replica will do about a version that is found: it is stored where none is held, and the waiting request
    /// of the lowest client that lacks it is handled anew.
    fn plan_found(
        &self,
        object: ObjectId,
        stamp: Stamp,
        version: ObjState,
    ) -> Result<Planned, NoMemory>
        ensures state { IfOk result (λ planned. with_gain self.now planned.gain
            ≡ (if_handled (with_found self.now object stamp version)
            (option_map (λ waiting. waiting.request) (first_waiting object stamp self.now.waiting))).0) }
        ensures letters { IfOk result (λ planned. planned.letters
            ≡ (if_handled (with_found self.now object stamp version)
            (option_map (λ waiting. waiting.request) (first_waiting object stamp self.now.waiting))).1) }
        ensures may { IfOk result (λ planned. MayGain self.now planned.gain) }
    {
        let held = self.version(object, &stamp).is_some();
        let fetching = without_fetch(self.alloc, self.fetching.as_slice(), object, &stamp)?;
        let found = Stored {
            object,
            stamp,
            state: version,
        };
        match first_waiting(self.waiting.as_slice(), object, &stamp) {
            None => {
                let gain = gain_found(self.alloc, found, held)?.with_fetching(fetching);
                Ok(Planned {
                    gain: self.with_room(gain)?,
                    letters: List::new(self.alloc),
                    seals: List::new(self.alloc),
                })
            }
            Some(waiting) => self.plan_woken(waiting, found, held, fetching),
        }
    }

    /// What it makes of the version that is found, where this is the request that the version wakes.
    fn plan_woken(
        &self,
        waiting: &Waiting,
        found: Stored,
        held: bool,
        fetching: List<Running>,
    ) -> Result<Planned, NoMemory>
        requires held { held ≡ has_version found.object found.stamp self.now.versions }
        requires fetching { fetching ≡ without_fetch found.object found.stamp self.now.fetching }
        requires lowest { first_waiting found.object found.stamp self.now.waiting ≡ Some waiting.now }
        ensures state { IfOk result (λ planned. with_gain self.now planned.gain
            ≡ (decided (with_found self.now found.object found.stamp found.state) waiting.now.request).0) }
        ensures letters { IfOk result (λ planned. planned.letters
            ≡ (decided (with_found self.now found.object found.stamp found.state) waiting.now.request).1) }
        ensures may { IfOk result (λ planned. MayGain self.now planned.gain) }
    {
        let reading = &waiting.reading;
        let client = reading.client();
        let more = unless_held(held, &found);
        let Handled { named, decision } = handle(
            self.alloc,
            self.me,
            &self.keys,
            &self.rows(more),
            reading,
        )?;
        let gain = gain_found(self.alloc, found, held)?;
        match decision {
            Decision::Answers { verdict, accepted } => {
                let gain = gain
                    .with_fetching(fetching)
                    .with_turn(client, Next::Nothing);
                self.plan_answer(gain, reading, named, verdict, accepted.as_slice())
            }
            Decision::Waits { missing } => {
                let Planned {
                    gain,
                    letters,
                    seals,
                } = self.plan_fetches(gain, fetching.as_slice(), missing.as_slice())?;
                Ok(Planned {
                    gain: gain.with_turn(client, Next::Lacks(missing)),
                    letters,
                    seals,
                })
            }
        }
    }
}

/// The version, where none is held under its key.
fn unless_held(held: bool, found: &Stored) -> Option<&Stored>
    ensures { option_copied result ≡ if held then None else Some found.now }
{
    if held { None } else { Some(found) }
}

/// What a state gains by a version that is found, where none is held under its key.
fn gain_found(alloc: Global, found: Stored, held: bool) -> Result<Gain, NoMemory>
    ensures { IfOk result (λ gain. gain ≡ record {
      histories = [];
      found = if held then [] else found ∷ [];
      versions = [];
      turn = None;
      fetching = None;
    }) }
{
    let found = if held {
        Prepared::none(alloc)
    } else {
        Prepared::one(alloc, found)?
    };
    Ok(Gain {
        histories: List::new(alloc),
        found,
        versions: Prepared::none(alloc),
        turn: None,
        fetching: None,
    })
}

/// The bytes of a version.
fn spelled(alloc: Global, version: &ObjState) -> Result<List<u8>, NoMemory>
    ensures { IfOk result (λ text. text ≡ state_form.spell version.now) }
{
    let mut out = Outbytes::new(alloc);
    write_state(version, &mut out)?;
    Ok(out.done())
}

fn is_value_of(kind: KindName, value: &Value) -> bool
    ensures { result ≡ is_value_of kind value.now }
{
    match (kind, value) {
        (KindName::Counter, Value::Counter(_))
        | (KindName::Blob, Value::Blob(_))
        | (KindName::Dir, Value::Dir(_)) => true,
        _ => false,
    }
}
