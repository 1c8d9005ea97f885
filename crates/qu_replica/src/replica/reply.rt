ghost use Rattle.std.specs.Prelude.{◌≡◌, ◌<◌, ◌≤◌, [], ◌∷◌, ◌++◌, length, map, slice_get, Some, IfOk, IfSome, OnOk};
ghost use Rattle.std.specs.List.{AllByRecursion};
ghost use Rattle.std.specs.Option.{option_copied};
ghost use Rattle.qu_seal.specs.Keys.{authenticator_of};
ghost use Rattle.qu_history.specs.Culling.{history_digest};
ghost use Rattle.qu_history.specs.Sealing.{sealed_by};
ghost use Rattle.qu_fitting.specs.Holding.{accept, accept_all, accepted_of, stored_all};
ghost use Rattle.qu_fitting.specs.Holding.{with_histories};
ghost use Rattle.qu_replica.specs.State.{with_gain};
ghost use Rattle.qu_rows.specs.Named.{named};
ghost use Rattle.qu_replica.specs.Step.{shown, reply};
ghost use Rattle.qu_versions.specs.declared.limits.TheConstants.{MOST_VERSIONS};
ghost use Rattle.qu_rows.specs.Allowed.{MayAccept, MayAcceptAll};
ghost use Rattle.qu_replica.specs.Growth.{MayGain};
ghost use Rattle.qu_rows.specs.State.{AreHistories};
ghost use Rattle.qu_waiting.specs.Slots.{AreSlots, TurnFits};

use super::Replica;
use crate::planned::{Gain, Planned};
use crate::seals::Seal;
use crate::versions;
use qu_base::{List, NoMemory, ObjectId, Party, ReplicaId};
use qu_frames::{Frame, Letter, Reading, Verdict, blank_mac};
use qu_history::{AddFail, History, Sealed, Sets};
use qu_mends::Accepted;
use qu_versions::Prepared;

impl Replica {
    /// What it will make to answer a request, upon the state with what it gained before.
    pub(super) fn plan_answer(
        &self,
        gain: Gain,
        reading: &Reading,
        culled: List<(ObjectId, ReplicaId)>,
        verdict: Verdict,
        accepted: &[Accepted],
    ) -> Result<Planned, NoMemory>
        requires histories { gain.histories ≡ [] }
        requires versions { gain.versions ≡ [] }
        requires turn { TurnFits self.now.waiting gain.turn }
        requires may { MayAcceptAll self.now accepted.now }
        requires named { culled ≡ named self.now reading.now.sets }
        ensures state { IfOk result (λ planned. with_gain self.now planned.gain
            ≡ accept_all (with_gain self.now gain) accepted.now) }
        ensures letters { IfOk result (λ planned. planned.letters ≡ reply (accept_all self.now accepted.now)
            reading.now.client reading.now.number reading.now.round reading.now.sets verdict ∷ []) }
        ensures may { IfOk result (λ planned. MayGain self.now planned.gain) }
    {
        let mut seals = List::new(self.alloc);
        Ok(Planned {
            letters: self.reply(reading, culled, verdict, accepted, &mut seals)?,
            gain: self.accepted(gain, accepted)?,
            seals,
        })
    }

    /// What the state gains with the candidates that are accepted, and their versions.
    fn accepted(&self, gain: Gain, accepted: &[Accepted]) -> Result<Gain, NoMemory>
        requires histories { gain.histories ≡ [] }
        requires versions { gain.versions ≡ [] }
        requires turn { TurnFits self.now.waiting gain.turn }
        requires may { MayAcceptAll self.now accepted.now }
        ensures state { IfOk result (λ made. with_gain self.now made
            ≡ accept_all (with_gain self.now gain) accepted.now) }
        ensures may { IfOk result (MayGain self.now) }
    {
        let (histories, versions) = self.made(accepted)?;
        let gain = self.with_room(gain.with_accepted(histories, versions))?;
        Ok(gain)
    }

    /// The histories of the objects of accepted candidates, each with its candidate, and their versions.
    fn made(&self, accepted: &[Accepted]) -> Result<(List<History>, Prepared), NoMemory>
        requires { MayAcceptAll self.now accepted.now }
        ensures histories { IfOk result (λ made. with_histories made.0 self.now.histories
            ≡ (accept_all self.now accepted.now).histories) }
        ensures known { IfOk result (λ made. AllByRecursion
            (λ history. (history.object).0 < length self.now.histories) made.0) }
        ensures versions { IfOk result (λ made. made.1 ≡ stored_all accepted.now) }
        ensures own { OnOk result (AreHistories self.now) }
        ensures slots { OnOk result (AreSlots self.now.waiting) }
    {
        let histories = self.grown_each(accepted)?;
        Ok((histories, versions::stored(self.alloc, accepted)?))
    }

    /// The histories of the objects of accepted candidates, each with its candidate.
    fn grown_each(&self, accepted: &[Accepted]) -> Result<List<History>, NoMemory>
        requires { MayAcceptAll self.now accepted.now }
        ensures histories { IfOk result (λ grown. with_histories grown self.now.histories
            ≡ (accept_all self.now accepted.now).histories) }
        ensures known { IfOk result (AllByRecursion
            (λ history. (history.object).0 < length self.now.histories)) }
    {
        let mut grown = List::new(self.alloc);
        for one in accepted {
            grown.push(self.grown(one)?)?;
        }
        Ok(grown)
    }

    /// This gain, where there is a place for its versions. More than a list holds take more memory than there is.
    pub(super) fn with_room(&self, gain: Gain) -> Result<Gain, NoMemory>
        ensures value { IfOk result (λ kept. kept ≡ gain) }
        ensures room { IfOk result (λ kept. length ((self.now.versions ++ kept.found) ++ kept.versions)
            ≤ MOST_VERSIONS) }
    {
        if self.versions.has_place(&gain.found, &gain.versions) {
            Ok(gain)
        } else {
            Err(NoMemory)
        }
    }

    /// The letter that answers the request, with the sealed histories as they stand once these candidates are accepted.
    #[tactic(auto, using(crate::proofs::States::Accepting::answers))]
    fn reply(
        &self,
        reading: &Reading,
        culled: List<(ObjectId, ReplicaId)>,
        verdict: Verdict,
        accepted: &[Accepted],
        seals: &mut List<Seal>,
    ) -> Result<List<Letter>, NoMemory>
        requires may { MayAcceptAll self.now accepted.now }
        requires named { culled ≡ named self.now reading.now.sets }
        ensures { IfOk result (λ letters. letters ≡ reply (accept_all self.now accepted.now) reading.now.client
            reading.now.number reading.now.round reading.now.sets verdict ∷ []) }
    {
        let to = Party::Client(reading.client());
        let text = self.reply_text(reading, culled, verdict, accepted, seals)?;
        List::one(
            self.alloc,
            Letter {
                from: Party::Replica(self.me),
                to,
                text,
            },
        )
    }

    /// The bytes of this letter.
    #[tactic(auto, using(crate::proofs::States::Accepting::answers))]
    fn reply_text(
        &self,
        reading: &Reading,
        culled: List<(ObjectId, ReplicaId)>,
        verdict: Verdict,
        accepted: &[Accepted],
        seals: &mut List<Seal>,
    ) -> Result<List<u8>, NoMemory>
        requires may { MayAcceptAll self.now accepted.now }
        requires named { culled ≡ named self.now reading.now.sets }
        ensures { IfOk result (λ text. text ≡ (reply (accept_all self.now accepted.now) reading.now.client
            reading.now.number reading.now.round reading.now.sets verdict).text) }
    {
        let frame = Frame::Reply {
            replica: self.me,
            client: reading.client(),
            number: reading.number(),
            round: reading.round(),
            verdict,
            culled,
            shown: self.shown(reading.sets().sets(), accepted, seals)?,
            mac: blank_mac(),
        };
        frame.signed(self.alloc, &self.keys, Party::Client(reading.client()))
    }

    /// The sealed histories of the request's objects as they stand once these candidates are accepted.
    #[tactic(auto, using(crate::proofs::Requests::Showing::sealed_some, crate::proofs::Requests::Showing::sealed_none, crate::proofs::Requests::Showing::sealed_first))]
    fn shown(
        &self,
        sets: &Sets,
        accepted: &[Accepted],
        seals: &mut List<Seal>,
    ) -> Result<List<Sealed>, NoMemory>
        requires { MayAcceptAll self.now accepted.now }
        ensures { IfOk result
            (λ histories. histories ≡ map (sealed_by self.now.keys)
            (shown (accept_all self.now accepted.now) sets.now)) }
    {
        let mut histories = List::new(self.alloc);
        for set in sets.objects().as_slice() {
            if let Some(history) = self.history_after(set.object, accepted)? {
                histories.push(self.sealed(history, seals)?)?;
            }
        }
        Ok(histories)
    }

    /// A history with the HMACs that this replica makes. Where it sealed another one of the object last, they are made
    /// anew, and the seal is put behind the others.
    fn sealed(&self, history: History, seals: &mut List<Seal>) -> Result<Sealed, NoMemory>
        ensures { IfOk result (λ sealed. sealed ≡ sealed_by self.now.keys history) }
    {
        if let Some(macs) = self.macs_kept(&history)? {
            return Ok(Sealed { history, macs });
        }
        let sealed = history.sealed(self.alloc, &self.keys)?;
        seals.push(Seal::of(self.alloc, &self.keys, &sealed)?)?;
        Ok(sealed)
    }

    /// The HMACs of a history that it sealed last of its object.
    fn macs_kept(&self, history: &History) -> Result<Option<List<[u8; 32]>>, NoMemory>
        ensures { IfOk result (λ found. IfSome found (λ macs. macs
            ≡ authenticator_of self.now.keys history.now.replica (history_digest history.now))) }
    {
        match self.seals.get(usize::from(history.object().0)) {
            Some(Some(seal)) => seal.macs_of(self.alloc, &self.keys, history),
            Some(None) | None => Ok(None),
        }
    }

    /// The history of an object as it stands once these candidates are accepted.
    fn history_after(
        &self,
        object: ObjectId,
        accepted: &[Accepted],
    ) -> Result<Option<History>, NoMemory>
        requires { MayAcceptAll self.now accepted.now }
        ensures { IfOk result (λ history. history ≡ slice_get (accept_all self.now accepted.now).histories object.0) }
    {
        match accepted_of(accepted, object) {
            Some(accepted) => Ok(Some(self.grown(accepted)?)),
            None => self.history_copy(object),
        }
    }

    /// An equal history of an object.
    fn history_copy(&self, object: ObjectId) -> Result<Option<History>, NoMemory>
        ensures { IfOk result (λ history. history ≡ slice_get self.now.histories object.0) }
    {
        match self.history(object) {
            Some(history) => Ok(Some(history.copy(self.alloc)?)),
            None => Ok(None),
        }
    }

    /// The history of the accepted candidate's object, with the candidate.
    #[tactic(auto, using(qu_fitting::proofs::Accepting::read_history_after))]
    fn grown(&self, accepted: &Accepted) -> Result<History, NoMemory>
        requires { MayAccept self.now accepted.now }
        ensures { IfOk result
            (λ history. slice_get (accept self.now accepted.now).histories accepted.now.object.0 ≡ Some history) }
    {
        let mut history = self.histories[usize::from(accepted.object.0)].copy(self.alloc)?;
        match history.add(accepted.candidate) {
            Ok(()) => Ok(history),
            Err(AddFail::NoMemory) => Err(NoMemory),
            Err(AddFail::NotLater(_) | AddFail::HistoryFull) => unreachable!(),
        }
    }
}

/// What is accepted of an object, where anything is.
fn accepted_of(accepted: &[Accepted], object: ObjectId) -> Option<&Accepted>
    ensures { option_copied result ≡ accepted_of object accepted.now }
{
    accepted.iter().find(|one| one.object == object)
}
