ghost use Rattle.std.specs.Prelude.{◌≡◌, false, Some, IfOk};
ghost use Rattle.qu_base.specs.declared.party.Party.TheVariants as party;
ghost use Rattle.qu_frames.specs.Decoding.{decoded};
ghost use Rattle.qu_frames.specs.Reading.{is_request};
ghost use Rattle.qu_frames.specs.Signing.{brought, signed};
ghost use Rattle.qu_versions.specs.Versions.{version_at};
ghost use Rattle.qu_rows.specs.State.{AreHistories};
ghost use Rattle.qu_replica.specs.State.{with_gain};
ghost use Rattle.qu_replica.specs.Growth.{MayGain};
ghost use Rattle.qu_replica.specs.Step.{version_letters, replica_step};

use super::{Replica, are_bytes};
use crate::planned::{Gain, Planned};
use qu_base::{List, NoMemory, ObjectId, Party, ReplicaId};
use qu_frames::{Frame, Letter, blank_mac, receive};
use qu_stamp::Stamp;

impl Replica {
    /// What `step` will make of a text that is no request.
    pub(super) fn plan_other(&self, text: &[u8]) -> Result<Planned, NoMemory>
        requires { is_request (decoded text.now) ≡ false }
        ensures state { IfOk result (λ planned. with_gain self.now planned.gain
            ≡ (replica_step self.now text.now).0) }
        ensures letters { IfOk result (λ planned. planned.letters ≡ (replica_step self.now text.now).1) }
        ensures may { IfOk result (λ planned. MayGain self.now planned.gain) }
        ensures histories { AreHistories self.now }
    {
        match receive(self.alloc, &self.keys, Party::Replica(self.me), text)? {
            Some(frame) => self.plan_brought(&frame, text),
            None => self.plan_letters(List::new(self.alloc)),
        }
    }

    /// What `step` will make of a frame that a text brings, which is no request.
    fn plan_brought(&self, frame: &Frame, text: &[u8]) -> Result<Planned, NoMemory>
        requires none { is_request (decoded text.now) ≡ false }
        requires brought { brought self.now.keys (party.Replica self.now.me) text.now ≡ Some frame.now }
        ensures state { IfOk result (λ planned. with_gain self.now planned.gain
            ≡ (replica_step self.now text.now).0) }
        ensures letters { IfOk result (λ planned. planned.letters ≡ (replica_step self.now text.now).1) }
        ensures may { IfOk result (λ planned. MayGain self.now planned.gain) }
        ensures histories { AreHistories self.now }
    {
        are_bytes(text);
        match frame {
            Frame::Fetch {
                replica,
                object,
                stamp,
                ..
            } => self.plan_letters(self.version_letters(*replica, *object, stamp)?),
            Frame::Fetched {
                replica,
                object,
                stamp,
                state,
                ..
            } => self.plan_fetched(*replica, *object, *stamp, state.copy(self.alloc)?),
            Frame::Request { .. } => unreachable!(),
            Frame::Reply { .. } => self.plan_letters(List::new(self.alloc)),
        }
    }

    /// The plan of a step that only sends these letters.
    pub(super) fn plan_letters(&self, letters: List<Letter>) -> Result<Planned, NoMemory>
        ensures state { IfOk result (λ planned. with_gain self.now planned.gain ≡ self.now) }
        ensures letters { IfOk result (λ planned. planned.letters ≡ letters) }
        ensures may { IfOk result (λ planned. MayGain self.now planned.gain) }
        ensures histories { AreHistories self.now }
    {
        let gain = self.with_room(Gain::nothing(self.alloc))?;
        Ok(Planned {
            gain,
            letters,
            seals: List::new(self.alloc),
        })
    }

    /// The letter with a version for the replica that fetches it, where the version is held.
    fn version_letters(
        &self,
        to: ReplicaId,
        object: ObjectId,
        stamp: &Stamp,
    ) -> Result<List<Letter>, NoMemory>
        ensures { IfOk result (λ letters. letters ≡ version_letters self.now to object stamp.now
            (version_at object stamp.now self.now.versions)) }
    {
        let Some(version) = self.version(object, stamp) else {
            return Ok(List::new(self.alloc));
        };
        let frame = Frame::Fetched {
            replica: self.me,
            object,
            stamp: *stamp,
            state: version.copy(self.alloc)?,
            mac: blank_mac(),
        };
        List::one(self.alloc, self.letter_for(to, &frame)?)
    }

    /// The letter that carries a frame to another replica, signed for it.
    pub(super) fn letter_for(&self, to: ReplicaId, frame: &Frame) -> Result<Letter, NoMemory>
        ensures { IfOk result (λ letter. letter ≡ record {
          from = party.Replica self.now.me;
          to = party.Replica to;
          text = signed self.now.keys (party.Replica to) frame.now;
        }) }
    {
        let to = Party::Replica(to);
        Ok(Letter {
            from: Party::Replica(self.me),
            to,
            text: frame.signed(self.alloc, &self.keys, to)?,
        })
    }
}
