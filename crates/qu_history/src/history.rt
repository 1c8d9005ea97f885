ghost use Rattle.std.specs.Prelude.{◌≡◌, ◌<◌, ◌≤◌, ◌↔◌, length, [], ◌∷◌, ◌++◌, IsTrue, true, false, IfOk, OnOk, OnErr};
ghost use Rattle.std.specs.List.Sorted.{IsPartitionPoint};
ghost use Rattle.qu_stamp.specs.declared.stamp.Stamp.{Stamp};
ghost use Rattle.qu_stamp.specs.declared.candidate.Candidate.{Candidate as Held};
ghost use Rattle.qu_stamp.specs.Candidate.{opening};
ghost use Rattle.qu_stamp.specs.Stamp.{is_below};
ghost use Rattle.qu_base.specs.Reading.{Gives, IsGiven};
ghost use Rattle.qu_history.specs.History.{is_history, latest, holds, last};
ghost use Rattle.qu_history.specs.Formats.{history_form};

use super::HISTORY_LIMIT;
use super::reading::candidates_at;
use qu_base::{Cursor, List, NoMemory, ObjectId, Outbytes, ReadFail, ReplicaId};
use qu_stamp::{Candidate, Stamp};
use std::alloc::Global;
use std::marker::Model;

/// Why a candidate is not added to a history, which stays as it is.
#[derive(Clone, Copy, Debug, PartialEq, Eq)]
pub enum AddFail {
    /// Number 10: the candidate's stamp is not above the latest, which is told.
    NotLater(Stamp),
    /// Number 11: the history holds as many candidates as it may.
    HistoryFull,
    NoMemory,
}

impl From<NoMemory> for AddFail {
    ghost use Rattle.qu_history.specs.declared.history.AddFail.TheVariants as fail;

    ghost from_gives = { λ _ outcome. outcome ≡ fail.NoMemory };

    fn from(_error: NoMemory) -> AddFail {
        AddFail::NoMemory
    }
}

/// What one replica accepted of one object, from the opening candidate on: stamps rise strictly.
#[derive(Drop)]
pub struct History {
    object: ObjectId,
    replica: ReplicaId,
    candidates: List<Candidate>,
}

impl Model for History {
    ghost use Rattle.std.specs.Prelude.{IsTrue, length, ◌≤◌};
    ghost use Rattle.qu_history.specs.declared.limits.TheConstants.{HISTORY_LIMIT};
    ghost use Rattle.qu_history.specs.History.{ObjectHistory, is_history};

    ghost Value = { ObjectHistory };

    ghost view = { λ history. record {
      object = history.object;
      replica = history.replica;
      candidates = history.candidates;
    } };

    ghost invariant = { λ history. IsTrue (is_history history.candidates)
        × (length history.candidates ≤ HISTORY_LIMIT) };
}

impl History {
    /// The history with which an object begins at a replica.
    #[tactic(auto, using(crate::proofs::Rising::is_history_opening))]
    pub fn opening(alloc: Global, object: ObjectId, replica: ReplicaId) -> Result<History, NoMemory>
        ensures { IfOk result
            (λ history. history ≡ record { object = object; replica = replica; candidates = opening ∷ [] }) }
    {
        let mut candidates = List::new(alloc);
        candidates.push(Candidate::opening())?;
        Ok(History {
            object,
            replica,
            candidates,
        })
    }

    /// The object whose history this is.
    pub fn object(&self) -> ObjectId
        ensures { result ≡ self.now.object }
    {
        self.object
    }

    /// The replica that shows it.
    pub fn replica(&self) -> ReplicaId
        ensures { result ≡ self.now.replica }
    {
        self.replica
    }

    /// Its candidates, by rising stamps.
    pub fn candidates(&self) -> &List<Candidate>
        ensures value { result.now ≡ self.now.candidates }
        ensures rising { IsTrue (is_history result.now) }
    {
        &self.candidates
    }

    /// The candidate with the greatest stamp.
    #[tactic(auto, using(crate::proofs::Rising::length_above_zero, crate::proofs::Rising::last_at, crate::proofs::Rising::latest_is_last))]
    pub fn last(&self) -> Candidate
        ensures value { result ≡ last self.now.candidates }
        ensures greatest { result.stamp ≡ latest self.now.candidates }
        ensures rising { IsTrue (is_history self.now.candidates) }
    {
        match self.candidates.as_slice() {
            [.., last] => *last,
            [] => unreachable!(),
        }
    }

    /// The greatest stamp.
    pub fn latest(&self) -> Stamp
        ensures { result ≡ latest self.now.candidates }
    {
        self.last().stamp
    }

    /// Whether the candidate stands in it: since stamps rise, one place alone can have it.
    #[tactic(auto, unfolding(qu_stamp::specs::Stamp::same_stamp), using(crate::proofs::ByStamp::held_nowhere))]
    pub fn holds(&self, candidate: &Candidate) -> bool
        ensures { result ≡ holds candidate.now self.now.candidates }
    {
        let below = count_below(self.candidates.as_slice(), &candidate.stamp);
        match self.candidates.get(below) {
            Some(held) => held == candidate,
            None => false,
        }
    }

    /// How many candidates it holds, the opening candidate among them.
    pub fn len(&self) -> usize
        ensures value { result ≡ length self.now.candidates }
        ensures most { result ≤ HISTORY_LIMIT }
    {
        self.candidates.len()
    }

    /// Adds a candidate above all the others. After a refusal the history is as before.
    #[tactic(auto, using(crate::proofs::Rising::is_history_push))]
    pub fn add(&mut self, candidate: Candidate) -> Result<(), AddFail>
        ensures added { OnOk result (self.new
            ≡ record self.old { candidates = self.old.candidates ++ candidate ∷ [] }) }
        ensures later { OnOk result (is_below (latest self.old.candidates) candidate.stamp ≡ true) }
        ensures room { OnOk result (length self.old.candidates < HISTORY_LIMIT) }
        ensures not_later { result ≡ Err (AddFail.NotLater (latest self.old.candidates)) ↔ is_below
            (latest self.old.candidates) candidate.stamp ≡ false }
        ensures told { (stamp : Stamp) → result ≡ Err (AddFail.NotLater stamp) → stamp ≡ latest self.old.candidates }
        ensures full { result ≡ Err AddFail.HistoryFull ↔
            (is_below (latest self.old.candidates) candidate.stamp ≡ true)
            × (HISTORY_LIMIT ≤ length self.old.candidates) }
        ensures err { OnErr result (self.new ≡ self.old) }
    {
        let latest = self.latest();
        if !latest.is_below(&candidate.stamp) {
            return Err(AddFail::NotLater(latest));
        }
        if self.candidates.len() >= HISTORY_LIMIT {
            return Err(AddFail::HistoryFull);
        }
        self.candidates.push(candidate)?;
        Ok(())
    }

    /// An equal history.
    pub fn copy(&self, alloc: Global) -> Result<History, NoMemory>
        ensures { IfOk result (λ history. history ≡ self.now) }
    {
        let candidates = self.candidates.copy(alloc)?;
        Ok(History {
            object: self.object,
            replica: self.replica,
            candidates,
        })
    }

    /// The history at the front of a text. After a refusal, and without memory, the text is as before.
    #[tactic(auto, using(crate::proofs::Forms::history_read))]
    pub fn read(alloc: Global, text: &mut Cursor) -> Result<History, ReadFail>
        ensures read { IsGiven history_form result text.old text.new }
        ensures kept { OnErr result (text.new ≡ text.old) }
    {
        text.are_bytes();
        let mut ahead = text.ahead();
        let history = History::at(alloc, &mut ahead)?;
        *text = ahead;
        Ok(history)
    }

    #[tactic(auto, unfolding(crate::specs::Formats::history_form))]
    fn at(alloc: Global, text: &mut Cursor) -> Result<History, ReadFail>
        ensures { Gives history_form result text.old text.new }
    {
        let object = text.object()?;
        let replica = text.replica()?;
        let candidates = candidates_at(alloc, object, text)?;
        Ok(History::of(object, replica, candidates))
    }

    /// The history of these candidates.
    pub(super) fn of(object: ObjectId, replica: ReplicaId, candidates: List<Candidate>) -> History
        requires rising { IsTrue (is_history candidates) }
        requires few { length candidates ≤ HISTORY_LIMIT }
        ensures { result ≡ record { object = object; replica = replica; candidates = candidates } }
    {
        History {
            object,
            replica,
            candidates,
        }
    }

    /// Appends the one spelling of the history. Without memory the text stays as it is.
    pub fn write(&self, out: &mut Outbytes) -> Result<(), NoMemory>
        ensures ok { OnOk result (out.new ≡ out.old ++ history_form.spell self.now) }
        ensures err { OnErr result (out.new ≡ out.old) }
    {
        let length = out.len();
        let written = self.append(out);
        if written.is_err() {
            out.rewind(length);
        }
        written
    }
}

/// How many candidates of a history have a stamp below this one. They stand in front.
fn count_below(candidates: &[Candidate], stamp: &Stamp) -> usize
    requires { IsTrue (is_history candidates.now) }
    ensures { IsPartitionPoint (λ (held : Held). is_below held.stamp stamp.now ≡ true)
        (λ (held : Held). is_below held.stamp stamp.now ≡ false) candidates.now result }
{
    candidates.partition_point(|held| held.stamp.is_below(stamp))
}
