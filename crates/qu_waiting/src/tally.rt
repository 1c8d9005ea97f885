ghost use Rattle.std.specs.Prelude.{◌≡◌, ◌≤◌, ◌<◌, ◌+◌, ◌↔◌, List as Sequence, [], ◌∷◌, ◌++◌, map, IsTrue, None, Err, IfSome, IfOk, OnOk, OnErr, if◌then◌else◌};
ghost use Rattle.std.specs.List.{Contains, All};
ghost use Rattle.qu_base.specs.declared.limits.TheConstants.{REPLICA_IDS};
ghost use Rattle.qu_base.specs.declared.party.ReplicaId.{ReplicaId};
ghost use Rattle.qu_waiting.specs.Tally.{has_voted, is_once, count_of};

use super::Vote;
use qu_base::{List, NoMemory, ReplicaId};
use std::alloc::Global;
use std::marker::Model;

/// Why an answer is not counted. The tally stays as it is.
#[derive(Clone, Copy, Debug, PartialEq, Eq)]
pub enum VoteFail {
    /// Number 2: an answer of this replica was counted before.
    Twice(ReplicaId),
    NoMemory,
}

impl From<NoMemory> for VoteFail {
    ghost use Rattle.qu_waiting.specs.declared.tally.VoteFail.TheVariants as fail;

    ghost from_gives = { λ _ outcome. outcome ≡ fail.NoMemory };

    fn from(_error: NoMemory) -> VoteFail {
        VoteFail::NoMemory
    }
}

/// The answers of replicas, of which each is counted once.
#[derive(Drop)]
pub struct Tally<T> {
    votes: List<Vote<T>>,
}

impl<T> Model for Tally<T> {
    ghost use Rattle.std.specs.Prelude.{List as Sequence, IsTrue};
    ghost use Rattle.qu_waiting.specs.declared.vote.Vote.{Vote as Ballot};
    ghost use Rattle.qu_waiting.specs.Tally.{is_once};

    ghost Value = { Sequence (Ballot T) };

    ghost view = { λ tally. tally.votes };

    ghost invariant = { λ tally. IsTrue (is_once tally.votes) };
}

impl<T> Tally<T> {
    /// The tally without an answer, which takes no memory until it grows.
    #[tactic(auto, unfolding(crate::specs::Tally::is_once))]
    pub fn new(alloc: Global) -> Tally<T>
        ensures { result ≡ [] }
    {
        Tally {
            votes: List::new(alloc),
        }
    }

    /// Whether an answer of the replica was counted.
    pub fn has(&self, replica: ReplicaId) -> bool
        ensures { result ≡ has_voted replica self.now }
    {
        self.votes.iter().any(|vote| vote.replica.0 == replica.0)
    }
}

impl<T: Eq + Drop> Tally<T> {
    /// Counts the answer of a replica. After a refusal, and without memory, the tally is as before.
    #[tactic(auto, using(crate::proofs::Votes::once_push, crate::proofs::Votes::count_push))]
    pub fn take(&mut self, replica: ReplicaId, value: T) -> Result<(), VoteFail>
        requires { replica.0 < REPLICA_IDS }
        ensures taken { OnOk result (self.new ≡ self.old ++ record { replica = replica; value = value } ∷ []) }
        ensures counted { (other : T) → OnOk result (count_of T.eq other self.new
            ≡ count_of T.eq other self.old + (if T.eq value other then 1 else 0)) }
        ensures twice { result ≡ Err (VoteFail.Twice replica) ↔ IsTrue (has_voted replica self.old) }
        ensures told { (other : ReplicaId) → result ≡ Err (VoteFail.Twice other) → other ≡ replica }
        ensures err { OnErr result (self.new ≡ self.old) }
    {
        if self.has(replica) {
            return Err(VoteFail::Twice(replica));
        }
        self.votes.push(Vote { replica, value })?;
        Ok(())
    }
}

impl<T: Eq> Tally<T> {
    /// How many replicas gave an answer that equals the value.
    pub fn count(&self, value: &T) -> u8
        ensures counted { result ≡ count_of T.eq value.now self.now }
        ensures most { result ≤ REPLICA_IDS }
    {
        count_in(self.votes.as_slice(), value)
    }

    /// An answer that no other one outnumbers, and how many replicas gave an equal one. Where several are given by as
    /// many replicas, it may be any of them.
    #[tactic(auto, using(crate::proofs::Votes::greatest_of_all))]
    pub fn best(&self) -> Option<(&T, u8)>
        ensures none { result ≡ None ↔ (self.now ≡ []) }
        ensures given { IfSome result (λ best. Contains (map (λ vote. vote.value) self.now) best.0.now) }
        ensures counted { IfSome result (λ best. best.1 ≡ count_of T.eq best.0.now self.now) }
        ensures greatest { IfSome result (λ best. (other : T) → count_of T.eq other self.now ≤ best.1) }
    {
        let best = best_in(self.votes.as_slice())?;
        Some((&best.value, self.count(&best.value)))
    }
}

impl<T: Clone> Tally<T> {
    /// An equal tally.
    pub fn copy(&self, alloc: Global) -> Result<Tally<T>, NoMemory>
        requires { (value copied : T) → T.is_clone value copied → copied ≡ value }
        ensures { IfOk result (λ tally. tally ≡ self.now) }
    {
        let votes = self.votes.copy(alloc)?;
        Ok(Tally { votes })
    }
}

/// How many replicas gave an equal value in these votes.
#[tactic(auto, using(crate::proofs::Votes::counts_are_few))]
fn count_in<T: Eq>(votes: &[Vote<T>], value: &T) -> u8
    requires { IsTrue (is_once votes.now) }
    ensures counted { result ≡ count_of T.eq value.now votes.now }
    ensures most { result ≤ REPLICA_IDS }
{
    votes_with(votes, value) as u8
}

/// How many of these votes have an equal value, which is how many replicas do.
#[tactic(auto, using(crate::proofs::Votes::count_is))]
fn votes_with<T: Eq>(votes: &[Vote<T>], value: &T) -> usize
    requires { IsTrue (is_once votes.now) }
    ensures { result ≡ count_of T.eq value.now votes.now }
{
    votes.iter().filter(|vote| vote.value == *value).count()
}

/// A vote whose value the most replicas gave.
fn best_in<T: Eq>(votes: &[Vote<T>]) -> Option<&Vote<T>>
    requires { IsTrue (is_once votes.now) }
    ensures none { result ≡ None ↔ (votes.now ≡ []) }
    ensures given { IfSome result (λ best. Contains votes.now best.now) }
    ensures greatest { IfSome result (λ best. All (λ vote.
        count_of T.eq vote.value votes.now ≤ count_of T.eq (best.now).value votes.now) votes.now) }
{
    votes.iter().max_by_key(|vote| count_in(votes, &vote.value))
}
