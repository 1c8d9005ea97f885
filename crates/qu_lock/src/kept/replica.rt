ghost use Rattle.std.specs.Prelude.{◌≡◌, ◌≤◌, [], ◌∷◌, ◌++◌, Some, IfOk, OnOk, OnErr};
ghost use Rattle.qu_base.specs.declared.party.Party.TheVariants as party;
ghost use Rattle.qu_replay.specs.Steps.{Replicates, moved_replica, IsTakenByReplica};
ghost use Rattle.qu_replay.specs.Replays.{opening_actor, first_free_ticket, IsAfterLetter};
ghost use Rattle.qu_keeping.specs.Kept.{kept_as};

use super::Kept;
use crate::RunName;
use qu_base::{List, NoMemory, Party, ReplicaId};
use qu_frames::{Input, Letter};
use qu_keeping::replica_takes;
use qu_replica::Replica;
use std::alloc::Global;

impl<N: RunName> Kept<Replica, N> {
    /// A replica with this name, as it begins in the run, where it is correct.
    pub fn new(alloc: Global, me: ReplicaId, replica: Replica) -> Kept<Replica, N>
        requires { opening_actor N.setup (party.Replica me) ≡ Some (Replicates replica) }
        ensures { result ≡ (replica, []) }
    {
        Kept::<Replica, N>::opening(alloc, Party::Replica(me), replica)
    }

    /// Makes one step, keeps it, and gives the letters that it sends. Without memory all is as before.
    pub fn step(&mut self, input: Input, ticket: u64) -> Result<List<Letter>, NoMemory>
        requires frame { IsTakenByReplica input }
        requires later { first_free_ticket 0 self.old.1 ≤ ticket }
        requires after { IsAfterLetter ticket input }
        ensures actor { OnOk result (Replicates self.new.0 ≡ (moved_replica self.old.0 input).actor) }
        ensures letters { IfOk result (λ letters. letters ≡ (moved_replica self.old.0 input).letters) }
        ensures steps { OnOk result
            (self.new.1 ≡ self.old.1 ++ kept_as ticket input (moved_replica self.old.0 input) ∷ []) }
        ensures err { OnErr result (self.new ≡ self.old) }
    {
        let sent = replica_takes(self.alloc, &mut self.actor, &mut self.steps, input, ticket)?;
        Ok(sent)
    }
}
