ghost use Rattle.std.specs.Prelude.{◌≡◌, ◌≢◌, true, false, List, Option, None, Some, ℕ};
ghost use Rattle.qu_base.specs.declared.party.ClientId.{ClientId as AClientId};
ghost use Rattle.qu_base.specs.declared.party.Party.{Party as AParty};
ghost use Rattle.qu_base.specs.declared.party.ReplicaId.{ReplicaId as AReplicaId};
ghost use Rattle.qu_frames.specs.declared.frame.Letter.{Letter as ALetter};
ghost use Rattle.qu_trace.specs.declared.trace.Setup.{Setup as ASetup};
ghost use Rattle.qu_trace.specs.Faulty.{is_faulty};
ghost use Rattle.qu_trace.specs.Letters.{numbered};
ghost use Rattle.qu_gather.specs.Ticks.{asker_of, waiting_client};

use qu_base::Party;
use qu_trace::Event;

/// Whom a letter is waited for by, by its sender and its receiver. A client waits for its own letters to correct
/// parties, and for what a replica sends it where a letter of this client is delivered; for nothing else.
#[tactic(auto, using(crate::proofs::WaitFacts::waits_own, crate::proofs::WaitFacts::waits_not, crate::proofs::WaitFacts::waits_answer, crate::proofs::WaitFacts::waits_other, crate::proofs::WaitFacts::asks))]
pub fn waits_are_these()
    ensures own { (setup : ASetup) (asker : Option AClientId) (letter : ALetter) (me : AClientId)
        → letter.from ≡ Party.Client me → is_faulty setup letter.to ≡ false
        → waiting_client setup asker letter ≡ Some me }
    ensures to_liar { (setup : ASetup) (asker : Option AClientId) (letter : ALetter) (me : AClientId)
        → letter.from ≡ Party.Client me → is_faulty setup letter.to ≡ true
        → waiting_client setup asker letter ≡ None }
    ensures answer { (setup : ASetup) (letter : ALetter) (me : AClientId) (replica : AReplicaId)
        → letter.from ≡ Party.Replica replica → letter.to ≡ Party.Client me
        → waiting_client setup (Some me) letter ≡ Some me }
    ensures to_others { (setup : ASetup) (asker : Option AClientId) (letter : ALetter) (replica : AReplicaId)
        → letter.from ≡ Party.Replica replica
        → ((me : AClientId) → asker ≡ Some me → letter.to ≢ Party.Client me)
        → waiting_client setup asker letter ≡ None }
    ensures asker { (senders : List AParty) (letter : ℕ) (me : AClientId)
        → numbered senders letter ≡ Some (Party.Client me) → asker_of senders (Event.Deliver letter) ≡ Some me }
{}
