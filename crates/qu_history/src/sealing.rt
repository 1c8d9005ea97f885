ghost use Rattle.std.specs.Prelude.{◌≡◌, IfOk, IsTrue};
ghost use Rattle.qu_base.specs.declared.party.ReplicaId.{ReplicaId};
ghost use Rattle.qu_base.specs.declared.party.Party.TheVariants as party;
ghost use Rattle.qu_seal.specs.Keys.{has_party};
ghost use Rattle.qu_history.specs.Culling.{is_right};
ghost use Rattle.qu_history.specs.Sealing.{sealed_by};

use super::{History, Sealed};
use qu_base::NoMemory;
use qu_seal::KeyRing;
use std::alloc::Global;

impl History {
    /// The history with the HMACs that its replica makes, one for each replica of the ring.
    #[tactic(auto, using(crate::proofs::RightSeals::right_made))]
    pub fn sealed(self, alloc: Global, keys: &KeyRing) -> Result<Sealed, NoMemory>
        ensures value { IfOk result (λ sealed. sealed ≡ sealed_by keys.now self) }
        ensures right { IfOk result (λ sealed. (me : ReplicaId)
            → IsTrue (has_party keys.now (party.Replica self.replica))
            → IsTrue (has_party keys.now (party.Replica me)) → IsTrue (is_right keys.now me sealed)) }
    {
        let text = self.digest(alloc)?;
        let macs = keys.authenticator(alloc, self.replica(), &text)?;
        Ok(Sealed {
            history: self,
            macs,
        })
    }
}
