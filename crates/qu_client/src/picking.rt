ghost use Rattle.std.specs.Prelude.{◌≡◌};
ghost use Rattle.qu_base.specs.Bounds.{quorum};
ghost use Rattle.qu_client.specs.AskedFirst.{is_preferred, how_many_preferred};

use qu_base::{Bounds, ObjectId, ReplicaId};

/// Whether the replica is one of the quorum that is asked first for an operation whose lowest object is `first`.
/// Objects begin with different replicas, so that replicas share the work.
#[tactic(auto, using(crate::proofs::AskedFirst::preferred_make_a_quorum, crate::proofs::AskedFirst::some_replicas), unfolding(crate::specs::AskedFirst::place))]
pub fn preferred(first: ObjectId, replica: ReplicaId, bounds: &Bounds) -> bool
    ensures value { result ≡ is_preferred bounds.now first replica }
    ensures quorum { how_many_preferred bounds.now first ≡ quorum bounds.now }
{
    let n = u16::from(bounds.n());
    let q = u16::from(bounds.q());
    let place = (u16::from(replica.0) + n - first.0 % n) % n;
    place < q
}
