ghost use Rattle.std.specs.Prelude.{◌≡◌, IfOk};
ghost use Rattle.qu_post.specs.Actors.{is_one_party, is_liar, parties_of};

use qu_base::{Bounds, ClientId, NoMemory, Party, ReplicaId};
use std::alloc::Global;

/// Whether two names are of one party, as a proof reads it.
pub fn is_one_party(one: Party, other: Party) -> bool
    ensures { result ≡ is_one_party one other }
{
    one == other
}

/// Whether a party is one of those that lie.
pub fn is_liar(liars: &[Party], who: Party) -> bool
    ensures { result ≡ is_liar liars.now who }
{
    liars.iter().any(|liar| is_one_party(*liar, who))
}

/// All parties: the replicas and then the clients, each by rising number.
pub fn parties(alloc: Global, bounds: &Bounds, clients: u16) -> Result<Vec<Party>, NoMemory>
    ensures { IfOk result (λ parties. parties.items ≡ parties_of bounds.now clients) }
{
    let mut parties = Vec::new(alloc);
    for replica in 0..bounds.n() {
        parties.push(Party::Replica(ReplicaId(replica)))?;
    }
    for client in 0..clients {
        parties.push(Party::Client(ClientId(client + 1)))?;
    }
    Ok(parties)
}
