ghost use Rattle.std.specs.Prelude.{◌≡◌, IfOk};
ghost use Rattle.qu_adversary.specs.Replying.{reply_text};

use qu_base::{ClientId, List, NoMemory, Party, ReplicaId};
use qu_frames::{Frame, Verdict, blank_mac};
use qu_history::Sealed;
use qu_seal::KeyRing;
use std::alloc::Global;

/// The bytes of a reply by this replica with this verdict and these histories, and with no culled
/// entries. Its HMAC is right for the client.
#[tactic(auto, unfolding(crate::specs::Replying::reply_text))]
pub fn reply_of(
    alloc: Global,
    keys: &KeyRing,
    me: ReplicaId,
    client: ClientId,
    number: u64,
    round: u8,
    verdict: Verdict,
    shown: List<Sealed>,
) -> Result<List<u8>, NoMemory>
    ensures { IfOk result (λ text. text ≡ reply_text keys.now me client number round verdict shown) }
{
    let reply = Frame::Reply {
        replica: me,
        client,
        number,
        round,
        verdict,
        culled: List::new(alloc),
        shown,
        mac: blank_mac(),
    };
    reply.signed(alloc, keys, Party::Client(client))
}
