ghost use Rattle.std.specs.Prelude.{◌≡◌, IfOk};
ghost use Rattle.qu_adversary.specs.Requesting.{request_text};

use qu_base::{ClientId, List, NoMemory, Party, ReplicaId};
use qu_frames::{Body, Frame, blank_mac};
use qu_history::Sets;
use qu_seal::KeyRing;
use std::alloc::Global;

/// The bytes of a request by this client with these sets and this body, whatever they are. Its HMAC is right for the
/// replica.
#[tactic(auto, unfolding(crate::specs::Requesting::request_text))]
pub fn request_of(
    alloc: Global,
    keys: &KeyRing,
    me: ClientId,
    to: ReplicaId,
    number: u64,
    round: u8,
    sets: &Sets,
    body: &Body,
) -> Result<List<u8>, NoMemory>
    ensures { IfOk result (λ text. text ≡ request_text keys.now me to number round sets.now body.now) }
{
    let request = Frame::Request {
        client: me,
        number,
        round,
        sets: sets.copy()?,
        body: body.copy(alloc)?,
        mac: blank_mac(),
    };
    request.signed(alloc, keys, Party::Replica(to))
}
