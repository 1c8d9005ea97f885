ghost use Rattle.std.specs.Prelude.{◌≡◌, IfOk};
ghost use Rattle.qu_frames.specs.Formats.{frame_form};
ghost use Rattle.qu_client.specs.Rounds.{request_of, requests_from, requests};

use crate::whom::Whom;
use crate::work::Work;
use qu_base::{ClientId, List, NoMemory, Party, ReplicaId};
use qu_frames::{Frame, Letter, blank_mac, encode, text_digest, with_mac};
use qu_seal::KeyRing;
use std::alloc::Global;

/// The request of the round under way to these replicas.
pub fn requests(
    alloc: Global,
    keys: &KeyRing,
    me: ClientId,
    work: &Work,
    whom: Whom,
) -> Result<List<Letter>, NoMemory>
    ensures { IfOk result (λ letters. letters ≡ requests keys.now me work.now whom) }
{
    requests_to(alloc, keys, me, keys.bounds().n(), work, whom)
}

/// A request to each of so many replicas that is asked, signed for it.
fn requests_to(
    alloc: Global,
    keys: &KeyRing,
    me: ClientId,
    replicas: u8,
    work: &Work,
    whom: Whom,
) -> Result<List<Letter>, NoMemory>
    ensures { IfOk result (λ letters. letters ≡ requests_from keys.now 0 replicas me work.now whom) }
{
    let text = request(alloc, me, work)?;
    let digest = text_digest(text.as_slice());
    let from = Party::Client(me);
    let bounds = keys.bounds();
    let mut letters = List::new(alloc);
    for replica in 0..replicas {
        if whom.includes(bounds, replica) {
            let to = Party::Replica(ReplicaId(replica));
            let mac = keys.seal_for(from, to, &digest);
            let text = with_mac(alloc, text.as_slice(), &mac)?;
            letters.push(Letter { from, to, text })?;
        }
    }
    Ok(letters)
}

/// The bytes of what is asked in the round, before its HMAC is made.
fn request(alloc: Global, me: ClientId, work: &Work) -> Result<List<u8>, NoMemory>
    ensures { IfOk result (λ text. text ≡ frame_form.spell (request_of me work.now)) }
{
    let frame = Frame::Request {
        client: me,
        number: work.number,
        round: work.round,
        sets: work.sets.copy()?,
        body: work.body.copy(alloc)?,
        mac: blank_mac(),
    };
    encode(alloc, &frame)
}
