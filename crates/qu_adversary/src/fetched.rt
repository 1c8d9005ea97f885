ghost use Rattle.std.specs.Prelude.{◌≡◌, ◌++◌, IfOk};
ghost use Rattle.qu_adversary.specs.Fetched.{fetched_head, fetched_text};

use qu_base::{List, NoMemory, ObjectId, Outbytes, Party, ReplicaId};
use qu_seal::{FRAME_TAG, KeyRing, digest};
use qu_stamp::{Stamp, write_stamp};
use std::alloc::Global;

/// The bytes of a frame by this replica that tells another one what it holds under a stamp, with these bytes in the
/// place of a state. Its HMAC is right for the other replica, whether or not the bytes spell a state.
#[tactic(auto, unfolding(crate::specs::Fetched::fetched_text))]
pub fn fetched_of(
    alloc: Global,
    keys: &KeyRing,
    me: ReplicaId,
    to: ReplicaId,
    object: ObjectId,
    stamp: &Stamp,
    state: &[u8],
) -> Result<List<u8>, NoMemory>
    ensures { IfOk result (λ text. text ≡ fetched_text keys.now me to object stamp.now state.now) }
{
    let head = fetched_head(alloc, me, object, stamp, state)?;
    let text = digest(FRAME_TAG, head.as_slice());
    let mac = keys.seal_for(Party::Replica(me), Party::Replica(to), &text);
    let mut out = Outbytes::new(alloc);
    out.put(head.as_slice())?;
    out.put(&mac)?;
    Ok(out.done())
}

/// All but the HMAC.
#[tactic(auto, unfolding(crate::specs::Fetched::fetched_head))]
fn fetched_head(
    alloc: Global,
    me: ReplicaId,
    object: ObjectId,
    stamp: &Stamp,
    state: &[u8],
) -> Result<List<u8>, NoMemory>
    ensures { IfOk result (λ text. text ≡ fetched_head me object stamp.now state.now) }
{
    let mut out = Outbytes::new(alloc);
    out.u8(1)?;
    out.u8(4)?;
    out.u8(me.0)?;
    out.u16(object.0)?;
    write_stamp(stamp, &mut out)?;
    out.put(state)?;
    Ok(out.done())
}
