ghost use Rattle.std.specs.Prelude.{◌≡◌, IfOk};
ghost use Rattle.qu_frames.specs.Signing.{brought};

use super::decode;
use crate::frame::Frame;
use qu_base::{NoMemory, Party, ReadFail};
use qu_seal::KeyRing;
use std::alloc::Global;

/// The frame that a text brings to a party: the one that is decoded, where its HMAC is right for the
/// party. None of any other text.
#[tactic(auto, unfolding(crate::specs::Signing::brought))]
pub fn receive(
    alloc: Global,
    keys: &KeyRing,
    me: Party,
    text: &[u8],
) -> Result<Option<Frame>, NoMemory>
    ensures { IfOk result (λ frame. frame ≡ brought keys.now me text.now) }
{
    match decode(alloc, text) {
        Ok(frame) if frame.is_signed(keys, me, text) => Ok(Some(frame)),
        Ok(_) | Err(ReadFail::Bad(_)) => Ok(None),
        Err(ReadFail::NoMemory) => Err(NoMemory),
    }
}
