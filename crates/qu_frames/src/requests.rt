ghost use Rattle.std.specs.Prelude.{◌≡◌, ◌↔◌, false, IfOk, IfSome, IsNone};
ghost use Rattle.qu_frames.specs.Decoding.{decoded};
ghost use Rattle.qu_frames.specs.Signing.{before_mac};
ghost use Rattle.qu_frames.specs.Reading.{is_request};

use super::decode;
use crate::reading::Reading;
use qu_base::{NoMemory, ReadFail};
use std::alloc::Global;

/// The request of a text. None exactly of a text that is decoded to no request.
pub fn read_request(alloc: Global, text: &[u8]) -> Result<Option<Reading>, NoMemory>
    ensures none { IfOk result (λ found. IsNone found ↔ is_request (decoded text.now) ≡ false) }
    ensures front { IfOk result (λ found. IfSome found (λ reading. reading.front ≡ before_mac text.now)) }
{
    match decode(alloc, text) {
        Ok(frame) => Reading::of_frame(alloc, &frame, text),
        Err(ReadFail::Bad(_)) => Ok(None),
        Err(ReadFail::NoMemory) => Err(NoMemory),
    }
}
