ghost use Rattle.std.specs.Prelude.{◌≡◌, ◌≤◌, length, IfOk};
ghost use Rattle.qu_base.specs.Reading.{IsOrFails};
ghost use Rattle.qu_frames.specs.Formats.{frame_form};
ghost use Rattle.qu_frames.specs.declared.frame.Frame.{Frame as AFrame};
ghost use Rattle.qu_frames.specs.Decoding.{IsDecoded, decoded};

use crate::frame::Frame;
use crate::limits::TEXT_LIMIT;
use crate::reading_frame::read_frame;
use qu_base::{BadText, Cursor, ReadFail, Why};
use std::alloc::Global;

/// The frame whose spelling the whole text is, or the first field that fails.
///
/// A text of more than `TEXT_LIMIT` bytes is out of range at place 0.
#[tactic(auto, using(crate::proofs::Decoded::decoded_is_spelled, crate::proofs::Decoded::spelled_is_decoded))]
pub fn decode(alloc: Global, text: &[u8]) -> Result<Frame, ReadFail>
    ensures given { IsDecoded result text.now }
    ensures found { IfOk result (λ frame. frame_form.Fits frame × (text.now ≡ frame_form.spell frame)) }
    ensures only { (frame : AFrame) → frame_form.Fits frame → text.now ≡ frame_form.spell frame
        → length text.now ≤ TEXT_LIMIT → IsOrFails result frame }
{
    Cursor::new(text).are_bytes();
    let frame = decode_at(alloc, text)?;
    Ok(frame)
}

/// The frame, or the first field that fails, by the definition alone.
#[tactic(auto, unfolding(crate::specs::Decoding::decoded))]
fn decode_at(alloc: Global, text: &[u8]) -> Result<Frame, ReadFail>
    ensures { IsDecoded result text.now }
{
    let mut rest = Cursor::new(text);
    if text.len() > TEXT_LIMIT {
        return Err(ReadFail::Bad(rest.refusal(Why::Range)));
    }
    let frame = read_frame(alloc, &mut rest)?;
    let end = rest.ahead();
    if rest.u8().is_some() {
        return Err(ReadFail::Bad(end.refusal(Why::Rest)));
    }
    Ok(frame)
}
