//! What reaches parties.
ghost use Rattle.std.specs.Prelude.{◌≡◌, [], ◌++◌, if◌then◌else◌, length, OnOk, string_bytes, codes};
ghost use Rattle.std.specs.Fmt.{decimal};
ghost use Rattle.qu_trace.specs.Letters.{letters_of, numbered};
ghost use Rattle.qu_listed.specs.Names.{party_text, count_text};
ghost use Rattle.qu_listed.specs.Events.{receiver_text, injected_text};
ghost use Rattle.qu_listing.specs.SoFar.{IsSoFar};
ghost use Rattle.qu_listed.specs.Receivers.{frame_taken};

use super::frames::put_frame;
use super::names::{put_count, put_party};
use super::receivers::Receivers;
use super::so_far::SoFar;
use qu_base::{NoMemory, Party};
use qu_frames::Frame;
use qu_trace::Entry;
use std::alloc::Global;

/// Writes which letter is delivered to whom, and whether it is ignored.
pub fn put_delivery(
    text: &mut String,
    receivers: &Receivers,
    known: &SoFar,
    earlier: &[Entry],
    number: u64,
) -> Result<(), NoMemory>
    requires { IsSoFar receivers.now earlier.now known.now }
    ensures { OnOk result (string_bytes text.new ≡ string_bytes text.old ++ codes "deliver " ++ decimal number
        ++ codes " to " ++ receiver_text receivers.now (numbered (letters_of earlier.now) number)) }
{
    write!(text, "deliver {number} to ")?;
    match known.letter(receivers, earlier, number) {
        Some(sent) => {
            put_party(text, sent.to)?;
            put_ignored(text, sent.ignored)
        }
        None => {
            text.push_str("nobody")?;
            Ok(())
        }
    }
}

fn put_ignored(text: &mut String, ignored: bool) -> Result<(), NoMemory>
    ensures { OnOk result (string_bytes text.new
        ≡ string_bytes text.old ++ (if ignored then codes ", ignored" else [])) }
{
    if ignored {
        text.push_str(", ignored")?;
    }
    Ok(())
}

/// Writes how many bytes are injected to whom, and what frame it takes of them.
pub fn put_injection(
    alloc: Global,
    text: &mut String,
    receivers: &Receivers,
    to: Party,
    bytes: &[u8],
) -> Result<(), NoMemory>
    ensures { OnOk result (string_bytes text.new ≡ string_bytes text.old ++ codes "inject "
        ++ count_text (length bytes.now) (codes "byte") ++ codes " to " ++ party_text to
        ++ injected_text (frame_taken receivers.now to bytes.now)) }
{
    text.push_str("inject ")?;
    put_count(text, bytes.len(), "byte")?;
    text.push_str(" to ")?;
    put_party(text, to)?;
    let frame = receivers.take(alloc, to, bytes)?;
    put_injected(text, &frame)
}

fn put_injected(text: &mut String, frame: &Option<Frame>) -> Result<(), NoMemory>
    ensures { OnOk result (string_bytes text.new ≡ string_bytes text.old ++ injected_text frame.now) }
{
    match frame {
        Some(frame) => {
            text.push_str(" as ")?;
            put_party(text, frame.sender())?;
            text.push_str(": ")?;
            put_frame(text, frame)
        }
        None => put_ignored(text, true),
    }
}
