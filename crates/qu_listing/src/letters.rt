//! The letters of an event.
ghost use Rattle.std.specs.Prelude.{◌≡◌, ◌∷◌, [], ◌++◌, ◌+◌, length, map, IfOk, OnOk, string_bytes};
ghost use Rattle.qu_print.specs.Lines.{lines_text};
ghost use Rattle.qu_frames.specs.Decoding.{decoded};
ghost use Rattle.qu_listed.specs.Frames.{carried_text};
ghost use Rattle.qu_listed.specs.Events.{letter_route, letter_line, letter_lines};
ghost use Rattle.qu_listing.specs.SoFar.{sent_of};

use super::frames::put_frame;
use super::names::put_party;
use super::receivers::Receivers;
use super::so_far::Sent;
use qu_base::{List, NoMemory, ReadFail};
use qu_frames::{Letter, decode};
use std::alloc::Global;

/// Writes a line for each letter behind those that were sent, and then knows of them too.
#[tactic(auto, unfolding(qu_print::specs::Lines::lines_text))]
pub fn put_letters(
    alloc: Global,
    text: &mut String,
    receivers: &Receivers,
    sent: &mut List<Sent>,
    letters: &[Letter],
) -> Result<(), NoMemory>
    ensures text { OnOk result (string_bytes text.new
        ≡ string_bytes text.old ++ lines_text (letter_lines (length sent.old + 1) letters.now)) }
    ensures sent { OnOk result (sent.new ≡ sent.old ++ map (sent_of receivers.now) letters.now) }
{
    for letter in letters {
        let number = sent.len() as u128 + 1;
        let told = put_letter(alloc, text, receivers, number, letter)?;
        sent.push(told)?;
    }
    Ok(())
}

/// Writes the line of a letter, and tells what its deliveries need to know of it.
#[tactic(auto, unfolding(qu_listed::specs::Events::letter_line))]
fn put_letter(
    alloc: Global,
    text: &mut String,
    receivers: &Receivers,
    number: u128,
    letter: &Letter,
) -> Result<Sent, NoMemory>
    ensures text { OnOk result (string_bytes text.new
        ≡ string_bytes text.old ++ letter_line number letter.now ++ 10 ∷ []) }
    ensures sent { IfOk result (λ sent. sent ≡ sent_of receivers.now letter.now) }
{
    write!(text, "  letter {number} ")?;
    put_route(text, letter)?;
    let ignored = put_carried(alloc, text, receivers, letter)?;
    text.push_str("\n")?;
    Ok(Sent {
        to: letter.to,
        ignored,
    })
}

/// Writes sender and receiver of a letter.
fn put_route(text: &mut String, letter: &Letter) -> Result<(), NoMemory>
    ensures { OnOk result (string_bytes text.new ≡ string_bytes text.old ++ letter_route letter.now) }
{
    put_party(text, letter.from)?;
    text.push_str(" to ")?;
    put_party(text, letter.to)?;
    text.push_str(": ")?;
    Ok(())
}

/// Writes the frame that a letter carries, and tells whether its receiver takes none of it.
#[tactic(auto, unfolding(qu_listed::specs::Receivers::frame_taken, qu_frames::specs::Signing::brought))]
fn put_carried(
    alloc: Global,
    text: &mut String,
    receivers: &Receivers,
    letter: &Letter,
) -> Result<bool, NoMemory>
    ensures text { OnOk result (string_bytes text.new
        ≡ string_bytes text.old ++ carried_text (decoded letter.now.text)) }
    ensures ignored { IfOk result (λ ignored. ignored ≡ (sent_of receivers.now letter.now).ignored) }
{
    match decode(alloc, letter.text.as_slice()) {
        Ok(frame) => {
            put_frame(text, &frame)?;
            Ok(receivers.ignores(letter.to, &frame, letter.text.as_slice()))
        }
        Err(ReadFail::Bad(_)) => {
            text.push_str("no frame")?;
            Ok(true)
        }
        Err(ReadFail::NoMemory) => Err(NoMemory),
    }
}
