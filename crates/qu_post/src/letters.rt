ghost use Rattle.std.specs.Prelude.{◌≡◌, ◌≤◌, take, length, IfOk};
ghost use Rattle.qu_post.specs.Letters.{letters_to, named_letters};

use super::Filed;
use crate::actors::is_one_party;
use qu_base::{NoMemory, Party};
use qu_frames::{Letter, LetterName};
use std::alloc::Global;
use std::collections::LinkedList;

/// So many letters of a step have a name: those at a place of 16 bits.
pub const NAMED_LETTERS: u32 = 65_536;

/// The limit of this crate, by its number.
pub fn limits_are_these()
    ensures named_letters { NAMED_LETTERS ≡ 65536 }
{}

/// Copies of the letters of a step to one party, in order, each with its name.
#[tactic(auto, unfolding(crate::specs::Letters::letters_to, crate::specs::Letters::named_from))]
pub fn letters_to(
    alloc: Global,
    owner: Party,
    step: &Filed,
) -> Result<LinkedList<(LetterName, Letter)>, NoMemory>
    ensures { IfOk result (λ letters. letters ≡ letters_to owner (named_letters step.now)) }
{
    let mut letters = LinkedList::new(alloc);
    let sent = with_places(step.letters.as_slice());
    for (place, letter) in sent.iter().enumerate() {
        if is_one_party(letter.to, owner) {
            let name = name_of(step, place as u16);
            letters.push_back((name, letter.copy(alloc)?))?;
        }
    }
    Ok(letters)
}

/// The name of the letter at this place of a step.
fn name_of(step: &Filed, place: u16) -> LetterName
    ensures { result ≡ record { from = step.now.actor; ticket = step.now.ticket; place = place } }
{
    LetterName {
        from: step.actor,
        ticket: step.ticket,
        place,
    }
}

/// The letters whose place has 16 bits.
fn with_places(letters: &[Letter]) -> &[Letter]
    ensures value { result.now ≡ take NAMED_LETTERS letters.now }
    ensures most { length result.now ≤ NAMED_LETTERS }
{
    let count = (NAMED_LETTERS as usize).min(letters.len());
    &letters[..count]
}
