ghost use Rattle.std.specs.Prelude.{◌<◌, ◌≤◌, ◌↔◌, IsTrue};
ghost use Rattle.qu_replay.specs.Replays.{IsAfterLetter, first_free_ticket};

use crate::KeptStep;
use qu_frames::Input;

/// Whether an actor with these steps may take this input with this ticket: the ticket is above that of its last step,
/// and above that of the letter that a frame brings.
pub fn may_follow(steps: &[KeptStep], ticket: u64, input: &Input) -> bool
    ensures { IsTrue result ↔ ((first_free_ticket 0 steps.now ≤ ticket) × IsAfterLetter ticket input.now) }
{
    is_after_steps(steps, ticket) && is_after_letter(input, ticket)
}

fn is_after_steps(steps: &[KeptStep], ticket: u64) -> bool
    ensures { IsTrue result ↔ (first_free_ticket 0 steps.now ≤ ticket) }
{
    match steps.last() {
        Some(last) => last.ticket < ticket,
        None => true,
    }
}

fn is_after_letter(input: &Input, ticket: u64) -> bool
    ensures { IsTrue result ↔ IsAfterLetter ticket input.now }
{
    match input {
        Input::Frame(name, _) => name.ticket < ticket,
        Input::Tick | Input::Invoke(_) => true,
    }
}
