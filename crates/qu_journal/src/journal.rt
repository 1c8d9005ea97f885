ghost use Rattle.std.specs.Prelude.{◌≡◌, map, slice_get, IfOk, MatchOption};
ghost use Rattle.std.specs.List.{find};
ghost use Rattle.qu_replay.specs.Merged.{is_step_named};
ghost use Rattle.qu_journal.specs.Journal.{as_kept, as_filed, sender_of, DifferAt, IsPairOf, lower_ticket, pair_of};

use crate::alike::{are_equal, is_same};
use qu_base::{List, NoMemory, Party};
use qu_frames::{Input, LetterName};
use qu_post::Filed;
use qu_replay::KeptStep;
use std::alloc::Global;
use std::cmp::Ordering;

/// The filed steps, each with its actor, as kept ones.
pub fn steps_filed(alloc: Global, journal: List<Filed>) -> Result<List<(Party, KeptStep)>, NoMemory>
    ensures { IfOk result (λ steps. steps ≡ map as_kept journal) }
{
    let mut steps = List::new(alloc);
    for filed in journal.into_vec() {
        steps.push(as_kept(filed))?;
    }
    Ok(steps)
}

fn as_kept(filed: Filed) -> (Party, KeptStep)
    ensures { result ≡ as_kept filed }
{
    let Filed {
        ticket,
        actor,
        input,
        letters,
        ended,
    } = filed;
    let step = KeptStep {
        ticket,
        input,
        letters,
        ended,
    };
    (actor, step)
}

fn as_filed(actor: Party, step: KeptStep) -> Filed
    ensures { result ≡ as_filed (actor, step) }
{
    let KeptStep {
        ticket,
        input,
        letters,
        ended,
    } = step;
    Filed {
        ticket,
        actor,
        input,
        letters,
        ended,
    }
}

/// The first place at which two lists of steps differ.
pub fn first_unlike(one: &[(Party, KeptStep)], other: &[(Party, KeptStep)]) -> Option<usize>
    ensures { MatchOption result (one.now ≡ other.now) (DifferAt one.now other.now) }
{
    let shorter = one.len().min(other.len());
    for at in 0..shorter {
        if !are_equal(&one[at], &other[at]) {
            return Some(at);
        }
    }
    if one.len() == other.len() {
        None
    } else {
        Some(shorter)
    }
}

/// What stands at a place of the kept and of the filed steps. It is taken out of them, so that no memory is needed.
pub fn unlike_pair(
    kept: List<(Party, KeptStep)>,
    filed: List<(Party, KeptStep)>,
    at: usize,
) -> (Option<KeptStep>, Option<Filed>)
    ensures { result ≡ pair_of (slice_get kept at) (slice_get filed at) }
{
    match (taken_at(kept, at), taken_at(filed, at)) {
        (Some(kept), Some(filed)) => lower_ticket(kept, filed),
        (Some((_, kept)), None) => (Some(kept), None),
        (None, Some((actor, filed))) => (None, Some(as_filed(actor, filed))),
        (None, None) => (None, None),
    }
}

fn lower_ticket(
    kept: (Party, KeptStep),
    filed: (Party, KeptStep),
) -> (Option<KeptStep>, Option<Filed>)
    ensures { result ≡ lower_ticket kept filed }
{
    let (_, kept) = kept;
    let (actor, filed) = filed;
    match kept.ticket.cmp(&filed.ticket) {
        Ordering::Less => (Some(kept), None),
        Ordering::Equal => (Some(kept), Some(as_filed(actor, filed))),
        Ordering::Greater => (None, Some(as_filed(actor, filed))),
    }
}

/// The step at this place, and the filed one that it names as the sender of its letter.
pub fn unsent_pair(
    kept: List<(Party, KeptStep)>,
    filed: List<(Party, KeptStep)>,
    at: usize,
) -> (Option<KeptStep>, Option<Filed>)
    ensures { IsPairOf (slice_get kept at) (map as_filed filed) result }
{
    match taken_at(kept, at) {
        Some((_, step)) => {
            let sender = sender(&step.input, filed);
            (Some(step), sender)
        }
        None => (None, None),
    }
}

/// The filed step that an input names as the sender of its letter, taken out of its list.
fn sender(input: &Input, filed: List<(Party, KeptStep)>) -> Option<Filed>
    ensures { result ≡ sender_of input.now (map as_filed filed) }
{
    match input {
        Input::Frame(name, _) => match taken_named(*name, filed) {
            Some((actor, step)) => Some(as_filed(actor, step)),
            None => None,
        },
        Input::Tick | Input::Invoke(_) => None,
    }
}

/// The step of this name, taken out of its list.
fn taken_named(name: LetterName, steps: List<(Party, KeptStep)>) -> Option<(Party, KeptStep)>
    ensures { result ≡ find (is_step_named name) steps }
{
    let place = place_named(name, steps.as_slice());
    taken_at(steps, place)
}

/// The place of the step of this name; where there is none, that behind the last.
fn place_named(name: LetterName, steps: &[(Party, KeptStep)]) -> usize
    ensures { slice_get steps.now result ≡ find (is_step_named name) steps.now }
{
    for (place, step) in steps.iter().enumerate() {
        if is_named(name, step) {
            return place;
        }
    }
    steps.len()
}

/// Whether this is the step that sent the letter of this name.
fn is_named(name: LetterName, step: &(Party, KeptStep)) -> bool
    ensures { result ≡ is_step_named name step.now }
{
    let (actor, step) = step;
    is_same(*actor, name.from) && step.ticket == name.ticket
}

/// The step at a place, taken out of its list.
fn taken_at(steps: List<(Party, KeptStep)>, at: usize) -> Option<(Party, KeptStep)>
    ensures { result ≡ slice_get steps at }
{
    let mut steps = steps.into_vec();
    if at < steps.len() {
        Some(steps.remove(at))
    } else {
        None
    }
}
