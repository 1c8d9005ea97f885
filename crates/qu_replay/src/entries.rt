ghost use Rattle.std.specs.Prelude.{◌≡◌, ◌+◌, ◌-◌, ◌^◌, [], min, IfOk, IfErr, MatchOption};
ghost use Rattle.std.specs.Bool.{MatchBool};
ghost use Rattle.std.specs.Option.{option_copied};
ghost use Rattle.qu_replay.specs.Told.{AreTold};
ghost use Rattle.qu_replay.specs.Merged.{place_of, event_of, merged_entries, is_step_named};
ghost use Rattle.qu_replay.specs.Entries.{letter_named, IsNamedLetter, WasSentBefore, WereSentBefore, IsFirstUnsent, IsEntriesFail};

use crate::KeptStep;
use qu_base::{List, NoMemory, Party};
use qu_frames::{Input, Letter, LetterName};
use qu_trace::{Entry, Event};
use std::alloc::Global;

/// Why no entries tell steps.
#[derive(Clone, Copy, Debug, PartialEq, Eq)]
pub enum EntriesFail {
    /// The step at this place, counted from 0, is the first that takes what was not sent to its actor: no step before
    /// it sent the letter that its frame names, or that letter is to another party or has other bytes; or a replica
    /// ticks or begins an operation.
    Unsent(usize),
    /// Each step takes what was sent to its actor before. Also where there are more letters than 64 bits count, which
    /// no memory holds.
    NoMemory,
}

impl From<NoMemory> for EntriesFail {
    ghost use Rattle.std.specs.Prelude.{◌≡◌};
    ghost use Rattle.qu_replay.specs.declared.entries.EntriesFail.TheVariants as fail;

    ghost from_gives = { λ error given. given ≡ fail.NoMemory };

    fn from(_error: NoMemory) -> EntriesFail {
        EntriesFail::NoMemory
    }
}

/// The place, counted from 0, of the first of these steps that takes what was not sent to its actor before. It is found
/// without memory.
pub fn first_unsent(steps: &[(Party, KeptStep)]) -> Option<usize>
    ensures { MatchOption result (WereSentBefore [] steps.now) (IsFirstUnsent steps.now) }
{
    for (at, one) in steps.iter().enumerate() {
        let (actor, step) = one;
        if !was_sent(&steps[..at], *actor, &step.input) {
            return Some(at);
        }
    }
    None
}

/// Whether these steps sent its actor what an input has; clients tick and begin operations by themselves.
fn was_sent(before: &[(Party, KeptStep)], actor: Party, input: &Input) -> bool
    ensures { MatchBool result (WasSentBefore before.now actor input.now)
        (¬ (WasSentBefore before.now actor input.now)) }
{
    match (input, actor) {
        (Input::Frame(name, text), _) => is_letter(before, actor, *name, text),
        (Input::Tick | Input::Invoke(_), Party::Client(_)) => true,
        (Input::Tick | Input::Invoke(_), Party::Replica(_)) => false,
    }
}

/// Whether these steps sent the letter of this name to this party with these bytes.
fn is_letter(steps: &[(Party, KeptStep)], to: Party, name: LetterName, text: &List<u8>) -> bool
    ensures { MatchBool result (IsNamedLetter steps.now to name text.now)
        (¬ (IsNamedLetter steps.now to name text.now)) }
{
    match named_letter(steps, name) {
        Some(letter) if letter.to == to && letter.text == *text => true,
        _ => false,
    }
}

/// The entries that tell these steps, one each, in their order. A frame is the delivery of the letter that it names.
/// Memory is wanted only where each step takes what was sent to its actor before.
pub fn entries_of(alloc: Global, steps: &[(Party, KeptStep)]) -> Result<List<Entry>, EntriesFail>
    ensures merged { IfOk result (λ entries. entries ≡ merged_entries steps.now) }
    ensures sent { IfOk result (λ entries. WereSentBefore [] steps.now) }
    ensures told { IfOk result (λ entries. AreTold [] steps.now entries) }
    ensures err { IfErr result (IsEntriesFail steps.now) }
{
    if let Some(at) = first_unsent(steps) {
        return Err(EntriesFail::Unsent(at));
    }
    Ok(merged_entries(alloc, steps)?)
}

/// The entries of steps that take what was sent.
fn merged_entries(alloc: Global, steps: &[(Party, KeptStep)]) -> Result<List<Entry>, NoMemory>
    ensures { IfOk result (λ entries. entries ≡ merged_entries steps.now) }
{
    let mut entries = List::new(alloc);
    for one in steps {
        let (actor, step) = one;
        let event = event_of(alloc, steps, *actor, &step.input)?;
        entries.push(entry(alloc, event, step)?)?;
    }
    Ok(entries)
}

/// The entry of a step that this event tells.
fn entry(alloc: Global, event: Event, step: &KeptStep) -> Result<Entry, NoMemory>
    ensures { IfOk result (λ entry. entry
        ≡ record { event = event; letters = step.now.letters; ended = step.now.ended }) }
{
    let KeptStep { letters, ended, .. } = step.copy(alloc)?;
    Ok(Entry {
        event,
        letters,
        ended,
    })
}

/// The event of an input, where these are all steps. A replica neither ticks nor begins an operation.
fn event_of(
    alloc: Global,
    steps: &[(Party, KeptStep)],
    actor: Party,
    input: &Input,
) -> Result<Event, NoMemory>
    ensures { IfOk result (λ event. event ≡ event_of steps.now actor input.now) }
{
    Ok(match (input, actor) {
        (Input::Frame(name, _), _) => {
            Event::Deliver(place_of(steps, *name).checked_add(1).ok_or(NoMemory)?)
        }
        (Input::Tick, Party::Client(me)) => Event::Tick(me),
        (Input::Invoke(op), Party::Client(me)) => Event::Invoke(me, op.copy(alloc)?),
        (Input::Tick | Input::Invoke(_), Party::Replica(_)) => Event::Deliver(0),
    })
}

/// The letter of this name that one of these steps sent.
#[tactic(auto, unfolding(crate::specs::Replays::own_steps, crate::specs::Merged::letter_kept))]
fn named_letter(steps: &[(Party, KeptStep)], name: LetterName) -> Option<&Letter>
    ensures { option_copied result ≡ letter_named steps.now name }
{
    for step in steps {
        if is_named(name, step) {
            return step.1.letters.get(usize::from(name.place));
        }
    }
    None
}

/// The index of the letter of this name among those of all these steps, at most the greatest number of 64 bits.
#[tactic(auto, unfolding(crate::specs::Merged::place_of))]
fn place_of(steps: &[(Party, KeptStep)], name: LetterName) -> u64
    ensures { result ≡ min (place_of steps.now name) (2 ^ 64 - 1) }
{
    let mut before: u64 = 0;
    for step in steps {
        if is_named(name, step) {
            break;
        }
        before = before.saturating_add(step.1.letters.len() as u64);
    }
    before.saturating_add(u64::from(name.place))
}

/// Whether this is the step that sent the letter of this name.
fn is_named(name: LetterName, step: &(Party, KeptStep)) -> bool
    ensures { result ≡ is_step_named name step.now }
{
    let (actor, step) = step;
    *actor == name.from && step.ticket == name.ticket
}
