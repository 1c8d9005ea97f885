//! What becomes of a client's round at an event.
ghost use Rattle.std.specs.Prelude.{◌≡◌, ◌++◌, true, OnOk, string_bytes};
ghost use Rattle.std.specs.Option.{option_copied};
ghost use Rattle.qu_client.specs.Work.{is_asking};
ghost use Rattle.qu_listed.specs.Rounds.{is_over, over_why_text, without_text, left_text, over_text, is_same_phase, is_same_round, is_unmoved, phase_text, goes_text, rounds_text};

use super::names::{put_count, put_object, put_party};
use super::told::{LinePart, put_all};
use qu_base::{NoMemory, Party};
use qu_client::{Client, Phase, Work};
use qu_listed::{Round, Stood, Why};
use qu_question::Kept;
use qu_world::World;

/// Writes what became of the round of a client that stood so, in the world behind the event.
pub fn put_rounds(text: &mut String, stood: &Option<Stood>, world: &World) -> Result<(), NoMemory>
    ensures { OnOk result (string_bytes text.new ≡ string_bytes text.old ++ rounds_text stood.now world.now) }
{
    let Some(stood) = stood else {
        return Ok(());
    };
    let Some(client) = world.client(stood.client) else {
        return Ok(());
    };
    put_client(text, &stood.round, client)
}

fn put_client(text: &mut String, round: &Option<Round>, client: &Client) -> Result<(), NoMemory>
    ensures { OnOk result (string_bytes text.new
        ≡ string_bytes text.old ++ over_text round.now client.now.work client.now.kept
        ++ goes_text round.now client.now.work) }
{
    let work = client.work();
    put_over(text, round, work, client.kept())?;
    put_goes(text, round, work)
}

/// Writes which round is over, and what is left out.
fn put_over(
    text: &mut String,
    round: &Option<Round>,
    work: Option<&Work>,
    kept: &[Kept],
) -> Result<(), NoMemory>
    ensures { OnOk result (string_bytes text.new
        ≡ string_bytes text.old ++ over_text round.now (option_copied work.entry) kept.now) }
{
    let Some(round) = round else {
        return Ok(());
    };
    if !is_over(round, work) {
        return Ok(());
    }
    let number = round.number;
    write!(text, ", round {number}")?;
    put_why(text, round.why)?;
    put_left(text, work, kept)
}

/// Whether the round was under way, and is no more.
fn is_over(round: &Round, work: Option<&Work>) -> bool
    ensures { result ≡ is_over round.now (option_copied work.entry) }
{
    match work {
        None => round.phase.is_asking(),
        Some(work) => {
            round.phase.is_asking() && !(work.round == round.number && work.phase.is_asking())
        }
    }
}

fn put_why(text: &mut String, why: Why) -> Result<(), NoMemory>
    ensures { OnOk result (string_bytes text.new ≡ string_bytes text.old ++ over_why_text why) }
{
    match why {
        Why::Agreed => text.push_str(" agreed")?,
        Why::Split => text.push_str(" split")?,
        Why::TimedOut => text.push_str(" timed out")?,
    }
    Ok(())
}

/// Writes what the rounds behind it do without.
fn put_left(text: &mut String, work: Option<&Work>, kept: &[Kept]) -> Result<(), NoMemory>
    ensures { OnOk result (string_bytes text.new
        ≡ string_bytes text.old ++ left_text (option_copied work.entry) kept.now) }
{
    if work.is_none() {
        return Ok(());
    }
    put_all(text, kept)
}

impl LinePart for Kept {
    ghost use Rattle.qu_listed.specs.Rounds.{without_text};

    ghost text_of = { without_text };

    fn put(&self, text: &mut String) -> Result<(), NoMemory> {
        if !self.mark.is_left_out() {
            return Ok(());
        }
        let history = &self.sealed.get().history;
        text.push_str(", without ")?;
        put_object(text, history.object())?;
        text.push_str(" of ")?;
        put_party(text, Party::Replica(history.replica()))
    }
}

/// Writes whether a round begins, rests, or is asked of the others too.
fn put_goes(text: &mut String, round: &Option<Round>, work: Option<&Work>) -> Result<(), NoMemory>
    ensures { OnOk result (string_bytes text.new
        ≡ string_bytes text.old ++ goes_text round.now (option_copied work.entry)) }
{
    let Some(work) = work else {
        return Ok(());
    };
    if is_unmoved(round, work) {
        return Ok(());
    }
    put_phase(text, is_same_round(round, work), work.phase)
}

fn is_unmoved(round: &Option<Round>, work: &Work) -> bool
    ensures { result ≡ is_unmoved round.now work.now }
{
    let Some(round) = round else {
        return false;
    };
    work.round == round.number && is_same_phase(round.phase, work.phase)
}

fn is_same_phase(first: Phase, second: Phase) -> bool
    ensures { result ≡ is_same_phase first second }
{
    match (first, second) {
        (Phase::Asking { all: true }, Phase::Asking { all }) => all,
        (Phase::Asking { all: false }, Phase::Asking { all }) => !all,
        (Phase::Resting { ticks }, Phase::Resting { ticks: other }) => ticks == other,
        _ => false,
    }
}

fn is_same_round(round: &Option<Round>, work: &Work) -> bool
    ensures { result ≡ is_same_round round.now work.now }
{
    let Some(round) = round else {
        return false;
    };
    work.round == round.number
}

fn put_phase(text: &mut String, again: bool, phase: Phase) -> Result<(), NoMemory>
    ensures { OnOk result (string_bytes text.new ≡ string_bytes text.old ++ phase_text again phase) }
{
    match phase {
        Phase::Resting { ticks } => {
            text.push_str(", rests ")?;
            put_count(text, ticks as usize, "tick")
        }
        Phase::Asking { all: false } => {
            text.push_str(", asks the preferred")?;
            Ok(())
        }
        Phase::Asking { all: true } => put_asks_all(text, again),
    }
}

fn put_asks_all(text: &mut String, again: bool) -> Result<(), NoMemory>
    ensures { OnOk result (string_bytes text.new
        ≡ string_bytes text.old ++ phase_text again (Phase.Asking true)) }
{
    if again {
        text.push_str(", asks the others")?;
    } else {
        text.push_str(", asks all")?;
    }
    Ok(())
}
