//! The letters of a script's run.

use super::scripts::{apply, run_text, trace_of, world_of};
use qu_case_forms::{NoAnswer, Told, put_hashed, put_party};
use qu_frames::Letter;
use qu_trace::{Entry, Event, Trace};
use qu_world::World;
use std::alloc::Global;

/// A line for each letter of a script's run: number, event, sender, receiver, length, SHA-256.
pub fn letters(alloc: Global, script: &[u8], out: &mut Told) -> Result<(), NoAnswer> {
    let trace = run_text(alloc, script)?;
    put_letters(&trace, out);
    Ok(())
}

/// A line for each letter of the run in which letters are injected, as bytes, where the script delivers them.
pub fn injected(alloc: Global, script: &[u8], out: &mut Told) -> Result<(), NoAnswer> {
    let trace = run_injected(alloc, script)?;
    put_letters(&trace, out);
    Ok(())
}

fn run_injected(alloc: Global, script: &[u8]) -> Result<Trace, NoAnswer> {
    let trace = run_text(alloc, script)?;
    let mut world = world_of(alloc, script)?;
    inject_all(alloc, trace.entries.as_slice(), &mut world)?;
    Ok(trace_of(world))
}

fn inject_all(alloc: Global, entries: &[Entry], world: &mut World) -> Result<(), NoAnswer> {
    for entry in entries {
        let event = in_place_of(alloc, world, &entry.event)?;
        if apply(world, event).is_err() {
            return Err(NoAnswer::Event);
        }
    }
    Ok(())
}

/// The event, or the injection of the letter that it delivers.
fn in_place_of(alloc: Global, world: &World, event: &Event) -> Result<Event, NoAnswer> {
    let Event::Deliver(number) = event else {
        return Ok(event.copy(alloc)?);
    };
    match world.sent().letter(*number) {
        Some(letter) => Ok(Event::Inject(letter.to, letter.text.copy(alloc)?)),
        None => Err(NoAnswer::Event),
    }
}

fn put_letters(trace: &Trace, out: &mut Told) {
    out.put_number("", trace.entries.len() as u64);
    out.put(" events");
    let mut number = 1u64;
    for (event, entry) in (1u64..).zip(trace.entries.as_slice()) {
        number = put_sent(number, event, entry.letters.as_slice(), out);
    }
}

/// The letters of an event, and the number of the next letter.
fn put_sent(first: u64, event: u64, letters: &[Letter], out: &mut Told) -> u64 {
    let mut number = first;
    for letter in letters {
        out.put_number("\n", number);
        out.put_number(" ", event);
        put_party(" ", letter.from, out);
        put_party(" ", letter.to, out);
        out.put(" ");
        put_hashed(letter.text.as_slice(), out);
        number = number.saturating_add(1);
    }
    number
}
