//! A run whose letters are decoded, each once.
ghost use Rattle.std.specs.Prelude.{◌≡◌, ◌≤◌, ◌+◌, ◌++◌, length, map, take, drop, slice_get, Some, IfOk, IfSome};
ghost use Rattle.std.specs.Option.{option_copied, option_flatten};
ghost use Rattle.qu_frames.specs.Decoding.{decoded};
ghost use Rattle.qu_trace.specs.declared.trace.Entry.{Entry as AnEntry};
ghost use Rattle.qu_trace.specs.Letters.{letters_of, numbered};
ghost use Rattle.qu_trace.specs.Decoded.{frame_found, frame_sent, frame_numbered, frame_injected, frame_offered_at};
ghost use Rattle.qu_trace.specs.Operation.{operations_of};

use super::operation::operations;
use super::sent::{Sent, Starts, start_at};
use super::{Entry, Event, Trace};
use qu_base::{List, NoMemory, ReadFail};
use qu_frames::{Frame, Letter, decode, said_again};
use qu_machine::OpRecord;
use std::alloc::Global;
use std::marker::Model;

/// A run with what is read of it more than once: the frame of each letter and of each text that is injected, where the
/// letters of each entry begin, and the operations.
pub struct DecodedTrace<'a> {
    trace: &'a Trace,
    starts: Starts,
    /// The frame of each letter, in the order of their numbers; None where its bytes are no frame.
    frames: Vec<Option<Frame>>,
    /// The frame that each event injects; None where it injects none.
    injected: Vec<Option<Frame>>,
    operations: List<OpRecord>,
}

/// By hand, so that a value is let go in one step wherever that is.
impl<'a> Drop for DecodedTrace<'a> {
    fn drop(self) {
        let DecodedTrace {
            trace: _,
            starts: _,
            frames: _,
            injected: _,
            operations: _,
        } = self;
    }
}

impl<'a> Model for DecodedTrace<'a> {
    ghost use Rattle.qu_trace.specs.declared.trace.Trace.{Trace};
    ghost use Rattle.qu_trace.specs.Decoded.{IsKept};

    ghost Value = { Trace };

    ghost view = { λ run. run.trace.now };

    ghost invariant = { λ run. IsKept run.trace.now run.starts run.frames.items run.injected.items run.operations };
}

impl<'a> DecodedTrace<'a> {
    /// Decodes the letters and the injected texts of a run, each once.
    pub fn of(alloc: Global, trace: &'a Trace) -> Result<DecodedTrace<'a>, NoMemory>
        ensures { IfOk result (λ run. run ≡ trace.now) }
    {
        let entries = trace.entries.as_slice();
        Ok(DecodedTrace {
            trace,
            starts: Starts::of(alloc, entries)?,
            frames: frames_sent(alloc, entries)?,
            injected: frames_injected(alloc, entries)?,
            operations: operations(alloc, trace)?,
        })
    }

    /// The run.
    pub fn trace(&self) -> &'a Trace
        ensures { result.now ≡ self.now }
    {
        self.trace
    }

    /// The operations of correct clients, in the order of their invocations.
    pub fn operations(&self) -> &[OpRecord]
        ensures { result.now ≡ operations_of self.now }
    {
        self.operations.as_slice()
    }

    /// The first entries, so many of them at most, in which a letter is found by its number at once.
    pub fn first(&self, count: usize) -> Sent<'_>
        ensures { result ≡ take count self.now.entries }
    {
        let entries = self.trace.entries.as_slice();
        let starts = self.starts.places.as_slice();
        let count = count.min(entries.len());
        Sent::new(&entries[..count], &starts[..count])
    }

    /// The letter with this number, counted from 1; None where the run sent none.
    pub fn letter(&self, number: u64) -> Option<&Letter>
        ensures { option_copied result ≡ numbered (letters_of self.now.entries) number }
    {
        let entries = self.trace.entries.as_slice();
        Sent::new(entries, self.starts.places.as_slice()).letter(number)
    }

    /// The frame of the letter with this number, counted from 1; None where the run sent none, or its bytes are no
    /// frame.
    pub fn frame(&self, number: u64) -> Option<&Frame>
        ensures { option_copied result ≡ frame_numbered self.now.entries number }
    {
        let place = number.checked_sub(1)?;
        frame_in(self.frames.as_slice(), place as usize)
    }

    /// The frame that the event of the entry with this index, counted from 0, offers a party; None where it offers
    /// none.
    pub fn offered(&self, index: usize) -> Option<&Frame>
        ensures { option_copied result ≡ frame_offered_at self.now.entries (slice_get self.now.entries index) }
    {
        let entry = self.trace.entries.get(index)?;
        match &entry.event {
            Event::Deliver(number) => self.frame(*number),
            Event::Inject(_, _) => frame_in(self.injected.as_slice(), index),
            Event::Invoke(_, _) | Event::Tick(_) => None,
        }
    }

    /// The frames of the letters of the entry with this index, counted from 0; no frame where there is no such entry.
    pub fn frames_at(&self, index: usize) -> &[Option<Frame>]
        ensures { (entry : AnEntry) → slice_get self.now.entries index ≡ Some entry
            → result.now ≡ map frame_sent entry.letters }
    {
        match self.trace.entries.get(index) {
            Some(entry) => {
                let start = start_at(self.starts.places.as_slice(), index) as usize;
                part(self.frames.as_slice(), start, entry.letters.len())
            }
            None => &[],
        }
    }
}

/// So many frames from this place on.
fn part(frames: &[Option<Frame>], start: usize, count: usize) -> &[Option<Frame>]
    requires { start + count ≤ length frames.now }
    ensures { result.now ≡ take count (drop start frames.now) }
{
    let behind = &frames[start..];
    &behind[..count]
}

/// The frame at this place, if there is one.
fn frame_in(frames: &[Option<Frame>], place: usize) -> Option<&Frame>
    ensures { option_copied result ≡ option_flatten (slice_get frames.now place) }
{
    frames.get(place)?.as_ref()
}

/// The frames of all letters.
fn frames_sent(alloc: Global, entries: &[Entry]) -> Result<Vec<Option<Frame>>, NoMemory>
    ensures { IfOk result (λ frames. frames.items ≡ map frame_sent (letters_of entries.now)) }
{
    let mut frames = Vec::new(alloc);
    for entry in entries {
        let mut found = frames_of(alloc, entry.letters.as_slice())?;
        frames.append(&mut found)?;
    }
    Ok(frames)
}

/// The frames of these letters.
fn frames_of(alloc: Global, letters: &[Letter]) -> Result<Vec<Option<Frame>>, NoMemory>
    ensures { IfOk result (λ frames. frames.items ≡ map frame_sent letters.now) }
{
    let mut frames = Vec::new(alloc);
    for (place, letter) in letters.iter().enumerate() {
        let again = if place == 0 {
            None
        } else {
            frame_again(alloc, &letters[place - 1], &frames[place - 1], letter)?
        };
        frames.push(match again {
            Some(frame) => Some(frame),
            None => frame_found(alloc, letter.text.as_slice())?,
        })?;
    }
    Ok(frames)
}

/// The frame of a letter that says the request of the one before it, which has this frame, to another replica. It is
/// not decoded, and shares the sets of that request. None of any other letter.
#[tactic(auto, using(crate::proofs::DecodedLaws::decoded_to))]
fn frame_again(
    alloc: Global,
    before: &Letter,
    frame: &Option<Frame>,
    letter: &Letter,
) -> Result<Option<Frame>, NoMemory>
    requires { frame.now ≡ frame_sent before.now }
    ensures { IfOk result (λ found. IfSome found (λ again. frame_sent letter.now ≡ Some again)) }
{
    match frame {
        Some(frame) => said_again(alloc, frame, before.text.as_slice(), letter.text.as_slice()),
        None => Ok(None),
    }
}

/// The frames that events inject.
fn frames_injected(alloc: Global, entries: &[Entry]) -> Result<Vec<Option<Frame>>, NoMemory>
    ensures { IfOk result
        (λ frames. frames.items ≡ map (λ (entry : AnEntry). frame_injected entry.event) entries.now) }
{
    let mut frames = Vec::new(alloc);
    for entry in entries {
        frames.push(frame_injected(alloc, &entry.event)?)?;
    }
    Ok(frames)
}

/// The frame that an event injects.
fn frame_injected(alloc: Global, event: &Event) -> Result<Option<Frame>, NoMemory>
    ensures { IfOk result (λ frame. frame ≡ frame_injected event.now) }
{
    match event {
        Event::Inject(_, text) => frame_found(alloc, text.as_slice()),
        Event::Invoke(_, _) | Event::Deliver(_) | Event::Tick(_) => Ok(None),
    }
}

/// The frame that a text is decoded to, None where it is none.
fn frame_found(alloc: Global, text: &[u8]) -> Result<Option<Frame>, NoMemory>
    ensures { IfOk result (λ frame. frame ≡ frame_found (decoded text.now)) }
{
    match decode(alloc, text) {
        Ok(frame) => Ok(Some(frame)),
        Err(ReadFail::Bad(_)) => Ok(None),
        Err(ReadFail::NoMemory) => Err(NoMemory),
    }
}
