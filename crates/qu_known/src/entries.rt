//! That what replies show of replicas is what they accepted, event by event.
ghost use Rattle.std.specs.Prelude.{◌≡◌, ◌<◌, ◌+◌, length, slice_get, Some, IfOk};
ghost use Rattle.qu_base.specs.Format.{AreBytes};
ghost use Rattle.qu_trace.specs.declared.trace.Entry.{Entry as AnEntry};
ghost use Rattle.qu_world.specs.Run.{IsRun};
ghost use Rattle.qu_claims.specs.Times.{world_after};
ghost use Rattle.qu_known.specs.Answers.{rounds_answered};
ghost use Rattle.qu_known.specs.Known.{AreKnown, Learned, HasBytes, HaveBytes, IsOfBytes, AreOfBytes};

use super::known::{Known, Learnt};
use qu_base::NoMemory;
use qu_frames::Letter;
use qu_trace::{DecodedTrace, Entry, Event};
use std::alloc::Global;

/// Takes what the letters of the entry with this index show, and tells what is new of it.
pub fn see_entry(
    alloc: Global,
    trace: &DecodedTrace<'_>,
    index: usize,
    known: &mut Known,
) -> Result<Learnt, NoMemory>
    requires run { IsRun trace.now }
    requires bytes { AreOfBytes trace.now.entries }
    requires within { index < length trace.now.entries }
    requires known { AreKnown (world_after trace.now index).replicas known.old }
    ensures learned { IfOk result (λ told. Learned (world_after trace.now index).replicas
        (world_after trace.now (index + 1)).replicas (known.new, told.news)) }
    ensures answered { IfOk result (λ told. (entry : AnEntry) → slice_get trace.now.entries index ≡ Some entry
        → told.rounds ≡ rounds_answered entry) }
{
    let entry = &trace.trace().entries.as_slice()[index];
    let told = known.see_letters(alloc, entry.letters.as_slice(), trace.frames_at(index))?;
    Ok(told)
}

/// What the entries inject and send are bytes. Types keep this; here it is told of a whole run, and nothing is
/// computed.
pub fn are_of_bytes(entries: &[Entry])
    ensures { AreOfBytes entries.now }
{
    for entry in entries {
        is_of_bytes(entry);
    }
}

fn is_of_bytes(entry: &Entry)
    ensures { IsOfBytes entry.now }
{
    has_bytes(&entry.event);
    have_bytes(entry.letters.as_slice());
}

fn has_bytes(event: &Event)
    ensures { HasBytes event.now }
{
    match event {
        Event::Inject(_, text) => are_bytes(text.as_slice()),
        Event::Invoke(_, _) | Event::Deliver(_) | Event::Tick(_) => {}
    }
}

fn have_bytes(letters: &[Letter])
    ensures { HaveBytes letters.now }
{
    for letter in letters {
        are_bytes(letter.text.as_slice());
    }
}

fn are_bytes(text: &[u8])
    ensures { AreBytes text.now }
{}
