ghost use Rattle.std.specs.Prelude.{◌≡◌, ◌<◌, ◌+◌, length, IfOk, MatchOption};
ghost use Rattle.qu_world.specs.Run.{IsRun};
ghost use Rattle.qu_world.specs.State.{ring_of};
ghost use Rattle.qu_trace.specs.declared.premises.Premises.{Premises as Answer};
ghost use Rattle.qu_audit.specs.Answer.{IsAnswer};
ghost use Rattle.qu_audit.specs.Past.{IsPast};

use super::Premises;
use crate::digests::Digests;
use crate::forging::{is_forged, ring_of};
use crate::shown::ShownSoFar;
use crate::texts::texts_at;
use qu_base::NoMemory;
use qu_seal::KeyRing;
use qu_trace::DecodedTrace;
use std::alloc::Global;

/// What is known of the events of a run so far.
pub struct Past<'a> {
    pub shown: ShownSoFar<'a>,
    pub digests: Digests,
}

/// By hand, so that a value is let go in one step wherever that is.
impl<'a> Drop for Past<'a> {
    fn drop(self) {
        let Past {
            shown: _,
            digests: _,
        } = self;
    }
}

/// Whether the premises hold of a run, and else the first event that breaks one: at a tie it is what is forged.
/// Each run has one answer.
#[tactic(auto, using(crate::proofs::Unique::answer_only))]
pub fn audit(alloc: Global, trace: &DecodedTrace<'_>) -> Result<Premises, NoMemory>
    requires { IsRun trace.now }
    ensures answer { IfOk result (λ premises. IsAnswer trace.now premises) }
    ensures only { (other : Answer) → IsAnswer trace.now other → IfOk result (λ premises. premises ≡ other) }
{
    let premises = first_break(alloc, trace)?;
    Ok(premises)
}

/// The first event that breaks a premise, where one does.
fn first_break(alloc: Global, trace: &DecodedTrace<'_>) -> Result<Premises, NoMemory>
    requires { IsRun trace.now }
    ensures { IfOk result (λ premises. IsAnswer trace.now premises) }
{
    let mut past = Past {
        shown: ShownSoFar::new(alloc),
        digests: Digests::new(alloc),
    };
    let keys = ring_of(&trace.trace().setup);
    for index in 0..trace.trace().entries.len() {
        if let Some(broken) = follow(alloc, trace, &keys, index, &mut past)? {
            return Ok(broken);
        }
    }
    Ok(Premises::Hold)
}

/// What the event of the entry with this index breaks; where it breaks nothing, it belongs to the past.
fn follow<'a>(
    alloc: Global,
    trace: &'a DecodedTrace<'_>,
    keys: &KeyRing,
    index: usize,
    past: &mut Past<'a>,
) -> Result<Option<Premises>, NoMemory>
    requires run { IsRun trace.now }
    requires keys { keys.now ≡ ring_of trace.now.setup }
    requires within { index < length trace.now.entries }
    requires past { IsPast trace.now index past.old }
    ensures { IfOk result (λ broken. MatchOption broken (IsPast trace.now (index + 1) past.new)
        (λ premises. IsAnswer trace.now premises)) }
{
    let run = trace.trace();
    let entry = &run.entries.as_slice()[index];
    let event = index as u64 + 1;
    let frame = trace.offered(index);
    let sent = trace.first(index);
    if is_forged(
        alloc,
        &run.setup,
        keys,
        &sent,
        &past.shown,
        &entry.event,
        frame,
    )? {
        return Ok(Some(Premises::Forged { event }));
    }
    let before = past.shown.len();
    past.shown
        .add(entry.letters.as_slice(), trace.frames_at(index))?;
    let shown = past.shown.since(before);
    let texts = texts_at(alloc, &past.digests, trace, keys, entry, frame, shown)?;
    past.digests.note_all(event, texts.as_slice())?;
    match past.digests.first_clash(texts.as_slice()) {
        Some(first) => Ok(Some(Premises::Collide {
            first,
            second: event,
        })),
        None => Ok(None),
    }
}
