ghost use Rattle.std.specs.Prelude.{◌≡◌, Ok, IfOk, IfSome, IsTrue};
ghost use Rattle.std.specs.List.{list_all, list_any};
ghost use Rattle.std.specs.Option.{option_copied};
ghost use Rattle.qu_base.specs.declared.party.Party.TheVariants as party;
ghost use Rattle.qu_frames.specs.Decoding.{decoded};
ghost use Rattle.qu_frames.specs.Signing.{if_signed};
ghost use Rattle.qu_trace.specs.Letters.{offered_by};
ghost use Rattle.qu_trace.specs.Decoded.{frame_found, IsFrameOf};
ghost use Rattle.qu_world.specs.State.{ring_of};
ghost use Rattle.qu_world.specs.Run.{IsSetup};
ghost use Rattle.qu_claims.specs.Handled.{is_of_setup, is_handler};
ghost use Rattle.qu_audit.specs.Forging.{is_letter, is_sent_at, was_sent, is_unsent, is_unshown, has_unshown, shows_unshown, is_forged_frame, is_forged_text, is_forged};

use super::shown::ShownSoFar;
use qu_base::{NoMemory, Party, ReplicaId};
use qu_frames::{Frame, Letter};
use qu_history::{Sealed, SetOf, Sets};
use qu_seal::KeyRing;
use qu_trace::{Entry, Event, Sent, Setup};
use std::alloc::Global;

/// The way of bytes to a party: from the party that sent them as a letter, if they are one.
#[derive(Clone, Copy)]
struct Way {
    from: Option<Party>,
    to: Party,
}

/// Whether an event behind these entries hands something forged to a correct party; `shown` is what they show, and the
/// frame is that of the bytes that it offers.
#[tactic(auto, using(crate::proofs::Forgeries::letter_sent))]
pub fn is_forged(
    alloc: Global,
    setup: &Setup,
    keys: &KeyRing,
    sent: &Sent<'_>,
    shown: &ShownSoFar<'_>,
    event: &Event,
    frame: Option<&Frame>,
) -> Result<bool, NoMemory>
    requires keys { keys.now ≡ ring_of setup.now }
    requires frame { IsFrameOf (option_copied frame) (offered_by sent.now event.now) }
    ensures { IfOk result (λ forged. forged ≡ is_forged setup.now sent.now shown.now event.now) }
{
    match event {
        Event::Deliver(number) => match sent.letter(*number) {
            Some(letter) if !setup.is_faulty(letter.to) => {
                let way = Way {
                    from: Some(letter.from),
                    to: letter.to,
                };
                is_forged_text(
                    alloc,
                    setup,
                    keys,
                    sent.entries(),
                    shown,
                    way,
                    letter.text.as_slice(),
                    frame,
                )
            }
            Some(_) | None => Ok(false),
        },
        Event::Inject(to, text) if !setup.is_faulty(*to) => {
            let way = Way {
                from: None,
                to: *to,
            };
            is_forged_text(
                alloc,
                setup,
                keys,
                sent.entries(),
                shown,
                way,
                text.as_slice(),
                frame,
            )
        }
        Event::Invoke(_, _) | Event::Tick(_) | Event::Inject(_, _) => Ok(false),
    }
}

/// Whether bytes that a correct party is handed, which are this frame or none, are forged, or a history in them.
#[tactic(auto, unfolding(qu_frames::specs::Signing::brought), using(crate::proofs::Frames::frame_laws))]
fn is_forged_text(
    alloc: Global,
    setup: &Setup,
    keys: &KeyRing,
    entries: &[Entry],
    shown: &ShownSoFar<'_>,
    way: Way,
    text: &[u8],
    frame: Option<&Frame>,
) -> Result<bool, NoMemory>
    requires keys { keys.now ≡ ring_of setup.now }
    requires frame { option_copied frame ≡ frame_found (decoded text.now) }
    requires sent { IfSome way.from (λ from. IsTrue (was_sent entries.now from way.to text.now)) }
    ensures { IfOk result (λ forged. forged ≡ is_forged_text setup.now entries.now shown.now way.to text.now) }
{
    match frame {
        Some(frame) => is_forged_frame(alloc, setup, keys, entries, shown, way, text, frame),
        None => Ok(false),
    }
}

/// Whether bytes of which this frame was decoded are forged, or a history in them. Their HMAC is verified only where
/// they would be.
#[tactic(auto, using(crate::proofs::Forgeries::forged_if_signed, crate::proofs::Forgeries::not_forged))]
fn is_forged_frame(
    alloc: Global,
    setup: &Setup,
    keys: &KeyRing,
    entries: &[Entry],
    shown: &ShownSoFar<'_>,
    way: Way,
    text: &[u8],
    frame: &Frame,
) -> Result<bool, NoMemory>
    requires keys { keys.now ≡ ring_of setup.now }
    requires sent { IfSome way.from (λ from. IsTrue (was_sent entries.now from way.to text.now)) }
    ensures { IfOk result (λ forged. forged ≡ is_forged_frame setup.now entries.now shown.now way.to text.now
        (if_signed (ring_of setup.now) way.to text.now (Ok frame.now))) }
{
    if is_unsent(setup, entries, way, text, frame)
        || shows_unshown(alloc, setup, keys, shown, way.to, frame)?
    {
        return Ok(frame.is_signed(keys, way.to, text));
    }
    Ok(false)
}

/// The keys of a run.
pub fn ring_of(setup: &Setup) -> KeyRing
    requires { IsSetup setup.now }
    ensures { result ≡ ring_of setup.now }
{
    KeyRing::derive(setup.seed, &setup.bounds, setup.clients)
}

/// Whether the frame that these bytes brought is of a correct party that did not send them. Where they are a letter of
/// this party, no entry is looked at.
fn is_unsent(setup: &Setup, entries: &[Entry], way: Way, text: &[u8], frame: &Frame) -> bool
    requires { IfSome way.from (λ from. IsTrue (was_sent entries.now from way.to text.now)) }
    ensures { result ≡ is_unsent setup.now entries.now way.to text.now frame.now }
{
    let from = frame.sender();
    !setup.is_faulty(from) && way.from != Some(from) && !was_sent(entries, from, way.to, text)
}

/// Whether the first party sent these bytes to the second at one of these entries. The newest are looked at first.
fn was_sent(entries: &[Entry], from: Party, to: Party, text: &[u8]) -> bool
    ensures { result ≡ was_sent entries.now from to text.now }
{
    entries
        .iter()
        .rev()
        .any(|entry| is_sent_at(entry, from, to, text))
}

fn is_sent_at(entry: &Entry, from: Party, to: Party, text: &[u8]) -> bool
    ensures { result ≡ is_sent_at from to text.now entry.now }
{
    entry
        .letters
        .iter()
        .any(|letter| is_letter(letter, from, to, text))
}

fn is_letter(letter: &Letter, from: Party, to: Party, text: &[u8]) -> bool
    ensures { result ≡ is_letter from to text.now letter.now }
{
    letter.from == from && letter.to == to && letter.text.as_slice() == text
}

/// Whether the frame is a request that shows a correct replica a forged history.
fn shows_unshown(
    alloc: Global,
    setup: &Setup,
    keys: &KeyRing,
    shown: &ShownSoFar<'_>,
    to: Party,
    frame: &Frame,
) -> Result<bool, NoMemory>
    requires { keys.now ≡ ring_of setup.now }
    ensures { IfOk result (λ unshown. unshown ≡ shows_unshown setup.now shown.now to frame.now) }
{
    match (to, frame) {
        (Party::Replica(me), Frame::Request { sets, .. })
            if is_handler(setup, me) && are_known(setup, sets) => {
            any_unshown(alloc, setup, keys, shown, me, sets)
        }
        (Party::Replica(_) | Party::Client(_), _) => Ok(false),
    }
}

/// Whether this is a correct replica of the setup.
pub fn is_handler(setup: &Setup, me: ReplicaId) -> bool
    ensures { result ≡ is_handler setup.now me }
{
    me.0 < setup.bounds.n() && !setup.is_faulty(Party::Replica(me))
}

/// Whether the setup has all objects of the sets.
pub fn are_known(setup: &Setup, sets: &Sets) -> bool
    ensures { result ≡ list_all (is_of_setup setup.now) sets.now }
{
    let known = setup.kinds.len();
    sets.objects()
        .iter()
        .all(|set| usize::from(set.object.0) < known)
}

/// Whether one of the entries of these sets is forged for this reader.
fn any_unshown(
    alloc: Global,
    setup: &Setup,
    keys: &KeyRing,
    shown: &ShownSoFar<'_>,
    me: ReplicaId,
    sets: &Sets,
) -> Result<bool, NoMemory>
    requires { keys.now ≡ ring_of setup.now }
    ensures { IfOk result (λ any. any ≡ list_any (has_unshown setup.now shown.now me) sets.now) }
{
    for set in sets.objects().as_slice() {
        if has_unshown(alloc, setup, keys, shown, me, set)? {
            return Ok(true);
        }
    }
    Ok(false)
}

fn has_unshown(
    alloc: Global,
    setup: &Setup,
    keys: &KeyRing,
    shown: &ShownSoFar<'_>,
    me: ReplicaId,
    set: &SetOf,
) -> Result<bool, NoMemory>
    requires { keys.now ≡ ring_of setup.now }
    ensures { IfOk result (λ any. any ≡ has_unshown setup.now shown.now me set.now) }
{
    for sealed in set.entries.as_slice() {
        if is_unshown(alloc, setup, keys, shown, me, sealed)? {
            return Ok(true);
        }
    }
    Ok(false)
}

/// Whether the reader does not cull the entry, which is of a correct replica that did not show it.
fn is_unshown(
    alloc: Global,
    setup: &Setup,
    keys: &KeyRing,
    shown: &ShownSoFar<'_>,
    me: ReplicaId,
    sealed: &Sealed,
) -> Result<bool, NoMemory>
    requires { keys.now ≡ ring_of setup.now }
    ensures { IfOk result (λ unshown. unshown ≡ is_unshown setup.now shown.now me sealed.now) }
{
    if setup.is_faulty(Party::Replica(sealed.history.replica())) || shown.has(me, sealed) {
        return Ok(false);
    }
    sealed.is_right(alloc, me, keys)
}
