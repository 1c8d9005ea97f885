//! The texts that are digested at an event.
ghost use Rattle.std.specs.Prelude.{◌≡◌, ◌++◌, map, Ok, IfOk, IfSome, OnOk};
ghost use Rattle.std.specs.List.{flat_map};
ghost use Rattle.std.specs.Option.{option_copied};
ghost use Rattle.qu_history.specs.declared.sets.SetOf.{SetOf};
ghost use Rattle.qu_frames.specs.Decoding.{decoded};
ghost use Rattle.qu_frames.specs.Signing.{text_digest};
ghost use Rattle.qu_trace.specs.Letters.{offered_by};
ghost use Rattle.qu_trace.specs.Decoded.{frame_found, IsFrameOf};
ghost use Rattle.qu_world.specs.State.{ring_of};
ghost use Rattle.qu_claims.specs.Digested.{texts_at, sent_texts, body_texts, signed_text, history_text};
ghost use Rattle.qu_audit.specs.Forging.{letter_shown};
ghost use Rattle.qu_audit.specs.Texts.{handler_of, request_texts, entry_texts, decoded_texts, reached_texts};

use super::digests::Digests;
use super::forging::{are_known, is_handler};
use super::reading::culled_text;
use super::shown::Shown;
use super::text::Text;
use qu_base::{ClientId, Digest, List, NoMemory, Party, ReplicaId};
use qu_frames::{Body, Frame, Letter, before_mac};
use qu_history::{Sealed, Sets};
use qu_objects::act_text;
use qu_seal::{ACT_TAG, FRAME_TAG, KeyRing, SETS_TAG};
use qu_trace::{DecodedTrace, Entry, Event, Setup};
use std::alloc::Global;

/// The texts that are digested at the event of an entry, which offers this frame or none and whose letters show this.
/// What was noted before is not digested anew.
#[tactic(auto, using(crate::proofs::TextLaws::texts_at_parts))]
pub fn texts_at(
    alloc: Global,
    digests: &Digests,
    trace: &DecodedTrace<'_>,
    keys: &KeyRing,
    entry: &Entry,
    frame: Option<&Frame>,
    shown: &[Shown<'_>],
) -> Result<List<Text>, NoMemory>
    requires keys { keys.now ≡ ring_of trace.now.setup }
    requires frame { IsFrameOf (option_copied frame) (offered_by trace.now.entries entry.now.event) }
    requires shown { shown.now ≡ map letter_shown entry.now.letters }
    ensures { IfOk result (λ texts. texts ≡ texts_at trace.now entry.now) }
{
    let mut texts = List::new(alloc);
    add_reached(alloc, digests, trace, keys, &entry.event, frame, &mut texts)?;
    add_sent(alloc, digests, entry.letters.as_slice(), shown, &mut texts)?;
    Ok(texts)
}

/// Adds what is digested of the bytes that an event offers a correct party.
fn add_reached(
    alloc: Global,
    digests: &Digests,
    trace: &DecodedTrace<'_>,
    keys: &KeyRing,
    event: &Event,
    frame: Option<&Frame>,
    texts: &mut List<Text>,
) -> Result<(), NoMemory>
    requires keys { keys.now ≡ ring_of trace.now.setup }
    requires frame { IsFrameOf (option_copied frame) (offered_by trace.now.entries event.now) }
    ensures { OnOk result (texts.new ≡ texts.old
        ++ reached_texts trace.now.setup (offered_by trace.now.entries event.now)) }
{
    let setup = &trace.trace().setup;
    match event {
        Event::Deliver(number) => match trace.letter(*number) {
            Some(letter) if !setup.is_faulty(letter.to) => {
                add_decoded(
                    alloc,
                    digests,
                    setup,
                    keys,
                    letter.to,
                    letter.text.as_slice(),
                    frame,
                    texts,
                )
            }
            Some(_) | None => Ok(()),
        },
        Event::Inject(to, text) if !setup.is_faulty(*to) => {
            add_decoded(
                alloc,
                digests,
                setup,
                keys,
                *to,
                text.as_slice(),
                frame,
                texts,
            )
        }
        Event::Invoke(_, _) | Event::Tick(_) | Event::Inject(_, _) => Ok(()),
    }
}

/// Adds what a correct party digests of bytes, which are this frame or none.
#[tactic(auto, using(crate::proofs::Frames::frame_laws))]
fn add_decoded(
    alloc: Global,
    digests: &Digests,
    setup: &Setup,
    keys: &KeyRing,
    to: Party,
    text: &[u8],
    frame: Option<&Frame>,
    texts: &mut List<Text>,
) -> Result<(), NoMemory>
    requires keys { keys.now ≡ ring_of setup.now }
    requires frame { option_copied frame ≡ frame_found (decoded text.now) }
    ensures { OnOk result (texts.new ≡ texts.old ++ decoded_texts setup.now to text.now (decoded text.now)) }
{
    match frame {
        Some(frame) => add_frame(alloc, digests, setup, keys, to, text, frame, texts),
        None => Ok(()),
    }
}

/// Adds what it digests of them where they are a frame.
#[tactic(auto, unfolding(qu_frames::specs::Signing::text_digest))]
fn add_frame(
    alloc: Global,
    digests: &Digests,
    setup: &Setup,
    keys: &KeyRing,
    to: Party,
    text: &[u8],
    frame: &Frame,
    texts: &mut List<Text>,
) -> Result<(), NoMemory>
    requires { keys.now ≡ ring_of setup.now }
    ensures { OnOk result (texts.new ≡ texts.old ++ decoded_texts setup.now to text.now (Ok frame.now)) }
{
    let digested = digests.signed_text(alloc, text)?;
    let handler = handler_of(setup, keys, to, text, frame, digested.digest());
    let mut histories = List::new(alloc);
    add_entries(alloc, digests, setup, frame, handler, &mut histories)?;
    add_request(
        alloc,
        digests,
        setup,
        keys,
        frame,
        handler,
        histories.as_slice(),
        texts,
    )?;
    texts.push(digested)?;
    append(texts, histories)
}

/// Puts these texts behind the others.
fn append(texts: &mut List<Text>, more: List<Text>) -> Result<(), NoMemory>
    ensures { OnOk result (texts.new ≡ texts.old ++ more) }
{
    for text in more.into_vec() {
        texts.push(text)?;
    }
    Ok(())
}

/// The replica that handles the frame of these bytes, which have this digest.
#[tactic(auto, unfolding(qu_frames::specs::Signing::is_signed))]
fn handler_of(
    setup: &Setup,
    keys: &KeyRing,
    to: Party,
    text: &[u8],
    frame: &Frame,
    digest: Digest,
) -> Option<ReplicaId>
    requires keys { keys.now ≡ ring_of setup.now }
    requires digest { digest ≡ text_digest text.now }
    ensures { result ≡ handler_of setup.now to text.now frame.now }
{
    let from = frame.sender();
    match to {
        Party::Replica(me)
            if is_handler(setup, me) && keys.verifies(from, to, &digest, frame.mac()) => {
            Some(me)
        }
        Party::Replica(_) | Party::Client(_) => None,
    }
}

/// Adds the texts whose digests stand in stamps, where a replica handles the frame, whose entries have these
/// histories.
fn add_request(
    alloc: Global,
    digests: &Digests,
    setup: &Setup,
    keys: &KeyRing,
    frame: &Frame,
    handler: Option<ReplicaId>,
    histories: &[Text],
    texts: &mut List<Text>,
) -> Result<(), NoMemory>
    requires keys { keys.now ≡ ring_of setup.now }
    requires histories { histories.now ≡ entry_texts setup.now frame.now handler }
    ensures { OnOk result (texts.new ≡ texts.old ++ request_texts setup.now frame.now handler) }
{
    match (handler, frame) {
        (
            Some(me),
            Frame::Request {
                client,
                number,
                sets,
                body,
                ..
            },
        ) if are_known(setup, sets) => {
            let culled = culled_text(alloc, keys, me, sets, histories)?;
            texts.push(digests.text(alloc, SETS_TAG, culled)?)?;
            add_body(alloc, digests, *client, *number, body, texts)
        }
        _ => Ok(()),
    }
}

/// Adds the text of an act.
fn add_body(
    alloc: Global,
    digests: &Digests,
    client: ClientId,
    number: u64,
    body: &Body,
    texts: &mut List<Text>,
) -> Result<(), NoMemory>
    ensures { OnOk result (texts.new ≡ texts.old ++ body_texts client number body.now) }
{
    match body {
        Body::Act(act) => {
            let bytes = act_text(alloc, client, number, act)?;
            texts.push(digests.text(alloc, ACT_TAG, bytes)?)
        }
        Body::Ask(_) | Body::Mend(_) => Ok(()),
    }
}

/// Adds the histories of the entries of a request, where a replica handles the frame.
fn add_entries(
    alloc: Global,
    digests: &Digests,
    setup: &Setup,
    frame: &Frame,
    handler: Option<ReplicaId>,
    texts: &mut List<Text>,
) -> Result<(), NoMemory>
    ensures { OnOk result (texts.new ≡ texts.old ++ entry_texts setup.now frame.now handler) }
{
    match (handler, frame) {
        (Some(_), Frame::Request { sets, .. }) if are_known(setup, sets) => {
            add_sets(alloc, digests, sets, texts)
        }
        _ => Ok(()),
    }
}

fn add_sets(
    alloc: Global,
    digests: &Digests,
    sets: &Sets,
    texts: &mut List<Text>,
) -> Result<(), NoMemory>
    ensures { OnOk result (texts.new ≡ texts.old
        ++ map history_text (flat_map (λ (set : SetOf). set.entries) sets.now)) }
{
    for set in sets.objects().as_slice() {
        add_histories(alloc, digests, set.entries.as_slice(), texts)?;
    }
    Ok(())
}

/// Adds the texts of these histories.
fn add_histories(
    alloc: Global,
    digests: &Digests,
    entries: &[Sealed],
    texts: &mut List<Text>,
) -> Result<(), NoMemory>
    ensures { OnOk result (texts.new ≡ texts.old ++ map history_text entries.now) }
{
    for sealed in entries {
        texts.push(digests.history_text(alloc, sealed)?)?;
    }
    Ok(())
}

/// Adds what is digested of letters that are sent, which show this.
fn add_sent(
    alloc: Global,
    digests: &Digests,
    letters: &[Letter],
    shown: &[Shown<'_>],
    texts: &mut List<Text>,
) -> Result<(), NoMemory>
    requires { shown.now ≡ map letter_shown letters.now }
    ensures { OnOk result (texts.new ≡ texts.old ++ flat_map sent_texts letters.now) }
{
    for (place, letter) in letters.iter().enumerate() {
        add_letter(alloc, digests, letter, &shown[place], texts)?;
    }
    Ok(())
}

fn add_letter(
    alloc: Global,
    digests: &Digests,
    letter: &Letter,
    shown: &Shown<'_>,
    texts: &mut List<Text>,
) -> Result<(), NoMemory>
    requires { shown.now ≡ letter_shown letter.now }
    ensures { OnOk result (texts.new ≡ texts.old ++ sent_texts letter.now) }
{
    let frame = sent_frame(alloc, digests, letter.text.as_slice(), texts.as_slice())?;
    texts.push(frame)?;
    add_histories(alloc, digests, shown.histories(), texts)
}

/// The text of a frame that is sent, up to its HMAC. Where the same was sent just before, to another receiver, it is
/// that one.
fn sent_frame(
    alloc: Global,
    digests: &Digests,
    text: &[u8],
    before: &[Text],
) -> Result<Text, NoMemory>
    ensures { IfOk result (λ digested. digested ≡ signed_text text.now) }
{
    match last_if_same(before, FRAME_TAG, before_mac(text))? {
        Some(same) => Ok(same),
        None => digests.signed_text(alloc, text),
    }
}

/// The last of these texts, held once more, where it has these bytes under this tag.
fn last_if_same(texts: &[Text], tag: u8, bytes: &[u8]) -> Result<Option<Text>, NoMemory>
    ensures { IfOk result (λ found. IfSome found (λ text. text ≡ record { tag = tag; bytes = bytes.now })) }
{
    match texts.last() {
        Some(text) => text.if_same(tag, bytes),
        None => Ok(None),
    }
}
