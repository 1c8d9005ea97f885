//! Classes of sets, digests, HMACs and keys.

use super::case::Case;
use super::forms::{put_candidate, put_culled, put_frame, put_hashed, put_sets, put_stamp};
use super::names::{Named, bytes_of};
use super::no_answer::NoAnswer;
use super::reading::{frame_to, one_act, one_frame, one_history, some_sets};
use super::texts::parted;
use super::told::Told;
use qu_base::{Bounds, ClientId, Cursor, Digest, List, ObjectId, Party, ReplicaId};
use qu_class::method_at;
use qu_frames::text_digest;
use qu_history::{Culled, Sets};
use qu_objects::act_digest;
use qu_seal::{KeyRing, digest, hmac};
use qu_stamp::Candidate;
use std::alloc::Global;

fn bounds(number: u8) -> Result<Bounds, NoAnswer> {
    Bounds::new(number).or(Err(NoAnswer::Number))
}

/// `method B OBJECT`: the candidate on which an operation may rest, how many entries hold it, and the
/// latest stamp.
pub fn method(alloc: Global, case: &Case<'_>, text: &[u8], out: &mut Told) -> Result<(), NoAnswer> {
    let bounds = case.byte(0).and_then(bounds)?;
    let object = ObjectId(case.short(1)?);
    let sets = some_sets(alloc, text)?;
    put_class(&sets, object, &bounds, out);
    Ok(())
}

fn put_class(sets: &Sets, object: ObjectId, bounds: &Bounds, out: &mut Told) {
    match method_at(sets, object, bounds) {
        Some(base) => {
            out.put("METHOD ");
            put_candidate(&base, out);
            out.put_number(" in ", u64::from(sets.count(object, &base)));
        }
        None => out.put("not METHOD"),
    }
    let opening = sets.count(object, &Candidate::opening());
    out.put_number("\n", u64::from(sets.entries(object)));
    out.put_number(" entries, ", u64::from(opening));
    out.put(" with the opening, latest ");
    match sets.latest(object) {
        Some(latest) => put_stamp(&latest, out),
        None => out.put("none"),
    }
}

/// `digest TAG`, or that of a part: `digest history`, `digest sets`, `digest frame`, `digest act C N`.
pub fn digest_of(
    alloc: Global,
    case: &Case<'_>,
    text: &[u8],
    out: &mut Told,
) -> Result<(), NoAnswer> {
    let digest = digest_by(alloc, case, text)?;
    out.put_hex(&digest.0);
    Ok(())
}

fn digest_by(alloc: Global, case: &Case<'_>, text: &[u8]) -> Result<Digest, NoAnswer> {
    match case.word(0) {
        "history" => digest_of_history(alloc, text),
        "sets" => digest_of_sets(alloc, text),
        "frame" => Ok(text_digest(text)),
        "act" => digest_of_act(alloc, case, text),
        _ => Ok(digest(case.byte(0)?, text)),
    }
}

fn digest_of_history(alloc: Global, text: &[u8]) -> Result<Digest, NoAnswer> {
    let history = one_history(alloc, text)?;
    history.digest(alloc).or(Err(NoAnswer::NoMemory))
}

fn digest_of_sets(alloc: Global, text: &[u8]) -> Result<Digest, NoAnswer> {
    let sets = some_sets(alloc, text)?;
    sets.digest_of(alloc).or(Err(NoAnswer::NoMemory))
}

fn digest_of_act(alloc: Global, case: &Case<'_>, text: &[u8]) -> Result<Digest, NoAnswer> {
    let (client, number) = (ClientId(case.short(1)?), case.number(2)?);
    let known = [ObjectId(0), ObjectId(5), ObjectId(63)];
    let act = one_act(alloc, &known, text)?;
    act_digest(alloc, client, number, &act).or(Err(NoAnswer::NoMemory))
}

/// `hmac`: the HMAC of the bytes under the key of the line `at key BYTES`.
pub fn hmac_of(
    alloc: Global,
    names: &[Named<'_>],
    case: &Case<'_>,
    text: &[u8],
    out: &mut Told,
) -> Result<(), NoAnswer> {
    let (_, words) = parted(case.lines, "\nat key ");
    let key = bytes_of(alloc, names, words)?;
    out.put_hex(&hmac(key.as_slice(), text));
    Ok(())
}

/// The keys of a seed, of 6 replicas and 64 clients.
fn ring(case: &Case<'_>) -> Result<KeyRing, NoAnswer> {
    match (case.number(0), Bounds::new(1)) {
        (Ok(seed), Ok(bounds)) => Ok(KeyRing::derive(seed, &bounds, 64)),
        _ => Err(NoAnswer::Number),
    }
}

/// `mac SEED FROM TO`: the HMAC of a digest under the key of a pair, and whether the other verifies it.
pub fn mac(case: &Case<'_>, text: &[u8], out: &mut Told) -> Result<(), NoAnswer> {
    let keys = ring(case)?;
    match (case.party(1), case.party(2), Cursor::new(text).digest()) {
        (Ok(from), Ok(to), Ok(digest)) => put_mac(&keys, from, to, &digest, out),
        _ => return Err(NoAnswer::Word),
    }
    Ok(())
}

fn put_mac(keys: &KeyRing, from: Party, to: Party, digest: &Digest, out: &mut Told) {
    let mac = keys.seal_for(from, to, digest);
    out.put_hex(&mac);
    out.put(match keys.verifies(to, from, digest, &mac) {
        true => " verified: true",
        false => " verified: false",
    });
}

/// The text of a frame with the HMAC that its sender makes for a party.
pub fn signed_text(
    alloc: Global,
    keys: &KeyRing,
    to: Party,
    text: &[u8],
) -> Result<List<u8>, NoAnswer> {
    let frame = one_frame(alloc, text)?;
    frame.signed(alloc, keys, to).or(Err(NoAnswer::NoMemory))
}

/// `signed SEED TO`: the length and SHA-256 of a frame with the HMAC that its sender makes for a party.
pub fn signed(alloc: Global, case: &Case<'_>, text: &[u8], out: &mut Told) -> Result<(), NoAnswer> {
    let keys = ring(case)?;
    let text = signed_text(alloc, &keys, case.party(1)?, text)?;
    put_hashed(text.as_slice(), out);
    Ok(())
}

/// `receive SEED TO`: the frame that the bytes bring to a party.
pub fn received(
    alloc: Global,
    case: &Case<'_>,
    text: &[u8],
    out: &mut Told,
) -> Result<(), NoAnswer> {
    let keys = ring(case)?;
    match frame_to(alloc, &keys, case.party(1)?, text)? {
        Some(frame) => put_frame(&frame, out),
        None => out.put("ignored"),
    }
    Ok(())
}

/// `cull SEED R`: the sets that stay at a replica, and the entries that are left out.
pub fn cull(alloc: Global, case: &Case<'_>, text: &[u8], out: &mut Told) -> Result<(), NoAnswer> {
    let keys = ring(case)?;
    let me = ReplicaId(case.byte(1)?);
    let culled = cull_text(alloc, text, me, &keys)?;
    put_sets(&culled.sets, out);
    out.put(" ");
    put_culled(culled.left.as_slice(), out);
    Ok(())
}

fn cull_text(
    alloc: Global,
    text: &[u8],
    me: ReplicaId,
    keys: &KeyRing,
) -> Result<Culled, NoAnswer> {
    let sets = some_sets(alloc, text)?;
    sets.cull(alloc, me, keys).or(Err(NoAnswer::NoMemory))
}
