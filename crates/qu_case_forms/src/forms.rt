//! What was read, in a line for people. Each function appends to a text.

use super::told::Told;
use qu_base::{ClientId, List, ObjectId, Party, ReplicaId};
use qu_frames::{Body, Frame, Refusal, Verdict};
use qu_history::{History, Sealed, Sets};
use qu_objects::{Answer, Item, ObjState, Outcome};
use qu_print::Piece;
use qu_stamp::{Candidate, Stamp};
use sha2::{Digest as Hasher, Sha256};

pub fn put_party(words: &str, party: Party, out: &mut Told) {
    match party {
        Party::Replica(replica) => out.put_replica(words, replica),
        Party::Client(client) => out.put_client(words, client),
    }
}

/// The length of a text and its SHA-256.
pub fn put_hashed(text: &[u8], out: &mut Told) {
    out.put_number("", text.len() as u64);
    out.put(" ");
    out.put_hex(Sha256::digest(text).as_slice());
}

/// Time, `barrier` where it is one, client, the digest of the act where there is one, and that of the sets.
pub fn put_stamp(stamp: &Stamp, out: &mut Told) {
    if *stamp == Stamp::opening() {
        out.put("opening");
        return;
    }
    out.put_number("", stamp.time);
    out.put(if stamp.barrier { " barrier " } else { " " });
    out.put_client("", stamp.client);
    out.put(" act ");
    match stamp.act {
        Some(digest) => out.put_hex(&digest.0),
        None => out.put("-"),
    }
    out.put(" sets ");
    out.put_hex(&stamp.set.0);
}

/// The stamp, the prior, and each object of the group with its time, where there is a group.
pub fn put_candidate(candidate: &Candidate, out: &mut Told) {
    put_stamp(&candidate.stamp, out);
    out.put(" on ");
    put_stamp(&candidate.prior, out);
    let pairs = candidate.group.pairs();
    if !pairs.is_empty() {
        out.put(" group");
    }
    for (object, time) in pairs {
        out.put_object(" ", *object);
        out.put_number(":", *time);
    }
}

/// Object, replica, number of candidates, and the latest stamp.
pub fn put_history(history: &History, out: &mut Told) {
    out.put_object("history ", history.object());
    out.put_replica(" ", history.replica());
    out.put_number(" ", history.len() as u64);
    out.put(" to ");
    put_stamp(&history.latest(), out);
}

/// Each object with its entries: replica, number of candidates, number of HMACs.
pub fn put_sets(sets: &Sets, out: &mut Told) {
    out.put("sets");
    for set in sets.objects() {
        out.put_object(" ", set.object);
        out.put(":");
        for entry in &set.entries {
            out.put_replica(" ", entry.history.replica());
            put_lengths(entry, out);
        }
    }
}

/// How many candidates and HMACs an entry has.
fn put_lengths(entry: &Sealed, out: &mut Told) {
    out.put_number("/", entry.history.len() as u64);
    out.put_number("/", entry.macs.len() as u64);
}

pub fn put_answer(answer: &Answer, out: &mut Told) {
    match answer {
        Answer::Ok(items) => {
            out.put("ok");
            for item in items {
                out.put(item_word(item));
                out.put_piece(item);
            }
        }
        Answer::Refused { at, why } => {
            out.put_number("refused ", u64::from(*why));
            out.put_number(" at ", u64::from(*at));
        }
    }
}

/// What stands before an item.
fn item_word(item: &Item) -> &'static str {
    match item {
        Item::Number(_) => " ",
        Item::Bytes(_) => " bytes ",
        Item::Entries(_) => " listing ",
    }
}

/// The value; of each client whose act is kept, the number, the digest of the act and the answer; and each link.
pub fn put_state(state: &ObjState, out: &mut Told) {
    out.put_value(&state.value);
    for row in &state.kept {
        out.put_client(" kept ", row.client);
        out.put_number(" ", row.number);
        out.put(" ");
        out.put_hex(&row.act.0);
        out.put(" ");
        put_answer(&row.answer, out);
    }
    for link in &state.links {
        put_version(" link ", link.object, &link.stamp, out);
    }
}

pub fn put_outcome(outcome: &Outcome, out: &mut Told) {
    match outcome {
        Outcome::Done(answer) => put_answer(answer, out),
        Outcome::GaveUp => out.put("gave up"),
    }
}

fn put_verdict(verdict: &Verdict, out: &mut Told) {
    match verdict {
        Verdict::Done { stamps, answer } => put_performed("done", stamps.as_slice(), answer, out),
        Verdict::Told { stamps, answer } => put_performed("told", stamps.as_slice(), answer, out),
        Verdict::Already(answer) => {
            out.put("already ");
            put_answer(answer, out);
        }
        Verdict::Mended(object, stamp) => {
            out.put_object("mended ", *object);
            out.put(" ");
            put_stamp(stamp, out);
        }
        Verdict::Refused(Refusal::NotCurrent(object, latest)) => {
            out.put_object("NotCurrent(ObjectId(", *object);
            out.put(")) ");
            put_stamp(latest, out);
        }
        Verdict::Refused(refusal) => write!(out, "{refusal:?}"),
    }
}

/// What was done, with which stamps, and the answer.
fn put_performed(word: &str, stamps: &[(ObjectId, Stamp)], answer: &Answer, out: &mut Told) {
    out.put(word);
    for (object, stamp) in stamps {
        put_version(" ", *object, stamp, out);
    }
    out.put(" ");
    put_answer(answer, out);
}

/// Each part of an act or a query as in a report, with a space before it.
pub fn put_parts<P: Piece>(parts: &[P], out: &mut Told) {
    for part in parts {
        out.put(" ");
        out.put_piece(part);
    }
}

fn put_body(body: &Body, out: &mut Told) {
    match body {
        Body::Act(act) => put_parts(act.parts().as_slice(), out),
        Body::Ask(query) => put_parts(query.parts().as_slice(), out),
        Body::Mend(target) => out.put_object(" mend ", *target),
    }
}

/// The pairs that a reply culled.
pub fn put_culled(culled: &[(ObjectId, ReplicaId)], out: &mut Told) {
    out.put("culled");
    for (object, replica) in culled {
        out.put_object(" ", *object);
        out.put_replica("/", *replica);
    }
}

/// The histories that a reply shows: object, number of candidates, number of HMACs.
fn put_shown(shown: &[Sealed], out: &mut Told) {
    out.put(" shown");
    for sealed in shown {
        out.put_object(" ", sealed.history.object());
        put_lengths(sealed, out);
    }
}

/// Words, then which version of an object.
fn put_version(words: &str, object: ObjectId, stamp: &Stamp, out: &mut Told) {
    out.put_object(words, object);
    out.put(" at ");
    put_stamp(stamp, out);
}

/// Words, then whose operation, its number and its round.
fn put_asked(words: &str, client: ClientId, number: u64, round: u8, out: &mut Told) {
    out.put_client(words, client);
    out.put_number(" ", number);
    out.put_number(" round ", u64::from(round));
    out.put(" ");
}

fn put_reply(
    replica: ReplicaId,
    client: ClientId,
    number: u64,
    round: u8,
    verdict: &Verdict,
    culled: &List<(ObjectId, ReplicaId)>,
    shown: &List<Sealed>,
    out: &mut Told,
) {
    out.put_replica("reply ", replica);
    put_asked(" ", client, number, round, out);
    put_verdict(verdict, out);
    out.put(" ");
    put_culled(culled.as_slice(), out);
    put_shown(shown.as_slice(), out);
}

pub fn put_frame(frame: &Frame, out: &mut Told) {
    match *frame {
        Frame::Request {
            client,
            number,
            round,
            ref sets,
            ref body,
            ..
        } => {
            put_asked("request ", client, number, round, out);
            put_sets(sets, out);
            put_body(body, out);
        }
        Frame::Reply {
            replica,
            client,
            number,
            round,
            ref verdict,
            ref culled,
            ref shown,
            ..
        } => put_reply(replica, client, number, round, verdict, culled, shown, out),
        Frame::Fetch {
            replica,
            object,
            ref stamp,
            ..
        } => {
            out.put_replica("fetch ", replica);
            put_version(" ", object, stamp, out);
        }
        Frame::Fetched {
            replica,
            object,
            ref stamp,
            ref state,
            ..
        } => {
            out.put_replica("fetched ", replica);
            put_version(" ", object, stamp, out);
            out.put(" ");
            put_state(state, out);
        }
    }
}
