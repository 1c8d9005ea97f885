//! Frames as bytes, by the formats of `specs/Formats.antt`.
ghost use Rattle.std.specs.Prelude.{◌≡◌, ◌++◌, ℕ, List as Sequence, IfOk, OnOk};
ghost use Rattle.std.specs.List.{flat_map};
ghost use Rattle.std.specs.Int.{w8, w16, w64, to_be_bytes};
ghost use Rattle.qu_base.specs.declared.party.ObjectId.{ObjectId as Object};
ghost use Rattle.qu_stamp.specs.Formats.{plain_stamp_form};
ghost use Rattle.qu_frames.specs.declared.frame.Frame.TheVariants as Frames;
ghost use Rattle.qu_frames.specs.Formats.{body_form, spelled_pair, culled_form, kind_form, frame_form};
ghost use Rattle.qu_frames.specs.Signing.{mac_of};

use super::{Body, Frame, Verdict};
use qu_base::{ClientId, List, NoMemory, ObjectId, Outbytes, ReplicaId};
use qu_history::{Sealed, Sets, write_sets, write_shown};
use qu_objects::{write_act, write_query, write_state};
use qu_stamp::{Stamp, write_stamp};
use qu_verdicts::write_verdict;
use std::alloc::Global;

/// Room for the bytes of most frames.
const FRAME_ROOM: usize = 1 << 15;

/// The one spelling of a frame.
pub fn encode(alloc: Global, frame: &Frame) -> Result<List<u8>, NoMemory>
    ensures { IfOk result (λ text. text ≡ frame_form.spell frame.now) }
{
    let mut out = Outbytes::with_room(alloc, FRAME_ROOM)?;
    append_frame(frame, &mut out)?;
    Ok(out.done())
}

/// Appends a frame.
#[tactic(auto, unfolding(crate::specs::Formats::frame_form), using(crate::proofs::Pieces::frame_written))]
fn append_frame(frame: &Frame, out: &mut Outbytes) -> Result<(), NoMemory>
    ensures { OnOk result (out.new ≡ out.old ++ frame_form.spell frame.now) }
{
    out.u8(1)?;
    append_fields(frame, out)?;
    out.put(frame.mac())
}

/// Appends the kind, and the fields before the HMAC.
fn append_fields(frame: &Frame, out: &mut Outbytes) -> Result<(), NoMemory>
    ensures { OnOk result (out.new ++ mac_of frame.now ≡ out.old ++ kind_form.spell frame.now) }
{
    match *frame {
        Frame::Request {
            client,
            number,
            round,
            ref sets,
            ref body,
            ..
        } => append_request(client, number, round, sets, body, out),
        Frame::Reply {
            replica,
            client,
            number,
            round,
            ref verdict,
            ref culled,
            ref shown,
            ..
        } => append_reply(replica, client, number, round, verdict, culled, shown, out),
        Frame::Fetch {
            replica,
            object,
            ref stamp,
            ..
        } => append_version(3, replica, object, stamp, out),
        Frame::Fetched {
            replica,
            object,
            ref stamp,
            ref state,
            ..
        } => {
            append_version(4, replica, object, stamp, out)?;
            write_state(state, out)
        }
    }
}

/// Appends a request but for its HMAC.
fn append_request(
    client: ClientId,
    number: u64,
    round: u8,
    sets: &Sets,
    body: &Body,
    out: &mut Outbytes,
) -> Result<(), NoMemory>
    ensures { (mac : Sequence ℕ) → OnOk result (out.new ++ mac
        ≡ out.old ++ kind_form.spell (Frames.Request client number round sets.now body.now mac)) }
{
    out.u8(1)?;
    append_round(client, number, round, out)?;
    write_sets(sets, out)?;
    append_body(body, out)
}

/// Appends a reply but for its HMAC.
fn append_reply(
    replica: ReplicaId,
    client: ClientId,
    number: u64,
    round: u8,
    verdict: &Verdict,
    culled: &List<(ObjectId, ReplicaId)>,
    shown: &List<Sealed>,
    out: &mut Outbytes,
) -> Result<(), NoMemory>
    ensures { (mac : Sequence ℕ) → OnOk result (out.new ++ mac
        ≡ out.old ++ kind_form.spell (Frames.Reply replica client number round verdict.now culled.now shown.now mac)) }
{
    out.u8(2)?;
    out.u8(replica.0)?;
    append_round(client, number, round, out)?;
    write_verdict(verdict, out)?;
    append_culled(culled.as_slice(), out)?;
    write_shown(shown.as_slice(), out)
}

/// Appends the client, the number and the round.
fn append_round(
    client: ClientId,
    number: u64,
    round: u8,
    out: &mut Outbytes,
) -> Result<(), NoMemory>
    ensures { OnOk result
        (out.new ≡ out.old ++ (to_be_bytes w16 client.0 ++ (to_be_bytes w64 number ++ to_be_bytes w8 round))) }
{
    out.u16(client.0)?;
    out.u64(number)?;
    out.u8(round)?;
    Ok(())
}

/// Appends the kind, the replica, the object and the stamp, which is no barrier's.
#[tactic(auto, unfolding(qu_stamp::specs::Formats::stamp_with))]
fn append_version(
    kind: u8,
    replica: ReplicaId,
    object: ObjectId,
    stamp: &Stamp,
    out: &mut Outbytes,
) -> Result<(), NoMemory>
    ensures { OnOk result (out.new ≡ out.old
        ++ (to_be_bytes w8 kind
        ++ (to_be_bytes w8 replica.0 ++ (to_be_bytes w16 object.0 ++ plain_stamp_form.spell stamp.now)))) }
{
    out.u8(kind)?;
    out.u8(replica.0)?;
    out.u16(object.0)?;
    write_stamp(stamp, out)?;
    Ok(())
}

/// Appends what is asked for.
#[tactic(auto, unfolding(crate::specs::Formats::body_form))]
fn append_body(body: &Body, out: &mut Outbytes) -> Result<(), NoMemory>
    ensures { (objects : Sequence Object) → OnOk result (out.new ≡ out.old ++ (body_form objects).spell body.now) }
{
    match body {
        Body::Act(act) => {
            out.u8(1)?;
            write_act(act, out)?;
            Ok(())
        }
        Body::Ask(query) => {
            out.u8(2)?;
            write_query(query, out)?;
            Ok(())
        }
        Body::Mend(target) => {
            out.u8(3)?;
            out.u16(target.0)?;
            Ok(())
        }
    }
}

/// Appends a count, and so many pairs of an object and a replica.
#[tactic(auto, unfolding(crate::specs::Formats::culled_form))]
fn append_culled(culled: &[(ObjectId, ReplicaId)], out: &mut Outbytes) -> Result<(), NoMemory>
    ensures { OnOk result (out.new ≡ out.old ++ culled_form.spell culled.now) }
{
    out.count(culled.len())?;
    append_each_pair(culled, out)
}

/// Appends pairs one behind the other.
#[tactic(auto)]
fn append_each_pair(culled: &[(ObjectId, ReplicaId)], out: &mut Outbytes) -> Result<(), NoMemory>
    ensures { OnOk result (out.new ≡ out.old ++ flat_map spelled_pair culled.now) }
{
    for pair in culled {
        out.u16(pair.0.0)?;
        out.u8(pair.1.0)?;
    }
    Ok(())
}
