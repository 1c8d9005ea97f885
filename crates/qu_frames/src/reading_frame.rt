//! Frames from bytes, by the formats of `specs/Formats.antt`.
ghost use Rattle.std.specs.Prelude.{◌≡◌, None, IfOk, OnErr};
ghost use Rattle.qu_base.specs.Reading.{Reads, Gives};
ghost use Rattle.qu_frames.specs.Formats.{objects_in_sets, target_form, body_form, is_after_pair, pair_after, some_culled, culled_form, request_frame, reply_frame, fetch_frame, fetched_frame, kind_form, frame_form};

use super::{Body, CULLED_LIMIT, Frame, LAST_ROUND};
use qu_base::{BadText, Cursor, List, NoMemory, ObjectId, ReadFail, ReplicaId, Why};
use qu_history::{SetOf, read_sets, read_shown};
use qu_objects::{read_act, read_query, read_state};
use qu_stamp::read_plain_stamp;
use qu_verdicts::read_verdict;
use std::alloc::Global;

/// The next frame. A refusal is that of the first field that fails. Without a frame the text stays as it is.
pub fn read_frame(alloc: Global, text: &mut Cursor) -> Result<Frame, ReadFail>
    ensures read { Gives frame_form result text.old text.new }
    ensures kept { OnErr result (text.new ≡ text.old) }
{
    let mut ahead = text.ahead();
    let frame = frame_at(alloc, &mut ahead)?;
    *text = ahead;
    Ok(frame)
}

/// The version of a frame, its kind, and the fields of this kind.
#[tactic(auto, unfolding(crate::specs::Formats::frame_form))]
fn frame_at(alloc: Global, text: &mut Cursor) -> Result<Frame, ReadFail>
    ensures { Gives frame_form result text.old text.new }
{
    let start = text.ahead();
    let version = text.u8_within(0, 255)?;
    if version != 1 {
        return Err(ReadFail::Bad(start.refusal(Why::Kind)));
    }
    kind_at(alloc, text)
}

/// The next kind, and a frame of it.
#[tactic(auto, unfolding(crate::specs::Formats::kind_form))]
fn kind_at(alloc: Global, text: &mut Cursor) -> Result<Frame, ReadFail>
    ensures { Gives kind_form result text.old text.new }
{
    let start = text.ahead();
    let kind = text.u8_within(0, 255)?;
    match kind {
        1 => request_at(alloc, text),
        2 => reply_at(alloc, text),
        3 => Ok(fetch_at(text)?),
        4 => fetched_at(alloc, text),
        _ => Err(ReadFail::Bad(start.refusal(Why::Kind))),
    }
}

/// The fields of a request.
#[tactic(auto, unfolding(crate::specs::Formats::request_frame))]
fn request_at(alloc: Global, text: &mut Cursor) -> Result<Frame, ReadFail>
    ensures { Gives request_frame result text.old text.new }
{
    let client = text.client()?;
    let number = text.u64_within(1, u64::MAX)?;
    let round = text.u8_within(1, LAST_ROUND)?;
    let sets = read_sets(alloc, text)?;
    let body = body_at(alloc, sets.objects().as_slice(), text)?;
    let mac = text.array()?;
    Ok(Frame::Request {
        client,
        number,
        round,
        sets,
        body,
        mac,
    })
}

/// The fields of a reply.
#[tactic(auto, unfolding(crate::specs::Formats::reply_frame))]
fn reply_at(alloc: Global, text: &mut Cursor) -> Result<Frame, ReadFail>
    ensures { Gives reply_frame result text.old text.new }
{
    let replica = text.replica()?;
    let client = text.client()?;
    let number = text.u64_within(0, u64::MAX)?;
    let round = text.u8_within(1, LAST_ROUND)?;
    let verdict = read_verdict(alloc, text)?;
    let culled = culled_at(alloc, text)?;
    let shown = read_shown(alloc, replica, text)?;
    let mac = text.array()?;
    Ok(Frame::Reply {
        replica,
        client,
        number,
        round,
        verdict,
        culled,
        shown,
        mac,
    })
}

/// The fields of a fetch.
#[tactic(auto, unfolding(crate::specs::Formats::fetch_frame))]
fn fetch_at(text: &mut Cursor) -> Result<Frame, BadText>
    ensures { Reads fetch_frame result text.old text.new }
{
    let replica = text.replica()?;
    let object = text.object()?;
    let stamp = read_plain_stamp(text)?;
    let mac = text.array()?;
    Ok(Frame::Fetch {
        replica,
        object,
        stamp,
        mac,
    })
}

/// The fields of what was fetched.
#[tactic(auto, unfolding(crate::specs::Formats::fetched_frame))]
fn fetched_at(alloc: Global, text: &mut Cursor) -> Result<Frame, ReadFail>
    ensures { Gives fetched_frame result text.old text.new }
{
    let replica = text.replica()?;
    let object = text.object()?;
    let stamp = read_plain_stamp(text)?;
    let state = read_state(alloc, text)?;
    let mac = text.array()?;
    Ok(Frame::Fetched {
        replica,
        object,
        stamp,
        state,
        mac,
    })
}

/// What is asked of the objects of these sets: a code, and the parts or the object that is to be repaired.
#[tactic(auto, unfolding(crate::specs::Formats::body_form))]
fn body_at(alloc: Global, sets: &[SetOf], text: &mut Cursor) -> Result<Body, ReadFail>
    ensures { Gives (body_form (objects_in_sets sets.now)) result text.old text.new }
{
    let objects = objects_in_sets(alloc, sets)?;
    let start = text.ahead();
    let code = text.u8_within(0, 255)?;
    match code {
        1 => Ok(Body::Act(read_act(alloc, objects.as_slice(), text)?)),
        2 => Ok(Body::Ask(read_query(alloc, objects.as_slice(), text)?)),
        3 => Ok(Body::Mend(target_at(objects.as_slice(), text)?)),
        _ => Err(ReadFail::Bad(start.refusal(Why::Range))),
    }
}

/// The object that is to be repaired, one of these.
fn target_at(objects: &[ObjectId], text: &mut Cursor) -> Result<ObjectId, BadText>
    ensures { Reads (target_form objects.now) result text.old text.new }
{
    let start = text.ahead();
    let target = text.object()?;
    if objects.contains(&target) {
        Ok(target)
    } else {
        Err(start.refusal(Why::Range))
    }
}

/// The objects of some sets.
fn objects_in_sets(alloc: Global, sets: &[SetOf]) -> Result<List<ObjectId>, NoMemory>
    ensures { IfOk result (λ objects. objects ≡ objects_in_sets sets.now) }
{
    let mut objects = List::new(alloc);
    for set in sets {
        objects.push(set.object)?;
    }
    Ok(objects)
}

/// A count, and so many pairs of an object and a replica that rise.
#[tactic(auto, unfolding(crate::specs::Formats::culled_form))]
fn culled_at(alloc: Global, text: &mut Cursor) -> Result<List<(ObjectId, ReplicaId)>, ReadFail>
    ensures { Gives culled_form result text.old text.new }
{
    let count = text.u8_within(0, CULLED_LIMIT)?;
    next_culled(alloc, count, text)
}

/// So many pairs that rise.
#[tactic(auto, using(qu_base::proofs::Lists::list_laws))]
fn next_culled(
    alloc: Global,
    count: u8,
    text: &mut Cursor,
) -> Result<List<(ObjectId, ReplicaId)>, ReadFail>
    ensures { Gives (some_culled None count) result text.old text.new }
{
    let mut culled = List::new(alloc);
    let mut before = None;
    for at in 0..count {
        let pair = pair_after(before, text)?;
        culled.push(pair)?;
        before = Some(pair);
    }
    Ok(culled)
}

/// The next pair, which is above the one before it.
fn pair_after(
    before: Option<(ObjectId, ReplicaId)>,
    text: &mut Cursor,
) -> Result<(ObjectId, ReplicaId), BadText>
    ensures { Reads (pair_after before) result text.old text.new }
{
    let start = text.ahead();
    let object = text.object()?;
    let replica = text.replica()?;
    if !is_after_pair(before, (object, replica)) {
        return Err(start.refusal(Why::Order));
    }
    Ok((object, replica))
}

/// Whether a pair is above the one before it, if there is one.
fn is_after_pair(before: Option<(ObjectId, ReplicaId)>, pair: (ObjectId, ReplicaId)) -> bool
    ensures { result ≡ is_after_pair before pair }
{
    match before {
        None => true,
        Some((object, replica)) => {
            object.0 < pair.0.0 || object.0 == pair.0.0 && replica.0 < pair.1.0
        }
    }
}
