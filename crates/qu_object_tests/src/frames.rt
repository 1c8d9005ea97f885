use qu_base::{ClientId, List, ObjectId, Party, ReplicaId};
use qu_frames::{Body, Frame, Letter, decode, encode};
use qu_testing::holds;
use std::alloc::Global;
use std::test::Fail;

/// The reply of replica 3 to client 2 that the act was performed and told 5, with an HMAC of zeros.
const REPLY: &str =
    "01020300020000000000000008040101000500000000000000000000000000000000000000000000000000000000000000000000\
    00000000000000000000000101000000000000000501000501000000000000000000000000000000000000000000000000000000\
    000000000000";

/// The request of client 1 to mend object 0, of which it shows no histories, with an HMAC of zeros.
const MEND: &str =
    "01010001000000000000000101010000000300000000000000000000000000000000000000000000000000000000000000000000";

/// A copy of the frame with these digits.
fn copied(alloc: Global, digits: &str) -> Result<Frame, Fail> {
    let text = hex::decode(alloc, digits)?;
    match decode(alloc, text.as_slice()) {
        Ok(frame) => Ok(frame.copy(alloc)?),
        Err(_) => Err("no frame".into()),
    }
}

/// Whether the frame is written with these digits.
fn is_written(alloc: Global, frame: &Frame, digits: &str) -> Result<bool, Fail> {
    let text = hex::decode(alloc, digits)?;
    let written = encode(alloc, frame)?;
    Ok(written.as_slice() == text.as_slice())
}

/// Whether a copy of the frame with these digits is written as it was read.
fn is_kept(alloc: Global, digits: &str) -> Result<bool, Fail> {
    is_written(alloc, &copied(alloc, digits)?, digits)
}

#[test]
fn a_copied_reply_is_written_as_it_was_read(rt: HostRuntime) -> Result<(), Fail> {
    holds(is_kept(rt.alloc(), REPLY)?, "the same bytes")
}

#[test]
fn a_copied_mend_is_written_as_it_was_read(rt: HostRuntime) -> Result<(), Fail> {
    holds(is_kept(rt.alloc(), MEND)?, "the same bytes")
}

fn is_mend_of_object_0(frame: &Frame) -> bool {
    match frame {
        Frame::Request { body, .. } => matches!(body, Body::Mend(ObjectId(0))),
        _ => false,
    }
}

#[test]
fn a_copied_mend_names_its_object(rt: HostRuntime) -> Result<(), Fail> {
    holds(is_mend_of_object_0(&copied(rt.alloc(), MEND)?), "object 0")
}

fn letter(alloc: Global) -> Result<Letter, Fail> {
    Ok(Letter {
        from: Party::Replica(ReplicaId(3)),
        to: Party::Client(ClientId(2)),
        text: List::one(alloc, 7)?,
    })
}

fn is_that_letter(letter: &Letter) -> bool {
    letter.from == Party::Replica(ReplicaId(3))
        && letter.to == Party::Client(ClientId(2))
        && letter.text.as_slice() == [7].as_slice()
}

#[test]
fn a_letter_is_copied(rt: HostRuntime) -> Result<(), Fail> {
    let copy = letter(rt.alloc())?.copy(rt.alloc())?;
    holds(is_that_letter(&copy), "the same letter")
}
