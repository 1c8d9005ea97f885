//! The readers of the crates. They stand here without what they promise, so that the functions that call them
//! know nothing of it, and are proved fast.

use qu_base::{Cursor, NoMemory, ObjectId, Party, ReadFail};
use qu_frames::{Frame, decode, receive};
use qu_history::{History, Sets, read_sets};
use qu_objects::{Act, Answer, ObjState, Query, read_act, read_answer, read_query, read_state};
use qu_seal::KeyRing;
use qu_stamp::{Candidate, Stamp, read_candidate, read_stamp};
use std::alloc::Global;

pub fn one_frame(alloc: Global, text: &[u8]) -> Result<Frame, ReadFail> {
    decode(alloc, text)
}

/// The frame that a text brings to a party.
pub fn frame_to(
    alloc: Global,
    keys: &KeyRing,
    to: Party,
    text: &[u8],
) -> Result<Option<Frame>, NoMemory> {
    receive(alloc, keys, to, text)
}

pub fn one_stamp(text: &[u8]) -> Result<Stamp, ReadFail> {
    Ok(read_stamp(&mut Cursor::new(text))?)
}

/// A candidate on this object.
pub fn one_candidate(object: ObjectId, text: &[u8]) -> Result<Candidate, ReadFail> {
    Ok(read_candidate(&mut Cursor::new(text), object)?)
}

pub fn one_history(alloc: Global, text: &[u8]) -> Result<History, ReadFail> {
    History::read(alloc, &mut Cursor::new(text))
}

pub fn some_sets(alloc: Global, text: &[u8]) -> Result<Sets, ReadFail> {
    read_sets(alloc, &mut Cursor::new(text))
}

/// An act on some of these objects.
pub fn one_act(alloc: Global, known: &[ObjectId], text: &[u8]) -> Result<Act, ReadFail> {
    read_act(alloc, known, &mut Cursor::new(text))
}

pub fn one_query(alloc: Global, known: &[ObjectId], text: &[u8]) -> Result<Query, ReadFail> {
    read_query(alloc, known, &mut Cursor::new(text))
}

pub fn one_answer(alloc: Global, text: &[u8]) -> Result<Answer, ReadFail> {
    read_answer(alloc, &mut Cursor::new(text))
}

pub fn one_state(alloc: Global, text: &[u8]) -> Result<ObjState, ReadFail> {
    read_state(alloc, &mut Cursor::new(text))
}
