//! What the readers of the crates make of bytes: a line for people, and the bytes as they are written again.

use super::forms::{
    put_answer, put_candidate, put_frame, put_history, put_parts, put_sets, put_stamp, put_state,
};
use super::reading::{
    one_act, one_answer, one_candidate, one_frame, one_history, one_query, one_stamp, one_state,
    some_sets,
};
use super::told::Told;
use qu_base::{NoMemory, ObjectId, Outbytes, ReadFail};
use qu_frames::{Frame, encode};
use qu_history::{History, Sets, write_sets};
use qu_objects::{Act, Answer, ObjState, Query, write_act, write_answer, write_query, write_state};
use qu_stamp::{Candidate, Stamp, write_candidate, write_stamp};
use std::alloc::Global;

/// The objects that stand in the sets before a body.
const KNOWN: [ObjectId; 2] = [ObjectId(5), ObjectId(63)];

/// What is read.
#[derive(Clone, Copy)]
pub enum Part {
    Frame,
    Stamp,
    Candidate,
    History,
    Sets,
    Act,
    Query,
    Answer,
    State,
}

impl Part {
    /// The part of this name.
    pub fn of(word: &str) -> Option<Part> {
        match word {
            "" => Some(Part::Frame),
            "stamp" => Some(Part::Stamp),
            "candidate" => Some(Part::Candidate),
            "history" => Some(Part::History),
            "sets" => Some(Part::Sets),
            "act" => Some(Part::Act),
            "query" => Some(Part::Query),
            "answer" => Some(Part::Answer),
            "state" => Some(Part::State),
            _ => None,
        }
    }

    /// Reads the part from the start of a text; a frame is the whole text.
    pub fn read(self, alloc: Global, text: &[u8]) -> Result<Found, ReadFail> {
        match self {
            Part::Frame => Ok(Found::Frame(one_frame(alloc, text)?)),
            Part::Stamp => Ok(Found::Stamp(one_stamp(text)?)),
            Part::Candidate => Ok(Found::Candidate(one_candidate(KNOWN[0], text)?)),
            Part::History => Ok(Found::History(one_history(alloc, text)?)),
            Part::Sets => Ok(Found::Sets(some_sets(alloc, text)?)),
            Part::Act => Ok(Found::Act(one_act(alloc, &KNOWN, text)?)),
            Part::Query => Ok(Found::Query(one_query(alloc, &KNOWN, text)?)),
            Part::Answer => Ok(Found::Answer(one_answer(alloc, text)?)),
            Part::State => Ok(Found::State(one_state(alloc, text)?)),
        }
    }
}

/// What was read.
#[derive(Drop)]
pub enum Found {
    Frame(Frame),
    Stamp(Stamp),
    Candidate(Candidate),
    History(History),
    Sets(Sets),
    Act(Act),
    Query(Query),
    Answer(Answer),
    State(ObjState),
}

impl Found {
    pub fn put(&self, out: &mut Told) {
        match self {
            Found::Frame(frame) => put_frame(frame, out),
            Found::Stamp(stamp) => put_stamp(stamp, out),
            Found::Candidate(candidate) => put_candidate(candidate, out),
            Found::History(history) => put_history(history, out),
            Found::Sets(sets) => put_sets(sets, out),
            Found::Act(act) => put_parts(act.parts().as_slice(), out),
            Found::Query(query) => put_parts(query.parts().as_slice(), out),
            Found::Answer(answer) => put_answer(answer, out),
            Found::State(state) => put_state(state, out),
        }
    }

    /// Writes the bytes again.
    pub fn write(&self, alloc: Global, out: &mut Outbytes) -> Result<(), NoMemory> {
        match self {
            Found::Frame(frame) => out.put(encode(alloc, frame)?.as_slice()),
            Found::Stamp(stamp) => write_stamp(stamp, out),
            Found::Candidate(candidate) => write_candidate(candidate, out),
            Found::History(history) => history.write(out),
            Found::Sets(sets) => write_sets(sets, out),
            Found::Act(act) => write_act(act, out),
            Found::Query(query) => write_query(query, out),
            Found::Answer(answer) => write_answer(answer, out),
            Found::State(state) => write_state(state, out),
        }
    }
}
