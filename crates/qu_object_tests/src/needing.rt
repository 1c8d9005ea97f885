//! An object whose class needs another one, where eight are named and where there is room.

use super::made::{history_with, keys, read};
use qu_base::{Bounds, ClientId, Digest, List, ObjectId, Shared};
use qu_frames::Body;
use qu_objects::Op;
use qu_question::{Kept, Mark, Named, Question, question_of};
use qu_seal::KeyRing;
use qu_stamp::{Candidate, Group, Stamp};
use qu_testing::all_hold;
use std::alloc::Global;
use std::test::Fail;

const COPIED: ObjectId = ObjectId(0);

const GROUPED: ObjectId = ObjectId(1);

const ABSENT: ObjectId = ObjectId(8);

/// The candidate upon the opening one with this flag, of an act on these objects.
fn candidate(barrier: bool, pairs: &[(ObjectId, u64)]) -> Candidate {
    Candidate {
        stamp: Stamp {
            time: 1,
            barrier,
            client: ClientId(1),
            act: None,
            set: Digest([1; 32]),
        },
        prior: Stamp::opening(),
        group: Group::new(pairs).unwrap_or(Group::none()),
    }
}

/// What the history of the object at the replica has above the opening candidate: a quorum holds a barrier on one
/// object, and as many as repair hold a candidate on another one, of an act on two objects of which one is not named.
fn above(object: ObjectId, replica: u8) -> Option<Candidate> {
    if object == COPIED {
        return Some(candidate(true, &[]));
    }
    if object == GROUPED && replica < 3 {
        return Some(candidate(false, &[(GROUPED, 1), (ABSENT, 1)]));
    }
    None
}

fn kept_of(alloc: Global, keys: &KeyRing, object: ObjectId, replica: u8) -> Result<Kept, Fail> {
    let history = history_with(alloc, object, replica, &[above(object, replica)])?;
    Ok(Kept {
        sealed: Shared::new(alloc, history.sealed(alloc, keys)?)?,
        number: 1,
        round: 1,
        mark: Mark::Unshown,
    })
}

/// Puts what is kept of objects 0 to 7: the histories of five replicas.
fn put_kept(alloc: Global, kept: &mut List<Kept>) -> Result<(), Fail> {
    let keys = keys()?;
    for object in 0..8 {
        for replica in 0..5 {
            kept.push(kept_of(alloc, &keys, ObjectId(object), replica)?)?;
        }
    }
    Ok(())
}

/// The objects from 0 to below this number, where those of the operation are named.
fn named(alloc: Global, op: &Op, count: u16) -> Result<Named, Fail> {
    let mut named = Named::of(alloc, op)?;
    for object in 0..count {
        named = named.with(alloc, ObjectId(object))?;
    }
    Ok(named)
}

/// What is asked in round 2 of a read, where so many objects are named and this is kept.
fn asked_by(alloc: Global, op: &Op, kept: &[Kept], count: u16) -> Result<Question, Fail> {
    let bounds = Bounds::new(1)?;
    let named = named(alloc, op, count)?;
    Ok(question_of(alloc, bounds, op, 2, kept, named)?)
}

fn asked(alloc: Global, count: u16) -> Result<Question, Fail> {
    let op = read(alloc, GROUPED)?;
    let mut kept = List::new(alloc);
    put_kept(alloc, &mut kept)?;
    asked_by(alloc, &op, kept.as_slice(), count)
}

fn mends(question: &Question, object: ObjectId) -> bool {
    match question.body {
        Body::Mend(target) => target == object,
        _ => false,
    }
}

#[test]
fn a_ninth_object_is_not_named(rt: HostRuntime) -> Result<(), Fail> {
    let question = asked(rt.alloc(), 8)?;
    all_hold(&[
        (question.named.objects().len() == 8, "eight objects"),
        (
            mends(&question, GROUPED),
            "it counts as BARRIER, before a copy",
        ),
    ])
}

#[test]
fn an_eighth_object_is_named(rt: HostRuntime) -> Result<(), Fail> {
    let question = asked(rt.alloc(), 7)?;
    let objects = question.named.objects();
    let has_absent = objects.len() == 8 && objects[7] == ABSENT;
    all_hold(&[
        (has_absent, "the absent one"),
        (
            !mends(&question, GROUPED) && question.all,
            "all are asked to show it",
        ),
    ])
}
