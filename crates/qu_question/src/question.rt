ghost use Rattle.std.specs.Prelude.{◌≡◌, IfOk};
ghost use Rattle.qu_frames.specs.Body.{body_of};
ghost use Rattle.qu_question.specs.Question.{is_torn, awaits_copy, first_of_class, target_of, asked_upon, question_of, lowest_of};

use super::named::operation_objects;
use super::needed::named_for;
use super::sets::{are_current, are_full, lowest_of};
use super::{Kept, Named};
use qu_base::{Bounds, NoMemory, ObjectId};
use qu_class::{Class, classify};
use qu_frames::Body;
use qu_history::Sets;
use qu_objects::Op;
use std::alloc::Global;

/// What is asked in a round.
#[derive(Drop)]
pub struct Question {
    /// The objects that are named, of which the sets are.
    pub named: Named,
    pub sets: Sets,
    pub body: Body,
    /// Whether all replicas are asked, and not the preferred ones alone.
    pub all: bool,
}

/// The building of a round of an operation in which these objects are named so far.
pub fn question_of(
    alloc: Global,
    bounds: Bounds,
    op: &Op,
    round: u8,
    kept: &[Kept],
    named: Named,
) -> Result<Question, NoMemory>
    ensures { IfOk result (λ question. question ≡ question_of bounds op.now round kept.now named) }
{
    let (named, sets) = named_for(alloc, bounds, round, kept, named)?;
    asked_upon(alloc, bounds, op, named, sets)
}

/// What is asked upon these sets.
fn asked_upon(
    alloc: Global,
    bounds: Bounds,
    op: &Op,
    named: Named,
    sets: Sets,
) -> Result<Question, NoMemory>
    ensures { IfOk result (λ question. question ≡ asked_upon bounds op.now named sets) }
{
    if !are_full(bounds, &sets) {
        return operation(alloc, op, named, sets, true);
    }
    let own = operation_objects(alloc, op)?;
    if are_current(bounds, &sets, own.as_slice()) {
        return operation(alloc, op, named, sets, false);
    }
    let target = target_of(bounds, &sets, named.objects());
    Ok(Question {
        named,
        sets,
        body: Body::Mend(target),
        all: true,
    })
}

/// The operation itself is asked.
fn operation(
    alloc: Global,
    op: &Op,
    named: Named,
    sets: Sets,
    all: bool,
) -> Result<Question, NoMemory>
    ensures { IfOk result
        (λ question. question ≡ record { named = named; sets = sets; body = body_of op.now; all = all }) }
{
    let body = Body::of(alloc, op)?;
    Ok(Question {
        named,
        sets,
        body,
        all,
    })
}

/// The object to be mended: the lowest that is neither METHOD nor COPY, and where there is none the lowest of class
/// COPY.
fn target_of(bounds: Bounds, sets: &Sets, objects: &[ObjectId]) -> ObjectId
    ensures { result ≡ target_of bounds sets.now objects.now }
{
    match first_torn(bounds, sets, objects).or(first_copy(bounds, sets, objects)) {
        Some(object) => object,
        None => lowest_of(objects),
    }
}

/// The lowest of the objects of a class that is neither METHOD nor COPY.
fn first_torn(bounds: Bounds, sets: &Sets, objects: &[ObjectId]) -> Option<ObjectId>
    ensures { result ≡ first_of_class is_torn bounds sets.now objects.now }
{
    objects
        .iter()
        .copied()
        .find(|object| is_torn(&classify(sets, *object, &bounds)))
}

/// The lowest of the objects of class COPY.
fn first_copy(bounds: Bounds, sets: &Sets, objects: &[ObjectId]) -> Option<ObjectId>
    ensures { result ≡ first_of_class awaits_copy bounds sets.now objects.now }
{
    objects
        .iter()
        .copied()
        .find(|object| awaits_copy(&classify(sets, *object, &bounds)))
}

fn is_torn(class: &Class) -> bool
    ensures { result ≡ is_torn class.now }
{
    match class {
        Class::Method(_) | Class::Copy => false,
        _ => true,
    }
}

fn awaits_copy(class: &Class) -> bool
    ensures { result ≡ awaits_copy class.now }
{
    match class {
        Class::Copy => true,
        _ => false,
    }
}
