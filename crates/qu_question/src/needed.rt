ghost use Rattle.std.specs.Prelude.{◌≡◌, IfOk};
ghost use Rattle.qu_question.specs.Question.{sets_of, need_of, lower_of, lowest_needed, needed_in, named_within, named_for};

use super::sets::{are_full, sets_of};
use super::{Kept, Named};
use qu_base::{Bounds, NoMemory, ObjectId};
use qu_class::{Class, classify};
use qu_history::{OBJECTS_LIMIT, Sets};
use std::alloc::Global;

/// The objects that are named when a round is built, and the sets of the round upon them.
pub fn named_for(
    alloc: Global,
    bounds: Bounds,
    round: u8,
    kept: &[Kept],
    named: Named,
) -> Result<(Named, Sets), NoMemory>
    ensures named { IfOk result (λ built. built.0 ≡ named_for bounds round kept.now named) }
    ensures sets { IfOk result (λ built. built.1 ≡ sets_of bounds round kept.now built.0) }
{
    let more = OBJECTS_LIMIT.saturating_sub(named.objects().len());
    named_within(alloc, more, bounds, round, kept, named)
}

/// The objects that are named, where the building starts again so many times at most.
fn named_within(
    alloc: Global,
    more: usize,
    bounds: Bounds,
    round: u8,
    kept: &[Kept],
    named: Named,
) -> Result<(Named, Sets), NoMemory>
    ensures named { IfOk result (λ built. built.0 ≡ named_within more bounds round kept.now named) }
    ensures sets { IfOk result (λ built. built.1 ≡ sets_of bounds round kept.now built.0) }
{
    let sets = sets_of(alloc, bounds, round, kept, named.objects())?;
    if more == 0 {
        return Ok((named, sets));
    }
    match needed_in(bounds, &sets, named.objects()) {
        Some(object) => {
            let grown = named.with(alloc, object)?;
            named_within(alloc, more - 1, bounds, round, kept, grown)
        }
        None => Ok((named, sets)),
    }
}

/// The object that has to be named too.
fn needed_in(bounds: Bounds, sets: &Sets, named: &[ObjectId]) -> Option<ObjectId>
    ensures { result ≡ needed_in bounds sets.now named.now }
{
    if are_full(bounds, sets) {
        lowest_needed(bounds, sets, named)
    } else {
        None
    }
}

/// The lowest object that the class of one of these needs.
fn lowest_needed(bounds: Bounds, sets: &Sets, objects: &[ObjectId]) -> Option<ObjectId>
    ensures { result ≡ lowest_needed bounds sets.now objects.now }
{
    let mut lowest = None;
    for object in objects {
        lowest = lower_of(lowest, need_of(&classify(sets, *object, &bounds)));
    }
    lowest
}

/// The object that has to be shown before such a class can be told.
fn need_of(class: &Class) -> Option<ObjectId>
    ensures { result ≡ need_of class.now }
{
    match class {
        Class::Needs(object) => Some(*object),
        _ => None,
    }
}

/// The lower one, where there are two.
fn lower_of(one: Option<ObjectId>, other: Option<ObjectId>) -> Option<ObjectId>
    ensures { result ≡ lower_of one other }
{
    match (one, other) {
        (None, other) => other,
        (Some(object), None) => Some(object),
        (Some(object), Some(other)) => {
            if other.0 < object.0 {
                Some(other)
            } else {
                Some(object)
            }
        }
    }
}
