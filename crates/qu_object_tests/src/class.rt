use super::history::{Alike, Made, OBJECT, barrier, sets_of, update_by};
use Made::{Barrier, Update};
use qu_base::Bounds;
use qu_class::{Class, classify};
use qu_history::Sets;
use qu_plan::{evidence, plan_copy};
use qu_stamp::{Candidate, Stamp};
use qu_testing::holds;
use std::alloc::Global;
use std::test::Fail;

/// The class of the object, of which a quorum has to be shown.
fn class_in(sets: &Sets, bounds: &Bounds) -> Result<Class, Fail> {
    holds(sets.entries(OBJECT) >= bounds.q(), "a quorum")?;
    Ok(classify(sets, OBJECT, bounds))
}

/// Fails with the words of the first histories, those of a quorum of six replicas, of which the object is not of this
/// class.
fn are_of_class(alloc: Global, cases: &[(&'static str, &[Alike], Class)]) -> Result<(), Fail> {
    let bounds = Bounds::new(1)?;
    for (words, all, class) in cases {
        let sets = sets_of(alloc, *all)?;
        holds(class_in(&sets, &bounds)? == *class, *words)?;
    }
    Ok(())
}

const FIVE_OPENINGS: [Alike; 1] = [(5, &[])];

const FIVE_OF_THE_FIRST: [Alike; 2] = [(1, &[]), (5, &[Update(1)])];

const FOUR_OF_THE_FIRST: [Alike; 2] = [(1, &[]), (4, &[Update(1)])];

const THREE_OF_EACH: [Alike; 2] = [(3, &[Update(1)]), (3, &[Update(2)])];

#[test]
fn classes_without_barriers(rt: HostRuntime) -> Result<(), Fail> {
    are_of_class(
        rt.alloc(),
        &[
            (
                "five openings",
                &FIVE_OPENINGS,
                Class::Method(Candidate::opening()),
            ),
            (
                "five of the first",
                &FIVE_OF_THE_FIRST,
                Class::Method(update_by(1)),
            ),
            (
                "four of the first",
                &FOUR_OF_THE_FIRST,
                Class::InlineMethod(update_by(1)),
            ),
            (
                "three of each",
                &THREE_OF_EACH,
                Class::InlineMethod(update_by(2)),
            ),
        ],
    )
}

const THREE_AND_TWO: [Alike; 2] = [(3, &[Update(1)]), (2, &[Update(2)])];

const TWO_AND_TWO: [Alike; 3] = [(1, &[]), (2, &[Update(1)]), (2, &[Update(2)])];

#[test]
fn classes_that_want_a_barrier(rt: HostRuntime) -> Result<(), Fail> {
    let first = update_by(1).stamp;
    let opening = Stamp::opening();
    are_of_class(
        rt.alloc(),
        &[
            (
                "three and two",
                &THREE_AND_TWO,
                Class::Barrier { prior: first },
            ),
            (
                "two and two",
                &TWO_AND_TWO,
                Class::Barrier { prior: opening },
            ),
        ],
    )
}

const THREE_BARRIERS: [Alike; 2] = [(2, &[]), (3, &[Barrier])];

const FIVE_BARRIERS: [Alike; 2] = [(3, &[Update(1), Barrier]), (2, &[Update(2), Barrier])];

#[test]
fn classes_with_a_barrier(rt: HostRuntime) -> Result<(), Fail> {
    are_of_class(
        rt.alloc(),
        &[
            (
                "three barriers",
                &THREE_BARRIERS,
                Class::InlineBarrier(barrier()),
            ),
            ("five barriers", &FIVE_BARRIERS, Class::Copy),
        ],
    )
}

/// Whether the first update is copied alone, for which no other object's version is read, where the sets are of class
/// COPY.
fn copies_the_first(alloc: Global, sets: &Sets) -> Result<bool, Fail> {
    let bounds = Bounds::new(1)?;
    let Class::Copy = classify(sets, OBJECT, &bounds) else {
        return Ok(false);
    };
    let has_no_evidence = evidence(alloc, sets, OBJECT, &bounds)?.is_empty();
    let plan = plan_copy(alloc, sets, OBJECT, &bounds, &[])?;
    Ok(has_no_evidence && plan.joint.as_slice() == [(OBJECT, update_by(1))].as_slice())
}

#[test]
fn the_object_candidate_is_copied(rt: HostRuntime) -> Result<(), Fail> {
    let sets = sets_of(rt.alloc(), &FIVE_BARRIERS)?;
    holds(copies_the_first(rt.alloc(), &sets)?, "the first update")
}
