//! Classes and plans of objects whose candidates stand in groups.

use super::made::{put_entry, whole};
use Held::{Alone, Barrier, Joint, Later, Opening, Pair};
use Said::{Copies, Refuses};
use qu_base::{Bounds, ClientId, Digest, List, NoMemory, ObjectId};
use qu_class::{Class, classify};
use qu_history::{Sealed, SetOf, Sets};
use qu_objects::Link;
use qu_plan::{Fact, PlanFail, plan_copy};
use qu_stamp::{Candidate, Group, Stamp};
use qu_testing::holds;
use std::alloc::Global;
use std::test::Fail;

const LOW: ObjectId = ObjectId(3);

const OWN: ObjectId = ObjectId(5);

const HIGH: ObjectId = ObjectId(8);

/// A candidate that histories hold above the opening one.
#[derive(Clone, Copy)]
enum Held {
    /// That which all hold.
    Opening,
    /// That of an act on all three objects.
    Joint,
    /// One with the same stamp, of an act on the two upper ones alone.
    Pair,
    /// One with the same stamp, of an act on one object.
    Alone,
    Barrier,
    /// The one upon which the upper object goes on alone.
    Later,
}

/// An object with five histories, of which so many hold this candidate, and all a barrier above, or none.
type Shown = (ObjectId, u8, Held, bool);

fn stamp(time: u64, barrier: bool) -> Stamp {
    Stamp {
        time,
        barrier,
        client: ClientId(1),
        act: None,
        set: Digest([2; 32]),
    }
}

fn candidate(stamp: Stamp, prior: Stamp, pairs: &[(ObjectId, u64)]) -> Candidate {
    Candidate {
        stamp,
        prior,
        group: Group::new(pairs).unwrap_or(Group::none()),
    }
}

fn candidate_of(held: Held) -> Candidate {
    let first = stamp(1, false);
    let opening = Stamp::opening();
    match held {
        Opening => Candidate::opening(),
        Joint => candidate(first, opening, &[(LOW, 1), (OWN, 1), (HIGH, 1)]),
        Pair => candidate(first, opening, &[(OWN, 1), (HIGH, 1)]),
        Alone => candidate(first, opening, &[]),
        Barrier => candidate(stamp(2, true), opening, &[]),
        Later => candidate(stamp(3, false), first, &[]),
    }
}

/// What the history of a replica has above the opening candidate.
fn above(shown: &Shown, replica: u8) -> [Option<Candidate>; 2] {
    let (_, count, held, is_barred) = *shown;
    let candidate = if replica < count {
        Some(candidate_of(held))
    } else {
        None
    };
    let barrier = if is_barred {
        Some(candidate_of(Barrier))
    } else {
        None
    };
    [candidate, barrier]
}

/// Puts the five histories at the end.
fn put_entries(alloc: Global, entries: &mut List<Sealed>, shown: &Shown) -> Result<(), Fail> {
    for replica in 0..5 {
        put_entry(alloc, entries, shown.0, replica, &above(shown, replica))?;
    }
    Ok(())
}

fn put_all(alloc: Global, sets: &mut List<SetOf>, all: &[Shown]) -> Result<(), Fail> {
    for shown in all {
        let mut entries = List::new(alloc);
        put_entries(alloc, &mut entries, shown)?;
        let object = shown.0;
        sets.push(SetOf { object, entries })?;
    }
    Ok(())
}

fn sets_of(alloc: Global, all: &[Shown]) -> Result<Sets, Fail> {
    let mut sets = List::new(alloc);
    put_all(alloc, &mut sets, all)?;
    whole(alloc, sets)
}

/// Fails with the words of the first sets in which the middle object is not of this class, where one of six replicas
/// may lie.
fn are_of_class(alloc: Global, cases: &[(&'static str, &[Shown], Class)]) -> Result<(), Fail> {
    let bounds = Bounds::new(1)?;
    for (words, all, class) in cases {
        let sets = sets_of(alloc, *all)?;
        holds(classify(&sets, OWN, &bounds) == *class, *words)?;
    }
    Ok(())
}

const NONE: [Shown; 1] = [(OWN, 4, Joint, false)];

const HIGHER: [Shown; 2] = [(OWN, 4, Joint, false), (HIGH, 3, Joint, false)];

const TORN: [Shown; 2] = [(OWN, 4, Joint, false), (HIGH, 3, Pair, false)];

const LOWER: [Shown; 2] = [(LOW, 3, Joint, false), (OWN, 4, Joint, false)];

const ABSENT: [(&str, &[Shown], Class); 4] = [
    ("both are absent", &NONE, Class::Needs(LOW)),
    ("the lower one is absent", &HIGHER, Class::Needs(LOW)),
    ("and the upper one disagrees", &TORN, Class::Needs(LOW)),
    ("the upper one is absent", &LOWER, Class::Needs(HIGH)),
];

#[test]
fn the_lowest_absent_member_is_needed(rt: HostRuntime) -> Result<(), Fail> {
    are_of_class(rt.alloc(), &ABSENT)
}

/// All three objects, where three histories of the outer ones hold these.
fn three(low: Held, high: Held) -> [Shown; 3] {
    [
        (LOW, 3, low, false),
        (OWN, 4, Joint, false),
        (HIGH, 3, high, false),
    ]
}

#[test]
fn members_agree_in_the_whole_group(rt: HostRuntime) -> Result<(), Fail> {
    let prior = stamp(1, false);
    are_of_class(
        rt.alloc(),
        &[
            (
                "all agree",
                &three(Joint, Joint),
                Class::InlineMethod(candidate_of(Joint)),
            ),
            (
                "another group",
                &three(Joint, Pair),
                Class::Barrier { prior },
            ),
            (
                "a later stamp",
                &three(Barrier, Joint),
                Class::Barrier { prior },
            ),
        ],
    )
}

const HELD_BY_FIVE: [Shown; 2] = [(OWN, 5, Joint, false), (HIGH, 3, Pair, false)];

#[test]
fn method_asks_for_no_member(rt: HostRuntime) -> Result<(), Fail> {
    let class = Class::Method(candidate_of(Joint));
    are_of_class(rt.alloc(), &[("five hold it", &HELD_BY_FIVE, class)])
}

/// What a plan says of the middle object.
#[derive(Clone, Copy)]
enum Said {
    /// It alone is copied: this candidate.
    Copies(Held),
    Refuses(PlanFail),
}

/// Words for what is said; the candidate of the middle object, which three hold below a barrier that five hold; what
/// five hold of the upper object, if it is shown, with the time of its link to the middle one, if it has one; and what
/// the plan says.
type Case = (&'static str, Held, Option<(Held, Option<u64>)>, Said);

/// What is known of the upper object's version.
fn fact(alloc: Global, version: Held, link: Option<u64>) -> Result<Fact, NoMemory> {
    let links = match link {
        Some(time) => List::one(
            alloc,
            Link {
                object: OWN,
                stamp: stamp(time, false),
            },
        )?,
        None => List::new(alloc),
    };
    Ok(Fact {
        object: HIGH,
        stamp: candidate_of(version).stamp,
        links,
    })
}

/// Whether this is what the plan of the middle object says, where the sets are of class COPY.
fn is_said(alloc: Global, sets: &Sets, facts: &[Fact], bounds: &Bounds, said: Said) -> bool {
    let Class::Copy = classify(sets, OWN, bounds) else {
        return false;
    };
    match plan_copy(alloc, sets, OWN, bounds, facts) {
        Ok(plan) => match said {
            Copies(held) => plan.joint.as_slice() == [(OWN, candidate_of(held))].as_slice(),
            Refuses(_) => false,
        },
        Err(why) => matches!(said, Refuses(wanted) if wanted == why),
    }
}

/// Whether the plan says this where the upper object is not shown.
fn is_said_alone(alloc: Global, own: Held, bounds: &Bounds, said: Said) -> Result<bool, Fail> {
    let sets = sets_of(alloc, &[(OWN, 3, own, true)])?;
    Ok(is_said(alloc, &sets, &[], bounds, said))
}

/// Whether the plan says this where it is.
fn is_said_beside(
    alloc: Global,
    own: Held,
    (version, link): (Held, Option<u64>),
    bounds: &Bounds,
    said: Said,
) -> Result<bool, Fail> {
    let sets = sets_of(alloc, &[(OWN, 3, own, true), (HIGH, 5, version, false)])?;
    let facts = [fact(alloc, version, link)?];
    Ok(is_said(alloc, &sets, &facts, bounds, said))
}

/// Fails with the words of the first case in which the plan says something else.
fn are_said(alloc: Global, cases: &[Case]) -> Result<(), Fail> {
    let bounds = Bounds::new(1)?;
    for (words, own, beside, said) in cases {
        let is_said = match beside {
            Some(beside) => is_said_beside(alloc, *own, *beside, &bounds, *said)?,
            None => is_said_alone(alloc, *own, &bounds, *said)?,
        };
        holds(is_said, *words)?;
    }
    Ok(())
}

const NEEDS_LOW: Said = Refuses(PlanFail::Needs(LOW));

const NEEDS_HIGH: Said = Refuses(PlanFail::Needs(HIGH));

const STALE: Said = Refuses(PlanFail::Stale(HIGH));

const SKIPS: Said = Copies(Opening);

const COVERS: Said = Copies(Pair);

const UNSHOWN: [Case; 3] = [
    ("the lower one", Joint, None, NEEDS_LOW),
    ("the upper one", Pair, None, NEEDS_HIGH),
    ("it is alone", Alone, None, Copies(Alone)),
];

#[test]
fn a_plan_needs_the_lowest_other_member(rt: HostRuntime) -> Result<(), Fail> {
    are_said(rt.alloc(), &UNSHOWN)
}

const GONE_ON: [Case; 4] = [
    ("an equal link covers", Pair, Some((Later, Some(1))), COVERS),
    ("a greater one is news", Pair, Some((Later, Some(2))), STALE),
    ("a smaller one skips", Pair, Some((Later, Some(0))), SKIPS),
    ("and so does none", Pair, Some((Later, None)), SKIPS),
];

#[test]
fn a_member_that_has_gone_on_covers_or_skips(rt: HostRuntime) -> Result<(), Fail> {
    are_said(rt.alloc(), &GONE_ON)
}

const STAYS: [Case; 3] = [
    ("an equal link covers", Pair, Some((Pair, Some(1))), COVERS),
    (
        "a smaller one is less",
        Pair,
        Some((Pair, Some(0))),
        NEEDS_HIGH,
    ),
    ("and so is none", Pair, Some((Pair, None)), NEEDS_HIGH),
];

#[test]
fn a_member_that_stays_covers_by_its_link_alone(rt: HostRuntime) -> Result<(), Fail> {
    are_said(rt.alloc(), &STAYS)
}
