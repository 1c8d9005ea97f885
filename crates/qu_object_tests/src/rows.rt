//! The table of requests to mend an object, row by row. Full histories and spent times are in no stored case.

use Asked::{Barrier, Copied, Other, Raised, Shown};
use Seen::{Adds, Bars, Copies, Holds, IsPast, Refuses, Waits};
use SeenOfTwo::{AddsToBoth, IsPastOn, WaitsForTheOther};
use kind_counter::Counter;
use qu_base::{ClientId, Digest, List, NoMemory, ObjectId, ReplicaId};
use qu_frames::Refusal;
use qu_history::{HISTORY_LIMIT, History};
use qu_kept::Remedy;
use qu_mends::{Accepted, Mend, Mending, Part};
use qu_objects::{Link, ObjState, Value};
use qu_stamp::{Candidate, Group, LAST_TIME, Stamp};
use qu_testing::holds;
use std::alloc::Global;
use std::test::Fail;

const OBJECT: ObjectId = ObjectId(5);

const OTHER: ObjectId = ObjectId(7);

const THIRD: ObjectId = ObjectId(9);

/// What the sets ask to be added, where candidates of client 1 are told by their times.
#[derive(Clone, Copy)]
enum Asked {
    /// The candidate upon the opening one.
    Shown(u64),
    /// The candidate of time 3 upon that of time 1.
    Raised,
    /// A barrier above the candidate of time 1.
    Barrier,
    /// A copy of that candidate's version.
    Copied,
    Other(Remedy),
}

/// What a replica makes of it.
#[derive(Clone, Copy)]
enum Seen {
    /// It adds the candidate of this time upon the opening one, whose version is stored already.
    Adds(u64),
    /// It adds a barrier of this time, which has no version.
    Bars(u64),
    /// It adds a copy of this time, with the version that holds 7.
    Copies(u64),
    /// It holds the candidate of this time.
    Holds(u64),
    /// Its latest candidate has this time.
    IsPast(u64),
    Refuses(Refusal),
    Waits,
}

/// Words for what is seen; what is asked, where the sets show nothing above this time; how many candidates the replica
/// has, the opening one among them, and whether it has the wanted version; and what it makes of it.
type Case = (&'static str, Asked, u64, (usize, bool), Seen);

/// Candidates of client 1, each upon the opening one.
fn at(time: u64) -> Candidate {
    candidate(time, false, Stamp::opening())
}

fn candidate(time: u64, barrier: bool, prior: Stamp) -> Candidate {
    Candidate {
        stamp: Stamp {
            time,
            barrier,
            client: ClientId(1),
            act: None,
            set: Digest([2; 32]),
        },
        prior,
        group: Group::none(),
    }
}

fn remedy_of(asked: Asked) -> Remedy {
    let prior = at(1).stamp;
    match asked {
        Shown(time) => Remedy::Shown(at(time)),
        Raised => Remedy::Shown(candidate(3, false, prior)),
        Barrier => Remedy::Fresh {
            barrier: true,
            prior,
        },
        Copied => Remedy::Fresh {
            barrier: false,
            prior,
        },
        Other(remedy) => remedy,
    }
}

/// A request of client 1, where the sets show nothing above this time, and what is made has this group.
fn mend(alloc: Global, remedy: Remedy, latest: u64, made: Group) -> Result<Mend, NoMemory> {
    Ok(Mend {
        target: OBJECT,
        client: ClientId(1),
        set: Digest([2; 32]),
        latest: at(latest).stamp,
        remedy,
        remedies: List::one(alloc, (OBJECT, remedy))?,
        made,
    })
}

/// The history of a replica that has so many candidates, the opening one among them.
fn own(alloc: Global, count: usize) -> Result<History, Fail> {
    let mut history = History::opening(alloc, OBJECT, ReplicaId(0))?;
    for time in 1..count {
        history.add(at(time as u64))?;
    }
    Ok(history)
}

/// A version with the number 7 and these links.
fn linked(alloc: Global, links: List<Link>) -> ObjState {
    ObjState {
        value: Value::Counter(Counter::new(7)),
        kept: List::new(alloc),
        links,
    }
}

/// An object of the request, of which a replica has this history, and this version or not.
fn part<'a>(
    object: ObjectId,
    mend: &Mend,
    (own, found): (&'a History, bool),
    version: &'a ObjState,
) -> Part<'a> {
    Part {
        object,
        latest: mend.latest,
        remedy: mend.remedy,
        own: Some(own),
        version: if found { Some(version) } else { None },
    }
}

/// What a replica with this history makes of the request, which has the wanted version or not.
fn outcome(alloc: Global, mend: &Mend, own: (&History, bool)) -> Result<Mending, NoMemory> {
    let version = linked(alloc, List::new(alloc));
    mend.decide(alloc, &[part(OBJECT, mend, own, &version)])
}

fn number_of(version: &Option<ObjState>) -> Option<u64> {
    match version {
        Some(
            ObjState {
                value: Value::Counter(counter),
                ..
            },
        ) => Some(counter.number()),
        _ => None,
    }
}

/// Whether this candidate is added to one object, with a version that has this number or with none.
fn is_added(accepted: &[Accepted], candidate: Candidate, number: Option<u64>) -> bool {
    match accepted {
        [one] => one.candidate == candidate && number_of(&one.state) == number,
        _ => false,
    }
}

fn is_seen(mending: &Mending, seen: Seen) -> bool {
    let prior = at(1).stamp;
    match mending {
        Mending::Mends { accepted, .. } => match seen {
            Adds(time) => is_added(accepted.as_slice(), at(time), None),
            Bars(time) => { is_added(accepted.as_slice(), candidate(time, true, prior), None) }
            Copies(time) => {
                is_added(accepted.as_slice(), candidate(time, false, prior), Some(7))
            }
            _ => false,
        },
        Mending::Holds { stamp } => match seen {
            Holds(time) => *stamp == at(time).stamp,
            _ => false,
        },
        Mending::Refuses(why) => match seen {
            IsPast(time) => *why == Refusal::NotCurrent(OBJECT, at(time).stamp),
            Refuses(refusal) => *why == refusal,
            _ => false,
        },
        Mending::Waits { .. } => matches!(seen, Waits),
    }
}

/// Fails with the words of the first case that is not seen.
fn are_seen(alloc: Global, cases: &[Case]) -> Result<(), Fail> {
    for (words, asked, latest, (count, found), seen) in cases {
        let own = own(alloc, *count)?;
        let mend = mend(alloc, remedy_of(*asked), *latest, Group::none())?;
        let mending = outcome(alloc, &mend, (&own, *found))?;
        holds(is_seen(&mending, *seen), *words)?;
    }
    Ok(())
}

const SOUND: Seen = Refuses(Refusal::Sound(OBJECT));

const SPENT: Seen = Refuses(Refusal::TimeSpent(OBJECT));

const IS_FULL: Seen = Refuses(Refusal::HistoryFull(OBJECT));

const NEEDS_OTHER: Seen = Refuses(Refusal::Needs(OTHER));

const STALE_BY_OTHER: Seen = Refuses(Refusal::Stale(OTHER));

const NOTHING: Asked = Other(Remedy::Nothing);

const ALONE: [Case; 7] = [
    ("held", Shown(3), 3, (4, false), Holds(3)),
    ("past", Copied, 2, (4, true), IsPast(3)),
    ("another is held", Raised, 3, (4, true), IsPast(3)),
    ("sound", NOTHING, 3, (4, false), SOUND),
    ("it is missing", Shown(3), 3, (2, false), Waits),
    ("what is copied is missing", Copied, 3, (2, false), Waits),
    ("added", Shown(3), 3, (2, true), Adds(3)),
];

#[test]
fn a_row_comes_alone(rt: HostRuntime) -> Result<(), Fail> {
    are_seen(rt.alloc(), &ALONE)
}

const LATE: u64 = LAST_TIME - 1;

const FRESH: [Case; 5] = [
    ("a barrier", Barrier, 3, (4, false), Bars(4)),
    ("a copy", Copied, 3, (4, true), Copies(4)),
    ("a last copy", Copied, LATE, (4, true), Copies(LAST_TIME)),
    ("no time to bar", Barrier, LAST_TIME, (4, false), SPENT),
    ("no time to copy", Copied, LAST_TIME, (4, true), SPENT),
];

#[test]
fn fresh_candidates_stand_above_all_that_is_shown(rt: HostRuntime) -> Result<(), Fail> {
    are_seen(rt.alloc(), &FRESH)
}

const AFTER: u64 = LAST_TIME + 1;

const LAST: [Case; 2] = [
    (
        "the last time",
        Shown(LAST_TIME),
        LAST_TIME,
        (4, true),
        Adds(LAST_TIME),
    ),
    ("the time behind it", Shown(AFTER), AFTER, (4, true), SPENT),
];

#[test]
fn what_is_shown_is_added_up_to_the_last_time(rt: HostRuntime) -> Result<(), Fail> {
    are_seen(rt.alloc(), &LAST)
}

const EARLIER: [Case; 4] = [
    ("held before past", Shown(2), 2, (4, false), Holds(2)),
    ("past before sound", NOTHING, 2, (4, true), IsPast(3)),
    ("past before missing", Copied, 2, (4, false), IsPast(3)),
    ("missing before spent", Copied, LAST_TIME, (4, false), Waits),
];

#[test]
fn of_two_rows_the_earlier_one_comes(rt: HostRuntime) -> Result<(), Fail> {
    are_seen(rt.alloc(), &EARLIER)
}

const FULL: usize = HISTORY_LIMIT;

const FILLED: [Case; 8] = [
    ("held", Shown(1023), 1023, (FULL, true), Holds(1023)),
    ("past", Copied, 2, (FULL, true), IsPast(1023)),
    ("sound", NOTHING, 2000, (FULL, true), SOUND),
    ("missing", Copied, 2000, (FULL, false), Waits),
    ("spent", Barrier, LAST_TIME, (FULL, false), SPENT),
    ("no room to bar", Barrier, 2000, (FULL, false), IS_FULL),
    ("no room", Shown(2000), 2000, (FULL, true), IS_FULL),
    (
        "the last place",
        Shown(2000),
        2000,
        (FULL - 1, true),
        Adds(2000),
    ),
];

#[test]
fn a_full_history_is_told_last(rt: HostRuntime) -> Result<(), Fail> {
    are_seen(rt.alloc(), &FILLED)
}

const UNPLANNED: Asked = Other(Remedy::Unplanned(OTHER));

const OUTDATED: Asked = Other(Remedy::Outdated(OTHER));

const UNSHOWN: Asked = Other(Remedy::Unshown(OTHER));

const PLANNED: [Case; 4] = [
    ("undecided", UNPLANNED, 2, (4, false), NEEDS_OTHER),
    ("gone on", OUTDATED, 2, (4, false), STALE_BY_OTHER),
    ("past before unshown", UNSHOWN, 2, (4, false), IsPast(3)),
    ("unshown", UNSHOWN, 3, (4, false), NEEDS_OTHER),
];

#[test]
fn what_a_plan_needs_is_told_first(rt: HostRuntime) -> Result<(), Fail> {
    are_seen(rt.alloc(), &PLANNED)
}

/// What a replica makes of a request to add a candidate to two objects.
#[derive(Clone, Copy)]
enum SeenOfTwo {
    AddsToBoth,
    /// It waits for the version of the second one.
    WaitsForTheOther,
    /// Its latest candidate of this object is later.
    IsPastOn(ObjectId),
}

/// Words for what is seen, what a replica has of each object as in a `Case`, and what it makes of the request.
type CaseOfTwo = (&'static str, (usize, bool), (usize, bool), SeenOfTwo);

/// The candidate of this time on both objects, of one group.
fn joined(time: u64) -> Candidate {
    Candidate {
        group: Group::new(&[(OBJECT, time), (OTHER, time)]).unwrap_or(Group::none()),
        ..at(time)
    }
}

/// What a replica makes of a request to add the candidate of time 3 to both objects, of which it has these histories,
/// and the version or not.
fn outcome_of_two<'a>(
    alloc: Global,
    lower: (&'a History, bool),
    higher: (&'a History, bool),
) -> Result<Mending, NoMemory> {
    let mend = mend(alloc, Remedy::Shown(joined(3)), 3, Group::none())?;
    let version = linked(alloc, List::new(alloc));
    let first = part(OBJECT, &mend, lower, &version);
    mend.decide(alloc, &[first, part(OTHER, &mend, higher, &version)])
}

fn is_seen_of_two(mending: &Mending, seen: SeenOfTwo) -> bool {
    match mending {
        Mending::Mends { accepted, .. } => match accepted.as_slice() {
            [lower, higher] => {
                matches!(seen, AddsToBoth) && lower.object == OBJECT && higher.object == OTHER
            }
            _ => false,
        },
        Mending::Waits { missing } => {
            matches!(seen, WaitsForTheOther)
                && missing.as_slice() == [(OTHER, at(3).stamp)].as_slice()
        }
        Mending::Refuses(Refusal::NotCurrent(object, _)) => {
            matches!(seen, IsPastOn(named) if named == *object)
        }
        _ => false,
    }
}

fn are_seen_of_two(alloc: Global, cases: &[CaseOfTwo]) -> Result<(), Fail> {
    for (words, first, second, seen) in cases {
        let lower = own(alloc, first.0)?;
        let higher = own(alloc, second.0)?;
        let mending = outcome_of_two(alloc, (&lower, first.1), (&higher, second.1))?;
        holds(is_seen_of_two(&mending, *seen), *words)?;
    }
    Ok(())
}

const WHOLE: [CaseOfTwo; 2] = [
    ("both are added", (2, true), (3, true), AddsToBoth),
    (
        "the second is missing",
        (2, true),
        (3, false),
        WaitsForTheOther,
    ),
];

#[test]
fn a_group_is_mended_whole(rt: HostRuntime) -> Result<(), Fail> {
    are_seen_of_two(rt.alloc(), &WHOLE)
}

const PAST: [CaseOfTwo; 3] = [
    ("both are past", (5, true), (5, true), IsPastOn(OBJECT)),
    ("the second is past", (2, true), (5, true), IsPastOn(OTHER)),
    ("the first is past", (5, true), (2, true), IsPastOn(OBJECT)),
];

#[test]
fn the_lowest_object_is_named(rt: HostRuntime) -> Result<(), Fail> {
    are_seen_of_two(rt.alloc(), &PAST)
}

fn link(object: ObjectId, time: u64) -> Link {
    Link {
        object,
        stamp: at(time).stamp,
    }
}

/// What a replica makes of a request to copy these versions on both objects, where the sets show nothing above time 3.
fn copied<'a>(alloc: Global, first: &'a ObjState, second: &'a ObjState) -> Result<Mending, Fail> {
    let mend = mend(alloc, remedy_of(Copied), 3, joined(4).group)?;
    let own = own(alloc, 4)?;
    let lower = part(OBJECT, &mend, (&own, true), first);
    Ok(mend.decide(alloc, &[lower, part(OTHER, &mend, (&own, true), second)])?)
}

#[test]
fn a_copy_links_the_objects_of_its_group(rt: HostRuntime) -> Result<(), Fail> {
    let alloc = rt.alloc();
    let links = List::from_clones(alloc, &[link(OTHER, 1), link(THIRD, 2)])?;
    let second = linked(alloc, List::new(alloc));
    let mending = copied(alloc, &linked(alloc, links), &second)?;
    holds(
        links_both(&mending),
        "a new link to the other object, and the old one to the third",
    )
}

fn links_both(mending: &Mending) -> bool {
    match mending {
        Mending::Mends { accepted, .. } => match accepted.as_slice() {
            [lower, higher] => {
                has_links(&lower.state, &[link(OTHER, 4), link(THIRD, 2)])
                    && has_links(&higher.state, &[link(OBJECT, 4)])
            }
            _ => false,
        },
        _ => false,
    }
}

/// Whether a version is stored, and has just these links, by rising object.
fn has_links(stored: &Option<ObjState>, links: &[Link]) -> bool {
    match stored {
        Some(version) => version.links.as_slice() == links,
        None => false,
    }
}
