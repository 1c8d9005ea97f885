use qu_base::{ClientId, Digest, ObjectId};
use qu_stamp::{Candidate, Group, LAST_TIME, Stamp};
use qu_testing::{all_hold, holds};
use std::test::Fail;

fn stamp_at(time: u64, barrier: bool, client: u16, act: Option<u8>, set: u8) -> Stamp {
    Stamp {
        time,
        barrier,
        client: ClientId(client),
        act: match act {
            Some(byte) => Some(Digest([byte; 32])),
            None => None,
        },
        set: Digest([set; 32]),
    }
}

/// Stamps that rise, each by a field that counts more than those before it.
fn rising() -> [Stamp; 8] {
    [
        Stamp::opening(),
        stamp_at(0, false, 0, None, 1),
        stamp_at(0, false, 0, Some(0), 0),
        stamp_at(0, false, 0, Some(1), 0),
        stamp_at(0, false, 1, None, 0),
        stamp_at(0, true, 0, None, 0),
        stamp_at(1, false, 0, None, 0),
        stamp_at(2, true, 7, Some(255), 255),
    ]
}

#[test]
fn stamps_compare_field_by_field() -> Result<(), Fail> {
    let rising = rising();
    for (place, stamp) in rising.iter().enumerate() {
        for (other_place, other) in rising.iter().enumerate() {
            holds(
                stamp.is_below(other) == (place < other_place),
                "two of the stamps",
            )?;
        }
    }
    Ok(())
}

/// The pairs of groups that rise: the first pair that differs counts, and else their number.
const RISING_PAIRS: [&[(ObjectId, u64)]; 6] = [
    &[],
    &[(ObjectId(0), 1), (ObjectId(1), 9)],
    &[(ObjectId(0), 1), (ObjectId(2), 1)],
    &[(ObjectId(0), 1), (ObjectId(2), 1), (ObjectId(3), 1)],
    &[(ObjectId(0), 1), (ObjectId(2), 2)],
    &[(ObjectId(1), 1), (ObjectId(2), 1)],
];

/// The group of these pairs, or none.
fn group(pairs: &[(ObjectId, u64)]) -> Group {
    Group::new(pairs).unwrap_or(Group::none())
}

fn candidate(stamp: Stamp, prior: Stamp, group: Group) -> Candidate {
    Candidate {
        stamp,
        prior,
        group,
    }
}

#[test]
fn candidates_compare_by_stamp_then_prior_then_group() -> Result<(), Fail> {
    let low = stamp_at(1, false, 0, None, 0);
    let high = stamp_at(2, false, 0, None, 0);
    let greatest = group(RISING_PAIRS[5]);
    all_hold(&[
        (
            candidate(low, high, greatest).is_before(&candidate(high, low, Group::none())),
            "by the stamp",
        ),
        (
            candidate(low, low, greatest).is_before(&candidate(low, high, Group::none())),
            "by the prior",
        ),
        (are_before_by_group(low), "by the group"),
    ])
}

/// Whether candidates that differ in their groups alone stand as their groups do, and are equal where these are.
fn are_before_by_group(stamp: Stamp) -> bool {
    for (place, pairs) in RISING_PAIRS.iter().enumerate() {
        for (other_place, others) in RISING_PAIRS.iter().enumerate() {
            let first = candidate(stamp, stamp, group(*pairs));
            let second = candidate(stamp, stamp, group(*others));
            if first.is_before(&second) != (place < other_place)
                || (first == second) != (place == other_place)
            {
                return false;
            }
        }
    }
    true
}

const FIVE_PAIRS: [(ObjectId, u64); 5] = [
    (ObjectId(0), 1),
    (ObjectId(1), 1),
    (ObjectId(2), 1),
    (ObjectId(62), 1),
    (ObjectId(63), LAST_TIME),
];

/// What cannot stand behind object 5: no later object, none at all, and times out of range.
const BAD_PAIRS: [(ObjectId, u64); 5] = [
    (ObjectId(5), 2),
    (ObjectId(4), 2),
    (ObjectId(64), 2),
    (ObjectId(6), 0),
    (ObjectId(6), LAST_TIME + 1),
];

#[test]
fn a_group_has_no_pair_or_two_to_four() -> Result<(), Fail> {
    for count in 0..6 {
        holds(
            Group::new(&FIVE_PAIRS[5 - count..]).is_some() == (count != 1 && count != 5),
            "by the number of pairs",
        )?;
    }
    for bad in &BAD_PAIRS {
        holds(
            Group::new(&[(ObjectId(5), 1), *bad]).is_none(),
            "by the second pair",
        )?;
    }
    Ok(())
}

#[test]
fn a_member_has_the_time_that_is_listed() -> Result<(), Fail> {
    let own = stamp_at(2, false, 7, Some(1), 3);
    let group = group(&[(ObjectId(1), 2), (ObjectId(4), 9)]);
    let joint = candidate(own, Stamp::opening(), group);
    all_hold(&[
        (joint.member(ObjectId(1)) == Some(own), "on its own object"),
        (
            joint.member(ObjectId(4)) == Some(stamp_at(9, false, 7, Some(1), 3)),
            "on the other one",
        ),
        (joint.member(ObjectId(2)).is_none(), "on no third one"),
    ])
}
