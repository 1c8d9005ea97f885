use super::made::read;
use Step::{Add, FaultyAdd, FaultyRead, GivenUp, Read, Stray};
use qu_base::{ClientId, List, ObjectId};
use qu_machine::{JudgeFault, OpRecord, Point, is_judgeable, judge};
use qu_objects::{Act, Answer, Item, KindName, Method, Op, Outcome};
use qu_testing::holds;
use std::alloc::Global;
use std::test::Fail;

/// What stands in an order.
#[derive(Clone, Copy)]
enum Step {
    /// Client 1 adds 5.
    Add,
    /// Client 2 reads.
    Read,
    /// Client 3 adds 7, and gave up.
    GivenUp,
    /// Client 4 adds 7, which is none of the operations.
    Stray,
    /// A faulty client adds 7.
    FaultyAdd,
    /// A faulty client reads.
    FaultyRead,
}

/// Words, events with what stands there, and why these steps are no serial order, None where they are one.
type Case = (&'static str, &'static [(u64, Step)], Option<JudgeFault>);

fn add(alloc: Global, more: u64) -> Result<Op, Fail> {
    let parts = List::one(alloc, (ObjectId(0), Method::Add(more)))?;
    Ok(Op::Act(Act::new(parts)?))
}

fn op_of(alloc: Global, step: Step) -> Result<Op, Fail> {
    match step {
        Add => add(alloc, 5),
        Read | FaultyRead => read(alloc, ObjectId(0)),
        GivenUp | Stray | FaultyAdd => add(alloc, 7),
    }
}

fn client_of(step: Step) -> u16 {
    match step {
        Add => 1,
        Read => 2,
        GivenUp => 3,
        Stray => 4,
        FaultyAdd | FaultyRead => 5,
    }
}

/// The answer 5, but where it was given up.
fn outcome_of(alloc: Global, step: Step) -> Result<Outcome, Fail> {
    match step {
        GivenUp => Ok(Outcome::GaveUp),
        _ => Ok(Outcome::Done(Answer::Ok(List::one(alloc, Item::Number(5))?))),
    }
}

/// Puts the first operation of a client, which began at the event with the client's number.
fn put_operation(
    alloc: Global,
    operations: &mut Vec<OpRecord>,
    step: Step,
    reply: u64,
) -> Result<(), Fail> {
    let op = op_of(alloc, step)?;
    let outcome = outcome_of(alloc, step)?;
    let client = client_of(step);
    operations.push(OpRecord {
        client: ClientId(client),
        number: 1,
        op,
        invoked: u64::from(client),
        reply: Some((reply, outcome)),
    })?;
    Ok(())
}

/// Client 1 adds 5 and client 2 reads, both with the answer 5, and client 3 adds 7 and gives up.
fn put_operations(alloc: Global, operations: &mut Vec<OpRecord>) -> Result<(), Fail> {
    for (step, reply) in &[(Add, 10), (Read, 12), (GivenUp, 13)] {
        put_operation(alloc, operations, *step, *reply)?;
    }
    Ok(())
}

fn put_points(alloc: Global, order: &mut Vec<Point>, steps: &[(u64, Step)]) -> Result<(), Fail> {
    for (event, step) in steps {
        order.push(Point {
            event: *event,
            client: ClientId(client_of(*step)),
            number: 1,
            op: op_of(alloc, *step)?,
            faulty: matches!(step, FaultyAdd | FaultyRead),
        })?;
    }
    Ok(())
}

/// Whether this is why these steps are no serial order of the operations.
fn is_fault(
    alloc: Global,
    operations: &[OpRecord],
    steps: &[(u64, Step)],
    wanted: Option<JudgeFault>,
) -> Result<bool, Fail> {
    let kinds = [KindName::Counter];
    let mut order = Vec::new(alloc);
    put_points(alloc, &mut order, steps)?;
    Ok(is_judgeable(&kinds, &order) && judge(alloc, &kinds, operations, &order).err() == wanted)
}

/// Fails with the words of the first case that is judged otherwise.
fn are_judged(alloc: Global, cases: &[Case]) -> Result<(), Fail> {
    let mut operations = Vec::new(alloc);
    put_operations(alloc, &mut operations)?;
    for (words, steps, wanted) in cases {
        holds(is_fault(alloc, &operations, *steps, *wanted)?, *words)?;
    }
    Ok(())
}

const SERIAL: [Case; 3] = [
    ("both", &[(4, Add), (6, Read)], None),
    (
        "one that gave up",
        &[(4, Add), (6, Read), (20, GivenUp)],
        None,
    ),
    (
        "one of a faulty client",
        &[(4, Add), (6, Read), (8, FaultyAdd)],
        None,
    ),
];

#[test]
fn serial_orders(rt: HostRuntime) -> Result<(), Fail> {
    holds(judge(rt.alloc(), &[], &[], &[]).is_ok(), "nothing")?;
    are_judged(rt.alloc(), &SERIAL)
}

#[test]
fn points_at_one_event_are_not_judged(rt: HostRuntime) -> Result<(), Fail> {
    let mut order = Vec::new(rt.alloc());
    put_points(rt.alloc(), &mut order, &[(6, Add), (6, Read)])?;
    holds(!is_judgeable(&[KindName::Counter], &order), "at once")
}

const OUTSIDE: [Case; 4] = [
    (
        "at the reply",
        &[(4, Add), (12, Read)],
        Some(JudgeFault::Outside { at: 1 }),
    ),
    (
        "at the invocation",
        &[(1, Add), (6, Read)],
        Some(JudgeFault::Outside { at: 0 }),
    ),
    (
        "a stray",
        &[(4, Add), (6, Read), (8, Stray)],
        Some(JudgeFault::Outside { at: 2 }),
    ),
    (
        "a faulty client's query",
        &[(3, FaultyRead), (4, Add), (6, Read)],
        Some(JudgeFault::Outside { at: 0 }),
    ),
];

#[test]
fn points_outside(rt: HostRuntime) -> Result<(), Fail> {
    are_judged(rt.alloc(), &OUTSIDE)
}

const OTHER: [Case; 4] = [
    (
        "another answer",
        &[(4, Read), (6, Add)],
        Some(JudgeFault::Differs { at: 0 }),
    ),
    (
        "a query twice",
        &[(4, Add), (6, Read), (7, Read)],
        Some(JudgeFault::Twice { at: 2 }),
    ),
    (
        "one is absent",
        &[(4, Add)],
        Some(JudgeFault::Absent { op: 1 }),
    ),
    (
        "an update twice",
        &[(4, Add), (6, Read), (7, FaultyAdd), (8, FaultyAdd)],
        Some(JudgeFault::Twice { at: 3 }),
    ),
];

#[test]
fn other_faults(rt: HostRuntime) -> Result<(), Fail> {
    are_judged(rt.alloc(), &OTHER)
}

/// Of two faults the one that comes first in `JudgeFault` is told, wherever they are.
const TWO_FAULTS: [Case; 3] = [
    (
        "it differs",
        &[(1, Add), (6, FaultyAdd), (8, Read)],
        Some(JudgeFault::Differs { at: 2 }),
    ),
    (
        "it is outside",
        &[(4, Add), (6, Read), (7, Read), (9, Stray)],
        Some(JudgeFault::Outside { at: 3 }),
    ),
    (
        "it is there twice",
        &[(4, Add), (6, FaultyAdd), (7, FaultyAdd)],
        Some(JudgeFault::Twice { at: 2 }),
    ),
];

#[test]
fn two_faults(rt: HostRuntime) -> Result<(), Fail> {
    are_judged(rt.alloc(), &TWO_FAULTS)
}
