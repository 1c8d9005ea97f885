ghost use Rattle.std.specs.Prelude.{◌≡◌};
ghost use Rattle.qu_machine.specs.PointTests.{stands, agree, is_update, is_completed, is_before_reply, is_between, has_other_answer, is_misplaced, is_answered_otherwise, is_of_operations, is_beyond, is_outside, differs, is_placed, is_absent};
ghost use Rattle.std.specs.List.{list_any};

use super::alike::{same_answer, same_op};
use super::{OpRecord, Point};
use qu_objects::{Answer, Op, Outcome};

/// Whether the point is one of this operation, and not of a faulty client.
pub fn stands(operation: &OpRecord, point: &Point) -> bool
    ensures { result ≡ stands operation.now point.now }
{
    !point.faulty
        && operation.client == point.client
        && operation.number == point.number
        && same_op(&operation.op, &point.op)
}

/// Whether two points agree in client, number and operation, and in whether the client is faulty.
fn agree(first: &Point, second: &Point) -> bool
    ensures { result ≡ agree first.now second.now }
{
    first.faulty == second.faulty
        && first.client == second.client
        && first.number == second.number
        && same_op(&first.op, &second.op)
}

fn is_update(op: &Op) -> bool
    ensures { result ≡ is_update op.now }
{
    match op {
        Op::Act(_) => true,
        Op::Query(_) => false,
    }
}

/// Whether the operation completed; one that gave up did not.
fn is_completed(operation: &OpRecord) -> bool
    ensures { result ≡ is_completed operation.now.reply }
{
    match &operation.reply {
        Some((_, Outcome::Done(_))) => true,
        Some((_, Outcome::GaveUp)) | None => false,
    }
}

/// Whether the event is before that at which the operation completed, if it did.
fn is_before_reply(event: u64, operation: &OpRecord) -> bool
    ensures { result ≡ is_before_reply event operation.now.reply }
{
    match &operation.reply {
        Some((reply, Outcome::Done(_))) => event < *reply,
        Some((_, Outcome::GaveUp)) | None => true,
    }
}

fn is_between(operation: &OpRecord, event: u64) -> bool
    ensures { result ≡ is_between operation.now event }
{
    operation.invoked < event && is_before_reply(event, operation)
}

/// Whether the operation completed with another answer than this one.
fn has_other_answer(operation: &OpRecord, answer: &Answer) -> bool
    ensures { result ≡ has_other_answer answer.now operation.now.reply }
{
    match &operation.reply {
        Some((_, Outcome::Done(done))) => !same_answer(answer, done),
        Some((_, Outcome::GaveUp)) | None => false,
    }
}

/// Whether the point is one of the operations.
fn is_of_operations(operations: &[OpRecord], point: &Point) -> bool
    ensures { result ≡ is_of_operations operations.now point.now }
{
    operations.iter().any(|operation| stands(operation, point))
}

/// Whether the point is one of the operation, and not between its invocation and its reply.
fn is_misplaced(operation: &OpRecord, point: &Point) -> bool
    ensures { result ≡ is_misplaced operation.now point.now }
{
    stands(operation, point) && !is_between(operation, point.event)
}

/// Whether the point is misplaced for one of the operations.
fn is_beyond(operations: &[OpRecord], point: &Point) -> bool
    ensures { result ≡ is_beyond operations.now point.now }
{
    operations
        .iter()
        .any(|operation| is_misplaced(operation, point))
}

/// Whether the point is a faulty client's query, one of no operation, or misplaced.
pub fn is_outside(operations: &[OpRecord], point: &Point) -> bool
    ensures { result ≡ is_outside operations.now point.now }
{
    if point.faulty {
        !is_update(&point.op)
    } else {
        !is_of_operations(operations, point) || is_beyond(operations, point)
    }
}

/// Whether the point is one of the operation, and that completed with another answer than this one.
fn is_answered_otherwise(operation: &OpRecord, point: &Point, answer: &Answer) -> bool
    ensures { result ≡ is_answered_otherwise operation.now point.now answer.now }
{
    stands(operation, point) && has_other_answer(operation, answer)
}

/// Whether one of the operations of this point was answered otherwise than so.
pub fn differs(operations: &[OpRecord], point: &Point, answer: &Answer) -> bool
    ensures { result ≡ differs operations.now point.now answer.now }
{
    operations.iter().any(|operation| is_answered_otherwise(operation, point, answer))
}

/// Whether one of these points agrees with this one.
pub fn stood_before(earlier: &[Point], point: &Point) -> bool
    ensures { result ≡ list_any (λ first. agree first point.now) earlier.now }
{
    earlier.iter().any(|first| agree(first, point))
}

/// Whether the operation stands at one of these points.
fn is_placed(order: &[Point], operation: &OpRecord) -> bool
    ensures { result ≡ is_placed order.now operation.now }
{
    order.iter().any(|point| stands(operation, point))
}

/// Whether the operation completed, and stands at none of these points.
pub fn is_absent(order: &[Point], operation: &OpRecord) -> bool
    ensures { result ≡ is_absent order.now operation.now }
{
    is_completed(operation) && !is_placed(order, operation)
}
