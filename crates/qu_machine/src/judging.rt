ghost use Rattle.std.specs.Prelude.{◌≡◌, length, position, IfOk, IsOkUnless, OnOk, MatchOption, MatchResult, All};
ghost use Rattle.qu_machine.specs.PointTests.{is_outside, is_absent};
ghost use Rattle.qu_machine.specs.Serial.{IsRising, HasObjects, IsSerial, op_answer, op_values};
ghost use Rattle.qu_machine.specs.Fault.{IsFault, IsFirst, Nowhere, DiffersAt, TwiceAt};
ghost use Rattle.qu_machine.specs.declared.fault.JudgeFault.TheVariants as faults;

use super::standing::{differs, is_absent, is_outside, stood_before};
use super::{JudgeFault, Machine, OpRecord, Point};
use qu_base::NoMemory;
use qu_objects::{Answer, KindName, Op};
use std::alloc::Global;

/// Decides whether the points are a serial order of the operations, on objects 0, 1, 2, .. of these
/// kinds.
///
/// Each completed operation has to stand in the order once, between its invocation and its reply,
/// and with the answer that the machine gives it there; one without a reply, or that gave up, may
/// stand in it once, after its invocation. Faulty clients' updates may stand anywhere, but each
/// only once. Of several faults the one is told that comes first in `JudgeFault`, and of that the
/// first place. `is_judgeable` tests what is asked of the points.
pub fn judge(
    alloc: Global,
    kinds: &[KindName],
    ops: &[OpRecord],
    order: &[Point],
) -> Result<(), JudgeFault>
    requires rising { IsRising order.now }
    requires objects { All (λ point. HasObjects (length kinds.now) point.op) order.now }
    ensures verdict { MatchResult result (λ _. IsSerial kinds.now ops.now order.now)
        (λ fault. IsFault kinds.now ops.now order.now fault) }
    ensures accepted { IsSerial kinds.now ops.now order.now → IsOkUnless result faults.NoMemory }
{
    if let Some(at) = first_differing(alloc, kinds, ops, order)? {
        return Err(JudgeFault::Differs { at: at as u64 });
    }
    if let Some(at) = first_outside(ops, order) {
        return Err(JudgeFault::Outside { at: at as u64 });
    }
    if let Some(at) = first_twice(order) {
        return Err(JudgeFault::Twice { at: at as u64 });
    }
    match first_absent(ops, order) {
        Some(op) => Err(JudgeFault::Absent { op: op as u64 }),
        None => Ok(()),
    }
}

/// The first point of a completed operation with another answer than the machine's.
fn first_differing(
    alloc: Global,
    kinds: &[KindName],
    ops: &[OpRecord],
    order: &[Point],
) -> Result<Option<usize>, NoMemory>
    requires { All (λ point. HasObjects (length kinds.now) point.op) order.now }
    ensures { IfOk result (λ found. MatchOption found (Nowhere (DiffersAt kinds.now ops.now order.now))
        (λ at. IsFirst (DiffersAt kinds.now ops.now order.now) at)) }
{
    let mut machine = Machine::fresh(alloc, kinds)?;
    for (index, point) in order.iter().enumerate() {
        let answer = step(alloc, &mut machine, &point.op)?;
        if differs(ops, point, &answer) {
            return Ok(Some(index));
        }
    }
    Ok(None)
}

/// Runs an operation as one step.
fn step(alloc: Global, machine: &mut Machine, op: &Op) -> Result<Answer, NoMemory>
    requires { HasObjects (length machine.old) op.now }
    ensures answer { IfOk result (λ answer. answer ≡ op_answer machine.old op.now) }
    ensures values { OnOk result (machine.new ≡ op_values machine.old op.now) }
{
    match op {
        Op::Act(act) => machine.run(alloc, act),
        Op::Query(query) => machine.ask(alloc, query),
    }
}

/// The first point where none of the operations may be.
fn first_outside(ops: &[OpRecord], order: &[Point]) -> Option<usize>
    ensures { result ≡ position (is_outside ops.now) order.now }
{
    order.iter().position(|point| is_outside(ops, point))
}

/// The first point whose operation stands at an earlier place too.
fn first_twice(order: &[Point]) -> Option<usize>
    ensures { MatchOption result (Nowhere (TwiceAt order.now)) (λ at. IsFirst (TwiceAt order.now) at) }
{
    for (index, point) in order.iter().enumerate() {
        if stood_before(&order[..index], point) {
            return Some(index);
        }
    }
    None
}

/// The first completed operation that stands nowhere.
fn first_absent(ops: &[OpRecord], order: &[Point]) -> Option<usize>
    ensures { result ≡ position (is_absent order.now) ops.now }
{
    ops.iter().position(|operation| is_absent(order, operation))
}
