ghost use Rattle.std.specs.Prelude.{◌≡◌, ◌≤◌, not, length, AllPairs, IfOk, OnOk};
ghost use Rattle.std.specs.List.{filter, position_or_len};
ghost use Rattle.qu_world.specs.Run.{IsRun};
ghost use Rattle.qu_points.specs.Facts.{AreFacts};
ghost use Rattle.qu_claims.specs.Order.{is_earlier, IsPrintedOrder};
ghost use Rattle.qu_points.specs.Points.{AreDistinct, AddsPoint, ArePointsOf, asks, is_query, with_point};

use super::before::is_earlier;
use super::effects::effect;
use super::facts::Facts;
use super::updates::add_acts;
use qu_base::{List, NoMemory, Party};
use qu_machine::{OpRecord, Point};
use qu_objects::Op;
use qu_trace::DecodedTrace;
use std::alloc::Global;

/// The points of a run, in their order: where each update that a replica handled and each completed query took effect.
/// Those of faulty clients have a mark.
pub fn printed_order(alloc: Global, trace: &DecodedTrace<'_>) -> Result<List<Point>, NoMemory>
    requires { IsRun trace.now }
    ensures { IfOk result (λ order. IsPrintedOrder trace.now order) }
{
    let facts = Facts::of(alloc, trace)?;
    let mut operations = queries(alloc, trace.operations())?;
    add_acts(alloc, facts.acts.as_slice(), &mut operations)?;
    let points = points(alloc, trace, &facts, operations.as_slice())?;
    Ok(List::from(points))
}

/// The queries among these operations.
#[tactic(auto, using(std::proofs::lemmas::List::Elements::filter_more))]
fn queries(alloc: Global, operations: &[OpRecord]) -> Result<List<OpRecord>, NoMemory>
    ensures { IfOk result (λ queries. queries ≡ filter is_query operations.now) }
{
    let mut queries = List::new(alloc);
    for operation in operations {
        if asks(&operation.op) {
            queries.push(operation.copy(alloc)?)?;
        }
    }
    Ok(queries)
}

/// Whether the operation is a query.
fn asks(op: &Op) -> bool
    ensures { result ≡ asks op.now }
{
    match op {
        Op::Act(_) => false,
        Op::Query(_) => true,
    }
}

/// The points of these operations, in their order.
fn points(
    alloc: Global,
    trace: &DecodedTrace<'_>,
    facts: &Facts,
    operations: &[OpRecord],
) -> Result<Vec<Point>, NoMemory>
    requires known { AreFacts trace.now facts.now }
    requires distinct { AllPairs AreDistinct operations.now }
    ensures { IfOk result (λ points. ArePointsOf trace.now operations.now points.items) }
{
    let mut points = Vec::new(alloc);
    for operation in operations {
        add_point(alloc, &mut points, trace, facts, operation)?;
    }
    Ok(points)
}

/// Adds the point of one operation more, where it took effect.
fn add_point(
    alloc: Global,
    points: &mut Vec<Point>,
    trace: &DecodedTrace<'_>,
    facts: &Facts,
    operation: &OpRecord,
) -> Result<(), NoMemory>
    requires { AreFacts trace.now facts.now }
    ensures { OnOk result (AddsPoint trace.now operation.now points.old.items points.new.items) }
{
    let found = effect(alloc, trace, facts, operation)?;
    if let Some(event) = found {
        let point = Point {
            event,
            client: operation.client,
            number: operation.number,
            op: operation.op.copy(alloc)?,
            faulty: trace
                .trace()
                .setup
                .is_faulty(Party::Client(operation.client)),
        };
        insert(alloc, points, point)?;
    }
    Ok(())
}

/// Puts a point in its place.
fn insert(alloc: Global, points: &mut Vec<Point>, point: Point) -> Result<(), NoMemory>
    ensures { OnOk result (points.new.items ≡ with_point point points.old.items) }
{
    let place = place_of(alloc, points.as_slice(), &point)?;
    points.insert(place, point)?;
    Ok(())
}

/// How many of the points are before this one, up to the first that is not.
fn place_of(alloc: Global, points: &[Point], point: &Point) -> Result<usize, NoMemory>
    ensures value { IfOk result
        (λ place. place ≡ position_or_len (λ first. not (is_earlier first point.now)) points.now) }
    ensures within { IfOk result (λ place. place ≤ length points.now) }
{
    for (place, first) in points.iter().enumerate() {
        if !is_earlier(alloc, first, point)? {
            return Ok(place);
        }
    }
    Ok(points.len())
}
