//! The points of runs, and what the judge says of their order.

ghost use Rattle.qu_world.specs.Run.{IsRun};

use crate::events::{make_lines, setup_and_lines, world_with};
use crate::scripts::run_text;
use qu_base::{List, NoMemory};
use qu_case_forms::{Named, NoAnswer, Told};
use qu_machine::{Point, is_judgeable, judge};
use qu_safety::order_of;
use qu_trace::{DecodedTrace, Trace};
use std::alloc::Global;

/// Makes the events of lines behind a setup, and tells what each of them made, and the points at the end.
pub fn events(
    alloc: Global,
    names: &[Named<'_>],
    lines: &str,
    out: &mut Told,
) -> Result<(), NoAnswer> {
    let (setup, lines) = setup_and_lines(lines);
    let trace = make_lines(alloc, names, setup, lines, world_with(alloc, setup)?, out)?;
    Ok(points(alloc, &trace, out)?)
}

/// The points of a script's run, and whether they are a serial order of its operations.
pub fn order(alloc: Global, script: &[u8], out: &mut Told) -> Result<(), NoAnswer> {
    let trace = run_text(alloc, script)?;
    Ok(points(alloc, &trace, out)?)
}

/// `order_of` without what it promises, so that the functions that call it know nothing of it, and are proved fast.
pub fn printed(alloc: Global, trace: &DecodedTrace<'_>) -> Result<List<Point>, NoMemory>
    requires { IsRun trace.now }
{
    order_of(alloc, trace)
}

/// The event, client and number of each point of a run, with a mark where the client is faulty, and what the judge says
/// of their order.
pub fn points(alloc: Global, trace: &Trace, out: &mut Told) -> Result<(), NoMemory>
    requires { IsRun trace.now }
{
    let run = DecodedTrace::of(alloc, trace)?;
    let order = printed(alloc, &run)?;
    put_points(order.as_slice(), out);
    put_judged(alloc, &run, order.as_slice(), out);
    Ok(())
}

fn put_points(order: &[Point], out: &mut Told) {
    out.put("points");
    for point in order {
        out.put_number(" ", point.event);
        out.put(if point.faulty { ":faulty-" } else { ":" });
        out.put_number("", u64::from(point.client.0));
        out.put_number(".", point.number);
    }
    out.put("\n");
}

fn put_judged(alloc: Global, trace: &DecodedTrace<'_>, order: &[Point], out: &mut Told) {
    let kinds = trace.trace().setup.kinds.as_slice();
    if !is_judgeable(kinds, order) {
        return out.put("not judgeable");
    }
    match judge(alloc, kinds, trace.operations(), order) {
        Ok(()) => out.put("serial"),
        Err(fault) => write!(out, "{fault:?}"),
    }
}
