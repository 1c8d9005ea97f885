//! The counters of the machine that runs the points of an order.
ghost use Rattle.std.specs.Prelude.{◌≡◌, ◌≤◌, ◌<◌, length, nat_lt, IfOk, OnOk};
ghost use Rattle.std.specs.List.{list_all, sum_by, range_with_len};
ghost use Rattle.qu_print.specs.Summary.{act_behind, values_behind, values_behind_all, number_in, counter_at, counters_sum};

use qu_base::{Item, List, NoMemory, OBJECT_IDS, ObjectId};
use qu_machine::{Machine, Point};
use qu_objects::{Act, Answer, Ask, KindName, Op, Query};
use std::alloc::Global;

/// The sum of all counters behind the points.
#[tactic(auto, unfolding(crate::specs::Summary::counters_sum))]
pub fn counters_sum(alloc: Global, kinds: &[KindName], order: &[Point]) -> Result<u128, NoMemory>
    requires { length kinds.now ≤ OBJECT_IDS }
    ensures { IfOk result (λ sum. sum ≡ counters_sum kinds.now order.now) }
{
    let machine = machine_behind(alloc, kinds, order)?;
    sum_of(alloc, &machine, kinds.len() as u16)
}

/// The sum of the counters among so many objects.
#[tactic(auto, using(crate::proofs::SumFacts::sum_step))]
fn sum_of(alloc: Global, machine: &Machine, count: u16) -> Result<u128, NoMemory>
    requires objects { length machine.now ≡ count }
    requires few { count ≤ OBJECT_IDS }
    ensures { IfOk result (λ sum. sum ≡ sum_by (counter_at machine.now) (range_with_len 0 count)) }
{
    let mut sum = 0;
    for object in 0..count {
        sum += u128::from(counter_at(alloc, machine, object)?);
    }
    Ok(sum)
}

/// The machine that ran the points, one after another.
#[tactic(auto, unfolding(crate::specs::Summary::values_behind_all))]
fn machine_behind(alloc: Global, kinds: &[KindName], order: &[Point]) -> Result<Machine, NoMemory>
    ensures values { IfOk result (λ machine. machine ≡ values_behind_all kinds.now order.now) }
    ensures objects { IfOk result (λ machine. length machine ≡ length kinds.now) }
{
    let mut machine = Machine::fresh(alloc, kinds)?;
    for point in order {
        run_op(alloc, &mut machine, kinds.len(), &point.op)?;
    }
    Ok(machine)
}

/// Runs an operation on a machine of so many objects. A query changes nothing.
#[tactic(auto, using(crate::proofs::SumFacts::length_behind))]
fn run_op(alloc: Global, machine: &mut Machine, count: usize, op: &Op) -> Result<(), NoMemory>
    requires { count ≡ length machine.old }
    ensures values { OnOk result (machine.new ≡ values_behind machine.old op.now) }
    ensures objects { OnOk result (length machine.new ≡ length machine.old) }
{
    match op {
        Op::Act(act) => run_act(alloc, machine, count, act),
        Op::Query(_) => Ok(()),
    }
}

/// Runs an act on a machine of so many objects, or passes over one on other objects.
fn run_act(alloc: Global, machine: &mut Machine, count: usize, act: &Act) -> Result<(), NoMemory>
    requires { count ≡ length machine.old }
    ensures values { OnOk result (machine.new ≡ act_behind machine.old act.now) }
    ensures objects { OnOk result (length machine.new ≡ length machine.old) }
{
    if !has_objects(count, act) {
        return Ok(());
    }
    machine.run(alloc, act)?;
    Ok(())
}

/// Whether the act is on objects among so many.
fn has_objects(count: usize, act: &Act) -> bool
    ensures { result ≡ list_all (λ part. nat_lt (part.0).0 count) act.now }
{
    act.parts()
        .as_slice()
        .iter()
        .all(|(object, _)| usize::from(object.0) < count)
}

/// The number of an object, where it is a counter.
#[tactic(auto, unfolding(crate::specs::Summary::counter_at, qu_objects::specs::Parts::are_objects_from))]
fn counter_at(alloc: Global, machine: &Machine, object: u16) -> Result<u64, NoMemory>
    requires there { object < length machine.now }
    requires numbered { object < OBJECT_IDS }
    ensures { IfOk result (λ number. number ≡ counter_at machine.now object) }
{
    let parts = List::one(alloc, (ObjectId(object), Ask::Read))?;
    let Ok(read) = Query::new(parts) else {
        unreachable!()
    };
    match &machine.ask(alloc, &read)? {
        Answer::Ok(items) => Ok(number_in(items.as_slice())),
        Answer::Refused { .. } => Ok(0),
    }
}

/// The number that stands first, where one does.
fn number_in(items: &[Item]) -> u64
    ensures { result ≡ number_in items.now }
{
    match items {
        [Item::Number(number), ..] => *number,
        _ => 0,
    }
}
