//! The updates that replicas handled, which have points besides the queries of correct clients.
ghost use Rattle.std.specs.Prelude.{◌≡◌, ◌<◌, ◌^◌, IsTrue, ◌++◌, All, OnOk};
ghost use Rattle.std.specs.List.{AllPairs};
ghost use Rattle.qu_objects.specs.Digesting.{PartsFit};
ghost use Rattle.qu_objects.specs.Parts.{is_sized_method, are_sized};
ghost use Rattle.qu_points.specs.Points.{NumbersFit, ActFits, AreDistinct, AddsActs, is_query, new_act};

use super::acts::is_handled;
use qu_base::{ClientId, List, NoMemory, ObjectId};
use qu_machine::OpRecord;
use qu_objects::{Act, Method, Op};
use std::alloc::Global;

/// Adds these acts to the queries, each once. They stand there as operations that began before the first event and did
/// not end.
pub fn add_acts(
    alloc: Global,
    acts: &[(ClientId, u64, Act)],
    operations: &mut List<OpRecord>,
) -> Result<(), NoMemory>
    requires distinct { AllPairs AreDistinct operations.old }
    requires queries { All (λ operation. IsTrue (is_query operation)) operations.old }
    ensures { OnOk result (AddsActs acts.now operations.old operations.new) }
{
    acts_fit(acts);
    for index in 0..acts.len() {
        add_new_act(alloc, &acts[..index], &acts[index], operations)?;
    }
    Ok(())
}

/// Adds an act that is none of the earlier ones.
fn add_new_act(
    alloc: Global,
    earlier: &[(ClientId, u64, Act)],
    named: &(ClientId, u64, Act),
    operations: &mut List<OpRecord>,
) -> Result<(), NoMemory>
    ensures { OnOk result (operations.new ≡ operations.old ++ new_act earlier.now named.now) }
{
    let (client, number, act) = named;
    if is_handled(earlier, *client, *number, act) {
        return Ok(());
    }
    operations.push(OpRecord {
        client: *client,
        number: *number,
        op: Op::Act(act.copy(alloc)?),
        invoked: 0,
        reply: None,
    })
}

/// The numbers of acts fit their bytes, and no part carries more than it may. Types keep this; here it is told of a
/// whole list, and nothing is computed.
fn acts_fit(acts: &[(ClientId, u64, Act)])
    ensures { All ActFits acts.now }
{
    for (_, _, act) in acts {
        parts_fit(act.parts().as_slice());
    }
}

/// The parts of an act fit: their numbers fit their bytes, as types keep it, and none carries more than it may. Nothing
/// is computed.
pub fn parts_fit(parts: &[(ObjectId, Method)])
    requires { IsTrue (are_sized is_sized_method parts.now) }
    ensures { PartsFit parts.now }
{
    for (_, method) in parts {
        numbers_fit(method);
    }
}

/// The numbers of a method fit their bytes.
fn numbers_fit(method: &Method)
    ensures { NumbersFit method.now }
{
    match method {
        Method::Add(number) | Method::Take(number) | Method::Link(_, number) => number_fits(
            *number,
        ),
        Method::Put(_) | Method::Append(_) | Method::Unlink(_) => {}
    }
}

fn number_fits(number: u64)
    ensures { number < 2 ^ 64 }
{}
