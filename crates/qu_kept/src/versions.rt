ghost use Rattle.std.specs.Prelude.{◌≡◌, ◌≢◌, [], ◌∷◌, length, map, IfOk};
ghost use Rattle.qu_objects.specs.Performing.{performed_answer, performed_values};
ghost use Rattle.qu_base.specs.declared.party.ClientId.{ClientId as Client};
ghost use Rattle.qu_objects.specs.Digesting.{act_digest};
ghost use Rattle.qu_kept.specs.declared.repeats.Standing.TheVariants.{Already};
ghost use Rattle.qu_kept.specs.Rows.{row_of, with_row};
ghost use Rattle.qu_kept.specs.Standing.{standing_of};
ghost use Rattle.qu_kept.specs.Performing.{values_of, row_for, states_after, performed_states, performed_links};

use crate::links::links_after;
use crate::rows::with_row;
use crate::values::{PerformedValues, perform_on_values};
use qu_base::{ClientId, List, NoMemory, ObjectId};
use qu_objects::{Act, Answer, KeptRow, Method, ObjState, Value, act_digest};
use qu_stamp::Stamp;
use std::alloc::Global;

/// What an act makes of the versions of its objects, and the answer.
#[derive(Drop)]
pub struct Performed {
    pub states: List<ObjState>,
    pub answer: Answer,
}

impl Performed {
    /// Equal states and an equal answer.
    pub fn copy(&self, alloc: Global) -> Result<Performed, NoMemory>
        ensures { IfOk result (λ performed. performed ≡ self.now) }
    {
        Ok(Performed {
            states: ObjState::copy_all(alloc, self.states.as_slice())?,
            answer: self.answer.copy(alloc)?,
        })
    }
}

/// Performs an act of a client, which is its operation with this number, counted from 1, on the versions of the
/// act's objects. Those and the stamps of the new versions are given in the order of the act's parts.
///
/// All values change or none. Each version keeps the act and its answer, and links to the act's other objects, in any
/// case.
#[tactic(auto, using(crate::proofs::PerformedStates::performed_laws))]
pub fn perform(
    alloc: Global,
    states: &[ObjState],
    act: &Act,
    by: ClientId,
    number: u64,
    stamps: &[Stamp],
) -> Result<Performed, NoMemory>
    requires states { length states.now ≡ length act.now }
    requires stamps { length stamps.now ≡ length act.now }
    ensures states { IfOk result (λ performed. performed.states
        ≡ performed_states by number act.now stamps.now states.now) }
    ensures answer { IfOk result (λ performed. performed.answer ≡ performed_answer act.now (values_of states.now)) }
    ensures values { IfOk result (λ performed. values_of performed.states
        ≡ performed_values act.now (values_of states.now)) }
    ensures rows { IfOk result (λ performed. map (λ state. state.kept) performed.states
        ≡ map (λ state. with_row (row_for by number act.now states.now) state.kept) states.now) }
    ensures links { IfOk result (λ performed. map (λ state. state.links) performed.states
        ≡ performed_links act.now stamps.now states.now) }
    ensures others { (other : Client) → other.0 ≢ by.0 → IfOk result (λ performed.
        map (λ state. row_of other state.kept) performed.states ≡ map (λ state. row_of other state.kept) states.now) }
    ensures repeated { IfOk result (λ performed. standing_of by number (act_digest by number act.now) act.now
        performed.states ≡ Already performed.answer) }
{
    let values = values_of(alloc, states)?;
    let PerformedValues { values, answer } = perform_on_values(alloc, values.as_slice(), act)?;
    let row = KeptRow {
        client: by,
        number,
        act: act_digest(alloc, by, number, act)?,
        answer: answer.copy(alloc)?,
    };
    let states = states_after(alloc, &row, act.parts().as_slice(), stamps, values, states)?;
    Ok(Performed { states, answer })
}

/// Their values.
fn values_of(alloc: Global, states: &[ObjState]) -> Result<List<Value>, NoMemory>
    ensures { IfOk result (λ values. values ≡ values_of states.now) }
{
    let mut values = List::new(alloc);
    for state in states {
        values.push(state.value.copy(alloc)?)?;
    }
    Ok(values)
}

/// The versions after an act with these parts, by the row that each keeps of it and the values that it leaves.
fn states_after(
    alloc: Global,
    row: &KeptRow,
    parts: &[(ObjectId, Method)],
    stamps: &[Stamp],
    values: List<Value>,
    states: &[ObjState],
) -> Result<List<ObjState>, NoMemory>
    ensures { IfOk result (λ new. new ≡ states_after row.now parts.now stamps.now values states.now) }
{
    let mut new = List::new(alloc);
    let changed = values.into_vec().into_iter().zip(states);
    for ((object, _), (stamp, (value, state))) in parts.iter().zip(stamps.iter().zip(changed)) {
        let kept = with_row(alloc, state.kept.as_slice(), row.copy(alloc)?)?;
        let links = links_after(alloc, state.links.as_slice(), *object, *stamp, parts)?;
        new.push(ObjState { value, kept, links })?;
    }
    Ok(new)
}
