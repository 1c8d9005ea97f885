ghost use Rattle.std.specs.Prelude.{◌≡◌, length, IfOk};
ghost use Rattle.qu_objects.specs.Performing.{performed_answer, performed_values, told_answer};

use qu_base::{Applied, List, NoMemory, Told};
use qu_objects::{Act, Answer, Query, Value};
use std::alloc::Global;

/// What an act makes of the values of its objects: each of them changed or none, and the answer.
#[derive(Drop)]
pub struct PerformedValues {
    pub values: List<Value>,
    pub answer: Answer,
}

impl PerformedValues {
    /// Equal values and an equal answer.
    pub fn copy(&self, alloc: Global) -> Result<PerformedValues, NoMemory>
        ensures { IfOk result (λ performed. performed ≡ self.now) }
    {
        Ok(PerformedValues {
            values: Value::copy_all(alloc, self.values.as_slice())?,
            answer: self.answer.copy(alloc)?,
        })
    }
}

/// Performs an act on the values of its objects, given in the order of its parts.
#[tactic(auto, using(qu_objects::proofs::PartLaws::few_parts))]
pub fn perform_on_values(
    alloc: Global,
    values: &[Value],
    act: &Act,
) -> Result<PerformedValues, NoMemory>
    requires { length values.now ≡ length act.now }
    ensures values { IfOk result (λ performed. performed.values ≡ performed_values act.now values.now) }
    ensures answer { IfOk result (λ performed. performed.answer ≡ performed_answer act.now values.now) }
{
    let mut changed = List::new(alloc);
    let mut items = List::new(alloc);
    for (at, (_, method)) in act.parts().as_slice().iter().enumerate() {
        match values[at].apply(alloc, method)? {
            Applied::Changed(value, item) => {
                changed.push(value)?;
                items.push(item)?;
            }
            Applied::Refused(why) => {
                return Ok(PerformedValues {
                    values: Value::copy_all(alloc, values)?,
                    answer: Answer::Refused { at: at as u8, why },
                });
            }
        }
    }
    Ok(PerformedValues {
        values: changed,
        answer: Answer::Ok(items),
    })
}

/// Answers a query from the values of its objects, given in the order of its parts.
#[tactic(auto, using(qu_objects::proofs::PartLaws::few_parts))]
pub fn tell_all(alloc: Global, values: &[Value], query: &Query) -> Result<Answer, NoMemory>
    requires { length values.now ≡ length query.now }
    ensures { IfOk result (λ answer. answer ≡ told_answer query.now values.now) }
{
    let mut items = List::new(alloc);
    for (at, (_, ask)) in query.parts().as_slice().iter().enumerate() {
        match values[at].tell(alloc, ask)? {
            Told::Item(item) => items.push(item)?,
            Told::Refused(why) => return Ok(Answer::Refused { at: at as u8, why }),
        }
    }
    Ok(Answer::Ok(items))
}
