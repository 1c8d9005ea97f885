ghost use Rattle.std.specs.Prelude.{◌≡◌, ◌<◌, length, map, slice_set, IfOk, OnOk, OnErr, All};
ghost use Rattle.qu_objects.specs.Kind.{fresh_value};
ghost use Rattle.qu_machine.specs.Machine.{values_at, with_values, act_answer, act_values, query_answer};

use qu_base::{List, NoMemory, ObjectId};
use qu_kept::{PerformedValues, perform_on_values, tell_all};
use qu_objects::{Act, Answer, KindName, Query, Value};
use std::alloc::Global;
use std::marker::Model;

/// Plain values, on which operations are run whole and one after another.
pub struct Machine {
    values: Vec<Value>,
}

/// By hand, so that a value is let go in one step wherever that is.
impl Drop for Machine {
    fn drop(self) {
        let Machine { values: _ } = self;
    }
}

impl Model for Machine {
    ghost use Rattle.std.specs.Prelude.{List};
    ghost use Rattle.qu_objects.specs.declared.kind.Value.{Value as ObjectValue};

    ghost Value = { List ObjectValue };

    ghost view = { λ machine. machine.values.items };
}

impl Machine {
    /// A machine with an object of each kind, numbered from 0, all of them fresh.
    pub fn fresh(alloc: Global, kinds: &[KindName]) -> Result<Machine, NoMemory>
        ensures { IfOk result (λ machine. machine ≡ map fresh_value kinds.now) }
    {
        let mut values = Vec::new(alloc);
        for kind in kinds {
            values.push(Value::fresh(alloc, *kind)?)?;
        }
        Ok(Machine { values })
    }

    /// Runs an act as one step. Without memory the machine stays as it is.
    pub fn run(&mut self, alloc: Global, act: &Act) -> Result<Answer, NoMemory>
        requires { All (λ part. (part.0).0 < length self.old) act.now }
        ensures answer { IfOk result (λ answer. answer ≡ act_answer self.old act.now) }
        ensures values { OnOk result (self.new ≡ act_values self.old act.now) }
        ensures err { OnErr result (self.new ≡ self.old) }
    {
        let before = values_at(alloc, self.values.as_slice(), act.parts().as_slice())?;
        let PerformedValues { values, answer } = perform_on_values(alloc, before.as_slice(), act)?;
        put_values(self.values.as_mut_slice(), act.parts().as_slice(), values);
        Ok(answer)
    }

    /// Answers a query.
    pub fn ask(&self, alloc: Global, query: &Query) -> Result<Answer, NoMemory>
        requires { All (λ part. (part.0).0 < length self.now) query.now }
        ensures { IfOk result (λ answer. answer ≡ query_answer self.now query.now) }
    {
        let values = values_at(alloc, self.values.as_slice(), query.parts().as_slice())?;
        tell_all(alloc, values.as_slice(), query)
    }
}

/// The values of the objects that an operation names, in the order of its parts.
fn values_at<X>(
    alloc: Global,
    values: &[Value],
    parts: &[(ObjectId, X)],
) -> Result<List<Value>, NoMemory>
    requires { All (λ part. (part.0).0 < length values.now) parts.now }
    ensures values { IfOk result (λ named. named ≡ values_at values.now parts.now) }
    ensures one_each { IfOk result (λ named. length named ≡ length parts.now) }
{
    let mut named = List::new(alloc);
    for (object, _) in parts {
        named.push(values[usize::from(object.0)].copy(alloc)?)?;
    }
    Ok(named)
}

/// Puts values, given in the order of the parts, in the places of the objects that an operation names.
fn put_values<X>(values: &mut [Value], parts: &[(ObjectId, X)], made: List<Value>)
    requires { All (λ part. (part.0).0 < length values.old) parts.now }
    ensures { values.new ≡ with_values values.old parts.now made }
{
    for ((object, _), value) in parts.iter().zip(made.into_vec()) {
        put_value(values, *object, value);
    }
}

/// Puts a value in the place of an object.
fn put_value(values: &mut [Value], object: ObjectId, value: Value)
    requires { object.0 < length values.old }
    ensures { values.new ≡ slice_set values.old object.0 value }
{
    values[usize::from(object.0)] = value;
}
