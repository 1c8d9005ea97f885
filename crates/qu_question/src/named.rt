ghost use Rattle.std.specs.Prelude.{◌≡◌, IfOk, IsTrue, filter, map, nat_lt};
ghost use Rattle.qu_question.specs.Named.{operation_objects, are_objects, among, with_named};

use qu_base::{List, NoMemory, OBJECT_IDS, ObjectId};
use qu_history::OBJECTS_LIMIT;
use qu_objects::Op;
use std::alloc::Global;
use std::marker::Model;

/// One to eight objects in rising order: those that are named in an operation.
pub struct Named {
    objects: List<ObjectId>,
}

/// By hand, so that a value is let go in one step wherever that is.
impl Drop for Named {
    fn drop(self) {
        let Named { objects: _ } = self;
    }
}

impl Model for Named {
    ghost use Rattle.std.specs.Prelude.{List, IsTrue};
    ghost use Rattle.qu_base.specs.declared.party.ObjectId.{ObjectId};
    ghost use Rattle.qu_question.specs.Named.{are_objects};

    ghost Value = { List ObjectId };

    ghost view = { λ named. named.objects };

    ghost invariant = { λ named. IsTrue (are_objects named.objects) };
}

impl Named {
    /// The objects of an operation.
    pub fn of(alloc: Global, op: &Op) -> Result<Named, NoMemory>
        ensures { IfOk result (λ named. named ≡ operation_objects op.now) }
    {
        let objects = operation_objects(alloc, op)?;
        Ok(Named { objects })
    }

    /// In rising order.
    pub fn objects(&self) -> &[ObjectId]
        ensures value { result.now ≡ self.now }
        ensures in_order { IsTrue (are_objects result.now) }
    {
        self.objects.as_slice()
    }

    /// A copy of these objects.
    pub fn copy(&self, alloc: Global) -> Result<Named, NoMemory>
        ensures { IfOk result (λ named. named ≡ self.now) }
    {
        Ok(Named {
            objects: self.objects.copy(alloc)?,
        })
    }

    /// These objects and this one, while fewer than eight are named.
    #[tactic(auto, unfolding(crate::specs::Named::with_named), using(crate::proofs::Naming::among_are))]
    pub fn with(&self, alloc: Global, object: ObjectId) -> Result<Named, NoMemory>
        ensures { IfOk result (λ named. named ≡ with_named object self.now) }
    {
        if object.0 < OBJECT_IDS && self.objects.len() < OBJECTS_LIMIT {
            let objects = among(alloc, object, self.objects.as_slice())?;
            Ok(Named { objects })
        } else {
            self.copy(alloc)
        }
    }
}

/// The objects that an operation is on, in rising order.
#[tactic(auto, using(crate::proofs::Gathered::are_objects_of_parts))]
pub fn operation_objects(alloc: Global, op: &Op) -> Result<List<ObjectId>, NoMemory>
    ensures value { IfOk result (λ objects. objects ≡ operation_objects op.now) }
    ensures in_order { IfOk result (λ objects. IsTrue (are_objects objects)) }
{
    match op {
        Op::Act(act) => objects_in(alloc, act.parts().as_slice()),
        Op::Query(query) => objects_in(alloc, query.parts().as_slice()),
    }
}

/// The objects of these parts.
fn objects_in<T>(alloc: Global, parts: &[(ObjectId, T)]) -> Result<List<ObjectId>, NoMemory>
    ensures { IfOk result (λ objects. objects ≡ map (λ part. part.0) parts.now) }
{
    let mut objects = List::new(alloc);
    for part in parts {
        objects.push(part.0)?;
    }
    Ok(objects)
}

/// The object among others that rise.
#[tactic(auto, unfolding(crate::specs::Named::among))]
fn among(alloc: Global, object: ObjectId, others: &[ObjectId]) -> Result<List<ObjectId>, NoMemory>
    ensures { IfOk result (λ objects. objects ≡ among object others.now) }
{
    let mut objects = below(alloc, object, others)?;
    objects.push(object)?;
    for other in others {
        if object.0 < other.0 {
            objects.push(*other)?;
        }
    }
    Ok(objects)
}

/// Those of the others that are below the object.
fn below(alloc: Global, object: ObjectId, others: &[ObjectId]) -> Result<List<ObjectId>, NoMemory>
    ensures { IfOk result (λ objects. objects ≡ filter (λ other. nat_lt other.0 object.0) others.now) }
{
    let mut objects = List::new(alloc);
    for other in others {
        if other.0 < object.0 {
            objects.push(*other)?;
        }
    }
    Ok(objects)
}
