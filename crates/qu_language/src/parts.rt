//! The parts of an operation that were read so far.
ghost use Rattle.std.specs.Prelude.{◌≡◌, ◌<◌, ◌+◌, ℕ, IfOk, IsTrue};
ghost use Rattle.qu_base.specs.declared.limits.TheConstants.{OBJECT_IDS};
ghost use Rattle.qu_objects.specs.declared.limits.TheConstants.{MOST_PARTS};
ghost use Rattle.qu_language.specs.Parts.{no_parts, may_precede, are_all_below, are_below, is_sized_part, with_part, op_of, AreBuilt};

use super::{Part, Verb};
use qu_base::{List, NoMemory, ObjectId};
use qu_objects::{Act, Ask, Method, Op, Query};
use std::alloc::Global;

/// The parts of an operation that were read so far: updates alone, or queries alone.
#[derive(Drop)]
pub struct Parts {
    pub updates: List<(ObjectId, Method)>,
    pub queries: List<(ObjectId, Ask)>,
}

impl Parts {
    /// No part.
    pub fn none(alloc: Global) -> Parts
        ensures value { result ≡ no_parts }
        ensures built { AreBuilt 0 0 result }
    {
        Parts {
            updates: List::new(alloc),
            queries: List::new(alloc),
        }
    }

    /// Whether a part with this verb may stand behind them: an update behind updates, a query behind queries.
    pub fn may_precede(&self, verb: Verb) -> bool
        ensures { result ≡ may_precede self.now verb }
    {
        if verb.is_of_query() {
            self.updates.is_empty()
        } else {
            self.queries.is_empty()
        }
    }

    /// Whether their objects are all below this one.
    pub fn are_below(&self, object: ObjectId) -> bool
        ensures { result ≡ are_below object self.now }
    {
        are_below(object, self.updates.as_slice()) && are_below(object, self.queries.as_slice())
    }

    /// These parts and one more.
    #[tactic(auto, using(crate::proofs::PartFacts::built_facts))]
    pub fn with(self, object: ObjectId, part: Part) -> Result<Parts, NoMemory>
        ensures value { IfOk result (λ parts. parts ≡ with_part self object part) }
        ensures built { (least most : ℕ) → AreBuilt least most self → object.0 < OBJECT_IDS
            → IsTrue (are_below object self) → IsTrue (is_sized_part part)
            → IfOk result (λ parts. AreBuilt (least + 1) (most + 1) parts) }
    {
        let mut parts = self;
        match part {
            Part::Does(method) => parts.updates.push((object, method))?,
            Part::Asks(ask) => parts.queries.push((object, ask))?,
        }
        Ok(parts)
    }

    /// The operation that has these parts.
    #[tactic(auto, using(crate::proofs::PartFacts::op_facts))]
    pub fn operation(self) -> Op
        requires { AreBuilt 1 MOST_PARTS self }
        ensures { result ≡ op_of self }
    {
        if self.queries.is_empty() {
            match Act::new(self.updates) {
                Ok(act) => Op::Act(act),
                Err(_) => unreachable!(),
            }
        } else {
            match Query::new(self.queries) {
                Ok(query) => Op::Query(query),
                Err(_) => unreachable!(),
            }
        }
    }
}

/// Whether the objects of these parts are all below this one.
fn are_below<X>(object: ObjectId, parts: &[(ObjectId, X)]) -> bool
    ensures { result ≡ are_all_below object parts.now }
{
    parts.iter().all(|(other, _)| other.0 < object.0)
}
