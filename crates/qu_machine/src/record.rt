ghost use Rattle.std.specs.Prelude.{◌≡◌, IfOk};

use qu_base::{ClientId, NoMemory};
use qu_objects::{Op, Outcome};
use std::alloc::Global;

/// An operation of a client, as a run shows it.
pub struct OpRecord {
    pub client: ClientId,
    /// Its number among the operations of its client, from 1 on.
    pub number: u64,
    pub op: Op,
    /// The event at which it began.
    pub invoked: u64,
    /// The event at which it ended, and how; None where it is open.
    pub reply: Option<(u64, Outcome)>,
}

/// By hand, so that a value is let go in one step wherever that is.
impl Drop for OpRecord {
    fn drop(self) {
        let OpRecord {
            client: _,
            number: _,
            op: _,
            invoked: _,
            reply: _,
        } = self;
    }
}

impl OpRecord {
    /// An equal record.
    pub fn copy(&self, alloc: Global) -> Result<OpRecord, NoMemory>
        ensures { IfOk result (λ operation. operation ≡ self.now) }
    {
        let reply = match &self.reply {
            Some((event, outcome)) => Some((*event, outcome.copy(alloc)?)),
            None => None,
        };
        Ok(OpRecord {
            client: self.client,
            number: self.number,
            op: self.op.copy(alloc)?,
            invoked: self.invoked,
            reply,
        })
    }
}

/// The point at which an operation took effect.
#[derive(Drop)]
pub struct Point {
    pub event: u64,
    pub client: ClientId,
    pub number: u64,
    pub op: Op,
    /// Whether its client is a faulty one.
    pub faulty: bool,
}

impl Point {
    /// An equal point.
    pub fn copy(&self, alloc: Global) -> Result<Point, NoMemory>
        ensures { IfOk result (λ point. point ≡ self.now) }
    {
        Ok(Point {
            event: self.event,
            client: self.client,
            number: self.number,
            op: self.op.copy(alloc)?,
            faulty: self.faulty,
        })
    }
}
