ghost use Rattle.std.specs.Prelude.{◌≡◌, ◌++◌, IfOk, OnOk};
ghost use Rattle.qu_language.specs.Called.{call_of, calls_said};

use qu_base::{ClientId, List, NoMemory, Party, ReplicaId};
use qu_objects::Op;
use qu_trace::Setup;
use std::alloc::Global;

/// What a made reply shows, and its verdict.
#[derive(Clone, Copy, PartialEq, Eq)]
pub enum How {
    /// The histories that this correct replica has now.
    Show(ReplicaId),
    /// What the last reply of this correct replica to the client said.
    Echo(ReplicaId),
    /// Histories with a candidate of the greatest time.
    Far,
}

/// What a line of a script says.
pub enum Line {
    /// A client begins an operation.
    Call(ClientId, Op),
    /// These letters are delivered, in this order.
    Deliver(List<u64>),
    /// The lowest letter to a correct party that was neither delivered nor lost, and that no held replica
    /// keeps back, is delivered, again and again: so many times at most, or until there is none.
    Flow(Option<u64>),
    /// From now on no flow takes a letter that one of these replicas sent or is to get.
    Hold(List<ReplicaId>),
    /// These replicas are held no longer.
    Free(List<ReplicaId>),
    /// The letters that were sent so far and not delivered are lost: no flow takes them any more.
    Lose,
    /// Time passes at a client, so many ticks of its clock.
    Tick(ClientId, u64),
    /// Time passes at a client as long as it rests.
    Wake(ClientId),
    /// These bytes reach a party.
    Inject(Party, List<u8>),
    /// A reply reaches the client as the replica's, whose HMACs for these replicas are right: for
    /// all of them where none are listed.
    Fake(ReplicaId, ClientId, How, Option<List<ReplicaId>>),
}

/// By hand, so that a value is let go in one step wherever that is.
impl Drop for Line {
    fn drop(self) {
        match self {
            Line::Call(_, _)
            | Line::Deliver(_)
            | Line::Flow(_)
            | Line::Hold(_)
            | Line::Free(_)
            | Line::Lose
            | Line::Tick(_, _)
            | Line::Wake(_)
            | Line::Inject(_, _)
            | Line::Fake(_, _, _, _) => {}
        }
    }
}

impl Line {
    /// An equal line.
    pub fn copy(&self, alloc: Global) -> Result<Line, NoMemory>
        ensures { IfOk result (λ line. line ≡ self.now) }
    {
        Ok(match self {
            Line::Call(client, op) => Line::Call(*client, op.copy(alloc)?),
            Line::Deliver(letters) => Line::Deliver(letters.copy(alloc)?),
            Line::Flow(most) => Line::Flow(*most),
            Line::Hold(replicas) => Line::Hold(replicas.copy(alloc)?),
            Line::Free(replicas) => Line::Free(replicas.copy(alloc)?),
            Line::Lose => Line::Lose,
            Line::Tick(client, count) => Line::Tick(*client, *count),
            Line::Wake(client) => Line::Wake(*client),
            Line::Inject(party, text) => Line::Inject(*party, text.copy(alloc)?),
            Line::Fake(replica, client, how, Some(good)) => {
                Line::Fake(*replica, *client, *how, Some(good.copy(alloc)?))
            }
            Line::Fake(replica, client, how, None) => Line::Fake(*replica, *client, *how, None),
        })
    }
}

/// A script: who takes part, and the lines behind the setup with their numbers.
pub struct Script {
    pub setup: Setup,
    pub lines: List<(u64, Line)>,
}

/// By hand, so that a value is let go in one step wherever that is.
impl Drop for Script {
    fn drop(self) {
        let Script { setup: _, lines: _ } = self;
    }
}

impl Script {
    /// The calls of its lines, in their order.
    #[tactic(auto, using(crate::proofs::CallFacts::calls_more))]
    pub fn calls(&self, alloc: Global) -> Result<List<(ClientId, Op)>, NoMemory>
        ensures { IfOk result (λ calls. calls ≡ calls_said self.now.lines) }
    {
        let mut calls = List::new(alloc);
        for numbered in self.lines.as_slice() {
            push_call(alloc, &mut calls, &numbered.1)?;
        }
        Ok(calls)
    }

    /// An equal script.
    pub fn copy(&self, alloc: Global) -> Result<Script, NoMemory>
        ensures { IfOk result (λ script. script ≡ self.now) }
    {
        let mut lines = List::new(alloc);
        for numbered in self.lines.as_slice() {
            lines.push((numbered.0, numbered.1.copy(alloc)?))?;
        }
        Ok(Script {
            setup: self.setup.copy(alloc)?,
            lines,
        })
    }
}

/// Puts the call of a line behind others, where it is one.
fn push_call(alloc: Global, calls: &mut List<(ClientId, Op)>, line: &Line) -> Result<(), NoMemory>
    ensures { OnOk result (calls.new ≡ calls.old ++ call_of line.now) }
{
    match line {
        Line::Call(client, op) => calls.push((*client, op.copy(alloc)?)),
        Line::Deliver(_)
        | Line::Flow(_)
        | Line::Hold(_)
        | Line::Free(_)
        | Line::Lose
        | Line::Tick(_, _)
        | Line::Wake(_)
        | Line::Inject(_, _)
        | Line::Fake(_, _, _, _) => Ok(()),
    }
}
