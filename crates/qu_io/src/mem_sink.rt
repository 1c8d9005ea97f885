ghost use Rattle.std.specs.Prelude.{◌≡◌, ◌↔◌, ◌++◌, [], false, min, length, take, is_ok, if◌then◌else◌, IsErr, IfOk, OnErr};
ghost use Rattle.qu_io.specs.Streams.{next_count};
ghost use Rattle.qu_io.specs.Writes.{WritesTo};
ghost use Rattle.qu_io.specs.InMemory.{known_of, CountsCall, FailsWriting};

use super::plan::Plan;
use super::{Failed, Sink};
use qu_base::List;
use std::alloc::Global;
use std::marker::Model;

/// A sink that keeps the bytes in memory, whose calls fail where its maker says.
///
/// Where no memory is left for the bytes, that is a fault of the sink too.
#[derive(Drop)]
pub struct MemSink {
    taken: Vec<u8>,
    plan: Plan,
    /// Whether the write that was made last found no memory for its bytes.
    lacked: bool,
}

impl Model for MemSink {
    ghost use Rattle.qu_io.specs.InMemory.{InMemory};

    ghost Value = { InMemory };

    ghost view = { λ memory. record {
      bytes = memory.taken.items;
      largest = memory.plan.largest;
      failing = memory.plan.failing;
      calls = memory.plan.calls;
      faults = memory.plan.faults;
      lacked = memory.lacked;
    } };
}

impl MemSink {
    /// `largest` is the most bytes that a write takes, and `failing` has the numbers of the writes
    /// that fail, counted from 1. Where `largest` is 0, each write of a byte fails.
    pub fn new(alloc: Global, largest: usize, failing: List<u64>) -> MemSink
        ensures { result ≡ record {
          bytes = [];
          largest = largest;
          failing = failing;
          calls = 0;
          faults = 0;
          lacked = false;
        } }
    {
        MemSink {
            taken: Vec::new(alloc),
            plan: Plan::new(largest, failing),
            lacked: false,
        }
    }

    /// The bytes that it took, in order.
    pub fn taken(&self) -> &[u8]
        ensures { result.now ≡ self.now.bytes }
    {
        self.taken.as_slice()
    }

    /// How many writes were made, at most 2^64 - 1.
    pub fn calls(&self) -> u64
        ensures { result ≡ self.now.calls }
    {
        self.plan.calls
    }

    /// How many writes failed, at most 2^64 - 1.
    pub fn faults(&self) -> u64
        ensures { result ≡ self.now.faults }
    {
        self.plan.faults
    }

    /// Whether the write that was made last found no memory for its bytes.
    pub fn lacked(&self) -> bool
        ensures { result ≡ self.now.lacked }
    {
        self.lacked
    }
}

impl Sink for MemSink {
    ghost known = { known_of };

    /// Takes the piece up to the most that a write may take.
    #[tactic(auto, using(crate::proofs::Moves::writes_fault))]
    fn write(&mut self, piece: &[u8]) -> Result<usize, Failed>
        ensures writes { WritesTo (known_of self.old) (known_of self.new) result piece.now }

        ensures call { CountsCall self.old self.new }
        ensures faults { self.new.faults ≡
            (if is_ok result then self.old.faults else next_count self.old.faults) }
        ensures fails { IsErr result ↔ FailsWriting self.new (length piece.now) }

        ensures count { IfOk result (λ count. count ≡ min (length piece.now) self.old.largest) }
        ensures taken { IfOk result (λ count. self.new.bytes ≡ self.old.bytes ++ take count piece.now) }
        ensures kept { OnErr result (self.new.bytes ≡ self.old.bytes) }
    {
        self.lacked = false;
        self.plan.next_call()?;
        let count = piece.len().min(self.plan.largest);
        if count == 0 && !piece.is_empty() {
            return Err(self.plan.fault());
        }
        match self.taken.extend_from_slice(&piece[..count]) {
            Ok(()) => Ok(count),
            Err(_) => {
                self.lacked = true;
                Err(self.plan.fault())
            }
        }
    }
}
