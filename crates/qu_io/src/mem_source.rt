ghost use Rattle.std.specs.Prelude.{◌≡◌, ◌↔◌, ◌++◌, ◌<◌, false, min, length, take, drop, is_ok, if◌then◌else◌, IsErr, IfOk, OnErr};
ghost use Rattle.qu_io.specs.Streams.{next_count};
ghost use Rattle.qu_io.specs.Reads.{ReadsFrom};
ghost use Rattle.qu_io.specs.InMemory.{known_of, CountsCall, HasToFail};

use super::plan::Plan;
use super::{Failed, Source, SureSource};
use qu_base::List;
use std::marker::Model;

/// Bytes in memory, read in pieces, by calls that fail where its maker says.
#[derive(Drop)]
pub struct MemSource {
    source: SureSource,
    plan: Plan,
}

impl Model for MemSource {
    ghost use Rattle.std.specs.Prelude.{◌<◌, false};
    ghost use Rattle.qu_io.specs.InMemory.{InMemory};

    ghost Value = { InMemory };

    ghost view = { λ memory. record {
      bytes = memory.source;
      largest = memory.plan.largest;
      failing = memory.plan.failing;
      calls = memory.plan.calls;
      faults = memory.plan.faults;
      lacked = false;
    } };

    ghost invariant = { λ memory. 0 < memory.plan.largest };
}

impl MemSource {
    /// `largest` is the most bytes that a read gives, and `failing` has the numbers of the reads
    /// that fail, counted from 1.
    pub fn new(bytes: List<u8>, largest: usize, failing: List<u64>) -> MemSource
        requires { 0 < largest }
        ensures { result ≡ record {
          bytes = bytes;
          largest = largest;
          failing = failing;
          calls = 0;
          faults = 0;
          lacked = false;
        } }
    {
        MemSource {
            source: SureSource::new(bytes),
            plan: Plan::new(largest, failing),
        }
    }

    /// The bytes that are left.
    pub fn left(&self) -> &[u8]
        ensures { result.now ≡ self.now.bytes }
    {
        self.source.left()
    }

    /// How many reads were made, at most 2^64 - 1.
    pub fn calls(&self) -> u64
        ensures { result ≡ self.now.calls }
    {
        self.plan.calls
    }

    /// How many reads failed, at most 2^64 - 1.
    pub fn faults(&self) -> u64
        ensures { result ≡ self.now.faults }
    {
        self.plan.faults
    }
}

impl Source for MemSource {
    ghost known = { known_of };

    /// Gives as many bytes as are left, as the slice has room for, and as a read may give.
    #[tactic(auto, using(crate::proofs::Moves::given_front, crate::proofs::Moves::reads_front, crate::proofs::Moves::reads_fault))]
    fn read(&mut self, into: &mut [u8]) -> Result<usize, Failed>
        requires { 0 < length into.old }
        ensures reads { ReadsFrom (known_of self.old) (known_of self.new) result into.new }

        ensures call { CountsCall self.old self.new }
        ensures faults { self.new.faults ≡
            (if is_ok result then self.old.faults else next_count self.old.faults) }
        ensures fails { IsErr result ↔ HasToFail self.new }

        ensures count { IfOk result (λ count. count ≡
            min (length self.old.bytes) (min (length into.old) self.old.largest)) }
        ensures rest { IfOk result (λ count. self.new.bytes ≡ drop count self.old.bytes) }
        ensures given { IfOk result (λ count.
            into.new ≡ take count self.old.bytes ++ drop count into.old) }
        ensures none_given { OnErr result (into.new ≡ into.old) }
    {
        self.plan.next_call()?;
        let room = into.len().min(self.plan.largest);
        Ok(self.source.give(&mut into[..room]))
    }
}
