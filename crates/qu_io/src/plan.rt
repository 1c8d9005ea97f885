ghost use Rattle.std.specs.Prelude.{◌≡◌, ◌≤◌, ◌↔◌, IsTrue, IsErr, is_ok, if◌then◌else◌, Contains};
ghost use Rattle.qu_io.specs.Streams.{next_count};

use super::Failed;
use qu_base::List;

/// Which calls of an object in memory fail, and how many bytes a call moves at most.
#[derive(Drop)]
pub struct Plan {
    pub largest: usize,
    pub failing: List<u64>,
    pub calls: u64,
    pub faults: u64,
}

impl Plan {
    /// No call was made yet.
    pub fn new(largest: usize, failing: List<u64>) -> Plan
        ensures { result ≡ record { largest = largest; failing = failing; calls = 0; faults = 0 } }
    {
        Plan {
            largest,
            failing,
            calls: 0,
            faults: 0,
        }
    }

    /// Counts a call, and fails where it has to.
    pub fn next_call(&mut self) -> Result<(), Failed>
        ensures fails { IsErr result ↔ Contains self.old.failing (next_count self.old.calls) }
        ensures counted { self.new ≡ record self.old {
          calls = next_count self.old.calls;
          faults = if is_ok result then self.old.faults else next_count self.old.faults;
        } }
        ensures never_falls { self.old.faults ≤ self.new.faults }
    {
        self.calls = self.calls.saturating_add(1);
        if contains(self.failing.as_slice(), self.calls) {
            return Err(self.fault());
        }
        Ok(())
    }

    /// Counts a fault.
    pub fn fault(&mut self) -> Failed
        ensures counted { self.new ≡ record self.old { faults = next_count self.old.faults } }
        ensures never_falls { self.old.faults ≤ self.new.faults }
    {
        self.faults = self.faults.saturating_add(1);
        Failed
    }
}

fn contains(numbers: &[u64], number: u64) -> bool
    ensures { IsTrue result ↔ Contains numbers.now number }
{
    numbers.contains(&number)
}
