ghost use Rattle.std.specs.Prelude.{◌≡◌};
ghost use Rattle.qu_machine.specs.declared.fault.JudgeFault.TheVariants as faults;

use qu_base::NoMemory;

/// Why a list of points is no serial order of a list of operations.
///
/// `at` is a place in the order and `op` one in the list of operations, both counted from 0.
#[derive(Clone, Copy, Debug, PartialEq, Eq)]
pub enum JudgeFault {
    /// The machine answers the completed operation of this point otherwise than it was answered.
    Differs { at: u64 },
    /// This point is not between the invocation and the reply of its operation, or it is the point
    /// of no operation, or it is a query of a faulty client.
    Outside { at: u64 },
    /// The operation of this point stands at an earlier place too.
    Twice { at: u64 },
    /// This completed operation stands nowhere.
    Absent { op: u64 },
    NoMemory,
}

impl From<NoMemory> for JudgeFault {
    ghost from_gives = { λ _ outcome. outcome ≡ faults.NoMemory };

    fn from(_error: NoMemory) -> JudgeFault {
        JudgeFault::NoMemory
    }
}
