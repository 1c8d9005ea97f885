ghost use Rattle.std.specs.Prelude.{◌≡◌, None, Some};

use super::PlanFail;

/// More of the object has to be known.
pub const NEEDS: u8 = 15;

/// The object has a later version that was made together with one of the target.
pub const STALE: u8 = 16;

impl PlanFail {
    ghost use Rattle.qu_plan.specs.RefusalNumber.{plan_fail_number};

    /// The number by which a text names the refusal; want of memory has none.
    pub fn number(&self) -> Option<u8>
        ensures { result ≡ plan_fail_number self.now }
    {
        match self {
            PlanFail::Needs(_) => Some(NEEDS),
            PlanFail::Stale(_) => Some(STALE),
            PlanFail::NoMemory => None,
        }
    }
}

/// The numbers of the refusals.
pub fn refusal_numbers_are_these()
    ensures needs { NEEDS ≡ 15 }
    ensures stale { STALE ≡ 16 }
{}
