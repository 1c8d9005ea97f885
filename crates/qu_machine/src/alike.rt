ghost use Rattle.std.specs.Prelude.{◌≡◌};
ghost use Rattle.qu_machine.specs.PointTests.{same_op};
ghost use Rattle.qu_objects.specs.Alike.{same_answer};

use qu_objects::{Answer, Op};

/// Whether two operations are equal.
pub fn same_op(first: &Op, second: &Op) -> bool
    ensures { result ≡ same_op first.now second.now }
{
    match (first, second) {
        (Op::Act(first), Op::Act(second)) => first.parts() == second.parts(),
        (Op::Query(first), Op::Query(second)) => first.parts() == second.parts(),
        (Op::Act(_), Op::Query(_)) | (Op::Query(_), Op::Act(_)) => false,
    }
}

/// Whether two answers are equal.
pub fn same_answer(first: &Answer, second: &Answer) -> bool
    ensures { result ≡ same_answer first.now second.now }
{
    first == second
}
