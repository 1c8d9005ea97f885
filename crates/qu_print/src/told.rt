ghost use Rattle.std.specs.Prelude.{◌≡◌};
ghost use Rattle.qu_print.specs.Report.{told_order};

use qu_machine::Point;
use qu_trace::Premises;

/// The points that are told: none where the premises of their order do not hold.
pub fn told_order<'a>(premises: &Premises, order: &'a [Point]) -> &'a [Point]
    ensures { result.now ≡ told_order premises.now order.now }
{
    match premises {
        Premises::Hold => order,
        Premises::Forged { .. } | Premises::Collide { .. } => &[],
    }
}
