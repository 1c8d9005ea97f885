//! The operations that take effect at an event.
ghost use Rattle.std.specs.Prelude.{◌≡◌, ◌++◌, OnOk, string_bytes};
ghost use Rattle.qu_print.specs.Lines.{lines_text};
ghost use Rattle.qu_listed.specs.Events.{points_below};

use qu_base::NoMemory;
use qu_machine::Point;
use qu_print::put_point;

/// Writes a line for each point of this order that the event with this number has.
#[tactic(auto, unfolding(qu_print::specs::Lines::lines_text))]
pub fn put_points(text: &mut String, event: u64, order: &[Point]) -> Result<(), NoMemory>
    ensures { OnOk result (string_bytes text.new
        ≡ string_bytes text.old ++ lines_text (points_below event order.now)) }
{
    for point in order {
        if point.event == event {
            text.push_str("  ")?;
            put_point(text, point)?;
        }
    }
    Ok(())
}
