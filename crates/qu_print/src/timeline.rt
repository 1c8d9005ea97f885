ghost use Rattle.std.specs.Prelude.{◌≡◌, [], ◌∷◌, ◌++◌, OnOk, string_bytes};
ghost use Rattle.qu_print.specs.Lines.{lines_text};
ghost use Rattle.qu_print.specs.Timeline.{timeline, event_lines, call_lines, point_line, point_lines, end_lines};

use super::words::{put_answer, put_op};
use qu_base::{ClientId, NoMemory};
use qu_machine::Point;
use qu_objects::Outcome;
use qu_trace::{Entry, Event, begun};

/// Writes the lines of all events.
#[tactic(auto, unfolding(crate::specs::Lines::lines_text, crate::specs::Timeline::timeline))]
pub fn put_timeline(text: &mut String, entries: &[Entry], order: &[Point]) -> Result<(), NoMemory>
    ensures { OnOk result (string_bytes text.new
        ≡ string_bytes text.old ++ lines_text (timeline entries.now order.now)) }
{
    for (index, entry) in entries.iter().enumerate() {
        put_event(text, order, &entries[..index], entry)?;
    }
    Ok(())
}

/// Writes the lines of the event behind the earlier ones.
#[tactic(auto, unfolding(crate::specs::Lines::lines_text, crate::specs::Timeline::event_lines))]
fn put_event(
    text: &mut String,
    order: &[Point],
    earlier: &[Entry],
    entry: &Entry,
) -> Result<(), NoMemory>
    ensures { OnOk result (string_bytes text.new
        ≡ string_bytes text.old ++ lines_text (event_lines order.now earlier.now entry.now)) }
{
    put_call(text, earlier, &entry.event)?;
    put_points(text, earlier.len() as u64 + 1, order)?;
    put_end(text, &entry.ended)
}

#[tactic(auto, unfolding(crate::specs::Lines::lines_text))]
fn put_call(text: &mut String, earlier: &[Entry], event: &Event) -> Result<(), NoMemory>
    ensures { OnOk result (string_bytes text.new
        ≡ string_bytes text.old ++ lines_text (call_lines earlier.now event.now)) }
{
    if let Event::Invoke(client, op) = event {
        let number = begun(earlier, *client) + 1;
        let client = client.0;
        write!(text, "call {client}.{number} ")?;
        put_op(text, op)?;
        text.push_str("\n")?;
    }
    Ok(())
}

#[tactic(auto, unfolding(crate::specs::Lines::lines_text))]
fn put_points(text: &mut String, event: u64, order: &[Point]) -> Result<(), NoMemory>
    ensures { OnOk result (string_bytes text.new
        ≡ string_bytes text.old ++ lines_text (point_lines event order.now)) }
{
    for point in order {
        if point.event == event {
            put_point(text, point)?;
        }
    }
    Ok(())
}

/// Writes the line of one point. That of a faulty client's update tells the update.
pub fn put_point(text: &mut String, point: &Point) -> Result<(), NoMemory>
    ensures { OnOk result (string_bytes text.new
        ≡ string_bytes text.old ++ point_line point.now ++ 10 ∷ []) }
{
    let (client, number) = (point.client.0, point.number);
    write!(text, "point {client}.{number}")?;
    if point.faulty {
        text.push_str(" faulty ")?;
        put_op(text, &point.op)?;
    }
    text.push_str("\n")?;
    Ok(())
}

#[tactic(auto, unfolding(crate::specs::Lines::lines_text))]
fn put_end(text: &mut String, ended: &Option<(ClientId, u64, Outcome)>) -> Result<(), NoMemory>
    ensures { OnOk result (string_bytes text.new
        ≡ string_bytes text.old ++ lines_text (end_lines ended.now)) }
{
    match ended {
        Some((client, number, Outcome::Done(answer))) => {
            let client = client.0;
            write!(text, "reply {client}.{number} ")?;
            put_answer(text, answer)?;
            text.push_str("\n")?;
        }
        Some((client, number, Outcome::GaveUp)) => {
            let client = client.0;
            writeln!(text, "gaveup {client}.{number}")?;
        }
        None => {}
    }
    Ok(())
}
