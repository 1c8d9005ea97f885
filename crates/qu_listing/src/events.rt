ghost use Rattle.std.specs.Prelude.{◌≡◌, ◌∷◌, [], ◌++◌, IfOk, OnOk, string_bytes};
ghost use Rattle.qu_world.specs.Run.{IsSetup};
ghost use Rattle.qu_print.specs.Lines.{lines_text};
ghost use Rattle.qu_listed.specs.Events.{events_text, listing, event_line, front_text, back_text, entry_lines, event_text, outcome_text, end_text};
ghost use Rattle.qu_listing.specs.SoFar.{IsSoFar};

use super::deliveries::{put_delivery, put_injection};
use super::fetching::{put_noted, put_waits};
use super::letters::put_letters;
use super::names::put_party;
use super::offer::Offer;
use super::points::put_points;
use super::receivers::Receivers;
use super::rounds::put_rounds;
use super::so_far::SoFar;
use super::stood::stood_before;
use qu_base::{ClientId, List, NoMemory, Party};
use qu_listed::Stood;
use qu_machine::Point;
use qu_objects::Outcome;
use qu_print::{put_answer, put_op, told_order};
use qu_trace::{Entry, Event, Premises, Trace};
use qu_world::World;
use std::alloc::Global;

/// A line for each event of a run, with the operation that it ends, and below it a line for each operation that takes
/// effect at it, by this order, and for each letter that it sends. A text of which its receiver takes no frame is told
/// as ignored. No point is told where the premises of the order do not hold.
#[tactic(auto, unfolding(qu_listed::specs::Events::events_text))]
pub fn events_text(
    alloc: Global,
    trace: &Trace,
    premises: &Premises,
    order: &[Point],
) -> Result<List<u8>, NoMemory>
    requires { IsSetup trace.now.setup }
    ensures { IfOk result (λ text. text ≡ events_text trace.now premises.now order.now) }
{
    let receivers = Receivers::new(&trace.setup);
    let mut text = String::new(alloc);
    put_events(
        alloc,
        &mut text,
        &receivers,
        told_order(premises, order),
        trace.entries.as_slice(),
    )?;
    Ok(List::from(text.into_bytes()))
}

/// Writes the lines of all events.
#[tactic(auto, unfolding(qu_print::specs::Lines::lines_text, qu_listed::specs::Events::listing))]
fn put_events(
    alloc: Global,
    text: &mut String,
    receivers: &Receivers,
    order: &[Point],
    entries: &[Entry],
) -> Result<(), NoMemory>
    requires { IsSetup receivers.now }
    ensures { OnOk result (string_bytes text.new
        ≡ string_bytes text.old ++ lines_text (listing receivers.now order.now entries.now)) }
{
    let mut known = SoFar::new(alloc, receivers)?;
    for (index, entry) in entries.iter().enumerate() {
        put_event(
            alloc,
            text,
            receivers,
            order,
            &mut known,
            &entries[..index],
            entry,
        )?;
    }
    Ok(())
}

/// Writes the lines of the event behind the earlier ones, and then knows of it too.
#[tactic(auto, unfolding(qu_listed::specs::Events::event_line))]
fn put_event(
    alloc: Global,
    text: &mut String,
    receivers: &Receivers,
    order: &[Point],
    known: &mut SoFar,
    earlier: &[Entry],
    entry: &Entry,
) -> Result<(), NoMemory>
    requires { IsSoFar receivers.now earlier.now known.old }
    ensures text { OnOk result (string_bytes text.new
        ≡ string_bytes text.old ++ lines_text (entry_lines receivers.now order.now earlier.now entry.now)) }
    ensures known { OnOk result (IsSoFar receivers.now (earlier.now ++ entry.now ∷ []) known.new) }
{
    let offered = known.offered(earlier, &entry.event);
    let stood = stood_before(alloc, receivers, &known.world, &offered, &entry.event)?;
    put_front(alloc, text, receivers, known, earlier, entry, &offered)?;
    known.note(alloc, earlier, entry)?;
    put_back(text, &known.world, entry, &stood)?;
    put_points(text, earlier.len() as u64 + 1, order)?;
    put_letters(
        alloc,
        text,
        receivers,
        &mut known.sent,
        entry.letters.as_slice(),
    )?;
    Ok(())
}

/// Writes of an event's line what is told in the world before it.
fn put_front(
    alloc: Global,
    text: &mut String,
    receivers: &Receivers,
    known: &SoFar,
    earlier: &[Entry],
    entry: &Entry,
    offered: &Option<Offer>,
) -> Result<(), NoMemory>
    requires { IsSoFar receivers.now earlier.now known.now }
    ensures { OnOk result (string_bytes text.new ≡ string_bytes text.old
        ++ front_text receivers.now earlier.now known.now.world entry.now offered.now) }
{
    let number = earlier.len() as u64 + 1;
    write!(text, "event {number} ")?;
    put_happened(alloc, text, receivers, known, earlier, &entry.event)?;
    put_noted(alloc, text, receivers, &known.world, offered)?;
    put_waits(alloc, text, entry.letters.as_slice())
}

/// Writes of an event's line what is told in the world behind it, for a client that stood so before.
fn put_back(
    text: &mut String,
    world: &World,
    entry: &Entry,
    stood: &Option<Stood>,
) -> Result<(), NoMemory>
    ensures { OnOk result (string_bytes text.new
        ≡ string_bytes text.old ++ back_text world.now entry.now stood.now ++ 10 ∷ []) }
{
    put_rounds(text, stood, world)?;
    put_end(text, &entry.ended)?;
    text.push_str("\n")?;
    Ok(())
}

/// Writes what happens at an event.
fn put_happened(
    alloc: Global,
    text: &mut String,
    receivers: &Receivers,
    known: &SoFar,
    earlier: &[Entry],
    event: &Event,
) -> Result<(), NoMemory>
    requires { IsSoFar receivers.now earlier.now known.now }
    ensures { OnOk result (string_bytes text.new
        ≡ string_bytes text.old ++ event_text receivers.now earlier.now event.now) }
{
    match event {
        Event::Invoke(client, op) => {
            let (number, client) = (known.calls_of(earlier, *client) + 1, client.0);
            write!(text, "call {client}.{number} ")?;
            put_op(text, op)
        }
        Event::Deliver(number) => put_delivery(text, receivers, known, earlier, *number),
        Event::Tick(client) => {
            text.push_str("tick ")?;
            put_party(text, Party::Client(*client))
        }
        Event::Inject(to, bytes) => put_injection(alloc, text, receivers, *to, bytes.as_slice()),
    }
}

/// Writes which operation ends, and how.
fn put_end(text: &mut String, ended: &Option<(ClientId, u64, Outcome)>) -> Result<(), NoMemory>
    ensures { OnOk result (string_bytes text.new ≡ string_bytes text.old ++ end_text ended.now) }
{
    let Some((client, number, outcome)) = ended else {
        return Ok(());
    };
    let client = client.0;
    write!(text, ", ends {client}.{number}")?;
    put_outcome(text, outcome)
}

fn put_outcome(text: &mut String, outcome: &Outcome) -> Result<(), NoMemory>
    ensures { OnOk result (string_bytes text.new ≡ string_bytes text.old ++ outcome_text outcome.now) }
{
    match outcome {
        Outcome::Done(answer) => {
            text.push_str(" with ")?;
            put_answer(text, answer)
        }
        Outcome::GaveUp => {
            text.push_str(" given up")?;
            Ok(())
        }
    }
}
