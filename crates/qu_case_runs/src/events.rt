//! Runs event by event, with bytes that are injected.

ghost use Rattle.std.specs.Prelude.{IfOk};
ghost use Rattle.qu_world.specs.Run.{IsRun};

use super::scripts::{apply, rest_left, script_of, trace_of, world_of};
use qu_base::{ClientId, LAST_CLIENT, List, Party};
use qu_case_forms::{
    Named, NoAnswer, Told, bytes_of, one_frame, parted, party, put_frame, put_outcome, put_party,
    signed_text,
};
use qu_frames::Letter;
use qu_listing::events_text;
use qu_script::{Line, Script};
use qu_seal::KeyRing;
use qu_trace::{Entry, Event, Premises, Trace};
use qu_world::World;
use std::alloc::Global;

/// The setup lines of a case, and the lines behind them: an empty line stands between them.
pub fn setup_and_lines(lines: &str) -> (&str, &str) {
    parted(lines, "\n\n")
}

/// The run of the lines behind a setup, as `qu-letters` lists it, without points.
pub fn listed(
    alloc: Global,
    names: &[Named<'_>],
    lines: &str,
    out: &mut Told,
) -> Result<(), NoAnswer> {
    let (setup, lines) = setup_and_lines(lines);
    let world = world_with(alloc, setup)?;
    let trace = make_lines(alloc, names, setup, lines, world, &mut Told::new(alloc))?;
    // Points are not asked for here, but in `points`.
    let text = events_text(alloc, &trace, &Premises::Hold, &[])?;
    out.put_bytes(alloc, text.as_slice().trim_ascii_end());
    Ok(())
}

/// The run of these lines in a world that has these setup lines. Tells what each event made.
///
/// A line is one of a script, `inject PARTY BYTES`, or `send PARTY FRAME`, where the frame gets the HMAC
/// that its sender makes for the party.
pub fn make_lines(
    alloc: Global,
    names: &[Named<'_>],
    setup: &str,
    lines: &str,
    mut world: World,
    out: &mut Told,
) -> Result<Trace, NoAnswer>
    ensures { IfOk result IsRun }
{
    // All keys that there may be, so that a frame of a client outside the setup can be made.
    let of = &world.trace().setup;
    let keys = KeyRing::derive(of.seed, &of.bounds, LAST_CLIENT);
    for line in lines.lines() {
        make_line(alloc, names, &keys, setup, line, &mut world, out)?;
    }
    Ok(trace_of(world))
}

/// The world with which a run of these setup lines begins.
pub fn world_with(alloc: Global, setup: &str) -> Result<World, NoAnswer> {
    let text = format!(in alloc; "{setup}\n")?;
    world_of(alloc, text.as_bytes())
}

/// The script of a setup and one line.
fn script_with(alloc: Global, setup: &str, line: &str) -> Result<Script, NoAnswer> {
    let text = format!(in alloc; "{setup}\n{line}")?;
    script_of(alloc, text.as_bytes())
}

/// Makes the events of one line.
fn make_line(
    alloc: Global,
    names: &[Named<'_>],
    keys: &KeyRing,
    setup: &str,
    line: &str,
    world: &mut World,
    out: &mut Told,
) -> Result<(), NoAnswer> {
    let (verb, rest) = parted(line, " ");
    let (who, words) = parted(rest, " ");
    match verb {
        "inject" => {
            let to = party(who)?;
            let bytes = bytes_of(alloc, names, words)?;
            make(alloc, world, Event::Inject(to, List::from(bytes)), out);
            Ok(())
        }
        "send" => {
            let to = party(who)?;
            let text = sent(alloc, names, keys, to, words)?;
            make(alloc, world, Event::Inject(to, text), out);
            Ok(())
        }
        _ => make_scripted(alloc, setup, line, world, out),
    }
}

/// The text of a frame with the HMAC that its sender makes for a party.
fn sent(
    alloc: Global,
    names: &[Named<'_>],
    keys: &KeyRing,
    to: Party,
    words: &str,
) -> Result<List<u8>, NoAnswer> {
    let bytes = bytes_of(alloc, names, words)?;
    signed_text(alloc, keys, to, bytes.as_slice())
}

/// Makes the events of a line of scripts.
fn make_scripted(
    alloc: Global,
    setup: &str,
    line: &str,
    world: &mut World,
    out: &mut Told,
) -> Result<(), NoAnswer> {
    let script = script_with(alloc, setup, line)?;
    for (_, line) in &script.lines {
        make_all(alloc, line, world, out)?;
    }
    Ok(())
}

/// Makes the call, the deliveries, the ticks or the injection of a line.
fn make_all(alloc: Global, line: &Line, world: &mut World, out: &mut Told) -> Result<(), NoAnswer> {
    match line {
        Line::Call(client, op) => {
            let event = Event::Invoke(*client, op.copy(alloc)?);
            make(alloc, world, event, out);
        }
        Line::Deliver(letters) => {
            for letter in letters {
                make(alloc, world, Event::Deliver(*letter), out);
            }
        }
        Line::Inject(to, text) => {
            let event = Event::Inject(*to, text.copy(alloc)?);
            make(alloc, world, event, out);
        }
        Line::Tick(client, count) => tick(alloc, *client, *count, world, out),
        Line::Wake(client) => {
            let left = rest_left(world, *client);
            tick(alloc, *client, left, world, out);
        }
        // Replicas are held and letters lost for flows alone.
        Line::Flow(_) | Line::Hold(_) | Line::Free(_) | Line::Lose => return Err(NoAnswer::Flow),
        Line::Fake(..) => return Err(NoAnswer::Made),
    }
    Ok(())
}

/// Lets time pass at a client, so many ticks.
fn tick(alloc: Global, client: ClientId, count: u64, world: &mut World, out: &mut Told) {
    for index in 0..count {
        make(alloc, world, Event::Tick(client), out);
    }
}

/// Makes an event, and tells its letters and the operation that ended.
fn make(alloc: Global, world: &mut World, event: Event, out: &mut Told) {
    match apply(world, event) {
        Ok(()) => put_last(alloc, world.trace().entries.as_slice(), out),
        Err(fail) => write!(out, "{fail:?}\n"),
    }
}

/// What the last event made.
fn put_last(alloc: Global, entries: &[Entry], out: &mut Told) {
    out.put_number("event ", entries.len() as u64);
    out.put("\n");
    if let Some(entry) = entries.last() {
        put_entry(alloc, entry, out);
    }
}

/// A line for each letter and for the operation that ended.
fn put_entry(alloc: Global, entry: &Entry, out: &mut Told) {
    for letter in &entry.letters {
        put_letter(alloc, letter, out);
    }
    if let Some((client, number, outcome)) = &entry.ended {
        out.put_number("  end ", u64::from(client.0));
        out.put_number(".", *number);
        out.put(" ");
        put_outcome(outcome, out);
        out.put("\n");
    }
}

fn put_letter(alloc: Global, letter: &Letter, out: &mut Told) {
    put_party("  to ", letter.to, out);
    out.put(" ");
    match one_frame(alloc, letter.text.as_slice()) {
        Ok(frame) => put_frame(&frame, out),
        Err(fail) => write!(out, "{fail:?}"),
    }
    out.put("\n");
}
