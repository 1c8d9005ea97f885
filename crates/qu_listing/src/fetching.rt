//! Versions that replicas fetch: which requests wait, and whether what another replica sends counts.
ghost use Rattle.std.specs.Prelude.{◌≡◌, ◌++◌, if◌then◌else◌, OnOk, IfOk, string_bytes, codes};
ghost use Rattle.std.specs.Option.{option_copied};
ghost use Rattle.qu_listed.specs.Fetching.{is_fetch, waits_text, wakes_text, found_text, counting_text, frame_noted, noted_text};

use super::offer::Offer;
use super::receivers::Receivers;
use qu_base::{NoMemory, ObjectId, Party, ReadFail};
use qu_frames::{Frame, Letter, decode};
use qu_replica::Replica;
use qu_stamp::Stamp;
use qu_waiting::{Counting, Waiting};
use qu_world::World;
use std::alloc::Global;

/// Whether one replica asks another for a version.
fn is_fetch(alloc: Global, letter: &Letter) -> Result<bool, NoMemory>
    ensures { IfOk result (λ is. is ≡ is_fetch letter.now) }
{
    let (Party::Replica(_), Party::Replica(_)) = (letter.from, letter.to) else {
        return Ok(false);
    };
    match decode(alloc, letter.text.as_slice()) {
        Ok(Frame::Fetch { .. }) => Ok(true),
        Ok(_) | Err(ReadFail::Bad(_)) => Ok(false),
        Err(ReadFail::NoMemory) => Err(NoMemory),
    }
}

/// Writes whether a request waits, by the letters of its event.
pub fn put_waits(alloc: Global, text: &mut String, letters: &[Letter]) -> Result<(), NoMemory>
    ensures { OnOk result (string_bytes text.new ≡ string_bytes text.old ++ waits_text letters.now) }
{
    let Some(letter) = letters.first() else {
        return Ok(());
    };
    if is_fetch(alloc, letter)? {
        text.push_str(", waits")?;
    }
    Ok(())
}

/// Writes what the party that is offered bytes makes of them.
pub fn put_noted(
    alloc: Global,
    text: &mut String,
    receivers: &Receivers,
    world: &World,
    offered: &Option<Offer>,
) -> Result<(), NoMemory>
    ensures { OnOk result (string_bytes text.new ≡ string_bytes text.old
        ++ noted_text receivers.now world.now.replicas offered.now) }
{
    let Some(offer) = offered else {
        return Ok(());
    };
    let Party::Replica(me) = offer.to else {
        return Ok(());
    };
    let Some(replica) = world.replicas().get(usize::from(me.0)) else {
        return Ok(());
    };
    let frame = receivers.take(alloc, offer.to, offer.text)?;
    put_frame_noted(text, replica, &frame)
}

fn put_frame_noted(
    text: &mut String,
    replica: &Replica,
    frame: &Option<Frame>,
) -> Result<(), NoMemory>
    ensures { OnOk result (string_bytes text.new ≡ string_bytes text.old ++ frame_noted replica.now frame.now) }
{
    let Some(
        Frame::Fetched {
            replica: from,
            object,
            stamp,
            state,
            ..
        },
    ) = frame
    else {
        return Ok(());
    };
    let counting = replica.counting(*from, *object, stamp, state)?;
    put_counting(text, counting, replica, *object, stamp)
}

/// Writes whether a version that another replica sends counts as its answer.
fn put_counting(
    text: &mut String,
    counting: Counting,
    replica: &Replica,
    object: ObjectId,
    stamp: &Stamp,
) -> Result<(), NoMemory>
    ensures { OnOk result (string_bytes text.new ≡ string_bytes text.old
        ++ counting_text counting replica.now object stamp.now) }
{
    match counting {
        Counting::NotFetched => {
            text.push_str(", not counted, not fetched")?;
            Ok(())
        }
        Counting::OtherKind => {
            text.push_str(", not counted, another kind")?;
            Ok(())
        }
        Counting::Twice => {
            text.push_str(", not counted, answered before")?;
            Ok(())
        }
        Counting::Counted => {
            text.push_str(", counted")?;
            Ok(())
        }
        Counting::Found => put_found(text, replica, object, stamp),
    }
}

/// Writes that a version is found, whether one is held already, and which request it wakes.
fn put_found(
    text: &mut String,
    replica: &Replica,
    object: ObjectId,
    stamp: &Stamp,
) -> Result<(), NoMemory>
    ensures { OnOk result (string_bytes text.new ≡ string_bytes text.old ++ found_text replica.now object stamp.now) }
{
    put_held(text, replica.version(object, stamp).is_some())?;
    put_wakes(text, replica.first_waiting(object, stamp))
}

fn put_held(text: &mut String, held: bool) -> Result<(), NoMemory>
    ensures { OnOk result (string_bytes text.new
        ≡ string_bytes text.old ++ (if held then codes ", counted, found, held" else codes ", counted, found")) }
{
    if held {
        text.push_str(", counted, found, held")?;
    } else {
        text.push_str(", counted, found")?;
    }
    Ok(())
}

fn put_wakes(text: &mut String, waiting: Option<&Waiting>) -> Result<(), NoMemory>
    ensures { OnOk result (string_bytes text.new
        ≡ string_bytes text.old ++ wakes_text (option_copied waiting.entry)) }
{
    let Some(waiting) = waiting else {
        return Ok(());
    };
    let (client, number) = (waiting.reading.client().0, waiting.reading.number());
    write!(text, ", wakes {client}.{number}")?;
    Ok(())
}
