ghost use Rattle.std.specs.Prelude.{◌≡◌, ◌++◌, OnOk, string_bytes};
ghost use Rattle.qu_listed.specs.Frames.{showers_text, body_text, version_text, state_text, asked_text, frame_text};

use super::names::{put_count, put_object, put_party};
use super::told::{LinePart, put_all};
use super::verdicts::{put_stamp, put_verdict};
use qu_base::{ClientId, NoMemory, ObjectId, Party, ReplicaId};
use qu_frames::{Body, Frame};
use qu_history::{Sealed, SetOf};
use qu_objects::ObjState;
use qu_print::put_value;
use qu_stamp::Stamp;

impl LinePart for SetOf {
    ghost use Rattle.qu_listed.specs.Frames.{set_text};

    ghost text_of = { set_text };

    fn put(&self, text: &mut String) -> Result<(), NoMemory> {
        text.push_str(", ")?;
        put_object(text, self.object)?;
        text.push_str(" shown by")?;
        put_showers(text, self.entries.as_slice())
    }
}

impl LinePart for (ObjectId, ReplicaId) {
    ghost use Rattle.qu_listed.specs.Frames.{culled_text};

    ghost text_of = { culled_text };

    fn put(&self, text: &mut String) -> Result<(), NoMemory> {
        let (object, replica) = self;
        text.push_str(", culled ")?;
        put_object(text, *object)?;
        text.push_str(" of ")?;
        put_party(text, Party::Replica(*replica))
    }
}

impl LinePart for Sealed {
    ghost use Rattle.qu_listed.specs.Frames.{shown_text};

    ghost text_of = { shown_text };

    fn put(&self, text: &mut String) -> Result<(), NoMemory> {
        text.push_str(", shows ")?;
        put_object(text, self.history.object())?;
        text.push_str(" with ")?;
        put_count(text, self.history.candidates().len(), "candidate")
    }
}

/// Writes a frame: what it asks and upon which histories, or what it answers and shows.
#[tactic(auto, unfolding(qu_listed::specs::Frames::frame_text))]
pub fn put_frame(text: &mut String, frame: &Frame) -> Result<(), NoMemory>
    ensures { OnOk result (string_bytes text.new ≡ string_bytes text.old ++ frame_text frame.now) }
{
    match frame {
        Frame::Request {
            client,
            number,
            round,
            sets,
            body,
            ..
        } => {
            put_asked(text, "request ", *client, *number, *round)?;
            put_body(text, body)?;
            put_all(text, sets.objects().as_slice())
        }
        Frame::Reply {
            client,
            number,
            round,
            verdict,
            culled,
            shown,
            ..
        } => {
            put_asked(text, "reply ", *client, *number, *round)?;
            put_verdict(text, verdict)?;
            put_all(text, culled.as_slice())?;
            put_all(text, shown.as_slice())
        }
        Frame::Fetch { object, stamp, .. } => put_version(text, "fetch ", *object, stamp),
        Frame::Fetched {
            object,
            stamp,
            state,
            ..
        } => {
            put_version(text, "fetched ", *object, stamp)?;
            put_state(text, state)
        }
    }
}

/// Writes what a frame is, and which version it is about.
fn put_version(
    text: &mut String,
    kind: &str,
    object: ObjectId,
    stamp: &Stamp,
) -> Result<(), NoMemory>
    ensures { OnOk result
        (string_bytes text.new ≡ string_bytes text.old ++ kind.now ++ version_text object stamp.now) }
{
    text.push_str(kind)?;
    put_object(text, object)?;
    text.push_str(" at ")?;
    put_stamp(text, stamp)
}

/// Writes the value of a state, of how many clients it keeps something, and how many links it has.
fn put_state(text: &mut String, state: &ObjState) -> Result<(), NoMemory>
    ensures { OnOk result (string_bytes text.new ≡ string_bytes text.old ++ state_text state.now) }
{
    text.push_str(", ")?;
    put_value(text, &state.value)?;
    text.push_str(", ")?;
    put_count(text, state.kept.len(), "client")?;
    text.push_str(", ")?;
    put_count(text, state.links.len(), "link")
}

/// Writes what a frame is, which operation it is about, and which round of it.
fn put_asked(
    text: &mut String,
    kind: &str,
    client: ClientId,
    number: u64,
    round: u8,
) -> Result<(), NoMemory>
    ensures { OnOk result
        (string_bytes text.new ≡ string_bytes text.old ++ kind.now ++ asked_text client number round) }
{
    let client = client.0;
    write!(text, "{kind}{client}.{number} round {round}, ")?;
    Ok(())
}

/// Writes what is asked for.
fn put_body(text: &mut String, body: &Body) -> Result<(), NoMemory>
    ensures { OnOk result (string_bytes text.new ≡ string_bytes text.old ++ body_text body.now) }
{
    match body {
        Body::Act(_) => text.push_str("act")?,
        Body::Ask(_) => text.push_str("query")?,
        Body::Mend(target) => {
            text.push_str("mend ")?;
            put_object(text, *target)?;
        }
    }
    Ok(())
}

/// Writes the replicas whose histories these are.
fn put_showers(text: &mut String, entries: &[Sealed]) -> Result<(), NoMemory>
    ensures { OnOk result (string_bytes text.new ≡ string_bytes text.old ++ showers_text entries.now) }
{
    if entries.is_empty() {
        text.push_str(" none")?;
    }
    for entry in entries {
        let replica = entry.history.replica().0;
        write!(text, " {replica}")?;
    }
    Ok(())
}
