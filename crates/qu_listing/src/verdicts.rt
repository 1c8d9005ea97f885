ghost use Rattle.std.specs.Prelude.{◌≡◌, ◌++◌, OnOk, string_bytes};
ghost use Rattle.qu_listed.specs.Verdicts.{time_word, stamp_text, class_text, not_method_text, refusal_text, answered_text, verdict_text};

use super::names::{put_object, put_party};
use super::told::{LinePart, put_all};
use qu_base::{NoMemory, ObjectId, Party};
use qu_frames::{ClassCode, Refusal, Verdict};
use qu_objects::Answer;
use qu_print::put_answer;
use qu_stamp::Stamp;

impl LinePart for (ObjectId, Stamp) {
    ghost use Rattle.qu_listed.specs.Verdicts.{object_at_text};

    ghost text_of = { object_at_text };

    fn put(&self, text: &mut String) -> Result<(), NoMemory> {
        let (object, stamp) = self;
        text.push_str(", ")?;
        put_object(text, *object)?;
        text.push_str(" at ")?;
        put_stamp(text, stamp)
    }
}

/// Writes a verdict in the words of the protocol.
#[tactic(auto, unfolding(qu_listed::specs::Verdicts::verdict_text))]
pub fn put_verdict(text: &mut String, verdict: &Verdict) -> Result<(), NoMemory>
    ensures { OnOk result (string_bytes text.new ≡ string_bytes text.old ++ verdict_text verdict.now) }
{
    match verdict {
        Verdict::Done { stamps, answer } => {
            text.push_str("done ")?;
            put_answered(text, answer, stamps.as_slice())
        }
        Verdict::Told { stamps, answer } => {
            text.push_str("told ")?;
            put_answered(text, answer, stamps.as_slice())
        }
        Verdict::Already(answer) => {
            text.push_str("already ")?;
            put_answer(text, answer)
        }
        Verdict::Mended(object, stamp) => {
            let object = object.0;
            write!(text, "mended {object} at ")?;
            put_stamp(text, stamp)
        }
        Verdict::Refused(refusal) => put_refusal(text, *refusal),
    }
}

/// Writes an answer, and the stamps of the versions for which it is given.
fn put_answered(
    text: &mut String,
    answer: &Answer,
    stamps: &[(ObjectId, Stamp)],
) -> Result<(), NoMemory>
    ensures { OnOk result (string_bytes text.new ≡ string_bytes text.old ++ answered_text answer.now stamps.now) }
{
    put_answer(text, answer)?;
    put_all(text, stamps)
}

/// Writes the name of a refusal, its object, and what else it carries.
fn put_refusal(text: &mut String, refusal: Refusal) -> Result<(), NoMemory>
    ensures { OnOk result (string_bytes text.new ≡ string_bytes text.old ++ refusal_text refusal) }
{
    match refusal {
        Refusal::HistoryFull(ObjectId(object)) => write!(text, "history full {object}")?,
        Refusal::Thin(ObjectId(object)) => write!(text, "thin {object}")?,
        Refusal::Needs(ObjectId(object)) => write!(text, "needs {object}")?,
        Refusal::Stale(ObjectId(object)) => write!(text, "stale {object}")?,
        Refusal::NotCurrent(ObjectId(object), latest) => {
            write!(text, "not current {object} latest ")?;
            put_stamp(text, &latest)?;
        }
        Refusal::NotMethod(object, class) => put_not_method(text, object, class)?,
        Refusal::Spent(ObjectId(object), number) => write!(text, "spent {object} at {number}")?,
        Refusal::TimeSpent(ObjectId(object)) => write!(text, "time spent {object}")?,
        Refusal::UnknownObject(object) => {
            text.push_str("unknown ")?;
            put_object(text, object)?;
        }
        Refusal::Sound(ObjectId(object)) => write!(text, "sound {object}")?,
    }
    Ok(())
}

#[tactic(auto, unfolding(qu_listed::specs::Verdicts::not_method_text))]
fn put_not_method(text: &mut String, object: ObjectId, class: ClassCode) -> Result<(), NoMemory>
    ensures { OnOk result (string_bytes text.new ≡ string_bytes text.old ++ not_method_text object class) }
{
    text.push_str("not of class METHOD ")?;
    let object = object.0;
    write!(text, "{object} but ")?;
    text.push_str(class_word(class))?;
    Ok(())
}

fn class_word(class: ClassCode) -> &'static str
    ensures { result.now ≡ class_text class }
{
    match class {
        ClassCode::InlineMethod => "inline method",
        ClassCode::Copy => "copy",
        ClassCode::InlineBarrier => "inline barrier",
        ClassCode::Barrier => "barrier",
        ClassCode::Needs => "needs",
    }
}

/// Writes a stamp's time, whether it is that of a barrier, and its client.
#[tactic(auto, unfolding(qu_listed::specs::Verdicts::stamp_text))]
pub fn put_stamp(text: &mut String, stamp: &Stamp) -> Result<(), NoMemory>
    ensures { OnOk result (string_bytes text.new ≡ string_bytes text.old ++ stamp_text stamp.now) }
{
    let time = stamp.time;
    if time == 0 {
        text.push_str("opening")?;
        return Ok(());
    }
    text.push_str(time_word(stamp.barrier))?;
    write!(text, "{time} of ")?;
    put_party(text, Party::Client(stamp.client))
}

fn time_word(barrier: bool) -> &'static str
    ensures { result.now ≡ time_word barrier }
{
    if barrier { "barrier " } else { "time " }
}
