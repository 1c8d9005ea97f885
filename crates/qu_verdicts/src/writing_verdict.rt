//! Verdicts as bytes, by the formats of `specs/Formats.antt`.
ghost use Rattle.std.specs.Prelude.{◌≡◌, ◌++◌, length, take, OnOk, OnErr};
ghost use Rattle.std.specs.List.{flat_map};
ghost use Rattle.qu_verdicts.specs.Verdict.{number_of_class};
ghost use Rattle.qu_verdicts.specs.Formats.{refusal_form, refused_object, spelled_stamp, stamps_form, verdict_form};

use super::{ClassCode, Refusal, Verdict};
use qu_base::{NoMemory, ObjectId, Outbytes};
use qu_objects::write_answer;
use qu_stamp::{Stamp, write_stamp};

/// Appends a verdict. Without memory the text stays as it is.
pub fn write_verdict(verdict: &Verdict, out: &mut Outbytes) -> Result<(), NoMemory>
    ensures ok { OnOk result (out.new ≡ out.old ++ verdict_form.spell verdict.now) }
    ensures err { OnErr result (out.new ≡ out.old) }
{
    let start = out.len();
    let written = append_verdict(verdict, out);
    if written.is_err() {
        out.rewind(start);
    }
    written
}

/// Appends a verdict, and on failure a part of it.
#[tactic(auto, unfolding(crate::specs::Formats::verdict_form), using(qu_base::proofs::Writing::writing_laws))]
fn append_verdict(verdict: &Verdict, out: &mut Outbytes) -> Result<(), NoMemory>
    ensures ok { OnOk result (out.new ≡ out.old ++ verdict_form.spell verdict.now) }
    ensures err { OnErr result (take (length out.old) out.new ≡ out.old) }
{
    match verdict {
        Verdict::Done { stamps, answer } => {
            out.u8(1)?;
            append_stamps(stamps.as_slice(), out)?;
            write_answer(answer, out)
        }
        Verdict::Told { stamps, answer } => {
            out.u8(2)?;
            append_stamps(stamps.as_slice(), out)?;
            write_answer(answer, out)
        }
        Verdict::Already(answer) => {
            out.u8(3)?;
            write_answer(answer, out)
        }
        Verdict::Mended(object, stamp) => {
            out.u8(4)?;
            append_told(*object, stamp, out)
        }
        Verdict::Refused(refusal) => {
            out.u8(5)?;
            append_refusal(refusal, out)
        }
    }
}

/// Appends a count, and so many objects with their stamps; on failure a part of this.
#[tactic(auto, unfolding(crate::specs::Formats::stamps_form), using(qu_base::proofs::Writing::writing_laws))]
fn append_stamps(stamps: &[(ObjectId, Stamp)], out: &mut Outbytes) -> Result<(), NoMemory>
    ensures ok { OnOk result (out.new ≡ out.old ++ stamps_form.spell stamps.now) }
    ensures err { OnErr result (take (length out.old) out.new ≡ out.old) }
{
    out.count(stamps.len())?;
    append_each_stamp(stamps, out)
}

/// Appends objects with their stamps one behind the other, and on failure a part of them.
#[tactic(auto, using(qu_base::proofs::Writing::writing_laws))]
fn append_each_stamp(stamps: &[(ObjectId, Stamp)], out: &mut Outbytes) -> Result<(), NoMemory>
    ensures ok { OnOk result (out.new ≡ out.old ++ flat_map spelled_stamp stamps.now) }
    ensures err { OnErr result (take (length out.old) out.new ≡ out.old) }
{
    for told in stamps {
        append_told(told.0, &told.1, out)?;
    }
    Ok(())
}

/// Appends an object with its stamp, and on failure a part of this.
#[tactic(auto, using(qu_base::proofs::Writing::writing_laws))]
fn append_told(object: ObjectId, stamp: &Stamp, out: &mut Outbytes) -> Result<(), NoMemory>
    ensures ok { OnOk result (out.new ≡ out.old ++ spelled_stamp (object, stamp.now)) }
    ensures err { OnErr result (take (length out.old) out.new ≡ out.old) }
{
    out.u16(object.0)?;
    write_stamp(stamp, out)
}

/// Appends a refusal, and on failure a part of it.
#[tactic(auto, unfolding(crate::specs::Formats::refusal_form), using(qu_base::proofs::Writing::writing_laws))]
fn append_refusal(refusal: &Refusal, out: &mut Outbytes) -> Result<(), NoMemory>
    ensures ok { OnOk result (out.new ≡ out.old ++ refusal_form.spell refusal.now) }
    ensures err { OnErr result (take (length out.old) out.new ≡ out.old) }
{
    out.u8(refusal.number())?;
    out.u16(object_of(refusal).0)?;
    match refusal {
        Refusal::NotCurrent(_, latest) => write_stamp(latest, out),
        Refusal::NotMethod(_, class) => out.u8(code_of(*class)),
        Refusal::Spent(_, number) => out.u64(*number),
        _ => Ok(()),
    }
}

/// The object of a refusal.
fn object_of(refusal: &Refusal) -> ObjectId
    ensures { result ≡ refused_object refusal.now }
{
    match refusal {
        Refusal::HistoryFull(object)
        | Refusal::Thin(object)
        | Refusal::Needs(object)
        | Refusal::Stale(object)
        | Refusal::NotCurrent(object, _)
        | Refusal::NotMethod(object, _)
        | Refusal::Spent(object, _)
        | Refusal::TimeSpent(object)
        | Refusal::UnknownObject(object)
        | Refusal::Sound(object) => *object,
    }
}

/// The code of a class.
fn code_of(class: ClassCode) -> u8
    ensures { result ≡ number_of_class class }
{
    match class {
        ClassCode::InlineMethod => 2,
        ClassCode::Copy => 3,
        ClassCode::InlineBarrier => 4,
        ClassCode::Barrier => 5,
        ClassCode::Needs => 6,
    }
}
