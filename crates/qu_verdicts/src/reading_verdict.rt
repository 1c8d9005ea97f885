//! Verdicts from bytes, by the formats of `specs/Formats.antt`.
ghost use Rattle.std.specs.Prelude.{◌≡◌, ◌<◌, IfOk, OnErr};
ghost use Rattle.qu_base.specs.Reading.{Reads, Gives};
ghost use Rattle.qu_verdicts.specs.RefusalNumber.{is_refusal_number};
ghost use Rattle.qu_verdicts.specs.Formats.{class_form, plain_refusal, refusal_body, refusal_form, stamp_from, some_stamps, stamps_form, verdict_form};

use super::refusal_number::{
    HISTORY_FULL, NEEDS, NOT_CURRENT, NOT_METHOD, SOUND, SPENT, STALE, THIN, TIME_SPENT,
    UNKNOWN_OBJECT,
};
use super::{ClassCode, Refusal, Verdict};
use qu_base::{BadText, Cursor, List, OBJECT_IDS, ObjectId, ReadFail, Why};
use qu_objects::{MOST_PARTS, read_answer};
use qu_stamp::{Stamp, object_from, read_stamp};
use std::alloc::Global;

/// The next verdict. A refusal is that of the first field that fails. Without a verdict the text stays as it is.
pub fn read_verdict(alloc: Global, text: &mut Cursor) -> Result<Verdict, ReadFail>
    ensures read { Gives verdict_form result text.old text.new }
    ensures kept { OnErr result (text.new ≡ text.old) }
{
    let mut ahead = text.ahead();
    let verdict = verdict_at(alloc, &mut ahead)?;
    *text = ahead;
    Ok(verdict)
}

/// The code of a verdict, and what it tells.
#[tactic(auto, unfolding(crate::specs::Formats::verdict_form))]
fn verdict_at(alloc: Global, text: &mut Cursor) -> Result<Verdict, ReadFail>
    ensures { Gives verdict_form result text.old text.new }
{
    let start = text.ahead();
    let code = text.u8_within(0, 255)?;
    match code {
        1 | 2 => {
            let stamps = stamps_at(alloc, text)?;
            let answer = read_answer(alloc, text)?;
            if code == 1 {
                Ok(Verdict::Done { stamps, answer })
            } else {
                Ok(Verdict::Told { stamps, answer })
            }
        }
        3 => Ok(Verdict::Already(read_answer(alloc, text)?)),
        4 => {
            let object = text.object()?;
            let stamp = read_stamp(text)?;
            Ok(Verdict::Mended(object, stamp))
        }
        5 => Ok(Verdict::Refused(refusal_at(text)?)),
        _ => Err(ReadFail::Bad(start.refusal(Why::Range))),
    }
}

/// A count, and so many objects with their stamps, by rising objects.
#[tactic(auto, unfolding(crate::specs::Formats::stamps_form))]
fn stamps_at(alloc: Global, text: &mut Cursor) -> Result<List<(ObjectId, Stamp)>, ReadFail>
    ensures { Gives stamps_form result text.old text.new }
{
    let count = text.u8_within(1, MOST_PARTS)?;
    next_stamps(alloc, count, text)
}

/// So many objects with their stamps.
#[tactic(auto, using(qu_base::proofs::Lists::list_laws))]
fn next_stamps(
    alloc: Global,
    count: u8,
    text: &mut Cursor,
) -> Result<List<(ObjectId, Stamp)>, ReadFail>
    ensures { Gives (some_stamps 0 count) result text.old text.new }
{
    let mut stamps = List::new(alloc);
    let mut least = 0;
    for at in 0..count {
        let told = stamp_from(least, text)?;
        stamps.push(told)?;
        least = told.0.0 + 1;
    }
    Ok(stamps)
}

/// The next object, which is not below this number, with its stamp.
fn stamp_from(least: u16, text: &mut Cursor) -> Result<(ObjectId, Stamp), BadText>
    ensures given { Reads (stamp_from least) result text.old text.new }
    ensures below { IfOk result (λ told. (told.0).0 < OBJECT_IDS) }
{
    let object = object_from(least, text)?;
    let stamp = read_stamp(text)?;
    Ok((object, stamp))
}

/// The next refusal: its number, the object, and what else it tells.
#[tactic(auto, unfolding(crate::specs::Formats::refusal_form))]
fn refusal_at(text: &mut Cursor) -> Result<Refusal, BadText>
    ensures { Reads refusal_form result text.old text.new }
{
    let start = text.ahead();
    let number = text.u8_within(0, 255)?;
    if !is_refusal_number(number) {
        return Err(start.refusal(Why::Range));
    }
    refused_at(number, text)
}

/// Whether a refusal has this number.
fn is_refusal_number(number: u8) -> bool
    ensures { result ≡ is_refusal_number number }
{
    matches!(
        number,
        HISTORY_FULL | THIN | NEEDS | STALE | NOT_CURRENT..=SOUND
    )
}

/// The refusal with this number: the object, and what else it tells.
fn refused_at(number: u8, text: &mut Cursor) -> Result<Refusal, BadText>
    ensures { Reads (refusal_body number) result text.old text.new }
{
    let object = text.object()?;
    match number {
        NOT_CURRENT => Ok(Refusal::NotCurrent(object, read_stamp(text)?)),
        NOT_METHOD => Ok(Refusal::NotMethod(object, class_at(text)?)),
        SPENT => Ok(Refusal::Spent(object, text.u64_within(0, u64::MAX)?)),
        _ => Ok(plain_refusal(number, object)),
    }
}

/// The refusal with this number that tells an object and no more.
fn plain_refusal(number: u8, object: ObjectId) -> Refusal
    ensures { result ≡ plain_refusal number object }
{
    match number {
        HISTORY_FULL => Refusal::HistoryFull(object),
        THIN => Refusal::Thin(object),
        NEEDS => Refusal::Needs(object),
        STALE => Refusal::Stale(object),
        TIME_SPENT => Refusal::TimeSpent(object),
        UNKNOWN_OBJECT => Refusal::UnknownObject(object),
        _ => Refusal::Sound(object),
    }
}

/// The next class, by its code.
fn class_at(text: &mut Cursor) -> Result<ClassCode, BadText>
    ensures { Reads class_form result text.old text.new }
{
    let code = text.u8_within(2, 6)?;
    Ok(match code {
        2 => ClassCode::InlineMethod,
        3 => ClassCode::Copy,
        4 => ClassCode::InlineBarrier,
        5 => ClassCode::Barrier,
        _ => ClassCode::Needs,
    })
}
