//! Answers from bytes.
ghost use Rattle.std.specs.Prelude.{◌≡◌, OnErr};
ghost use Rattle.qu_base.specs.Reading.{Reads, Gives, IsGiven};
ghost use Rattle.qu_objects.specs.Formats.{some_items, items_form, part_refusal_form, answer_form};

use super::reading::read_item;
use super::refusal_number::is_kind_refusal;
use super::{Answer, MOST_PARTS};
use qu_base::{BadText, Cursor, Item, List, ReadFail, Why};
use std::alloc::Global;

/// The next answer.
///
/// A refusal is that of the first field that fails. Without an answer the text stays as it is.
#[tactic(auto, using(crate::proofs::ReadingLaws::answer_laws))]
pub fn read_answer(alloc: Global, text: &mut Cursor<'_>) -> Result<Answer, ReadFail>
    ensures read { IsGiven answer_form result text.old text.new }
    ensures kept { OnErr result (text.new ≡ text.old) }
{
    text.are_bytes();
    let mut ahead = text.ahead();
    let answer = coded_answer(alloc, &mut ahead)?;
    *text = ahead;
    Ok(answer)
}

/// The code of an answer, and the answer.
#[tactic(auto, unfolding(crate::specs::Formats::answer_form))]
fn coded_answer(alloc: Global, text: &mut Cursor<'_>) -> Result<Answer, ReadFail>
    ensures { Gives answer_form result text.old text.new }
{
    let start = text.ahead();
    let code = text.u8_within(0, 255)?;
    match code {
        0 => Ok(Answer::Ok(counted_items(alloc, text)?)),
        1 => {
            let (at, why) = read_refusal(text)?;
            Ok(Answer::Refused { at, why })
        }
        _ => Err(ReadFail::Bad(start.refusal(Why::Range))),
    }
}

/// A count, and so many items.
fn counted_items(alloc: Global, text: &mut Cursor<'_>) -> Result<List<Item>, ReadFail>
    ensures { Gives items_form result text.old text.new }
{
    let count = text.u8_within(1, MOST_PARTS)?;
    read_items(alloc, count, text)
}

/// So many items.
#[tactic(auto, using(qu_base::proofs::Lists::list_laws))]
fn read_items(alloc: Global, count: u8, text: &mut Cursor<'_>) -> Result<List<Item>, ReadFail>
    ensures { Gives (some_items count) result text.old text.new }
{
    let mut items = List::new(alloc);
    for at in 0..count {
        let item = read_item(alloc, text)?;
        items.push(item)?;
    }
    Ok(items)
}

/// The position of a refused part, and the number of the refusal.
fn read_refusal(text: &mut Cursor<'_>) -> Result<(u8, u8), BadText>
    ensures { Reads part_refusal_form result text.old text.new }
{
    let at = text.u8_within(0, MOST_PARTS - 1)?;
    let start = text.ahead();
    let why = text.u8_within(0, 255)?;
    if !is_kind_refusal(why) {
        return Err(start.refusal(Why::Range));
    }
    Ok((at, why))
}
