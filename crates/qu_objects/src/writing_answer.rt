//! Answers as bytes.
ghost use Rattle.std.specs.Prelude.{◌≡◌, ◌++◌, length, take, OnOk, OnErr};
ghost use Rattle.std.specs.List.{flat_map};
ghost use Rattle.qu_objects.specs.Formats.{item_form, answer_form};

use super::Answer;
use super::writing::put_item;
use qu_base::{Item, NoMemory, Outbytes};

/// Appends an answer. Without memory the text stays as it is.
///
/// It can be read again where it has one to `MOST_PARTS` items, or where the refused part has a
/// position below that and the refusal one of its numbers.
pub fn write_answer(answer: &Answer, out: &mut Outbytes) -> Result<(), NoMemory>
    ensures ok { OnOk result (out.new ≡ out.old ++ answer_form.spell answer.now) }
    ensures err { OnErr result (out.new ≡ out.old) }
{
    let start = out.len();
    let written = put_answer(answer, out);
    if written.is_err() {
        out.rewind(start);
    }
    written
}

/// Appends an answer, and on failure a part of it.
#[tactic(auto, unfolding(crate::specs::Formats::answer_form), using(qu_base::proofs::Writing::writing_laws))]
fn put_answer(answer: &Answer, out: &mut Outbytes) -> Result<(), NoMemory>
    ensures ok { OnOk result (out.new ≡ out.old ++ answer_form.spell answer.now) }
    ensures err { OnErr result (take (length out.old) out.new ≡ out.old) }
{
    match answer {
        Answer::Ok(items) => {
            out.u8(0)?;
            out.count(items.len())?;
            put_items(items.as_slice(), out)
        }
        Answer::Refused { at, why } => {
            out.u8(1)?;
            out.u8(*at)?;
            out.u8(*why)
        }
    }
}

/// Appends items, and on failure a part of them.
#[tactic(auto, using(qu_base::proofs::Writing::writing_laws))]
fn put_items(items: &[Item], out: &mut Outbytes) -> Result<(), NoMemory>
    ensures ok { OnOk result (out.new ≡ out.old ++ flat_map item_form.spell items.now) }
    ensures err { OnErr result (take (length out.old) out.new ≡ out.old) }
{
    for item in items {
        put_item(item, out)?;
    }
    Ok(())
}
