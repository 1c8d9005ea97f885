ghost use Rattle.std.specs.Prelude.{◌≡◌, ◌++◌, OnOk, string_bytes};
ghost use Rattle.qu_print.specs.Words.{op_text, value_text, why_text, answer_text};

use super::piece::{Piece, put_joined};
use qu_base::NoMemory;
use qu_notation::{put_bytes_text, put_entries_text};
use qu_objects::{
    Answer, BAD_NAME, EXISTS, FULL, MISSING, OVER, Op, TOO_LONG, UNDER, Value, WRONG_KIND,
};

/// Writes what a client asks for.
#[tactic(auto, unfolding(crate::specs::Words::op_text))]
pub fn put_op(text: &mut String, op: &Op) -> Result<(), NoMemory>
    ensures { OnOk result (string_bytes text.new ≡ string_bytes text.old ++ op_text op.now) }
{
    match op {
        Op::Act(act) => put_joined(text, act.parts().as_slice()),
        Op::Query(query) => put_joined(text, query.parts().as_slice()),
    }
}

/// Writes what an operation answers.
#[tactic(auto, unfolding(crate::specs::Words::answer_text))]
pub fn put_answer(text: &mut String, answer: &Answer) -> Result<(), NoMemory>
    ensures { OnOk result (string_bytes text.new ≡ string_bytes text.old ++ answer_text answer.now) }
{
    match answer {
        Answer::Ok(items) => put_joined(text, items.as_slice())?,
        Answer::Refused { at, why } => {
            put_why(text, *why)?;
            write!(text, " at {at}")?;
        }
    }
    Ok(())
}

/// Writes the value of an object: its kind, and its number, bytes or entries.
pub fn put_value(text: &mut String, value: &Value) -> Result<(), NoMemory>
    ensures { OnOk result (string_bytes text.new ≡ string_bytes text.old ++ value_text value.now) }
{
    match value {
        Value::Counter(counter) => {
            let number = counter.number();
            write!(text, "counter {number}")?;
            Ok(())
        }
        Value::Blob(blob) => {
            text.push_str("blob ")?;
            put_bytes_text(text, blob.content().as_slice())
        }
        Value::Dir(dir) => {
            text.push_str("dir ")?;
            put_entries_text(text, dir.entries().as_slice())
        }
    }
}

/// Writes why a part is refused: the words of its number, or the number where no answer in bytes has it.
fn put_why(text: &mut String, why: u8) -> Result<(), NoMemory>
    ensures { OnOk result (string_bytes text.new ≡ string_bytes text.old ++ why_text why) }
{
    match why {
        OVER => text.push_str("over")?,
        UNDER => text.push_str("under")?,
        TOO_LONG => text.push_str("too long")?,
        EXISTS => text.push_str("exists")?,
        MISSING => text.push_str("missing")?,
        BAD_NAME => text.push_str("bad name")?,
        FULL => text.push_str("full")?,
        WRONG_KIND => text.push_str("wrong kind")?,
        _ => write!(text, "refusal {why}")?,
    }
    Ok(())
}
