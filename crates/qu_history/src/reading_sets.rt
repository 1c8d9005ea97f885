ghost use Rattle.std.specs.Prelude.{◌≡◌, ◌<◌, IfOk, OnErr};
ghost use Rattle.qu_base.specs.Reading.{Gives, IsGiven};
ghost use Rattle.qu_history.specs.Formats.{set_form, some_sets, sets_form, shown_form};

use super::reading_entries::{entries_at, shown_at};
use super::{OBJECTS_LIMIT, Sealed, SetOf, Sets};
use qu_base::{Cursor, List, OBJECT_IDS, ReadFail, ReplicaId};
use qu_stamp::object_from;
use std::alloc::Global;

/// The sets at the front of a text. After a refusal, and without memory, the text is as before.
#[tactic(auto, using(crate::proofs::Forms::sets_laws))]
pub fn read_sets(alloc: Global, text: &mut Cursor) -> Result<Sets, ReadFail>
    ensures read { IsGiven sets_form result text.old text.new }
    ensures kept { OnErr result (text.new ≡ text.old) }
{
    text.are_bytes();
    let mut ahead = text.ahead();
    let objects = sets_at(alloc, &mut ahead)?;
    let Some(sets) = Sets::new(alloc, objects)? else {
        unreachable!();
    };
    *text = ahead;
    Ok(sets)
}

/// A count, and so many objects with their entries.
#[tactic(auto, unfolding(crate::specs::Formats::sets_form))]
fn sets_at(alloc: Global, text: &mut Cursor) -> Result<List<SetOf>, ReadFail>
    ensures { Gives sets_form result text.old text.new }
{
    let count = text.u8_within(1, OBJECTS_LIMIT as u8)?;
    next_sets(alloc, count, text)
}

/// So many objects with their entries.
#[tactic(auto, using(qu_base::proofs::Lists::list_laws))]
fn next_sets(alloc: Global, count: u8, text: &mut Cursor) -> Result<List<SetOf>, ReadFail>
    ensures { Gives (some_sets 0 count) result text.old text.new }
{
    let mut sets = List::new(alloc);
    let mut least = 0;
    for at in 0..count {
        let set = set_at(alloc, least, text)?;
        least = set.object.0 + 1;
        sets.push(set)?;
    }
    Ok(sets)
}

/// The next object, which is not below this number, with its entries.
#[tactic(auto, unfolding(crate::specs::Formats::set_form))]
fn set_at(alloc: Global, least: u16, text: &mut Cursor) -> Result<SetOf, ReadFail>
    ensures given { Gives (set_form least) result text.old text.new }
    ensures below { IfOk result (λ set. (set.object).0 < OBJECT_IDS) }
{
    let object = object_from(least, text)?;
    let entries = entries_at(alloc, object, text)?;
    Ok(SetOf { object, entries })
}

/// What this replica shows, at the front of a text. After a refusal, and without memory, the text is
/// as before.
#[tactic(auto, using(crate::proofs::Forms::shown_laws))]
pub fn read_shown(
    alloc: Global,
    replica: ReplicaId,
    text: &mut Cursor,
) -> Result<List<Sealed>, ReadFail>
    ensures read { IsGiven (shown_form replica) result text.old text.new }
    ensures kept { OnErr result (text.new ≡ text.old) }
{
    text.are_bytes();
    let mut ahead = text.ahead();
    let shown = shown_at(alloc, replica, &mut ahead)?;
    *text = ahead;
    Ok(shown)
}
