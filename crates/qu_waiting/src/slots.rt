ghost use Rattle.std.specs.Prelude.{◌≡◌, ◌+◌, replicate, None, Some, IfOk};
ghost use Rattle.qu_base.specs.declared.limits.TheConstants.{LAST_CLIENT};
ghost use Rattle.std.specs.Option.{option_copied};
ghost use Rattle.qu_waiting.specs.Slots.{lacks, first_waiting, with_turn};

use crate::next::Turn;
use crate::waiting::Waiting;
use qu_base::{LAST_CLIENT, NoMemory, ObjectId};
use qu_stamp::Stamp;
use std::alloc::Global;

/// Whether a request waits for the version of the object under this stamp.
#[tactic(auto, unfolding(qu_stamp::specs::Stamp::same_stamp))]
fn lacks(waiting: &Waiting, object: ObjectId, stamp: &Stamp) -> bool
    ensures { result ≡ lacks object stamp.now waiting.now }
{
    waiting
        .missing
        .iter()
        .any(|key| key.0 == object && key.1 == *stamp)
}

/// The waiting request of the lowest client that lacks the version under this key, where the slots are those of
/// clients by their numbers.
#[tactic(auto, unfolding(crate::specs::Slots::first_waiting))]
pub fn first_waiting<'a>(
    slots: &'a [Option<Waiting>],
    object: ObjectId,
    stamp: &Stamp,
) -> Option<&'a Waiting>
    ensures { option_copied result ≡ first_waiting object stamp.now slots.now }
{
    for slot in slots {
        if let Some(waiting) = slot
            && lacks(waiting, object, stamp)
        {
            return Some(waiting);
        }
    }
    None
}

/// Changes the slot of a client, where the slots are those of clients by their numbers.
pub fn turn_slot(slots: &mut [Option<Waiting>], turn: Turn)
    ensures { slots.new ≡ with_turn (Some turn) slots.old }
{
    let (client, next) = turn.into_parts();
    let place = usize::from(client.0);
    if place < slots.len() {
        slots[place] = next.slot_after(slots[place].take());
    }
}

/// The slots of all clients, in which nothing waits.
pub fn empty_slots(alloc: Global) -> Result<Vec<Option<Waiting>>, NoMemory>
    ensures { IfOk result (λ slots. slots.items ≡ replicate (LAST_CLIENT + 1) None) }
{
    let mut slots = Vec::new(alloc);
    for number in 0..LAST_CLIENT + 1 {
        slots.push(None)?;
    }
    Ok(slots)
}
