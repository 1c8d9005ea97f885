ghost use Rattle.std.specs.Prelude.{◌≡◌, IfOk, OnOk};
ghost use Rattle.std.specs.List.{position};
ghost use Rattle.std.specs.Option.{option_copied};
ghost use Rattle.qu_question.specs.Kept.{keep, keep_all, kept_of, same_source};

use super::{Kept, Mark};
use qu_base::{List, NoMemory, ObjectId, Shared};
use qu_history::Sealed;
use std::alloc::Global;

/// What is kept after an answer to this number and round, which showed these sealed histories.
#[tactic(auto, unfolding(crate::specs::Kept::keep_all))]
pub fn keep_all(
    alloc: Global,
    number: u64,
    round: u8,
    shown: &[Sealed],
    kept: &[Kept],
) -> Result<List<Kept>, NoMemory>
    ensures { IfOk result (λ all. all ≡ keep_all number round shown.now kept.now) }
{
    let mut all = copies(alloc, kept)?.into_vec();
    for sealed in shown {
        let sealed = Shared::new(alloc, sealed.copy(alloc)?)?;
        keep(
            &mut all,
            Kept {
                sealed,
                number,
                round,
                mark: Mark::Unshown,
            },
        )?;
    }
    Ok(List::from(all))
}

/// The sealed history that is kept of an object and a replica, unless it is left out.
#[tactic(auto, unfolding(crate::specs::Kept::kept_of))]
pub fn kept_of(kept: &[Kept], object: ObjectId, replica: u8) -> Option<&Sealed>
    ensures { option_copied result ≡ kept_of object replica kept.now }
{
    for held in kept {
        let sealed = held.sealed.get();
        if sealed.history.object().0 == object.0
            && sealed.history.replica().0 == replica
            && !held.mark.is_left_out()
        {
            return Some(sealed);
        }
    }
    None
}

/// Keeps a sealed history in the place of the one of its source, unless it is older.
fn keep(kept: &mut Vec<Kept>, new: Kept) -> Result<(), NoMemory>
    ensures { OnOk result (kept.new.items ≡ keep new kept.old.items) }
{
    match place_of(kept.as_slice(), &new) {
        Some(place) => {
            if !new.is_older(&kept[place]) {
                kept[place] = new;
            }
        }
        None => kept.push(new)?,
    }
    Ok(())
}

/// The place of the history of the same object and replica.
fn place_of(kept: &[Kept], new: &Kept) -> Option<usize>
    ensures { result ≡ position (λ held. same_source new.now.sealed.history held.sealed.history) kept.now }
{
    kept.iter().position(|held| new.is_of_source(held))
}

/// These histories, each held once more and not copied.
pub fn copies(alloc: Global, kept: &[Kept]) -> Result<List<Kept>, NoMemory>
    ensures { IfOk result (λ copies. copies ≡ kept.now) }
{
    let mut copies = List::new(alloc);
    for held in kept {
        copies.push(held.share()?)?;
    }
    Ok(copies)
}
