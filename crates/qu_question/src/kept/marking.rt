ghost use Rattle.std.specs.Prelude.{◌≡◌, ◌==◌, IfOk};
ghost use Rattle.std.specs.List.{list_any};
ghost use Rattle.qu_question.specs.Kept.{unmarked};
ghost use Rattle.qu_question.specs.Marking.{are_showing, mark_in, marked_shown};

use super::{Kept, Mark};
use qu_base::{List, NoMemory, ObjectId, ReplicaId};
use qu_history::{Sealed, Sets};
use std::alloc::Global;

/// What is kept, with no entry shown or left out.
#[tactic(auto, unfolding(crate::specs::Kept::unmarked))]
pub fn unmarked(alloc: Global, kept: &[Kept]) -> Result<List<Kept>, NoMemory>
    ensures { IfOk result (λ all. all ≡ unmarked kept.now) }
{
    let mut all = List::new(alloc);
    for held in kept {
        let mut held = held.share()?;
        held.mark = Mark::Unshown;
        all.push(held)?;
    }
    Ok(all)
}

/// What is kept, where a round upon these sets begins: their entries are shown.
pub fn marked_shown(sets: &Sets, kept: List<Kept>) -> List<Kept>
    ensures { result ≡ marked_shown sets.now kept }
{
    let mut all = kept.into_vec();
    for held in all.iter_mut() {
        held.mark = mark_in(sets, held);
    }
    List::from(all)
}

/// The mark of an entry where a round upon these sets begins.
fn mark_in(sets: &Sets, held: &Kept) -> Mark
    ensures { result ≡ mark_in sets.now held.now }
{
    let history = &held.sealed.get().history;
    if held.mark.is_left_out() {
        Mark::LeftOut
    } else if are_showing(sets, history.object(), history.replica()) {
        Mark::Shown
    } else {
        Mark::Unshown
    }
}

/// Whether the sets hold an entry of this object and this replica.
fn are_showing(sets: &Sets, object: ObjectId, replica: ReplicaId) -> bool
    ensures { result ≡ are_showing sets.now object replica }
{
    is_any_of(sets.find(object), replica)
}

/// Whether one of the entries is of the replica.
fn is_any_of(entries: &[Sealed], replica: ReplicaId) -> bool
    ensures { result ≡ list_any (λ entry. ((entry.history).replica).0 == replica.0) entries.now }
{
    entries
        .iter()
        .any(|entry| entry.history.replica().0 == replica.0)
}
