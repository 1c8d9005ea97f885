ghost use Rattle.std.specs.Prelude.{◌≡◌, IfOk};
ghost use Rattle.qu_client.specs.Leaving.{is_name_of, names, names_of, is_named, of_same_object, comes_after, before, remaining, leaves, after_replies};

use crate::work::Counted;
use qu_base::{Bounds, List, NoMemory, ObjectId, ReplicaId};
use qu_question::{Kept, Mark};
use std::alloc::Global;

/// What is kept after a round with these replies: an entry that they name as culled is left out
/// where a quorum of its object remains without it and all those that come before it.
#[tactic(auto, unfolding(crate::specs::Leaving::after_replies))]
pub fn after_replies(
    alloc: Global,
    bounds: Bounds,
    replies: &[Counted],
    kept: &[Kept],
) -> Result<List<Kept>, NoMemory>
    ensures { IfOk result (λ all. all ≡ after_replies bounds replies.now kept.now) }
{
    let mut all = List::new(alloc);
    for held in kept {
        let mut entry = held.share()?;
        if leaves(bounds, replies, kept, held) {
            entry.mark = Mark::LeftOut;
        }
        all.push(entry)?;
    }
    Ok(all)
}

/// Whether an entry is left out at the end of the round.
fn leaves(bounds: Bounds, replies: &[Counted], kept: &[Kept], held: &Kept) -> bool
    ensures { result ≡ leaves bounds replies.now kept.now held.now }
{
    is_named(replies, held)
        && remaining(kept, held).saturating_sub(before(replies, kept, held))
            > usize::from(bounds.q())
}

/// How many entries of its object are not left out.
#[tactic(auto, unfolding(crate::specs::Leaving::remaining))]
fn remaining(kept: &[Kept], held: &Kept) -> usize
    ensures { result ≡ remaining kept.now held.now }
{
    kept.iter()
        .filter(|other| of_same_object(held, other) && !other.mark.is_left_out())
        .count()
}

/// How many named entries of its object come before an entry.
#[tactic(auto, unfolding(crate::specs::Leaving::before))]
fn before(replies: &[Counted], kept: &[Kept], held: &Kept) -> usize
    ensures { result ≡ before replies.now kept.now held.now }
{
    kept.iter()
        .filter(|other| {
            of_same_object(held, other)
                && is_named(replies, other)
                && comes_after(replies, held, other)
        })
        .count()
}

/// Whether a reply names the entry, which the round's sets held and no reply replaced since.
fn is_named(replies: &[Counted], held: &Kept) -> bool
    ensures { result ≡ is_named replies.now held.now }
{
    held.mark.is_shown() && names_of(replies, held) > 0
}

/// Whether more replies name the other one, or as many, and its replica is the higher one.
fn comes_after(replies: &[Counted], held: &Kept, other: &Kept) -> bool
    ensures { result ≡ comes_after replies.now held.now other.now }
{
    let mine = names_of(replies, held);
    let theirs = names_of(replies, other);
    mine < theirs
        || mine == theirs
            && held.sealed.get().history.replica().0 < other.sealed.get().history.replica().0
}

fn of_same_object(held: &Kept, other: &Kept) -> bool
    ensures { result ≡ of_same_object held.now other.now }
{
    other.sealed.get().history.object().0 == held.sealed.get().history.object().0
}

/// How many of the replies name the entry.
#[tactic(auto, unfolding(crate::specs::Leaving::names_of))]
fn names_of(replies: &[Counted], held: &Kept) -> usize
    ensures { result ≡ names_of replies.now held.now }
{
    replies
        .iter()
        .filter(|counted| names(counted, held))
        .count()
}

fn names(counted: &Counted, held: &Kept) -> bool
    ensures { result ≡ names counted.now held.now }
{
    let culled = counted.culled.get();
    culled.iter().any(|pair| is_name_of(held, pair))
}

fn is_name_of(held: &Kept, pair: &(ObjectId, ReplicaId)) -> bool
    ensures { result ≡ is_name_of held.now pair.now }
{
    let history = &held.sealed.get().history;
    pair.0.0 == history.object().0 && pair.1.0 == history.replica().0
}
