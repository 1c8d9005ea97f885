ghost use Rattle.std.specs.Prelude.{◌≡◌, ◌≤◌, length, None, Some, IsTrue, IfOk};
ghost use Rattle.qu_base.specs.Format.{items};
ghost use Rattle.qu_base.specs.Reading.{Reads, Gives};
ghost use Rattle.qu_stamp.specs.Formats.{spelled_candidate};
ghost use Rattle.qu_history.specs.History.{is_history};
ghost use Rattle.qu_history.specs.Formats.{next_candidate, candidates_form};

use super::HISTORY_LIMIT;
use qu_base::{BadText, Cursor, List, NoMemory, ObjectId, ReadFail};
use qu_stamp::{Candidate, Stamp, read_basis, read_next_stamp};
use std::alloc::Global;

/// A count, and so many candidates on this object by rising stamps: those of a history.
#[tactic(auto, using(crate::proofs::Forms::candidates_are_history, crate::proofs::Forms::candidates_are_few))]
pub(super) fn candidates_at(
    alloc: Global,
    object: ObjectId,
    text: &mut Cursor,
) -> Result<List<Candidate>, ReadFail>
    ensures given { Gives (candidates_form object) result text.old text.new }
    ensures rising { IfOk result (λ candidates. IsTrue (is_history candidates)) }
    ensures few { IfOk result (λ candidates. length candidates ≤ HISTORY_LIMIT) }
{
    text.are_bytes();
    let candidates = counted_candidates(alloc, object, text)?;
    Ok(candidates)
}

#[tactic(auto, unfolding(crate::specs::Formats::candidates_form))]
fn counted_candidates(
    alloc: Global,
    object: ObjectId,
    text: &mut Cursor,
) -> Result<List<Candidate>, ReadFail>
    ensures { Gives (candidates_form object) result text.old text.new }
{
    let count = text.u16_within(1, HISTORY_LIMIT as u16)?;
    next_candidates(alloc, object, count, text)
}

/// So many candidates, the first of them the opening one.
#[tactic(auto, using(qu_base::proofs::Lists::list_laws))]
fn next_candidates(
    alloc: Global,
    object: ObjectId,
    count: u16,
    text: &mut Cursor,
) -> Result<List<Candidate>, ReadFail>
    ensures { Gives (items spelled_candidate (next_candidate object) (λ candidate. Some candidate.stamp) None count)
        result text.old text.new }
{
    let mut candidates = List::with_room(alloc, usize::from(count))?;
    let mut before = None;
    for _ in 0..count {
        let candidate = next_candidate(text, object, before)?;
        before = Some(candidate.stamp);
        candidates.push(candidate)?;
    }
    Ok(candidates)
}

/// The candidate on this object after one with this stamp.
#[tactic(auto, unfolding(crate::specs::Formats::next_candidate))]
fn next_candidate(
    text: &mut Cursor,
    object: ObjectId,
    before: Option<Stamp>,
) -> Result<Candidate, BadText>
    ensures { Reads (next_candidate object before) result text.old text.new }
{
    let stamp = read_next_stamp(text, before)?;
    let (prior, group) = read_basis(text, object, &stamp)?;
    Ok(Candidate {
        stamp,
        prior,
        group,
    })
}
