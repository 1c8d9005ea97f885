ghost use Rattle.std.specs.Prelude.{◌≡◌, ◌↔◌, ◌≤◌, ℕ, length, IsTrue, IfOk};
ghost use Rattle.std.specs.Option.{option_copied};
ghost use Rattle.qu_base.specs.declared.party.ObjectId.{ObjectId as Object};
ghost use Rattle.qu_objects.specs.Parts.{are_parts};
ghost use Rattle.qu_kept.specs.declared.repeats.Standing.TheVariants.{Fresh, Spent};
ghost use Rattle.qu_kept.specs.Standing.{is_of_act, is_repeated, told_by_first, first_spent, standing_of, is_already, AreLower};

use super::row_of;
use qu_base::{ClientId, Digest, NoMemory, ObjectId};
use qu_objects::{Act, Answer, KeptRow, Method, ObjState};
use std::alloc::Global;

/// How an act of a client stands to what the versions of its objects keep of this client.
#[derive(Drop, PartialEq, Eq)]
pub enum Standing {
    /// Its number is above all that are kept: it was not performed on these versions.
    Fresh,
    /// It is the client's last act on each of its objects, and answered this.
    Already(Answer),
    /// It is not, and this object is the first that keeps a number which is at least its own, namely this one.
    Spent { object: ObjectId, number: u64 },
}

/// How the act of this client with this number and digest stands to versions of its objects, given in the order
/// of its parts. Where some are missing, what the others keep tells whether it was performed before.
pub fn standing_of(
    alloc: Global,
    states: &[ObjState],
    act: &Act,
    by: ClientId,
    number: u64,
    digest: &Digest,
) -> Result<Standing, NoMemory>
    ensures value { IfOk result (λ standing. standing ≡ standing_of by number digest.now act.now states.now) }
    ensures fresh { length states.now ≡ length act.now
        → IfOk result (λ standing. standing ≡ Fresh ↔ AreLower by number states.now) }
    ensures already { length states.now ≡ length act.now
        → IfOk result (λ standing. is_already standing ≡ is_repeated by number digest.now states.now) }
    ensures spent { length states.now ≡ length act.now → (object : Object) (kept : ℕ)
        → IfOk result (λ standing. standing ≡ Spent object kept → number ≤ kept) }
{
    stands(alloc, states, act, by, number, digest)
}

/// The standing of the act, which has parts.
fn stands(
    alloc: Global,
    states: &[ObjState],
    act: &Act,
    by: ClientId,
    number: u64,
    digest: &Digest,
) -> Result<Standing, NoMemory>
    ensures value { IfOk result (λ standing. standing ≡ standing_of by number digest.now act.now states.now) }
    ensures in_order { IsTrue (are_parts act.now) }
{
    let parts = act.parts().as_slice();
    if is_repeated(states, by, number, digest) {
        told_by_first(alloc, states, by)
    } else {
        Ok(first_spent(parts, states, by, number))
    }
}

/// Whether it is the client's last act on each of the objects.
fn is_repeated(states: &[ObjState], by: ClientId, number: u64, digest: &Digest) -> bool
    ensures { result ≡ is_repeated by number digest.now states.now }
{
    states.iter().all(|state| is_of_act(row_of(state.kept.as_slice(), by), number, digest))
}

/// Whether the row is that of exactly this act.
fn is_of_act(row: Option<&KeptRow>, number: u64, digest: &Digest) -> bool
    ensures { result ≡ is_of_act number digest.now (option_copied row.entry) }
{
    match row {
        Some(row) => row.number == number && row.act == *digest,
        None => false,
    }
}

/// What the row of the first object tells of the client's last act.
fn told_by_first(alloc: Global, states: &[ObjState], by: ClientId) -> Result<Standing, NoMemory>
    ensures { IfOk result (λ standing. standing ≡ told_by_first by states.now) }
{
    match states {
        [state, ..] => match row_of(state.kept.as_slice(), by) {
            Some(row) => Ok(Standing::Already(row.answer.copy(alloc)?)),
            None => Ok(Standing::Fresh),
        },
        [] => Ok(Standing::Fresh),
    }
}

/// Names the first object that keeps a number of the client which is at least this one.
fn first_spent(
    parts: &[(ObjectId, Method)],
    states: &[ObjState],
    by: ClientId,
    number: u64,
) -> Standing
    ensures { result ≡ first_spent by number parts.now states.now }
{
    for ((object, _), state) in parts.iter().zip(states) {
        if let Some(row) = row_of(state.kept.as_slice(), by)
            && number <= row.number
        {
            return Standing::Spent {
                object: *object,
                number: row.number,
            };
        }
    }
    Standing::Fresh
}
