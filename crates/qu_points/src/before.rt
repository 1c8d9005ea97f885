//! Which of two points stands before the other.
ghost use Rattle.std.specs.Prelude.{◌≡◌, ℕ, IfOk};
ghost use Rattle.std.specs.Ordering.{nat_cmp, ordering_then, is_lt};
ghost use Rattle.std.specs.Cmp.Lexicographic.{slice_cmp};
ghost use Rattle.qu_claims.specs.Order.{op_bytes, is_earlier};

use qu_base::{List, NoMemory, Outbytes};
use qu_machine::Point;
use qu_objects::{Op, write_act, write_query};
use std::alloc::Global;
use std::cmp::Ordering;

/// Whether the first point stands before the second.
pub fn is_earlier(alloc: Global, first: &Point, second: &Point) -> Result<bool, NoMemory>
    ensures { IfOk result (λ earlier. earlier ≡ is_earlier first.now second.now) }
{
    match event_order(first, second) {
        Ordering::Less => Ok(true),
        Ordering::Equal => asks_before(alloc, &first.op, &second.op),
        Ordering::Greater => Ok(false),
    }
}

/// How two points stand to one another by event, client and number.
fn event_order(first: &Point, second: &Point) -> Ordering
    ensures { result ≡ ordering_then (nat_cmp first.now.event second.now.event)
        (ordering_then (nat_cmp (first.now.client).0 (second.now.client).0)
        (nat_cmp first.now.number second.now.number)) }
{
    (first.event, first.client, first.number).cmp(&(second.event, second.client, second.number))
}

/// Whether the bytes that ask for the first operation stand before those that ask for the second.
#[tactic(auto, using(crate::proofs::Orders::Compared::told_before))]
fn asks_before(alloc: Global, first: &Op, second: &Op) -> Result<bool, NoMemory>
    ensures { IfOk result
        (λ before. before ≡ is_lt (slice_cmp nat_cmp (op_bytes first.now) (op_bytes second.now))) }
{
    let text = op_bytes(alloc, first)?;
    let other = op_bytes(alloc, second)?;
    Ok(text.as_slice() < other.as_slice())
}

/// The bytes by which a request asks for an operation.
#[tactic(auto, unfolding(qu_frames::specs::Formats::body_form))]
fn op_bytes(alloc: Global, op: &Op) -> Result<List<u8>, NoMemory>
    ensures { IfOk result (λ text. text ≡ op_bytes op.now) }
{
    let mut text = Outbytes::new(alloc);
    match op {
        Op::Act(act) => {
            text.u8(1)?;
            write_act(act, &mut text)?;
        }
        Op::Query(query) => {
            text.u8(2)?;
            write_query(query, &mut text)?;
        }
    }
    Ok(text.done())
}
