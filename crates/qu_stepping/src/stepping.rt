ghost use Rattle.std.specs.Prelude.{◌≡◌, ◌≤◌, ◌+◌, if◌then◌else◌, length, IfOk, IfSome};
ghost use Rattle.qu_replay.specs.Steps.{IsTakenByClient};
ghost use Rattle.qu_replay.specs.Replays.{first_free_ticket, IsAfterLetter};
ghost use Rattle.qu_lock.specs.Calls.{calls_by, IsNextCall};

use crate::Gate;
use qu_base::{ClientId, List, NoMemory};
use qu_client::Client;
use qu_frames::{Input, Letter};
use qu_lock::{Actor, Kept, RunName};
use qu_objects::Op;
use qu_post::{Filed, Post};
use qu_replica::Replica;
use std::alloc::Global;
use std::sync::Wait;

/// The replica takes a step on the oldest letter that waits for it, and files it. False where none waits. Where it is
/// true one step more is kept, and else none.
pub fn step_replica<N: RunName, R: Wait, G: Gate>(
    rt: &R,
    alloc: Global,
    post: &Post,
    gate: &G,
    kept: &mut Kept<Replica, N>,
) -> Result<bool, NoMemory>
    ensures { IfOk result (λ took. length kept.new.1 ≡ length kept.old.1 + (if took then 1 else 0)) }
{
    let me = kept.party();
    let Some((name, letter)) = post.lock(rt).take(me) else {
        return Ok(false);
    };
    let input = Input::Frame(name, letter.into_text());
    gate.pass(me, 1);
    let ticket = draw(rt, post, kept, &input);
    let sent = kept.step(input, ticket)?;
    gate.pass(me, 2);
    file(rt, alloc, post, kept, sent)?;
    Ok(true)
}

/// The client takes a step on the oldest letter that waits for it, or begins its next call, or ticks, and files it.
/// False where there is nothing to do. Where it is true one step more is kept, and else none.
pub fn step_client<N: RunName, R: Wait, G: Gate>(
    rt: &R,
    alloc: Global,
    post: &Post,
    calls: &[(ClientId, Op)],
    gate: &G,
    kept: &mut Kept<Client, N>,
) -> Result<bool, NoMemory>
    requires { calls.now ≡ N.calls }
    ensures { IfOk result (λ took. length kept.new.1 ≡ length kept.old.1 + (if took then 1 else 0)) }
{
    let me = kept.party();
    let Some(input) = next_input(rt, alloc, post, calls, kept)? else {
        return Ok(false);
    };
    gate.pass(me, 1);
    let ticket = draw(rt, post, kept, &input);
    let sent = kept.step(input, ticket)?;
    gate.pass(me, 2);
    file(rt, alloc, post, kept, sent)?;
    Ok(true)
}

/// What a client takes next. It ticks only where an operation is under way, no letter waits for anybody, and nobody
/// makes a step.
fn next_input<N: RunName, R: Wait>(
    rt: &R,
    alloc: Global,
    post: &Post,
    calls: &[(ClientId, Op)],
    kept: &Kept<Client, N>,
) -> Result<Option<Input>, NoMemory>
    requires { calls.now ≡ N.calls }
    ensures taken { IfOk result (λ found. IfSome found (IsTakenByClient kept.now.0)) }
    ensures next { IfOk result (λ found. IfSome found (IsNextCall (calls_by kept.now.0.me N.calls) kept.now.1)) }
{
    let mut post = post.lock(rt);
    if let Some((name, letter)) = post.take(kept.party()) {
        return Ok(Some(Input::Frame(name, letter.into_text())));
    }
    if kept.actor().busy() {
        if !post.quiet() {
            return Ok(None);
        }
        post.begin();
        return Ok(Some(Input::Tick));
    }
    let Some(op) = kept.next_call(calls) else {
        return Ok(None);
    };
    let op = op.copy(alloc)?;
    post.begin();
    Ok(Some(Input::Invoke(op)))
}

/// Draws tickets until one is above those of the actor's steps and of the letter that it takes.
fn draw<A: Actor, N: RunName, R: Wait>(rt: &R, post: &Post, kept: &Kept<A, N>, input: &Input) -> u64
    ensures later { first_free_ticket 0 kept.now.1 ≤ result }
    ensures after { IsAfterLetter result input.now }
{
    for _ in rt.forever() {
        let ticket = post.lock(rt).ticket();
        if kept.admits(input, ticket) {
            return ticket;
        }
    }
    unreachable!()
}

/// Files the last step that an actor kept, with the letters that it sent.
fn file<A: Actor, N: RunName, R: Wait>(
    rt: &R,
    alloc: Global,
    post: &Post,
    kept: &Kept<A, N>,
    letters: List<Letter>,
) -> Result<(), NoMemory> {
    let Some(last) = kept.steps().last() else {
        return Ok(());
    };
    let ended = match &last.ended {
        Some((client, number, outcome)) => Some((*client, *number, outcome.copy(alloc)?)),
        None => None,
    };
    post.lock(rt).file(Filed {
        ticket: last.ticket,
        actor: kept.party(),
        input: last.input.copy(alloc)?,
        letters,
        ended,
    })
}
