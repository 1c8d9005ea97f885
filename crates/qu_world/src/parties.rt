ghost use Rattle.std.specs.Prelude.{◌≡◌, ◌<◌, ◌+◌, ◌⊎◌, [], MatchOption, IfOk, IfSome, OnOk, OnErr, None};
ghost use Rattle.std.specs.Option.{option_copied};
ghost use Rattle.qu_frames.specs.Signing.{before_mac};
ghost use Rattle.qu_client.specs.Steps.{client_invoke, client_step, client_tick};
ghost use Rattle.qu_world.specs.State.{numbered};
ghost use Rattle.qu_world.specs.Step.{ended_as};
ghost use Rattle.qu_world.specs.Parties.{ReplicaMoves, ClientMoves, IsIdle};

use qu_base::{ClientId, List, NoMemory, ReplicaId};
use qu_client::{Client, InvokeFail};
use qu_frames::{Letter, Reading, read_request};
use qu_objects::{Op, Outcome};
use qu_replica::Replica;
use std::alloc::Global;

/// What a party made: its letters, and the operation that ended.
#[derive(Drop)]
pub struct Made {
    pub letters: List<Letter>,
    pub ended: Option<(ClientId, u64, Outcome)>,
}

impl Made {
    /// What is made where nobody moves.
    pub fn nothing(alloc: Global) -> Made
        ensures letters { result.letters ≡ [] }
        ensures ended { result.ended ≡ None }
    {
        Made {
            letters: List::new(alloc),
            ended: None,
        }
    }
}

/// Where a client stands in the list of clients, whose first has number 1.
fn index_of(me: ClientId, count: usize) -> Option<usize>
    ensures { MatchOption result ((me.0 ≡ 0) ⊎ (count < me.0)) (λ index. (me.0 ≡ index + 1) × (index < count)) }
{
    let index = usize::from(me.0).checked_sub(1)?;
    if index < count { Some(index) } else { None }
}

/// The client with this number.
pub fn client_at(clients: &[Client], me: ClientId) -> Option<&Client>
    ensures { option_copied result ≡ numbered clients.now me.0 }
{
    let index = usize::from(me.0).checked_sub(1)?;
    clients.get(index)
}

/// A replica takes a text. Where there is no such replica nothing happens. The reading of the last request serves
/// for each text that says the same.
pub fn step_replica(
    alloc: Global,
    replicas: &mut Vec<Replica>,
    last: &mut Option<Reading>,
    me: ReplicaId,
    text: &[u8],
) -> Result<Made, NoMemory>
    ensures moves { IfOk result (ReplicaMoves replicas.old.items replicas.new.items me text.now) }
    ensures err { OnErr result (replicas.new.items ≡ replicas.old.items) }
{
    let index = usize::from(me.0);
    if index >= replicas.len() {
        return Ok(Made::nothing(alloc));
    }
    read(alloc, last, text)?;
    let replica = &mut replicas[index];
    let letters = match last {
        Some(reading) => replica.step_read(text, reading)?,
        None => replica.step(text)?,
    };
    Ok(Made {
        letters,
        ended: None,
    })
}

/// Reads the request of a text, if it says one, unless the last request that was read is the same.
fn read(alloc: Global, last: &mut Option<Reading>, text: &[u8]) -> Result<(), NoMemory>
    ensures { OnOk result (IfSome last.new (λ reading. before_mac text.now ≡ reading.front)) }
{
    if let Some(reading) = last {
        if reading.is_of(text) {
            return Ok(());
        }
    }
    *last = read_request(alloc, text)?;
    Ok(())
}

/// A client takes a text. Where there is no such client nothing happens.
pub fn step_client(
    alloc: Global,
    clients: &mut Vec<Client>,
    me: ClientId,
    text: &[u8],
) -> Result<Made, NoMemory>
    ensures moves { IfOk result
        (ClientMoves clients.old.items clients.new.items me (λ state. client_step state text.now)) }
    ensures err { OnErr result (clients.new.items ≡ clients.old.items) }
{
    let Some(index) = index_of(me, clients.len()) else {
        return Ok(Made::nothing(alloc));
    };
    let client = &mut clients[index];
    let number = client.working_on();
    let moved = client.step(text)?;
    Ok(Made {
        letters: moved.letters,
        ended: named(me, number, moved.ended),
    })
}

/// A client begins an operation.
pub fn invoke_client(clients: &mut Vec<Client>, me: ClientId, op: Op) -> Result<Made, NoMemory>
    requires { IsIdle (numbered clients.old.items me.0) }
    ensures moves { IfOk result (ClientMoves clients.old.items clients.new.items me (λ state. client_invoke state op)) }
    ensures err { OnErr result (clients.new.items ≡ clients.old.items) }
{
    let index = usize::from(me.0) - 1;
    let client = &mut clients[index];
    match client.invoke(op) {
        Ok(letters) => Ok(Made {
            letters,
            ended: None,
        }),
        Err(InvokeFail::NoMemory) => Err(NoMemory),
        Err(InvokeFail::Busy) => unreachable!(),
    }
}

/// Time passes at a client. Where there is no such client nothing happens.
pub fn tick_client(alloc: Global, clients: &mut Vec<Client>, me: ClientId) -> Result<Made, NoMemory>
    ensures moves { IfOk result (ClientMoves clients.old.items clients.new.items me client_tick) }
    ensures err { OnErr result (clients.new.items ≡ clients.old.items) }
{
    let Some(index) = index_of(me, clients.len()) else {
        return Ok(Made::nothing(alloc));
    };
    let client = &mut clients[index];
    let number = client.working_on();
    let moved = client.tick()?;
    Ok(Made {
        letters: moved.letters,
        ended: named(me, number, moved.ended),
    })
}

/// The end of the operation that was under way, named by its client and number.
fn named(
    client: ClientId,
    number: Option<u64>,
    ended: Option<Outcome>,
) -> Option<(ClientId, u64, Outcome)>
    ensures { result ≡ ended_as client number ended }
{
    match (number, ended) {
        (Some(number), Some(outcome)) => Some((client, number, outcome)),
        (Some(_), None) | (None, None) | (None, Some(_)) => None,
    }
}
