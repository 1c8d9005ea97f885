ghost use Rattle.std.specs.Prelude.{◌≡◌, ◌<◌, ◌≤◌, ◌+◌, ◌^◌, length, take, drop, IfOk};
ghost use Rattle.std.specs.Option.{option_copied};
ghost use Rattle.qu_trace.specs.Operation.{operations_of, invokes, begun_by, outcome_in, end_from, record_of};

use super::{Entry, Event, Trace};
use qu_base::{ClientId, List, NoMemory, Party};
use qu_machine::OpRecord;
use qu_objects::{Op, Outcome};
use std::alloc::Global;

/// The operations of correct clients that a trace shows, in the order of their invocations.
#[tactic(auto, unfolding(crate::specs::Operation::operations_from))]
pub fn operations(alloc: Global, trace: &Trace) -> Result<List<OpRecord>, NoMemory>
    ensures { IfOk result (λ operations. operations ≡ operations_of trace.now) }
{
    let entries = trace.entries.as_slice();
    let mut operations = List::new(alloc);
    for (index, entry) in entries.iter().enumerate() {
        match &entry.event {
            Event::Invoke(client, op) if !trace.setup.is_faulty(Party::Client(*client)) => {
                operations.push(operation_at(alloc, entries, index, *client, op)?)?;
            }
            Event::Invoke(_, _) | Event::Deliver(_) | Event::Tick(_) | Event::Inject(_, _) => {}
        }
    }
    Ok(operations)
}

/// The operation that its client begins at the entry with this index.
fn operation_at(
    alloc: Global,
    entries: &[Entry],
    index: usize,
    client: ClientId,
    op: &Op,
) -> Result<OpRecord, NoMemory>
    requires { index < length entries.now }
    ensures { IfOk result (λ operation. operation ≡ record_of client op.now (index + 1) (take index entries.now)
        (drop index entries.now)) }
{
    let (earlier, later) = entries.split_at(index);
    let number = begun(earlier, client) + 1;
    let invoked = index as u64 + 1;
    Ok(OpRecord {
        client,
        number,
        op: op.copy(alloc)?,
        invoked,
        reply: end(alloc, later, client, number, invoked)?,
    })
}

/// How often a client was invoked at these events.
#[tactic(auto, unfolding(crate::specs::Operation::begun_by))]
pub fn begun(entries: &[Entry], client: ClientId) -> u64
    ensures value { result ≡ begun_by client entries.now }
    ensures most { result ≤ length entries.now }
    ensures small { result < 2 ^ 63 }
{
    entries
        .iter()
        .filter(|entry| is_invoked(&entry.event, client))
        .count() as u64
}

fn is_invoked(event: &Event, client: ClientId) -> bool
    ensures { result ≡ invokes client event.now }
{
    match event {
        Event::Invoke(other, _) => client.0 == other.0,
        Event::Deliver(_) | Event::Tick(_) | Event::Inject(_, _) => false,
    }
}

/// The first event at which an operation ended, the first entry being that with the number `first`.
#[tactic(auto, unfolding(crate::specs::Operation::end_from))]
fn end(
    alloc: Global,
    entries: &[Entry],
    client: ClientId,
    number: u64,
    first: u64,
) -> Result<Option<(u64, Outcome)>, NoMemory>
    requires { first + length entries.now < 2 ^ 64 }
    ensures { IfOk result (λ ended. ended ≡ end_from client number first entries.now) }
{
    let mut at = first;
    for entry in entries {
        if let Some(outcome) = outcome_of(entry, client, number) {
            return Ok(Some((at, outcome.copy(alloc)?)));
        }
        at += 1;
    }
    Ok(None)
}

/// How an operation ended at an entry, if it did.
fn outcome_of(entry: &Entry, client: ClientId, number: u64) -> Option<&Outcome>
    ensures { option_copied result ≡ outcome_in client number entry.now.ended }
{
    match &entry.ended {
        Some((who, ended, outcome)) if who.0 == client.0 && *ended == number => Some(outcome),
        Some(_) | None => None,
    }
}
