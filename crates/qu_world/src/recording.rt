ghost use Rattle.std.specs.Prelude.{◌≡◌, ◌≤◌, ◌+◌, ◌-◌, ◌^◌, IfOk, OnOk, OnErr};
ghost use Rattle.qu_trace.specs.Letters.{bytes_sent};
ghost use Rattle.qu_trace.specs.Starts.{AreStarts};
ghost use Rattle.qu_world.specs.Parties.{MayBegin, Receives, Steps, Makes, MakesEntry};
ghost use Rattle.qu_world.specs.Step.{at_faulty};

use super::letters::bytes_in;
use super::parties::{Made, invoke_client, step_client, step_replica, tick_client};
use qu_base::{List, NoMemory, Party};
use qu_client::Client;
use qu_frames::Reading;
use qu_replica::Replica;
use qu_trace::{Entry, Event, Sent, Setup, Starts, Trace};
use std::alloc::Global;
use std::mem;

/// What a text that reaches a party makes of the parties. Without memory they are as before.
fn take_text(
    alloc: Global,
    replicas: &mut Vec<Replica>,
    last: &mut Option<Reading>,
    clients: &mut Vec<Client>,
    to: Party,
    text: &[u8],
) -> Result<Made, NoMemory>
    ensures made { IfOk result (Receives replicas.old.items replicas.new.items clients.old.items clients.new.items
        to text.now) }
    ensures replicas_stay { OnErr result (replicas.new.items ≡ replicas.old.items) }
    ensures clients_stay { OnErr result (clients.new.items ≡ clients.old.items) }
{
    match to {
        Party::Replica(me) => step_replica(alloc, replicas, last, me, text),
        Party::Client(me) => step_client(alloc, clients, me, text),
    }
}

/// What the party at which an event happens makes of the parties. Without memory they are as before.
fn step(
    alloc: Global,
    replicas: &mut Vec<Replica>,
    last: &mut Option<Reading>,
    clients: &mut Vec<Client>,
    entries: &Sent<'_>,
    event: &Event,
) -> Result<Made, NoMemory>
    requires { MayBegin clients.old.items event.now }
    ensures made { IfOk result (Steps replicas.old.items replicas.new.items clients.old.items clients.new.items
        entries.now event.now) }
    ensures replicas_stay { OnErr result (replicas.new.items ≡ replicas.old.items) }
    ensures clients_stay { OnErr result (clients.new.items ≡ clients.old.items) }
{
    match event {
        Event::Invoke(me, op) => {
            let op = op.copy(alloc)?;
            invoke_client(clients, *me, op)
        }
        Event::Deliver(number) => match entries.letter(*number) {
            None => Ok(Made::nothing(alloc)),
            Some(letter) => take_text(
                alloc,
                replicas,
                last,
                clients,
                letter.to,
                letter.text.as_slice(),
            ),
        },
        Event::Tick(me) => tick_client(alloc, clients, *me),
        Event::Inject(to, text) => take_text(alloc, replicas, last, clients, *to, text.as_slice()),
    }
}

/// Whether an event happens at a faulty party.
fn is_at_faulty(setup: &Setup, entries: &Sent<'_>, event: &Event) -> bool
    ensures { result ≡ at_faulty setup.now entries.now event.now }
{
    match event {
        Event::Invoke(me, _) | Event::Tick(me) => setup.is_faulty(Party::Client(*me)),
        Event::Deliver(number) => match entries.letter(*number) {
            None => false,
            Some(letter) => setup.is_faulty(letter.to),
        },
        Event::Inject(to, _) => setup.is_faulty(*to),
    }
}

/// What an event makes of the parties: nothing where it happens at a faulty one. Without memory they are as before.
fn make(
    alloc: Global,
    setup: &Setup,
    replicas: &mut Vec<Replica>,
    last: &mut Option<Reading>,
    clients: &mut Vec<Client>,
    entries: &Sent<'_>,
    event: &Event,
) -> Result<Made, NoMemory>
    requires { MayBegin clients.old.items event.now }
    ensures made { IfOk result (Makes setup.now replicas.old.items replicas.new.items clients.old.items
        clients.new.items entries.now event.now) }
    ensures replicas_stay { OnErr result (replicas.new.items ≡ replicas.old.items) }
    ensures clients_stay { OnErr result (clients.new.items ≡ clients.old.items) }
{
    if is_at_faulty(setup, entries, event) {
        return Ok(Made::nothing(alloc));
    }
    step(alloc, replicas, last, clients, entries, event)
}

/// Records an event with what it makes of the parties, and tells how many bytes were sent. Room for
/// the record is made first.
#[tactic(auto, using(qu_trace::proofs::LetterLaws::bytes_sent_more))]
fn push_event(
    alloc: Global,
    setup: &Setup,
    replicas: &mut Vec<Replica>,
    last: &mut Option<Reading>,
    clients: &mut Vec<Client>,
    entries: &mut Vec<Entry>,
    starts: &mut Starts,
    event: Event,
) -> Result<u128, NoMemory>
    requires begin { MayBegin clients.old.items event }
    requires starts { AreStarts entries.old.items starts.old }
    ensures ok { OnOk result (MakesEntry setup.now replicas.old.items replicas.new.items clients.old.items
        clients.new.items entries.old.items entries.new.items event) }
    ensures sent { IfOk result (λ bytes. bytes_sent entries.new.items ≡ bytes_sent entries.old.items + bytes) }
    ensures most { IfOk result (λ bytes. bytes ≤ 2 ^ 128 - 2 ^ 64) }
    ensures replicas_stay { OnErr result (replicas.new.items ≡ replicas.old.items) }
    ensures clients_stay { OnErr result (clients.new.items ≡ clients.old.items) }
    ensures entries_stay { OnErr result (entries.new.items ≡ entries.old.items) }
    ensures starts { AreStarts entries.new.items starts.new }
{
    entries.reserve(1)?;
    starts.places.reserve(1)?;
    let made = make(
        alloc,
        setup,
        replicas,
        last,
        clients,
        &Sent::new(entries.as_slice(), starts.places.as_slice()),
        &event,
    )?;
    let bytes = bytes_in(made.letters.as_slice());
    starts.places.push_reserved(starts.next);
    starts.next = starts.next.saturating_add(made.letters.len() as u64);
    entries.push_reserved(Entry {
        event,
        letters: made.letters,
        ended: made.ended,
    });
    Ok(bytes)
}

/// Lets an event happen, records it in the trace, and tells how many bytes were sent.
pub fn record_event(
    alloc: Global,
    replicas: &mut Vec<Replica>,
    last: &mut Option<Reading>,
    clients: &mut Vec<Client>,
    trace: &mut Trace,
    starts: &mut Starts,
    event: Event,
) -> Result<u128, NoMemory>
    requires begin { MayBegin clients.old.items event }
    requires starts { AreStarts trace.old.entries starts.old }
    ensures ok { OnOk result (MakesEntry trace.old.setup replicas.old.items replicas.new.items clients.old.items
        clients.new.items trace.old.entries trace.new.entries event) }
    ensures sent { IfOk result (λ bytes. bytes_sent trace.new.entries ≡ bytes_sent trace.old.entries + bytes) }
    ensures most { IfOk result (λ bytes. bytes ≤ 2 ^ 128 - 2 ^ 64) }
    ensures setup { trace.new.setup ≡ trace.old.setup }
    ensures replicas_stay { OnErr result (replicas.new.items ≡ replicas.old.items) }
    ensures clients_stay { OnErr result (clients.new.items ≡ clients.old.items) }
    ensures trace_stays { OnErr result (trace.new ≡ trace.old) }
    ensures starts { AreStarts trace.new.entries starts.new }
{
    let mut entries = mem::replace(&mut trace.entries, List::new(alloc)).into_vec();
    let recorded = push_event(
        alloc,
        &trace.setup,
        replicas,
        last,
        clients,
        &mut entries,
        starts,
        event,
    );
    trace.entries = List::from(entries);
    recorded
}
