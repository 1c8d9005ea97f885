ghost use Rattle.std.specs.Prelude.{◌≡◌, ◌+◌, ◌++◌, [], length, IfOk, OnOk};
ghost use Rattle.qu_trace.specs.Faulty.{is_same};
ghost use Rattle.qu_gather.specs.Ticks.{is_delivery_of, is_tick_of, is_in_time, asker_of, waiting_client, senders_of, late_for, late_among, late_letter};

use qu_base::{ClientId, NoMemory, Party};
use qu_frames::Letter;
use qu_trace::{Entry, Event, Setup};
use std::alloc::Global;

/// The lowest letter that was not delivered before the client that waits for it ticked, with this client. A client
/// waits for its own letters to correct parties, and for what is sent to it where one of them is delivered.
#[tactic(auto, unfolding(crate::specs::Ticks::late_letter))]
pub fn late_letter(
    alloc: Global,
    setup: &Setup,
    entries: &[Entry],
) -> Result<Option<(ClientId, u64)>, NoMemory>
    ensures { IfOk result (λ late. late ≡ late_letter setup.now [] entries.now) }
{
    let mut senders = Vec::new(alloc);
    for (at, entry) in entries.iter().enumerate() {
        let asker = asker_of(senders.as_slice(), &entry.event);
        let letters = entry.letters.as_slice();
        let late = late_among(
            setup,
            asker,
            senders.as_slice(),
            letters,
            &entries[at + 1..],
        );
        if late.is_some() {
            return Ok(late);
        }
        put_senders(&mut senders, letters)?;
    }
    Ok(None)
}

/// Puts the senders of letters behind others.
fn put_senders(senders: &mut Vec<Party>, letters: &[Letter]) -> Result<(), NoMemory>
    ensures { OnOk result (senders.new.items
        ≡ senders.old.items ++ senders_of letters.now) }
{
    for letter in letters {
        senders.push(letter.from)?;
    }
    Ok(())
}

/// The lowest of these letters that comes too late, where the letters before have these senders.
#[tactic(auto, unfolding(crate::specs::Ticks::late_among))]
fn late_among(
    setup: &Setup,
    asker: Option<ClientId>,
    senders: &[Party],
    letters: &[Letter],
    later: &[Entry],
) -> Option<(ClientId, u64)>
    ensures { result ≡ late_among setup.now asker (length senders.now + 1) letters.now later.now }
{
    for (place, letter) in letters.iter().enumerate() {
        let number = senders.len() as u64 + place as u64 + 1;
        let late = late_for(waiting_client(setup, asker, letter), number, later);
        if late.is_some() {
            return late;
        }
    }
    None
}

/// The client and the letter, where it is not delivered before the client ticks.
fn late_for(waiting: Option<ClientId>, number: u64, later: &[Entry]) -> Option<(ClientId, u64)>
    ensures { result ≡ late_for waiting number later.now }
{
    let me = waiting?;
    if is_in_time(me, number, later) {
        None
    } else {
        Some((me, number))
    }
}

/// Whether a letter is delivered before the client ticks, if it does.
#[tactic(auto, unfolding(crate::specs::Ticks::is_in_time))]
fn is_in_time(me: ClientId, number: u64, later: &[Entry]) -> bool
    ensures { result ≡ is_in_time me number later.now }
{
    for entry in later {
        if is_delivery_of(number, &entry.event) {
            return true;
        }
        if is_tick_of(me, &entry.event) {
            return false;
        }
    }
    true
}

fn is_delivery_of(number: u64, event: &Event) -> bool
    ensures { result ≡ is_delivery_of number event.now }
{
    match event {
        Event::Deliver(letter) => *letter == number,
        Event::Invoke(_, _) | Event::Tick(_) | Event::Inject(_, _) => false,
    }
}

fn is_tick_of(me: ClientId, event: &Event) -> bool
    ensures { result ≡ is_tick_of me event.now }
{
    match event {
        Event::Tick(client) => client.0 == me.0,
        Event::Invoke(_, _) | Event::Deliver(_) | Event::Inject(_, _) => false,
    }
}

/// The client whose letter an event delivers, where the letters so far have these senders.
fn asker_of(senders: &[Party], event: &Event) -> Option<ClientId>
    ensures { result ≡ asker_of senders.now event.now }
{
    let Event::Deliver(number) = event else {
        return None;
    };
    let place = number.checked_sub(1)?;
    match senders.get(place as usize) {
        Some(Party::Client(me)) => Some(*me),
        Some(Party::Replica(_)) | None => None,
    }
}

/// The client that waits for a letter, which was sent upon one of this client.
fn waiting_client(setup: &Setup, asker: Option<ClientId>, letter: &Letter) -> Option<ClientId>
    ensures { result ≡ waiting_client setup.now asker letter.now }
{
    match letter.from {
        Party::Client(_) if setup.is_faulty(letter.to) => None,
        Party::Client(me) => Some(me),
        Party::Replica(_) => match asker {
            Some(me) if is_same(letter.to, Party::Client(me)) => Some(me),
            Some(_) | None => None,
        },
    }
}

fn is_same(one: Party, other: Party) -> bool
    ensures { result ≡ is_same one other }
{
    one == other
}
