ghost use Rattle.std.specs.Prelude.{◌≡◌};
ghost use Rattle.qu_trace.specs.Letters.{letters_of};
ghost use Rattle.qu_world.specs.State.{numbered};
ghost use Rattle.qu_world.specs.Refusals.{limit_at, refused_invocation, refused_tick, refused_delivery, is_party, refused_injection};

use super::parties::client_at;
use super::{BYTE_LIMIT, EVENT_LIMIT, WorldFail};
use qu_base::{ClientId, Party};
use qu_client::Client;
use qu_replica::Replica;
use qu_trace::Sent;

/// Why no event happens any more in a run of so many events and so many bytes of letters.
pub fn limit_at(events: usize, bytes: u128) -> Option<WorldFail>
    ensures { result ≡ limit_at events bytes }
{
    if events >= EVENT_LIMIT {
        Some(WorldFail::TooManyEvents)
    } else if bytes >= BYTE_LIMIT {
        Some(WorldFail::TooManyBytes)
    } else {
        None
    }
}

/// Why a letter is not delivered.
pub fn refuse_delivery(entries: &Sent<'_>, number: u64) -> Option<WorldFail>
    ensures { result ≡ refused_delivery number (numbered (letters_of entries.now) number) }
{
    match entries.letter(number) {
        Some(_) => None,
        None => Some(WorldFail::NoSuchLetter(number)),
    }
}

/// Why a client does not begin an operation.
pub fn refuse_invocation(clients: &[Client], me: ClientId) -> Option<WorldFail>
    ensures { result ≡ refused_invocation (Party.Client me) (numbered clients.now me.0) }
{
    match client_at(clients, me) {
        Some(client) if client.busy() => Some(WorldFail::Busy),
        Some(_) => None,
        None => Some(WorldFail::NoSuchActor(Party::Client(me))),
    }
}

/// Why time does not pass at a client.
pub fn refuse_tick(clients: &[Client], me: ClientId) -> Option<WorldFail>
    ensures { result ≡ refused_tick (Party.Client me) (numbered clients.now me.0) }
{
    match client_at(clients, me) {
        Some(_) => None,
        None => Some(WorldFail::NoSuchActor(Party::Client(me))),
    }
}

/// Why bytes are not injected to a party.
pub fn refuse_injection(replicas: &[Replica], clients: &[Client], who: Party) -> Option<WorldFail>
    ensures { result ≡ refused_injection who (is_party replicas.now clients.now who) }
{
    if is_party(replicas, clients, who) {
        None
    } else {
        Some(WorldFail::NoSuchActor(who))
    }
}

/// Whether a party is of the setup.
fn is_party(replicas: &[Replica], clients: &[Client], who: Party) -> bool
    ensures { result ≡ is_party replicas.now clients.now who }
{
    match who {
        Party::Replica(me) => replicas.get(usize::from(me.0)).is_some(),
        Party::Client(me) => client_at(clients, me).is_some(),
    }
}
