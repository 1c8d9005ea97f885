ghost use Rattle.std.specs.Prelude.{◌≡◌};
ghost use Rattle.std.specs.Result.{result_map_both};
ghost use Rattle.qu_script_words.specs.Parties.{replica_by_number, client_by_number, replica_rule, client_rule, correct_replica_rule, correct_client_rule, party_from};

use super::rules::read_number;
use super::{BadKind, Words};
use qu_base::{Bounds, ClientId, LAST_CLIENT, Party, ReplicaId};
use qu_trace::Setup;

/// The replica with this number, where so many may lie.
pub fn replica_by_number(bounds: &Bounds, number: u64) -> Result<ReplicaId, BadKind>
    ensures { result ≡ replica_by_number bounds.now number }
{
    if number < u64::from(bounds.n()) {
        Ok(ReplicaId(number as u8))
    } else {
        Err(BadKind::NoSuchActor)
    }
}

/// The client with this number, where there are so many.
pub fn client_by_number(clients: u16, number: u64) -> Result<ClientId, BadKind>
    ensures { result ≡ client_by_number clients number }
{
    if number < 1 || number > u64::from(LAST_CLIENT) {
        return Err(BadKind::OverLimit);
    }
    if number > u64::from(clients) {
        return Err(BadKind::NoSuchActor);
    }
    Ok(ClientId(number as u16))
}

/// A replica, where so many may lie.
pub fn read_replica(bounds: &Bounds, word: &[u8]) -> Result<ReplicaId, BadKind>
    ensures { result ≡ replica_rule bounds.now word.now }
{
    replica_by_number(bounds, read_number(word)?)
}

/// A client, where there are so many.
pub fn read_client(clients: u16, word: &[u8]) -> Result<ClientId, BadKind>
    ensures { result ≡ client_rule clients word.now }
{
    client_by_number(clients, read_number(word)?)
}

/// A correct replica.
pub fn read_correct_replica(setup: &Setup, word: &[u8]) -> Result<ReplicaId, BadKind>
    ensures { result ≡ correct_replica_rule setup.now word.now }
{
    let me = read_replica(&setup.bounds, word)?;
    if setup.is_faulty(Party::Replica(me)) {
        Err(BadKind::NoSuchActor)
    } else {
        Ok(me)
    }
}

/// A correct client.
pub fn read_correct_client(setup: &Setup, word: &[u8]) -> Result<ClientId, BadKind>
    ensures { result ≡ correct_client_rule setup.now word.now }
{
    let me = read_client(setup.clients, word)?;
    if setup.is_faulty(Party::Client(me)) {
        Err(BadKind::NoSuchActor)
    } else {
        Ok(me)
    }
}

/// `replica R` or `client C`.
#[tactic(auto, unfolding(crate::specs::Parties::party_from))]
pub fn read_party(setup: &Setup, words: &mut Words<'_>) -> Result<Party, BadKind>
    ensures { result_map_both (λ party. (party, words.new)) (λ kind. kind) result ≡ party_from setup.now words.old }
{
    let kind = words.next()?;
    if kind == b"replica".as_slice() {
        let me = read_replica(&setup.bounds, words.next()?)?;
        Ok(Party::Replica(me))
    } else if kind == b"client".as_slice() {
        let me = read_client(setup.clients, words.next()?)?;
        Ok(Party::Client(me))
    } else {
        Err(BadKind::UnknownWord)
    }
}
