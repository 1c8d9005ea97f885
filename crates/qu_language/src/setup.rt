ghost use Rattle.std.specs.Prelude.{◌≡◌, ◌≤◌, ◌+◌, ◌<◌, ◌∷◌, [], ◌++◌, count_by, if◌then◌else◌, Err, IfOk};
ghost use Rattle.std.specs.List.{list_all};
ghost use Rattle.qu_base.specs.declared.limits.TheConstants.{OBJECT_IDS};
ghost use Rattle.qu_trace.specs.Faulty.{is_replica};
ghost use Rattle.qu_script_words.specs.Words.{only_of};
ghost use Rattle.qu_language.specs.Setup.{kind_rule, object_in_turn, object_line, party_number, rises, rises_in_clients, faulty_replica, faulty_client, faulty_replica_rule, faulty_client_rule, faulty_line};

use qu_base::{OBJECT_IDS, Party};
use qu_objects::KindName;
use qu_script_words::{BadKind, Words, client_by_number, read_number, replica_by_number};
use qu_trace::Setup;

/// `I KIND`, behind the lines of so many objects.
#[tactic(auto, unfolding(crate::specs::Setup::object_line))]
pub fn read_object_line(count: usize, words: &mut Words<'_>) -> Result<KindName, BadKind>
    ensures value { result ≡ object_line count words.old }
    ensures room { IfOk result (λ kind. count < OBJECT_IDS) }
{
    let number = read_number(words.next()?)?;
    object_in_turn(count, number)?;
    let kind = read_kind(words.next()?)?;
    words.end()?;
    Ok(kind)
}

/// The number, where it is that of the object behind so many.
fn object_in_turn(count: usize, number: u64) -> Result<u64, BadKind>
    ensures value { result ≡ object_in_turn count number }
    ensures room { IfOk result (λ number. count < OBJECT_IDS) }
{
    if number != count as u64 {
        return Err(BadKind::OutOfOrder);
    }
    if number >= u64::from(OBJECT_IDS) {
        return Err(BadKind::OverLimit);
    }
    Ok(number)
}

/// `counter`, `blob` or `dir`.
#[tactic(auto, unfolding(crate::specs::Setup::kind_rule))]
fn read_kind(word: &[u8]) -> Result<KindName, BadKind>
    ensures { result ≡ kind_rule word.now }
{
    if word == b"counter".as_slice() {
        Ok(KindName::Counter)
    } else if word == b"blob".as_slice() {
        Ok(KindName::Blob)
    } else if word == b"dir".as_slice() {
        Ok(KindName::Dir)
    } else {
        Err(BadKind::UnknownWord)
    }
}

/// `replica R` or `client C`, where the party may be listed behind the faulty ones of the setup.
#[tactic(auto, unfolding(crate::specs::Setup::faulty_line))]
pub fn read_faulty_line(setup: &Setup, words: &mut Words<'_>) -> Result<Party, BadKind>
    ensures value { result ≡ faulty_line setup.now words.old }
    ensures few { count_by is_replica setup.now.liars ≤ setup.now.bounds
        → IfOk result (λ who. count_by is_replica (setup.now.liars ++ who ∷ []) ≤ setup.now.bounds) }
{
    let kind = words.next()?;
    if kind == b"replica".as_slice() {
        read_faulty_replica(setup, words)
    } else if kind == b"client".as_slice() {
        read_faulty_client(setup, words)
    } else {
        Err(BadKind::UnknownWord)
    }
}

/// `R`, where replicas alone are listed.
fn read_faulty_replica(setup: &Setup, words: &mut Words<'_>) -> Result<Party, BadKind>
    ensures value { result ≡ if list_all is_replica setup.now.liars
        then only_of (faulty_replica_rule setup.now) words.old else Err BadKind.OutOfOrder }
    ensures few { IfOk result (λ who. count_by is_replica (setup.now.liars ++ who ∷ []) ≤ setup.now.bounds) }
{
    if !are_replicas(setup.liars.as_slice()) {
        return Err(BadKind::OutOfOrder);
    }
    let who = faulty_replica(setup, read_number(words.next()?)?)?;
    words.end()?;
    Ok(who)
}

/// `C`.
fn read_faulty_client(setup: &Setup, words: &mut Words<'_>) -> Result<Party, BadKind>
    ensures value { result ≡ only_of (faulty_client_rule setup.now) words.old }
    ensures few { IfOk result (λ who. count_by is_replica (setup.now.liars ++ who ∷ [])
        ≡ count_by is_replica setup.now.liars) }
{
    let who = faulty_client(setup, read_number(words.next()?)?)?;
    words.end()?;
    Ok(who)
}

/// The next faulty replica, where replicas alone are listed.
#[tactic(auto, using(crate::proofs::LiarFacts::liar_facts))]
fn faulty_replica(setup: &Setup, number: u64) -> Result<Party, BadKind>
    ensures value { result ≡ faulty_replica setup.now number }
    ensures few { IfOk result (λ who. count_by is_replica (setup.now.liars ++ who ∷ []) ≤ setup.now.bounds) }
{
    let liars = setup.liars.as_slice();
    if !rises(liars, number) {
        return Err(BadKind::OutOfOrder);
    }
    let me = replica_by_number(&setup.bounds, number)?;
    if liars.len() >= usize::from(setup.bounds.b()) {
        return Err(BadKind::OverLimit);
    }
    Ok(Party::Replica(me))
}

/// The next faulty client.
#[tactic(auto, using(crate::proofs::LiarFacts::liar_facts))]
fn faulty_client(setup: &Setup, number: u64) -> Result<Party, BadKind>
    ensures value { result ≡ faulty_client setup.now number }
    ensures few { IfOk result (λ who. count_by is_replica (setup.now.liars ++ who ∷ [])
        ≡ count_by is_replica setup.now.liars) }
{
    if !rises_in_clients(setup.liars.as_slice(), number) {
        return Err(BadKind::OutOfOrder);
    }
    let me = client_by_number(setup.clients, number)?;
    Ok(Party::Client(me))
}

/// Whether replicas alone are listed.
fn are_replicas(liars: &[Party]) -> bool
    ensures { result ≡ list_all is_replica liars.now }
{
    liars.iter().all(|liar| is_replica(*liar))
}

/// Whether a number is above those of all these parties.
fn rises(liars: &[Party], number: u64) -> bool
    ensures { result ≡ rises liars.now number }
{
    liars.iter().all(|liar| party_number(*liar) < number)
}

/// Whether a number is above those of all clients among these parties.
fn rises_in_clients(liars: &[Party], number: u64) -> bool
    ensures { result ≡ rises_in_clients liars.now number }
{
    liars
        .iter()
        .all(|liar| is_replica(*liar) || party_number(*liar) < number)
}

fn is_replica(who: Party) -> bool
    ensures { result ≡ is_replica who }
{
    match who {
        Party::Replica(_) => true,
        Party::Client(_) => false,
    }
}

fn party_number(who: Party) -> u64
    ensures { result ≡ party_number who }
{
    match who {
        Party::Replica(me) => u64::from(me.0),
        Party::Client(me) => u64::from(me.0),
    }
}
