ghost use Rattle.std.specs.Prelude.{◌≡◌, ◌≤◌, ◌<◌, ◌↔◌, ◌++◌, IsTrue, IfOk};
ghost use Rattle.qu_seal.specs.Keys.{has_party, may_share, have_key, party_code, is_first, pair_code, key_label, pair_key, key_at, replica_keys, key_of, seal_of, verifies, authenticator_of};

use super::hmac;
use qu_base::{Bounds, Digest, LAST_CLIENT, List, NoMemory, Party, REPLICA_IDS, ReplicaId};
use std::alloc::Global;
use std::marker::Model;

/// The keys of pairs of parties, of which each pair but two clients has one.
///
/// A party of the ring is a replica of its bounds, or a client from 1 to its number of clients.
#[derive(Clone, Copy)]
pub struct KeyRing {
    seed: u64,
    bounds: Bounds,
    clients: u16,
    /// The keys of pairs of replicas, each at 16 times the number of the one and that of the other.
    replicas: [[u8; 32]; PLACES],
}

/// Which ring it is: rings with one name have the same keys of the same parties.
#[derive(Clone, Copy, PartialEq, Eq)]
pub struct RingName {
    seed: u64,
    bounds: Bounds,
    clients: u16,
}

impl Model for RingName {
    ghost use Rattle.qu_seal.specs.Keys.{Ring};

    ghost Value = { Ring };

    ghost view = { λ name. record { seed = name.seed; bounds = name.bounds; clients = name.clients } };

    ghost inverse = { λ ring. record { seed = ring.seed; bounds = ring.bounds; clients = ring.clients } };
}

/// So many replicas there may be.
const SIDE: usize = 16;

const PLACES: usize = SIDE * SIDE;

impl Model for KeyRing {
    ghost use Rattle.std.specs.Prelude.{◌≡◌, ◌≤◌};
    ghost use Rattle.qu_base.specs.declared.limits.TheConstants.{LAST_CLIENT};
    ghost use Rattle.qu_seal.specs.Keys.{Ring, replica_keys};
    ghost use Rattle.std.proofs.Common.{sym};

    ghost Value = { Ring };

    ghost view = { λ keys. record { seed = keys.seed; bounds = keys.bounds; clients = keys.clients } };

    ghost invariant = { λ keys. (keys.clients ≤ LAST_CLIENT) × (keys.replicas ≡ replica_keys keys.seed) };

    ghost inverse = { λ ring. record {
      seed = ring.seed;
      bounds = ring.bounds;
      clients = ring.clients;
      replicas = replica_keys ring.seed;
    } };

    ghost inverse_ok = { λ keys is. λ i. record keys { replicas = sym is.1 i } };
}

impl KeyRing {
    /// The keys that this seed gives to the replicas of these bounds and so many clients. It takes no memory.
    pub fn derive(seed: u64, bounds: &Bounds, clients: u16) -> KeyRing
        requires { clients ≤ LAST_CLIENT }
        ensures { result ≡ record { seed = seed; bounds = bounds.now; clients = clients } }
    {
        KeyRing {
            seed,
            bounds: *bounds,
            clients,
            replicas: replica_keys(seed),
        }
    }

    /// Its name, without its keys.
    pub fn name(&self) -> RingName
        ensures { result ≡ self.now }
    {
        RingName {
            seed: self.seed,
            bounds: self.bounds,
            clients: self.clients,
        }
    }

    /// The bounds for which it was derived.
    pub fn bounds(&self) -> Bounds
        ensures { result ≡ self.now.bounds }
    {
        self.bounds
    }

    /// The number of clients for which it was derived.
    pub fn clients(&self) -> u16
        ensures value { result ≡ self.now.clients }
        ensures most { result ≤ LAST_CLIENT }
    {
        self.clients
    }

    /// Whether the party is one of the ring.
    pub fn has(&self, party: Party) -> bool
        ensures { result ≡ has_party self.now party }
    {
        match party {
            Party::Replica(me) => me.0 < self.bounds.n(),
            Party::Client(me) => 1 <= me.0 && me.0 <= self.clients,
        }
    }

    /// Whether two parties have a key: both are of the ring, and not both are clients.
    pub fn have_key(&self, me: Party, other: Party) -> bool
        ensures { result ≡ have_key self.now me other }
    {
        self.has(me) && self.has(other) && may_share(me, other)
    }

    /// The HMAC of a digest that one party makes for another.
    #[tactic(auto, unfolding(crate::specs::Keys::seal_of))]
    pub fn seal_for(&self, me: Party, other: Party, text: &Digest) -> [u8; 32]
        ensures { result ≡ seal_of self.now me other text.now }
    {
        hmac(&self.key(me, other), &text.0)
    }

    /// Whether this is the HMAC of a digest that one party makes for another, and the two have a key.
    #[tactic(auto, unfolding(crate::specs::Keys::verifies))]
    pub fn verifies(&self, me: Party, other: Party, text: &Digest, mac: &[u8; 32]) -> bool
        ensures value { result ≡ verifies self.now me other text.now mac.now }
        ensures right { IsTrue result ↔ (IsTrue (have_key self.now me other)
            × (mac.now ≡ seal_of self.now me other text.now)) }
    {
        self.have_key(me, other) && *mac == self.seal_for(me, other, text)
    }

    /// The HMACs of a digest that a replica makes for each replica.
    #[tactic(auto, unfolding(crate::specs::Keys::authenticator_of))]
    pub fn authenticator(
        &self,
        alloc: Global,
        me: ReplicaId,
        text: &Digest,
    ) -> Result<List<[u8; 32]>, NoMemory>
        ensures { IfOk result (λ macs. macs ≡ authenticator_of self.now me text.now) }
    {
        let mut macs = List::new(alloc);
        for number in 0..self.bounds.n() {
            let other = Party::Replica(ReplicaId(number));
            macs.push(self.seal_for(Party::Replica(me), other, text))?;
        }
        Ok(macs)
    }

    /// The key of a pair.
    #[tactic(auto, unfolding(crate::specs::Keys::key_of), using(crate::proofs::Tables::key_there))]
    fn key(&self, me: Party, other: Party) -> [u8; 32]
        ensures { result ≡ key_of self.now me other }
    {
        match (me, other) {
            (Party::Replica(one), Party::Replica(two))
                if one.0 < REPLICA_IDS && two.0 < REPLICA_IDS => {
                self.replicas[SIDE * usize::from(one.0) + usize::from(two.0)]
            }
            (Party::Replica(_) | Party::Client(_), _) => pair_key(self.seed, me, other),
        }
    }
}

/// The keys of all pairs of replicas.
fn replica_keys(seed: u64) -> [[u8; 32]; PLACES]
    ensures { result ≡ replica_keys seed }
{
    let mut keys = [[0; 32]; PLACES];
    for place in 0..PLACES {
        keys[place] = key_at(seed, place);
    }
    keys
}

/// The key of the replicas at this place.
fn key_at(seed: u64, place: usize) -> [u8; 32]
    requires { place < 256 }
    ensures { result ≡ key_at seed place }
{
    let one = ReplicaId((place / SIDE) as u8);
    let two = ReplicaId((place % SIDE) as u8);
    pair_key(seed, Party::Replica(one), Party::Replica(two))
}

/// The key of a pair under a seed.
fn pair_key(seed: u64, me: Party, other: Party) -> [u8; 32]
    ensures { result ≡ pair_key seed me other }
{
    hmac(&seed.to_be_bytes(), &pair_text(me, other))
}

/// Whether not both are clients.
fn may_share(me: Party, other: Party) -> bool
    ensures { result ≡ may_share me other }
{
    !matches!((me, other), (Party::Client(_), Party::Client(_)))
}

/// The text of which a pair's key is the HMAC.
fn pair_text(me: Party, other: Party) -> [u8; 12]
    ensures { result ≡ key_label ++ pair_code me other }
{
    let (first, second) = if is_first(me, other) {
        (code_of(me), code_of(other))
    } else {
        (code_of(other), code_of(me))
    };
    [
        b'q', b'u', b'-', b'k', b'e', b'y', first[0], first[1], first[2], second[0], second[1],
        second[2],
    ]
}

/// The code of a party.
fn code_of(party: Party) -> [u8; 3]
    ensures { result ≡ party_code party }
{
    let (kind, number) = match party {
        Party::Replica(me) => (0, u16::from(me.0)),
        Party::Client(me) => (1, me.0),
    };
    let bytes = number.to_be_bytes();
    [kind, bytes[0], bytes[1]]
}

/// Whether the first code is not above the second.
fn is_first(me: Party, other: Party) -> bool
    ensures { result ≡ is_first me other }
{
    match (me, other) {
        (Party::Replica(me), Party::Replica(other)) => me.0 <= other.0,
        (Party::Replica(_), Party::Client(_)) => true,
        (Party::Client(_), Party::Replica(_)) => false,
        (Party::Client(me), Party::Client(other)) => me.0 <= other.0,
    }
}
