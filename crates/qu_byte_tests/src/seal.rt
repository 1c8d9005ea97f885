use qu_base::{Bounds, ClientId, Digest, Party, ReplicaId};
use qu_seal::KeyRing;
use qu_testing::{all_hold, holds};
use std::test::Fail;

const TEXT: Digest = Digest([9; 32]);

fn ring() -> Result<KeyRing, Fail> {
    Ok(KeyRing::derive(7, &Bounds::new(1)?, 2))
}

fn replica(number: u8) -> Party {
    Party::Replica(ReplicaId(number))
}

fn client(number: u16) -> Party {
    Party::Client(ClientId(number))
}

#[test]
fn a_ring_has_its_parties() -> Result<(), Fail> {
    let keys = ring()?;
    all_hold(&[
        (keys.bounds().n() == 6, "six replicas"),
        (keys.clients() == 2, "two clients"),
        (
            keys.has(replica(0)) && keys.has(replica(5)),
            "replicas 0 to 5",
        ),
        (!keys.has(replica(6)), "no replica 6"),
        (
            keys.has(client(1)) && keys.has(client(2)),
            "clients 1 and 2",
        ),
        (
            !keys.has(client(0)) && !keys.has(client(3)),
            "no client 0 or 3",
        ),
    ])
}

#[test]
fn an_authenticator_has_an_hmac_for_each_replica(rt: HostRuntime) -> Result<(), Fail> {
    let keys = ring()?;
    let macs = keys.authenticator(rt.alloc(), ReplicaId(3), &TEXT)?;
    holds(
        macs.len() == 6 && are_of_replica_3(&keys, macs.as_slice()),
        "six HMACs, each for its replica",
    )
}

/// Whether each of these is the HMAC of replica 3 for the replica at its place.
fn are_of_replica_3(keys: &KeyRing, macs: &[[u8; 32]]) -> bool {
    for (number, mac) in (0..6).zip(macs) {
        if !keys.verifies(replica(3), replica(number), &TEXT, mac) {
            return false;
        }
    }
    true
}
