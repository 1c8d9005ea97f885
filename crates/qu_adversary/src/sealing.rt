ghost use Rattle.std.specs.Prelude.{◌≡◌, IfOk};
ghost use Rattle.qu_adversary.specs.Sealing.{is_number_in, mac_for, authenticator_for, sealed_for};

use qu_base::{Digest, List, NoMemory, Party, ReplicaId};
use qu_frames::blank_mac;
use qu_history::{History, Sealed};
use qu_seal::KeyRing;
use std::alloc::Global;

/// A history with HMACs by this replica, whosever history it is. Those for the replicas of `good` are
/// right; the others are 32 zero bytes each.
pub fn sealed_for(
    alloc: Global,
    keys: &KeyRing,
    me: ReplicaId,
    history: &History,
    good: &[ReplicaId],
) -> Result<Sealed, NoMemory>
    ensures { IfOk result (λ sealed. sealed ≡ sealed_for keys.now me good.now history.now) }
{
    let text = history.digest(alloc)?;
    let macs = authenticator_for(alloc, keys, me, good, &text)?;
    Ok(Sealed {
        history: history.copy(alloc)?,
        macs,
    })
}

/// The HMACs of a digest, one for each replica.
#[tactic(auto, unfolding(crate::specs::Sealing::authenticator_for))]
fn authenticator_for(
    alloc: Global,
    keys: &KeyRing,
    me: ReplicaId,
    good: &[ReplicaId],
    text: &Digest,
) -> Result<List<[u8; 32]>, NoMemory>
    ensures { IfOk result (λ macs. macs ≡ authenticator_for keys.now me good.now text.now) }
{
    let mut macs = List::new(alloc);
    for number in 0..keys.bounds().n() {
        macs.push(mac_for(keys, me, good, number, text))?;
    }
    Ok(macs)
}

/// The HMAC for the replica with this number.
#[tactic(auto, unfolding(crate::specs::Sealing::mac_for))]
fn mac_for(keys: &KeyRing, me: ReplicaId, good: &[ReplicaId], number: u8, text: &Digest) -> [u8; 32]
    ensures { result ≡ mac_for keys.now me good.now text.now number }
{
    if is_number_in(good, number) {
        let other = Party::Replica(ReplicaId(number));
        keys.seal_for(Party::Replica(me), other, text)
    } else {
        blank_mac()
    }
}

/// Whether the replica with this number is one of these.
fn is_number_in(good: &[ReplicaId], number: u8) -> bool
    ensures { result ≡ is_number_in good.now number }
{
    good.iter().any(|other| other.0 == number)
}
