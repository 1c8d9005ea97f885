//! What an audit reads of the sets in requests.
ghost use Rattle.std.specs.Prelude.{◌≡◌, ◌==◌, map, IfOk};
ghost use Rattle.std.specs.List.{list_all, flat_map};
ghost use Rattle.qu_history.specs.declared.sets.SetOf.{SetOf as ASet};
ghost use Rattle.qu_history.specs.Culling.{culled, history_digest, is_right};
ghost use Rattle.qu_history.specs.Sealing.{are_right};
ghost use Rattle.qu_history.specs.Text.{sets_text};
ghost use Rattle.qu_claims.specs.Digested.{history_text};

use super::text::Text;
use qu_base::{List, NoMemory, Party, ReplicaId};
use qu_history::{Sealed, SetOf, Sets};
use qu_seal::KeyRing;
use std::alloc::Global;

/// The text of the sets without the entries whose HMAC for this reader is wrong. These are the texts of their
/// histories.
#[tactic(auto, using(qu_history::proofs::RightSeals::culled_whole))]
pub fn culled_text(
    alloc: Global,
    keys: &KeyRing,
    me: ReplicaId,
    sets: &Sets,
    histories: &[Text],
) -> Result<List<u8>, NoMemory>
    requires { histories.now ≡ map history_text (flat_map (λ (set : ASet). set.entries) sets.now) }
    ensures { IfOk result (λ text. text ≡ sets_text (culled keys.now me sets.now)) }
{
    if are_right(keys, me, sets.objects().as_slice(), histories) {
        return sets.text(alloc);
    }
    let found = sets.cull(alloc, me, keys)?;
    found.sets.text(alloc)
}

/// Whether the HMAC of each entry for this reader is right, where these are the texts of all histories.
#[tactic(auto, unfolding(qu_history::specs::Sealing::are_right))]
fn are_right(keys: &KeyRing, me: ReplicaId, sets: &[SetOf], histories: &[Text]) -> bool
    requires { histories.now ≡ map history_text (flat_map (λ (set : ASet). set.entries) sets.now) }
    ensures { result ≡ are_right keys.now me sets.now }
{
    let mut left = histories;
    for set in sets {
        let (own, others) = left.split_at(set.entries.len());
        if !is_set_right(keys, me, set.entries.as_slice(), own) {
            return false;
        }
        left = others;
    }
    true
}

/// Whether the HMAC of each of these entries is right, where these are the texts of their histories.
fn is_set_right(keys: &KeyRing, me: ReplicaId, entries: &[Sealed], histories: &[Text]) -> bool
    requires { histories.now ≡ map history_text entries.now }
    ensures { result ≡ list_all (is_right keys.now me) entries.now }
{
    for (place, sealed) in entries.iter().enumerate() {
        if !is_right(keys, me, sealed, &histories[place]) {
            return false;
        }
    }
    true
}

/// Whether an entry, whose history has this text, has an HMAC for each replica, and that for this reader is right.
#[tactic(auto, unfolding(qu_history::specs::Culling::is_right, qu_history::specs::Culling::history_digest))]
fn is_right(keys: &KeyRing, me: ReplicaId, sealed: &Sealed, history: &Text) -> bool
    requires { history.now ≡ history_text sealed.now }
    ensures { result ≡ is_right keys.now me sealed.now }
{
    if sealed.macs.len() != usize::from(keys.bounds().n()) {
        return false;
    }
    match sealed.macs.get(usize::from(me.0)) {
        Some(mac) => {
            let from = Party::Replica(sealed.history.replica());
            keys.verifies(from, Party::Replica(me), &history.digest(), mac)
        }
        None => false,
    }
}
