ghost use Rattle.std.specs.Prelude.{◌≡◌, [], IfOk, IsTrue};
ghost use Rattle.std.specs.List.{list_all};
ghost use Rattle.qu_history.specs.Culling.{is_right, culled, left_out};
ghost use Rattle.qu_history.specs.Digested.{entry_digests, history_digests};
ghost use Rattle.qu_history.specs.Sealing.{are_right};
ghost use Rattle.qu_history.specs.Text.{sets_digest};

use super::{Culled, Sealed, SetOf, Sets};
use qu_base::{Digest, List, NoMemory, ReplicaId};
use qu_seal::KeyRing;
use std::alloc::Global;
use std::marker::Model;

/// Sets with the digests that are made of them: that of each history, and that of the whole sets. They are made
/// once, however many replicas look at the sets.
#[derive(Drop)]
pub struct DigestedSets {
    sets: Sets,
    histories: List<List<Digest>>,
    whole: Digest,
}

impl Model for DigestedSets {
    ghost use Rattle.std.specs.Prelude.{◌≡◌, List};
    ghost use Rattle.qu_history.specs.declared.sets.SetOf.{SetOf};
    ghost use Rattle.qu_history.specs.Digested.{history_digests};
    ghost use Rattle.qu_history.specs.Text.{sets_digest};

    ghost Value = { List SetOf };

    ghost view = { λ digested. digested.sets };

    ghost invariant = { λ digested. (digested.histories ≡ history_digests digested.sets)
        × (digested.whole ≡ sets_digest digested.sets) };
}

impl DigestedSets {
    /// These sets with their digests, for whose texts it takes memory.
    pub fn of(alloc: Global, sets: Sets) -> Result<DigestedSets, NoMemory>
        ensures { IfOk result (λ digested. digested ≡ sets) }
    {
        let histories = history_digests(alloc, sets.objects().as_slice())?;
        let whole = sets.digest_of(alloc)?;
        Ok(DigestedSets {
            sets,
            histories,
            whole,
        })
    }

    /// The sets.
    pub fn sets(&self) -> &Sets
        ensures { result.now ≡ self.now }
    {
        &self.sets
    }

    /// The digest of the whole sets.
    pub fn digest_of(&self) -> Digest
        ensures { result ≡ sets_digest self.now }
    {
        self.whole
    }

    /// Whether the HMAC of each entry is right for this reader. Then the sets stay whole where they are culled.
    #[tactic(auto, using(crate::proofs::RightSeals::culled_whole, crate::proofs::RightSeals::none_left_out))]
    pub fn are_right(&self, me: ReplicaId, keys: &KeyRing) -> bool
        ensures value { result ≡ are_right keys.now me self.now }
        ensures stay { IsTrue result → culled keys.now me self.now ≡ self.now }
        ensures none_left { IsTrue result → left_out keys.now me self.now ≡ [] }
    {
        are_right(
            self.sets.objects().as_slice(),
            self.histories.as_slice(),
            me,
            keys,
        )
    }

    /// The sets without the entries whose HMAC for this reader is wrong, and which entries these are.
    pub fn cull(&self, alloc: Global, me: ReplicaId, keys: &KeyRing) -> Result<Culled, NoMemory>
        ensures sets { IfOk result (λ found. found.sets ≡ culled keys.now me self.now) }
        ensures left { IfOk result (λ found. found.left ≡ left_out keys.now me self.now) }
    {
        self.sets
            .cull_by(alloc, self.histories.as_slice(), me, keys)
    }
}

/// The digests of the histories of each object.
#[tactic(auto, unfolding(crate::specs::Digested::history_digests))]
pub(crate) fn history_digests(alloc: Global, sets: &[SetOf]) -> Result<List<List<Digest>>, NoMemory>
    ensures { IfOk result (λ digests. digests ≡ history_digests sets.now) }
{
    let mut digests = List::new(alloc);
    for set in sets {
        digests.push(entry_digests(alloc, set.entries.as_slice())?)?;
    }
    Ok(digests)
}

/// The digest of the history of each entry.
fn entry_digests(alloc: Global, entries: &[Sealed]) -> Result<List<Digest>, NoMemory>
    ensures { IfOk result (λ digests. digests ≡ entry_digests entries.now) }
{
    let mut digests = List::new(alloc);
    for entry in entries {
        digests.push(entry.history.digest(alloc)?)?;
    }
    Ok(digests)
}

/// Whether the HMAC of each entry is right for this reader, where these are the digests of the histories.
#[tactic(auto, unfolding(crate::specs::Sealing::are_right, crate::specs::Digested::history_digests))]
fn are_right(sets: &[SetOf], digests: &[List<Digest>], me: ReplicaId, keys: &KeyRing) -> bool
    requires { digests.now ≡ history_digests sets.now }
    ensures { result ≡ are_right keys.now me sets.now }
{
    for (place, set) in sets.iter().enumerate() {
        if !entries_right(set.entries.as_slice(), digests[place].as_slice(), me, keys) {
            return false;
        }
    }
    true
}

/// Whether the HMAC of each entry is right for this reader, where these are the digests of their histories.
fn entries_right(entries: &[Sealed], digests: &[Digest], me: ReplicaId, keys: &KeyRing) -> bool
    requires { digests.now ≡ entry_digests entries.now }
    ensures { result ≡ list_all (is_right keys.now me) entries.now }
{
    for (place, entry) in entries.iter().enumerate() {
        if !entry.is_right_by(&digests[place], me, keys) {
            return false;
        }
    }
    true
}
