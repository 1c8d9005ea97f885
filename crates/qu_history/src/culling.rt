ghost use Rattle.std.specs.Prelude.{◌≡◌, ◌++◌, [], ◌∷◌, IfOk, OnOk, IsTrue};
ghost use Rattle.std.specs.Option.{option_copied};
ghost use Rattle.qu_history.specs.Culling.{history_digest, mac_is_right, is_right, culled_set, culled, left_of, left_out};
ghost use Rattle.qu_history.specs.Digested.{entry_digests, history_digests};
ghost use Rattle.qu_history.specs.Formats.{history_form};
ghost use Rattle.qu_history.specs.Sealing.{are_right};

use super::digested::history_digests;
use super::{History, Sealed, SetOf, Sets};
use qu_base::{Digest, List, NoMemory, ObjectId, Outbytes, Party, ReplicaId};
use qu_seal::{HISTORY_TAG, KeyRing, digest};
use std::alloc::Global;

/// What a replica makes of sets: those of the entries whose HMAC for it is right, and which others there were.
#[derive(Drop)]
pub struct Culled {
    pub sets: Sets,
    pub left: List<(ObjectId, ReplicaId)>,
}

impl Culled {
    /// Equal sets and an equal list.
    pub fn copy(&self, alloc: Global) -> Result<Culled, NoMemory>
        ensures { IfOk result (λ found. found ≡ self.now) }
    {
        Ok(Culled {
            sets: self.sets.copy()?,
            left: self.left.copy(alloc)?,
        })
    }
}

impl History {
    /// The digest of which the HMACs of a history are made.
    #[tactic(auto, unfolding(crate::specs::Culling::history_digest))]
    pub fn digest(&self, alloc: Global) -> Result<Digest, NoMemory>
        ensures { IfOk result (λ digest. digest ≡ history_digest self.now) }
    {
        let text = self.text(alloc)?;
        Ok(digest(HISTORY_TAG, text.as_slice()))
    }

    /// The text of the history that is digested: its one spelling.
    pub fn text(&self, alloc: Global) -> Result<List<u8>, NoMemory>
        ensures { IfOk result (λ text. text ≡ history_form.spell self.now) }
    {
        let mut out = Outbytes::with_room(alloc, room_for(self))?;
        self.write(&mut out)?;
        Ok(out.done())
    }
}

/// The bytes of a candidate without a group whose stamps have an act each: most candidates take fewer.
const CANDIDATE_ROOM: usize = 160;

/// Room in which most histories of this length are written.
fn room_for(history: &History) -> usize {
    history.len() * CANDIDATE_ROOM
}

impl Sealed {
    /// Whether it has an HMAC for each replica, and that for this reader is right.
    pub fn is_right(&self, alloc: Global, me: ReplicaId, keys: &KeyRing) -> Result<bool, NoMemory>
        ensures { IfOk result (λ right. right ≡ is_right keys.now me self.now) }
    {
        let text = self.history.digest(alloc)?;
        Ok(self.is_right_by(&text, me, keys))
    }

    /// Whether its HMAC is right for this reader, where this is the digest of its history.
    #[tactic(auto, unfolding(crate::specs::Culling::is_right))]
    pub(crate) fn is_right_by(&self, text: &Digest, me: ReplicaId, keys: &KeyRing) -> bool
        requires { text.now ≡ history_digest self.now.history }
        ensures { result ≡ is_right keys.now me self.now }
    {
        self.macs.len() == usize::from(keys.bounds().n())
            && mac_is_right(
                &self.history,
                text,
                me,
                keys,
                self.macs.get(usize::from(me.0)),
            )
    }
}

/// Whether the HMAC of a history with this digest for this reader is there, and right.
fn mac_is_right(
    history: &History,
    text: &Digest,
    me: ReplicaId,
    keys: &KeyRing,
    mac: Option<&[u8; 32]>,
) -> bool
    requires { text.now ≡ history_digest history.now }
    ensures { result ≡ mac_is_right keys.now me history.now (option_copied mac.entry) }
{
    let Some(mac) = mac else {
        return false;
    };
    let from = Party::Replica(history.replica());
    keys.verifies(from, Party::Replica(me), text, mac)
}

impl Sets {
    /// The sets without the entries whose HMAC for this reader is wrong, and which entries these are. Sets
    /// whose entries are all right stay as they are, and none is left out.
    #[tactic(auto, using(crate::proofs::RightSeals::culled_whole, crate::proofs::RightSeals::none_left_out))]
    pub fn cull(&self, alloc: Global, me: ReplicaId, keys: &KeyRing) -> Result<Culled, NoMemory>
        ensures sets { IfOk result (λ found. found.sets ≡ culled keys.now me self.now) }
        ensures left { IfOk result (λ found. found.left ≡ left_out keys.now me self.now) }
        ensures whole { IsTrue (are_right keys.now me self.now)
            → IfOk result (λ found. (found.sets ≡ self.now) × (found.left ≡ [])) }
    {
        let digests = history_digests(alloc, self.objects().as_slice())?;
        self.cull_by(alloc, digests.as_slice(), me, keys)
    }

    /// What `cull` gives, where these are the digests of the histories.
    pub(crate) fn cull_by(
        &self,
        alloc: Global,
        digests: &[List<Digest>],
        me: ReplicaId,
        keys: &KeyRing,
    ) -> Result<Culled, NoMemory>
        requires { digests.now ≡ history_digests self.now }
        ensures sets { IfOk result (λ found. found.sets ≡ culled keys.now me self.now) }
        ensures left { IfOk result (λ found. found.left ≡ left_out keys.now me self.now) }
    {
        let mut left = List::new(alloc);
        let objects = cull_all(
            alloc,
            self.objects().as_slice(),
            digests,
            me,
            keys,
            &mut left,
        )?;
        Ok(Culled {
            sets: Sets::of(alloc, objects)?,
            left,
        })
    }
}

/// The objects without such entries, which are added to those that are left out.
#[tactic(auto, unfolding(crate::specs::Culling::culled, crate::specs::Culling::left_out, crate::specs::Digested::history_digests))]
fn cull_all(
    alloc: Global,
    sets: &[SetOf],
    digests: &[List<Digest>],
    me: ReplicaId,
    keys: &KeyRing,
    left: &mut List<(ObjectId, ReplicaId)>,
) -> Result<List<SetOf>, NoMemory>
    requires { digests.now ≡ history_digests sets.now }
    ensures stays { IfOk result (λ objects. objects ≡ culled keys.now me sets.now) }
    ensures left { OnOk result (left.new ≡ left.old ++ left_out keys.now me sets.now) }
{
    let mut objects = List::new(alloc);
    for (place, set) in sets.iter().enumerate() {
        objects.push(cull_set(alloc, set, digests[place].as_slice(), me, keys, left)?)?;
    }
    Ok(objects)
}

/// The object with its right entries. Those that are left out are added to the list.
fn cull_set(
    alloc: Global,
    set: &SetOf,
    digests: &[Digest],
    me: ReplicaId,
    keys: &KeyRing,
    left: &mut List<(ObjectId, ReplicaId)>,
) -> Result<SetOf, NoMemory>
    requires { digests.now ≡ entry_digests set.now.entries }
    ensures stays { IfOk result (λ found. found ≡ culled_set keys.now me set.now) }
    ensures left { OnOk result (left.new ≡ left.old ++ left_of keys.now me set.now) }
{
    let all = set.entries.as_slice();
    let mut entries = List::new(alloc);
    for (place, entry) in all.iter().enumerate() {
        if entry.is_right_by(&digests[place], me, keys) {
            entries.push(entry.copy(alloc)?)?;
        } else {
            left.push((set.object, entry.history.replica()))?;
        }
    }
    Ok(SetOf {
        object: set.object,
        entries,
    })
}
