//! The histories that the letters of a run show.
ghost use Rattle.std.specs.Prelude.{◌≡◌, ◌≤◌, [], ◌++◌, map, length, drop, OnOk, IsTrue};
ghost use Rattle.std.specs.List.{list_any};
ghost use Rattle.std.specs.Option.{option_copied};
ghost use Rattle.qu_trace.specs.Decoded.{frame_sent};
ghost use Rattle.qu_audit.specs.Forging.{letter_shown, same_history, same_mac, is_like, is_showing, was_shown};

use qu_base::{NoMemory, Party, ReplicaId};
use qu_frames::{Frame, Letter};
use qu_history::{History, Sealed};
use std::alloc::Global;
use std::collections::HashMap;
use std::marker::Model;

/// The histories that a letter shows, and the party that sent it.
#[derive(Drop)]
pub struct Shown<'a> {
    from: Party,
    histories: &'a [Sealed],
}

impl<'a> Model for Shown<'a> {
    ghost use Rattle.qu_audit.specs.Forging.{ShownLetter};

    ghost Value = { ShownLetter };

    ghost view = { λ shown. record { from = shown.from; histories = shown.histories.now } };
}

impl<'a> Shown<'a> {
    /// The histories.
    pub fn histories(&self) -> &'a [Sealed]
        ensures { result.now ≡ self.now.histories }
    {
        self.histories
    }
}

/// What the letters so far show.
pub struct ShownSoFar<'a> {
    shown: Vec<Shown<'a>>,
    /// Of an HMAC the place of a letter that showed a history with it: where that one is looked for first.
    places: HashMap<[u8; 32], usize>,
}

/// By hand, so that a value is let go in one step wherever that is.
impl<'a> Drop for ShownSoFar<'a> {
    fn drop(self) {
        let ShownSoFar {
            shown: _,
            places: _,
        } = self;
    }
}

impl<'a> Model for ShownSoFar<'a> {
    ghost use Rattle.std.specs.Prelude.{List};
    ghost use Rattle.qu_audit.specs.Forging.{ShownLetter};

    ghost Value = { List ShownLetter };

    ghost view = { λ so_far. so_far.shown.items };
}

impl<'a> ShownSoFar<'a> {
    /// No letter was sent yet.
    pub fn new(alloc: Global) -> ShownSoFar<'a>
        ensures { result ≡ [] }
    {
        ShownSoFar {
            shown: Vec::new(alloc),
            places: HashMap::new(alloc),
        }
    }

    /// How many letters there were.
    pub fn len(&self) -> usize
        ensures { result ≡ length self.now }
    {
        self.shown.len()
    }

    /// What the letters behind so many show.
    pub fn since(&self, count: usize) -> &[Shown<'a>]
        requires { count ≤ length self.now }
        ensures { result.now ≡ drop count self.now }
    {
        &self.shown.as_slice()[count..]
    }

    /// Adds what letters show, which are decoded to these frames.
    pub fn add(&mut self, letters: &[Letter], frames: &'a [Option<Frame>]) -> Result<(), NoMemory>
        requires { frames.now ≡ map frame_sent letters.now }
        ensures { OnOk result (self.new ≡ self.old ++ map letter_shown letters.now) }
    {
        for (place, letter) in letters.iter().enumerate() {
            let shown = letter_shown(letter, &frames[place]);
            note_places(&mut self.places, self.shown.len(), shown.histories)?;
            self.shown.push(shown)?;
        }
        Ok(())
    }

    /// Whether the replica of a history showed it, with the same HMAC for this reader.
    pub fn has(&self, me: ReplicaId, sealed: &Sealed) -> bool
        ensures { result ≡ was_shown self.now me sealed.now }
    {
        self.is_found(me, sealed) || self.is_among(me, sealed)
    }

    /// Whether the letter that is looked at first shows it.
    #[tactic(auto, using(crate::proofs::Lists::any_at))]
    fn is_found(&self, me: ReplicaId, sealed: &Sealed) -> bool
        ensures { IsTrue result → IsTrue (was_shown self.now me sealed.now) }
    {
        match place_in(&self.places, me, sealed) {
            Some(place) => match self.shown.get(place) {
                Some(shown) => is_showing(me, sealed, shown),
                None => false,
            },
            None => false,
        }
    }

    /// Whether any letter does. The newest are looked at first.
    fn is_among(&self, me: ReplicaId, sealed: &Sealed) -> bool
        ensures { result ≡ was_shown self.now me sealed.now }
    {
        self.shown
            .iter()
            .rev()
            .any(|shown| is_showing(me, sealed, shown))
    }
}

/// Notes where histories are shown.
fn note_places(
    places: &mut HashMap<[u8; 32], usize>,
    place: usize,
    histories: &[Sealed],
) -> Result<(), NoMemory> {
    for sealed in histories {
        for mac in sealed.macs.as_slice() {
            places.insert(*mac, place)?;
        }
    }
    Ok(())
}

/// Where a history with the HMAC of this one for this reader is shown.
fn place_in(places: &HashMap<[u8; 32], usize>, me: ReplicaId, sealed: &Sealed) -> Option<usize> {
    let mac = sealed.macs.get(usize::from(me.0))?;
    places.get(mac).copied()
}

/// What a letter shows, which is decoded to this frame.
#[tactic(auto, using(crate::proofs::Frames::shown_laws))]
fn letter_shown<'a>(letter: &Letter, frame: &'a Option<Frame>) -> Shown<'a>
    requires { frame.now ≡ frame_sent letter.now }
    ensures { result ≡ letter_shown letter.now }
{
    let histories: &'a [Sealed] = match frame {
        Some(Frame::Reply { shown, .. }) => shown.as_slice(),
        Some(_) | None => &[],
    };
    Shown {
        from: letter.from,
        histories,
    }
}

/// Whether the replica of the history showed it so.
fn is_showing(me: ReplicaId, sealed: &Sealed, shown: &Shown<'_>) -> bool
    ensures { result ≡ is_showing me sealed.now shown.now }
{
    shown.from == Party::Replica(sealed.history.replica()) && has_like(shown.histories, me, sealed)
}

fn has_like(histories: &[Sealed], me: ReplicaId, sealed: &Sealed) -> bool
    ensures { result ≡ list_any (is_like me sealed.now) histories.now }
{
    histories.iter().any(|other| is_like(me, sealed, other))
}

/// Whether this is the same history, with the same HMAC for this reader.
fn is_like(me: ReplicaId, sealed: &Sealed, other: &Sealed) -> bool
    ensures { result ≡ is_like me sealed.now other.now }
{
    let index = usize::from(me.0);
    same_mac(other.macs.get(index), sealed.macs.get(index))
        && same_history(&other.history, &sealed.history)
}

fn same_mac(one: Option<&[u8; 32]>, other: Option<&[u8; 32]>) -> bool
    ensures { result ≡ same_mac (option_copied one.entry) (option_copied other.entry) }
{
    match (one, other) {
        (Some(one), Some(other)) => one == other,
        (None, None) => true,
        (Some(_), None) | (None, Some(_)) => false,
    }
}

#[tactic(auto, unfolding(qu_stamp::specs::Stamp::same_stamp))]
fn same_history(one: &History, other: &History) -> bool
    ensures { result ≡ same_history one.now other.now }
{
    one.object() == other.object()
        && one.replica() == other.replica()
        && one.candidates() == other.candidates()
}
