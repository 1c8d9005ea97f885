ghost use Rattle.std.specs.Prelude.{◌≡◌, [], ◌∷◌, ◌++◌, ◌<◌, ◌^◌, IfOk, OnOk, option_map};
ghost use Rattle.qu_trace.specs.Operation.{begun_by};
ghost use Rattle.qu_trace.specs.Letters.{letters_of, numbered, offered_by};
ghost use Rattle.qu_trace.specs.Starts.{AreStarts};
ghost use Rattle.qu_world.specs.Run.{IsSetup};
ghost use Rattle.qu_listed.specs.World.{followed};
ghost use Rattle.qu_listing.specs.SoFar.{IsSoFar, CountsCalls, sent_of};

use super::following::follow;
use super::offer::Offer;
use super::receivers::Receivers;
use qu_base::{ClientId, List, NoMemory, Party};
use qu_trace::{Entry, Event, Sent as Letters, Starts};
use qu_world::World;
use std::alloc::Global;
use std::collections::HashMap;

/// A letter that was sent, as far as its deliveries tell of it.
#[derive(Clone, Copy)]
pub struct Sent {
    pub to: Party,
    /// Whether its receiver takes no frame of it.
    pub ignored: bool,
}

/// What is known of the earlier events where an event is told.
pub struct SoFar {
    /// The letters, by their numbers.
    pub sent: List<Sent>,
    /// How many operations each client began, by its number; 0 where it is not there.
    pub calls: HashMap<u16, u64>,
    /// Where the letters of each event begin.
    pub starts: Starts,
    /// The parties as they are behind the earlier events.
    pub world: World,
}

/// By hand, so that a value is let go in one step wherever that is.
impl Drop for SoFar {
    fn drop(self) {
        let SoFar {
            sent: _,
            calls: _,
            starts: _,
            world: _,
        } = self;
    }
}

impl SoFar {
    /// What is known before the first event.
    #[tactic(auto, unfolding(qu_trace::specs::Operation::begun_by, qu_trace::specs::Letters::letters_of))]
    pub fn new(alloc: Global, receivers: &Receivers) -> Result<SoFar, NoMemory>
        requires { IsSetup receivers.now }
        ensures { IfOk result (IsSoFar receivers.now []) }
    {
        Ok(SoFar {
            sent: List::new(alloc),
            calls: HashMap::new(alloc),
            starts: Starts::none(alloc),
            world: receivers.start_world(alloc)?,
        })
    }

    /// How many operations a client began at the earlier events.
    #[tactic(auto, using(crate::proofs::CallFacts::begun_few))]
    pub fn calls_of(&self, earlier: &[Entry], client: ClientId) -> u64
        requires { CountsCalls earlier.now self.now.calls }
        ensures value { result ≡ begun_by client earlier.now }
        ensures few { result < 2 ^ 63 }
    {
        let begun = self.calls.get(&client.0).copied().unwrap_or(0);
        // Each began at an event of its own.
        let events = earlier.len() as u64;
        prove!(begun <= events);
        begun
    }

    /// The letter with a number, from 1.
    pub fn letter(&self, receivers: &Receivers, earlier: &[Entry], number: u64) -> Option<Sent>
        requires { IsSoFar receivers.now earlier.now self.now }
        ensures { result ≡ option_map (sent_of receivers.now) (numbered (letters_of earlier.now) number) }
    {
        if number == 0 {
            return None;
        }
        self.sent.get(number as usize - 1).copied()
    }

    /// What a party is offered at the next event.
    pub fn offered<'e>(&'e self, earlier: &'e [Entry], event: &'e Event) -> Option<Offer<'e>>
        requires { AreStarts earlier.now self.now.starts }
        ensures { result ≡ offered_by earlier.now event.now }
    {
        match event {
            Event::Deliver(number) => {
                let letters = Letters::new(earlier, self.starts.places.as_slice());
                let letter = letters.letter(*number)?;
                Some(Offer {
                    to: letter.to,
                    text: letter.text.as_slice(),
                })
            }
            Event::Inject(to, text) => Some(Offer {
                to: *to,
                text: text.as_slice(),
            }),
            Event::Invoke(_, _) | Event::Tick(_) => None,
        }
    }

    /// Knows of the next event too, but for its letters.
    pub fn note(&mut self, alloc: Global, earlier: &[Entry], entry: &Entry) -> Result<(), NoMemory>
        requires calls { CountsCalls earlier.now self.old.calls }
        requires starts { AreStarts earlier.now self.old.starts }
        ensures sent { self.new.sent ≡ self.old.sent }
        ensures calls { OnOk result (CountsCalls (earlier.now ++ entry.now ∷ []) self.new.calls) }
        ensures starts { OnOk result (AreStarts (earlier.now ++ entry.now ∷ []) self.new.starts) }
        ensures world { OnOk result (self.new.world ≡ followed self.old.world entry.now.event) }
    {
        follow(alloc, &mut self.world, &entry.event)?;
        self.note_letters(earlier, entry)?;
        self.note_call(earlier, entry)
    }

    /// Knows where the letters of the next event begin.
    fn note_letters(&mut self, earlier: &[Entry], entry: &Entry) -> Result<(), NoMemory>
        requires { AreStarts earlier.now self.old.starts }
        ensures sent { self.new.sent ≡ self.old.sent }
        ensures calls { self.new.calls ≡ self.old.calls }
        ensures world { self.new.world ≡ self.old.world }
        ensures starts { OnOk result (AreStarts (earlier.now ++ entry.now ∷ []) self.new.starts) }
    {
        let starts = &mut self.starts;
        starts.places.push(starts.next)?;
        starts.next = starts.next.saturating_add(entry.letters.len() as u64);
        Ok(())
    }

    /// Counts the operation that begins at the next event, if one does.
    fn note_call(&mut self, earlier: &[Entry], entry: &Entry) -> Result<(), NoMemory>
        requires { CountsCalls earlier.now self.old.calls }
        ensures sent { self.new.sent ≡ self.old.sent }
        ensures starts { self.new.starts ≡ self.old.starts }
        ensures world { self.new.world ≡ self.old.world }
        ensures calls { OnOk result (CountsCalls (earlier.now ++ entry.now ∷ []) self.new.calls) }
    {
        if let Event::Invoke(client, _) = &entry.event {
            let begun = self.calls_of(earlier, *client);
            self.calls.insert(client.0, begun + 1)?;
        }
        Ok(())
    }
}
