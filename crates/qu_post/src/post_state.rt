ghost use Rattle.std.specs.Prelude.{◌≡◌, IfOk, OnOk, OnErr};
ghost use Rattle.qu_post.specs.Actors.{actors_of};
ghost use Rattle.qu_post.specs.Bags.{oldest_for};
ghost use Rattle.qu_post.specs.PostState.{empty_post, with_letter_taken, with_step_begun, with_ticket_given, with_step_filed, is_quiet};

use super::Filed;
use crate::bags::{Bag, are_empty, empty_bags, put_letters, take_oldest};
use qu_base::{Bounds, List, NoMemory, Party};
use qu_frames::{Letter, LetterName};
use std::alloc::Global;
use std::marker::Model;

/// What the actors of a run tell each other: the steps that they filed, the letters that wait for them, how many
/// steps are under way, and how many tickets were given.
///
/// Actors are the replicas and the clients that do not lie; each has a bag, and no other party has one.
#[derive(Drop)]
pub struct PostState {
    alloc: Global,
    journal: Vec<Filed>,
    bags: Vec<Bag>,
    under_way: u64,
    given: u64,
}

impl Model for PostState {
    ghost use Rattle.qu_post.specs.PostState.{PostContent};

    ghost Value = { PostContent };

    ghost view = { λ post. record {
      journal = post.journal.items;
      bags = post.bags.items;
      under_way = post.under_way;
      given = post.given;
    } };
}

impl PostState {
    /// The post before the first step, where clients have the numbers from 1 to `clients`.
    pub fn new(
        alloc: Global,
        bounds: &Bounds,
        clients: u16,
        liars: &[Party],
    ) -> Result<PostState, NoMemory>
        ensures { IfOk result (λ post. post ≡ empty_post (actors_of bounds.now clients liars.now)) }
    {
        Ok(PostState {
            alloc,
            journal: Vec::new(alloc),
            bags: empty_bags(alloc, bounds, clients, liars)?,
            under_way: 0,
            given: 0,
        })
    }

    /// The steps that were filed, in the order in which they were.
    pub fn journal(&self) -> &[Filed]
        ensures { result.now ≡ self.now.journal }
    {
        self.journal.as_slice()
    }

    /// The steps that were filed, in the order in which they were.
    pub fn into_journal(self) -> List<Filed>
        ensures { result ≡ self.journal }
    {
        let PostState { journal, .. } = self;
        List::from(journal)
    }

    /// Takes the oldest letter from an actor's bag, and counts a step under way. None exactly where the bag is empty
    /// or the party has none.
    pub fn take(&mut self, actor: Party) -> Option<(LetterName, Letter)>
        ensures result { result ≡ oldest_for actor self.old.bags }
        ensures post { self.new ≡ with_letter_taken actor self.old }
    {
        let taken = take_oldest(self.bags.as_mut_slice(), actor)?;
        self.begin();
        Some(taken)
    }

    /// Counts a step under way that takes no letter. The count stays at 2^64 - 1.
    pub fn begin(&mut self)
        ensures { self.new ≡ with_step_begun self.old }
    {
        self.under_way = self.under_way.saturating_add(1);
    }

    /// Gives a ticket: how many were given before. The count stays at 2^64 - 1.
    pub fn ticket(&mut self) -> u64
        ensures result { result ≡ self.old.given }
        ensures post { self.new ≡ with_ticket_given self.old }
    {
        let ticket = self.given;
        self.given = ticket.saturating_add(1);
        ticket
    }

    /// Adds a step to the journal, puts a copy of each of its letters into the bag of its receiver, and counts a step
    /// less under way, where there is one. Without memory nothing changes.
    pub fn file(&mut self, step: Filed) -> Result<(), NoMemory>
        ensures ok { OnOk result (self.new ≡ with_step_filed step self.old) }
        ensures err { OnErr result (self.new ≡ self.old) }
    {
        self.journal.reserve(1)?;
        put_letters(self.alloc, self.bags.as_mut_slice(), &step)?;
        self.journal.push_reserved(step);
        self.under_way = self.under_way.saturating_sub(1);
        Ok(())
    }

    /// Whether no letter waits in a bag and no step is under way.
    pub fn quiet(&self) -> bool
        ensures { result ≡ is_quiet self.now }
    {
        are_empty(self.bags.as_slice()) && self.under_way == 0
    }
}
