ghost use Rattle.std.specs.Prelude.{◌≡◌, Some, IfOk, slice_set};
ghost use Rattle.qu_base.specs.Bounds.{replicas};
ghost use Rattle.qu_script.specs.Outage.{no_outage, with_marks, is_held_replica, is_held_back};

use qu_base::{Bounds, NoMemory, Party, ReplicaId};
use qu_frames::Letter;
use std::alloc::Global;
use std::marker::Model;

/// What keeps letters from their receivers in a flow.
#[derive(Drop)]
pub struct Outage {
    /// For each replica whether it is held.
    held: Vec<bool>,
    /// No letter up to this one is taken any more.
    lost: u64,
}

impl Model for Outage {
    ghost use Rattle.qu_script.specs.Outage.{OutageState};

    ghost Value = { OutageState };

    ghost view = { λ outage. record { held = outage.held.items; lost = outage.lost } };
}

impl Outage {
    /// No replica is held, and no letter was lost.
    pub fn none(alloc: Global, bounds: &Bounds) -> Result<Outage, NoMemory>
        ensures { IfOk result (λ outage. outage ≡ no_outage (replicas bounds.now)) }
    {
        let held = vec![in alloc; false; usize::from(bounds.n())]?;
        Ok(Outage { held, lost: 0 })
    }

    /// Sets or clears the marks of these replicas.
    pub fn mark(&mut self, replicas: &[ReplicaId], mark: bool)
        ensures held { self.new.held ≡ with_marks mark self.old.held replicas.now }
        ensures lost { self.new.lost ≡ self.old.lost }
    {
        for me in replicas {
            self.mark_one(*me, mark);
        }
    }

    fn mark_one(&mut self, me: ReplicaId, mark: bool)
        ensures held { self.new.held ≡ slice_set self.old.held me.0 mark }
        ensures lost { self.new.lost ≡ self.old.lost }
    {
        let index = usize::from(me.0);
        if index < self.held.len() {
            self.held[index] = mark;
        }
    }

    /// The number up to which no letter is taken any more.
    pub fn lost(&self) -> u64
        ensures { result ≡ self.now.lost }
    {
        self.lost
    }

    /// From now on no letter up to this one is taken.
    pub fn lose(&mut self, last: u64)
        ensures held { self.new.held ≡ self.old.held }
        ensures lost { self.new.lost ≡ last }
    {
        self.lost = last;
    }

    /// Whether a held replica sent the letter, or is to get it.
    pub fn holds_back(&self, letter: &Letter) -> bool
        ensures { result ≡ is_held_back self.now.held (Some letter.now) }
    {
        self.holds(letter.from) || self.holds(letter.to)
    }

    fn holds(&self, who: Party) -> bool
        ensures { result ≡ is_held_replica self.now.held who }
    {
        match who {
            Party::Replica(me) => match self.held.get(usize::from(me.0)) {
                Some(mark) => *mark,
                None => false,
            },
            Party::Client(_) => false,
        }
    }
}
