use qu_base::{Party, ReplicaId};
use qu_live::Gate;
use std::sync::atomic::{AtomicU64, Ordering};
use std::thread;

/// So many looks a thread takes before it has waited in vain. Then no thread waits any longer, so that each test ends.
const MOST_LOOKS: u64 = 5_000_000;

/// Lets a replica and a client take steps in turn, the replica first.
#[derive(Drop)]
pub struct InTurn {
    steps: AtomicU64,
    missed: AtomicU64,
}

impl InTurn {
    pub fn new() -> InTurn {
        InTurn {
            steps: AtomicU64::new(0),
            missed: AtomicU64::new(0),
        }
    }

    /// How often a thread waited in vain.
    pub fn missed(&self) -> u64 {
        self.missed.load(Ordering::SeqCst)
    }
}

impl Gate for InTurn {
    fn pass(&self, actor: Party, place: u8) {
        if place == 2 {
            self.steps.fetch_add(1, Ordering::SeqCst);
            return;
        }
        let turn = match actor {
            Party::Replica(_) => 0,
            Party::Client(_) => 1,
        };
        for _ in 0..MOST_LOOKS {
            if self.steps.load(Ordering::SeqCst) % 2 == turn || self.missed() > 0 {
                return;
            }
            thread::yield_now();
        }
        self.missed.fetch_add(1, Ordering::SeqCst);
    }
}

/// Lets two actors begin their steps together.
#[derive(Drop)]
pub struct Together {
    arrived: AtomicU64,
    missed: AtomicU64,
}

impl Together {
    pub fn new() -> Together {
        Together {
            arrived: AtomicU64::new(0),
            missed: AtomicU64::new(0),
        }
    }

    /// How often a thread waited in vain.
    pub fn missed(&self) -> u64 {
        self.missed.load(Ordering::SeqCst)
    }
}

impl Gate for Together {
    fn pass(&self, _actor: Party, place: u8) {
        if place == 2 {
            return;
        }
        let before = self.arrived.fetch_add(1, Ordering::SeqCst);
        let both = (before | 1).saturating_add(1);
        for _ in 0..MOST_LOOKS {
            if self.arrived.load(Ordering::SeqCst) >= both || self.missed() > 0 {
                return;
            }
            thread::yield_now();
        }
        self.missed.fetch_add(1, Ordering::SeqCst);
    }
}

/// So many turns a replica waits for another one, at most. It yields in each.
const MOST_TURNS: u32 = 100_000;

/// Waits until a flag is set. False where it was not set in so many turns.
fn is_set_in_time(flag: &AtomicU64) -> bool {
    for _ in 0..MOST_TURNS {
        if flag.load(Ordering::SeqCst) != 0 {
            return true;
        }
        thread::yield_now();
    }
    false
}

/// Keeps the first step of replica 1 until replica 2 comes to one, and the other way round.
#[derive(Drop)]
pub struct BothFirst {
    one: AtomicU64,
    other: AtomicU64,
    missed: AtomicU64,
}

impl BothFirst {
    pub fn new() -> BothFirst {
        BothFirst {
            one: AtomicU64::new(0),
            other: AtomicU64::new(0),
            missed: AtomicU64::new(0),
        }
    }

    /// How often a replica waited in vain.
    pub fn missed(&self) -> u64 {
        self.missed.load(Ordering::SeqCst)
    }

    /// A replica is there, and waits for the other.
    fn meet(&self, mine: &AtomicU64, theirs: &AtomicU64) {
        if mine.swap(1, Ordering::SeqCst) == 0 && !is_set_in_time(theirs) {
            self.missed.fetch_add(1, Ordering::SeqCst);
        }
    }
}

impl Gate for BothFirst {
    fn pass(&self, actor: Party, place: u8) {
        match (actor, place) {
            (Party::Replica(ReplicaId(1)), 1) => self.meet(&self.one, &self.other),
            (Party::Replica(ReplicaId(2)), 1) => self.meet(&self.other, &self.one),
            _ => {}
        }
    }
}

/// Keeps the first step of a replica until another one has made one, and counts the steps of all.
#[derive(Drop)]
pub struct OneFirst {
    held: Party,
    first: Party,
    came: AtomicU64,
    made: AtomicU64,
    missed: AtomicU64,
    replicas: [AtomicU64; 6],
    client: AtomicU64,
}

impl OneFirst {
    pub fn new(held: u8, first: u8) -> OneFirst {
        OneFirst {
            held: Party::Replica(ReplicaId(held)),
            first: Party::Replica(ReplicaId(first)),
            came: AtomicU64::new(0),
            made: AtomicU64::new(0),
            missed: AtomicU64::new(0),
            replicas: [
                AtomicU64::new(0),
                AtomicU64::new(0),
                AtomicU64::new(0),
                AtomicU64::new(0),
                AtomicU64::new(0),
                AtomicU64::new(0),
            ],
            client: AtomicU64::new(0),
        }
    }

    /// Whether the replica waited in vain.
    pub fn missed(&self) -> u64 {
        self.missed.load(Ordering::SeqCst)
    }

    /// How many steps of an actor passed the gate.
    pub fn passes(&self, actor: Party) -> u64 {
        self.counter(actor).load(Ordering::SeqCst)
    }

    fn counter(&self, actor: Party) -> &AtomicU64 {
        match actor {
            Party::Replica(me) => self.replicas.get(usize::from(me.0)).unwrap_or(&self.client),
            Party::Client(_) => &self.client,
        }
    }
}

impl Gate for OneFirst {
    fn pass(&self, actor: Party, place: u8) {
        if place == 2 {
            self.counter(actor).fetch_add(1, Ordering::SeqCst);
            if actor == self.first {
                self.made.store(1, Ordering::SeqCst);
            }
            return;
        }
        let is_held = actor == self.held && self.came.swap(1, Ordering::SeqCst) == 0;
        if is_held && !is_set_in_time(&self.made) {
            self.missed.fetch_add(1, Ordering::SeqCst);
        }
    }
}
