ghost use Rattle.std.specs.Prelude.{◌≡◌, OnErr};
ghost use Rattle.qu_base.specs.Reading.{Gives};
ghost use Rattle.kind_counter.specs.Counter.{counter_form};

use qu_base::{Applied, Cursor, Item, Kind, NoMemory, Outbytes, ReadFail, Told};
use std::alloc::Global;
use std::marker::Model;

/// Number 3: the sum would pass 2^64 - 1.
pub const OVER: u8 = 3;

/// Number 4: more was to be taken than is there.
pub const UNDER: u8 = 4;

/// A number below 2^64, first 0, which contracts see as that number.
#[derive(Clone, Copy)]
pub struct Counter {
    number: u64,
}

impl Model for Counter {
    ghost use Rattle.std.specs.Prelude.{ℕ};

    ghost Value = { ℕ };

    ghost view = { λ counter. counter.number };

    ghost inverse = { λ number. record { number = number } };
}

impl Counter {
    /// A counter that holds this number.
    pub fn new(number: u64) -> Counter
        ensures { result ≡ number }
    {
        Counter { number }
    }

    /// The number that it holds.
    pub fn number(&self) -> u64
        ensures { result ≡ self.now }
    {
        self.number
    }
}

/// What changes a counter; it answers the new number.
#[derive(Clone, Copy, PartialEq, Eq)]
pub enum CounterUpdate {
    /// Adds, and is refused as `OVER`.
    Add(u64),
    /// Takes, and is refused as `UNDER`.
    Take(u64),
}

/// What is asked of a counter.
#[derive(Clone, Copy, PartialEq, Eq)]
pub enum CounterQuery {
    /// Its number.
    Read,
}

impl Kind for Counter {
    ghost use Rattle.kind_counter.specs.Counter.{counter_form, counter_applied, counter_told, CounterUpdateFits};
    ghost use Rattle.kind_counter.specs.Laws.{counter-code, counter-first, counter-changed};

    type Update = CounterUpdate;

    type Query = CounterQuery;

    ghost first = { 0 };

    ghost applied = { counter_applied };

    ghost told = { counter_told };

    ghost update_fits = { CounterUpdateFits };

    ghost form = { counter_form };

    fn fresh(_alloc: Global) -> Result<Counter, NoMemory> {
        Ok(Counter { number: 0 })
    }

    fn apply(&self, _alloc: Global, update: &CounterUpdate) -> Result<Applied<Counter>, NoMemory> {
        let (changed, refusal) = match update {
            CounterUpdate::Add(more) => (self.number.checked_add(*more), OVER),
            CounterUpdate::Take(fewer) => (self.number.checked_sub(*fewer), UNDER),
        };
        Ok(match changed {
            Some(number) => Applied::Changed(Counter { number }, Item::Number(number)),
            None => Applied::Refused(refusal),
        })
    }

    fn tell(&self, _alloc: Global, query: &CounterQuery) -> Result<Told, NoMemory> {
        Ok(match query {
            CounterQuery::Read => Told::Item(Item::Number(self.number)),
        })
    }

    #[tactic(auto, unfolding(crate::specs::Counter::counter_form))]
    fn write(&self, out: &mut Outbytes) -> Result<(), NoMemory> {
        out.u64(self.number)
    }

    #[tactic(auto, using(crate::specs::Laws::counter_read))]
    fn read(_alloc: Global, text: &mut Cursor<'_>) -> Result<Counter, ReadFail> {
        text.are_bytes();
        next_counter(text)
    }

    ghost code = { counter-code };

    ghost first_fits = { counter-first };

    ghost changed_fits = { counter-changed };
}

/// The numbers of the refusals.
pub fn refusals_are_these()
    ensures over { OVER ≡ 3 }
    ensures under { UNDER ≡ 4 }
{}

/// The next number, as a counter.
#[tactic(auto, unfolding(crate::specs::Counter::counter_form))]
fn next_counter(text: &mut Cursor<'_>) -> Result<Counter, ReadFail>
    ensures read { Gives counter_form result text.old text.new }
    ensures kept { OnErr result (text.new ≡ text.old) }
{
    let number = text.u64_within(0, u64::MAX)?;
    Ok(Counter { number })
}
