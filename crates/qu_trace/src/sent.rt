ghost use Rattle.std.specs.Prelude.{◌≡◌, ◌<◌, ℕ, [], length, get_or, IfOk};
ghost use Rattle.std.specs.Option.{option_copied};
ghost use Rattle.std.specs.List.Sorted.{IsNonDecreasingBy};
ghost use Rattle.qu_trace.specs.declared.trace.Entry.{Entry as AnEntry};
ghost use Rattle.qu_trace.specs.Letters.{letters_of, numbered};
ghost use Rattle.qu_trace.specs.Starts.{starts_from, AreStarts, IsBegun};

use super::Entry;
use qu_base::NoMemory;
use qu_frames::Letter;
use std::alloc::Global;
use std::marker::Model;

/// Where the letters of each entry of a run begin among all letters, counted from 0. A number that 64 bits do not hold
/// stands as their greatest one.
pub struct Starts {
    /// For each entry the number of letters before its own.
    pub places: Vec<u64>,
    /// The number of all letters.
    pub next: u64,
}

/// By hand, so that a value is let go in one step wherever that is.
impl Drop for Starts {
    fn drop(self) {
        let Starts { places: _, next: _ } = self;
    }
}

impl Starts {
    /// Where they begin in a run of no entry.
    pub fn none(alloc: Global) -> Starts
        ensures { AreStarts [] result }
    {
        Starts {
            places: Vec::new(alloc),
            next: 0,
        }
    }

    /// Where they begin in a run of these entries.
    pub(crate) fn of(alloc: Global, entries: &[Entry]) -> Result<Starts, NoMemory>
        ensures { IfOk result (AreStarts entries.now) }
    {
        let mut starts = Starts::none(alloc);
        for entry in entries {
            starts.places.push(starts.next)?;
            starts.next = starts.next.saturating_add(entry.letters.len() as u64);
        }
        Ok(starts)
    }
}

/// The entries of a run, with where the letters of each begin, so that a letter is found by its number at once.
#[derive(Drop)]
pub struct Sent<'a> {
    entries: &'a [Entry],
    starts: &'a [u64],
}

impl<'a> Model for Sent<'a> {
    ghost use Rattle.std.specs.Prelude.{◌≡◌, List};
    ghost use Rattle.qu_trace.specs.declared.trace.Entry.{Entry as AnEntry};
    ghost use Rattle.qu_trace.specs.Starts.{starts_from};

    ghost Value = { List AnEntry };

    ghost view = { λ sent. sent.entries.now };

    ghost invariant = { λ sent. sent.starts.now ≡ starts_from 0 sent.entries.now };
}

impl<'a> Sent<'a> {
    /// These entries, where these are the numbers of letters before those of each.
    pub fn new(entries: &'a [Entry], starts: &'a [u64]) -> Sent<'a>
        requires { starts.now ≡ starts_from 0 entries.now }
        ensures { result ≡ entries.now }
    {
        Sent { entries, starts }
    }

    /// The entries.
    pub fn entries(&self) -> &'a [Entry]
        ensures { result.now ≡ self.now }
    {
        self.entries
    }

    /// The letter with this number, counted from 1.
    pub fn letter(&self, number: u64) -> Option<&'a Letter>
        ensures { option_copied result ≡ numbered (letters_of self.now) number }
    {
        let place = number.checked_sub(1)?;
        let index = begun(self.starts, place).checked_sub(1)?;
        let inside = place - start_at(self.starts, index);
        let entry = entry_at(self.entries, index);
        entry.letters.get(inside as usize)
    }
}

pub(crate) fn start_at(starts: &[u64], index: usize) -> u64
    requires { index < length starts.now }
    ensures { result ≡ get_or starts.now index 0 }
{
    starts[index]
}

fn entry_at(entries: &[Entry], index: usize) -> &Entry
    requires { index < length entries.now }
    ensures { (default : AnEntry) → result.now ≡ get_or entries.now index default }
{
    &entries[index]
}

/// How many of these starts stand at the place or before it.
fn begun(starts: &[u64], place: u64) -> usize
    requires { IsNonDecreasingBy (λ (start : ℕ). start) starts.now }
    ensures { IsBegun starts.now place result }
{
    starts.partition_point(|start| *start <= place)
}
