ghost use Rattle.std.specs.Prelude.{◌≡◌, ◌+◌, ◌<◌, ◌^◌, ◌++◌, length, map, IfOk, OnOk, OnErr};
ghost use Rattle.std.specs.List.{AllZip, list_all};
ghost use Rattle.qu_post.specs.Actors.{actors_of};
ghost use Rattle.qu_post.specs.Bags.{empty_bag, is_empty_bag, oldest_for, without_oldest, with_letters, IsArriving};

use super::Filed;
use crate::actors::{is_liar, is_one_party, parties};
use crate::letters::letters_to;
use qu_base::{Bounds, NoMemory, Party};
use qu_frames::{Letter, LetterName};
use std::alloc::Global;
use std::collections::{LinkedList, VecDeque};

/// A list in memory has fewer items than this.
const MOST_LETTERS: usize = 1 << 63;

/// The letters that wait for an actor.
#[derive(Drop)]
pub struct Bag {
    pub owner: Party,
    /// With their names, the oldest first. Nodes of a list are put behind others without memory.
    pub letters: LinkedList<(LetterName, Letter)>,
}

impl Bag {
    /// Whether no letter waits.
    pub fn is_empty(&self) -> bool
        ensures { result ≡ is_empty_bag self.now }
    {
        self.letters.is_empty()
    }

    /// Puts letters behind those that wait, without memory.
    fn put(&mut self, mut letters: LinkedList<(LetterName, Letter)>)
        requires { length self.old.letters + length letters < 2 ^ 63 }
        ensures { self.new ≡ record self.old { letters = self.old.letters ++ letters } }
    {
        // Nothing is allocated, and there is room.
        let _joined = self.letters.append(&mut letters);
    }
}

/// An empty bag for each actor, in the order of the parties.
pub fn empty_bags(
    alloc: Global,
    bounds: &Bounds,
    clients: u16,
    liars: &[Party],
) -> Result<Vec<Bag>, NoMemory>
    ensures { IfOk result (λ bags. bags.items ≡ map empty_bag (actors_of bounds.now clients liars.now)) }
{
    let parties = parties(alloc, bounds, clients)?;
    let mut bags = Vec::new(alloc);
    for who in &parties {
        if !is_liar(liars, *who) {
            bags.push(Bag {
                owner: *who,
                letters: LinkedList::new(alloc),
            })?;
        }
    }
    Ok(bags)
}

/// Whether no letter waits in any bag.
pub fn are_empty(bags: &[Bag]) -> bool
    ensures { result ≡ list_all is_empty_bag bags.now }
{
    bags.iter().all(|bag| bag.is_empty())
}

/// Takes the oldest letter that waits for this party.
#[tactic(auto, unfolding(crate::specs::Bags::oldest_for, crate::specs::Bags::without_oldest))]
pub fn take_oldest(bags: &mut [Bag], who: Party) -> Option<(LetterName, Letter)>
    ensures result { result ≡ oldest_for who bags.old }
    ensures bags { bags.new ≡ without_oldest who bags.old }
{
    for bag in bags.iter_mut() {
        if is_one_party(bag.owner, who) {
            return bag.letters.pop_front();
        }
    }
    None
}

/// Puts a copy of each letter of a step into the bag of its receiver. All copies are made before a bag changes.
pub fn put_letters(alloc: Global, bags: &mut [Bag], step: &Filed) -> Result<(), NoMemory>
    ensures ok { OnOk result (bags.new ≡ map (with_letters step.now) bags.old) }
    ensures err { OnErr result (bags.new ≡ bags.old) }
{
    let mut arriving = letters_for_each(alloc, bags, step)?;
    for bag in bags.iter_mut() {
        if let Some(letters) = arriving.pop_front() {
            bag.put(letters);
        }
    }
    Ok(())
}

/// Copies of the letters of a step for each bag, in the order of the bags.
fn letters_for_each(
    alloc: Global,
    bags: &[Bag],
    step: &Filed,
) -> Result<VecDeque<LinkedList<(LetterName, Letter)>>, NoMemory>
    ensures { IfOk result (λ arriving. AllZip (IsArriving step.now) bags.now arriving.items) }
{
    let mut arriving = VecDeque::new(alloc);
    for bag in bags {
        arriving.push_back(letters_for(alloc, bag, step)?)?;
    }
    Ok(arriving)
}

/// Copies of the letters of a step for a bag, where there is room for them.
fn letters_for(
    alloc: Global,
    bag: &Bag,
    step: &Filed,
) -> Result<LinkedList<(LetterName, Letter)>, NoMemory>
    ensures { IfOk result (IsArriving step.now bag.now) }
{
    let letters = letters_to(alloc, bag.owner, step)?;
    if bag.letters.len() + letters.len() >= MOST_LETTERS {
        return Err(NoMemory);
    }
    Ok(letters)
}
