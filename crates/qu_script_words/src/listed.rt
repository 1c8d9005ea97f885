ghost use Rattle.std.specs.Prelude.{◌≡◌};
ghost use Rattle.qu_script_words.specs.Meaning.{IsReadAs};
ghost use Rattle.qu_script_words.specs.Parties.{replica_rule};
ghost use Rattle.qu_script_words.specs.Rules.{number_rule};
ghost use Rattle.qu_script_words.specs.Words.{all_of, some_of};

use super::parties::read_replica;
use super::rules::read_number;
use super::{BadKind, LineFail, Words};
use qu_base::{Bounds, List, ReplicaId};
use std::alloc::Global;

/// Numbers, one for each word that is left, and one at least.
#[tactic(auto, unfolding(crate::specs::Words::some_of))]
pub fn read_numbers(alloc: Global, words: &mut Words<'_>) -> Result<List<u64>, LineFail>
    ensures { IsReadAs (λ numbers. numbers) result (some_of number_rule words.old) }
{
    if words.is_empty() {
        return Err(LineFail::Bad(BadKind::WrongCount));
    }
    read_all_numbers(alloc, words)
}

/// Numbers, one for each word that is left.
#[tactic(auto, using(crate::proofs::ListedFacts::listed_facts))]
fn read_all_numbers(alloc: Global, words: &mut Words<'_>) -> Result<List<u64>, LineFail>
    ensures { IsReadAs (λ numbers. numbers) result (all_of number_rule words.old) }
{
    let mut numbers = List::new(alloc);
    'words: while !words.is_empty() {
        numbers.push(read_number(words.next()?)?)?;
    }
    Ok(numbers)
}

/// Replicas, one for each word that is left, and one at least.
#[tactic(auto, unfolding(crate::specs::Words::some_of))]
pub fn read_replicas(
    alloc: Global,
    bounds: &Bounds,
    words: &mut Words<'_>,
) -> Result<List<ReplicaId>, LineFail>
    ensures { IsReadAs (λ replicas. replicas) result (some_of (replica_rule bounds.now) words.old) }
{
    if words.is_empty() {
        return Err(LineFail::Bad(BadKind::WrongCount));
    }
    read_all_replicas(alloc, bounds, words)
}

/// Replicas, one for each word that is left.
#[tactic(auto, using(crate::proofs::ListedFacts::listed_facts))]
fn read_all_replicas(
    alloc: Global,
    bounds: &Bounds,
    words: &mut Words<'_>,
) -> Result<List<ReplicaId>, LineFail>
    ensures { IsReadAs (λ replicas. replicas) result (all_of (replica_rule bounds.now) words.old) }
{
    let mut replicas = List::new(alloc);
    'words: while !words.is_empty() {
        replicas.push(read_replica(bounds, words.next()?)?)?;
    }
    Ok(replicas)
}
