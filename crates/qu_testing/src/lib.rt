//! What the crates of tests share.
#![tactic(auto)]

ghost use Rattle.std.specs.Prelude.{◌≡◌, is_ok, IfOk};
ghost use Rattle.std.specs.List.{list_all};

use qu_base::{List, NoMemory};
use std::alloc::Global;
use std::test::Fail;

/// Fails with these words where the fact does not hold.
pub fn holds(fact: bool, words: &'static str) -> Result<(), Fail>
    ensures { is_ok result ≡ fact }
{
    if fact { Ok(()) } else { Err(words.into()) }
}

/// Fails with the words of the first fact that does not hold.
pub fn all_hold(facts: &[(bool, &'static str)]) -> Result<(), Fail>
    ensures { is_ok result ≡ list_all (λ fact. fact.0) facts.now }
{
    for (fact, words) in facts {
        holds(*fact, *words)?;
    }
    Ok(())
}

/// The bytes of a text.
pub fn bytes_of(alloc: Global, text: &str) -> Result<List<u8>, NoMemory>
    ensures { IfOk result (λ bytes. bytes ≡ text.now) }
{
    List::from_clones(alloc, text.as_bytes())
}
