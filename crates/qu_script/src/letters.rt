ghost use Rattle.std.specs.Prelude.{◌≡◌};
ghost use Rattle.std.specs.Option.{option_copied};
ghost use Rattle.qu_script.specs.Letters.{is_meant, last_of, last_sent};
ghost use Rattle.qu_trace.specs.Faulty.{is_same};

use qu_base::Party;
use qu_frames::Letter;
use qu_trace::Entry;

/// The last letter of a party, and to a party where one is named, that was sent at these events.
#[tactic(auto, using(crate::proofs::LetterFacts::sent_end, crate::proofs::LetterFacts::sent_start))]
pub fn last_sent(entries: &[Entry], from: Party, to: Option<Party>) -> Option<&Letter>
    ensures { option_copied result ≡ last_sent from to entries.now }
{
    let mut found = None;
    for entry in entries {
        found = last_of(entry.letters.as_slice(), from, to).or(found);
    }
    found
}

/// The last one of some letters.
#[tactic(auto, using(crate::proofs::LetterFacts::letter_facts))]
fn last_of(letters: &[Letter], from: Party, to: Option<Party>) -> Option<&Letter>
    ensures { option_copied result ≡ last_of from to letters.now }
{
    let mut found = None;
    for letter in letters {
        if is_meant(letter, from, to) {
            found = Some(letter);
        }
    }
    found
}

/// Whether a letter is of a party, and to a party where one is named.
fn is_meant(letter: &Letter, from: Party, to: Option<Party>) -> bool
    ensures { result ≡ is_meant from to letter.now }
{
    match to {
        Some(to) => is_same(letter.from, from) && is_same(letter.to, to),
        None => is_same(letter.from, from),
    }
}

fn is_same(one: Party, other: Party) -> bool
    ensures { result ≡ is_same one other }
{
    match (one, other) {
        (Party::Replica(one), Party::Replica(other)) => one.0 == other.0,
        (Party::Client(one), Party::Client(other)) => one.0 == other.0,
        (Party::Replica(_), Party::Client(_)) | (Party::Client(_), Party::Replica(_)) => false,
    }
}
