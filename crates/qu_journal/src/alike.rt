ghost use Rattle.std.specs.Prelude.{◌≡◌};
ghost use Rattle.std.specs.Bool.{Decides};
ghost use Rattle.std.specs.Cmp.Lexicographic.{pointwise};
ghost use Rattle.qu_machine.specs.PointTests.{same_op};
ghost use Rattle.qu_trace.specs.Faulty.{is_same};
ghost use Rattle.qu_journal.specs.Alike.{same_letter_name, same_input, same_letter, same_outcome, same_end, same_step};

use qu_base::{ClientId, Party};
use qu_frames::{Input, Letter, LetterName};
use qu_objects::{Op, Outcome};
use qu_replay::KeptStep;

/// Whether two steps are equal, and of one actor.
#[tactic(auto, using(crate::proofs::Equal::decides_step))]
pub fn are_equal(one: &(Party, KeptStep), other: &(Party, KeptStep)) -> bool
    ensures { Decides result (one.now ≡ other.now) }
{
    same_step(one, other)
}

fn same_step(one: &(Party, KeptStep), other: &(Party, KeptStep)) -> bool
    ensures { result ≡ same_step one.now other.now }
{
    let (me, step) = one;
    let (who, twin) = other;
    is_same(*me, *who)
        && step.ticket == twin.ticket
        && same_input(&step.input, &twin.input)
        && same_letters(step.letters.as_slice(), twin.letters.as_slice())
        && same_end(&step.ended, &twin.ended)
}

/// Whether two names are of one party.
pub fn is_same(one: Party, other: Party) -> bool
    ensures { result ≡ is_same one other }
{
    one == other
}

fn same_letter_name(one: LetterName, other: LetterName) -> bool
    ensures { result ≡ same_letter_name one other }
{
    is_same(one.from, other.from) && one.ticket == other.ticket && one.place == other.place
}

fn same_input(one: &Input, other: &Input) -> bool
    ensures { result ≡ same_input one.now other.now }
{
    match (one, other) {
        (Input::Frame(one, text), Input::Frame(other, bytes)) => {
            same_letter_name(*one, *other) && text == bytes
        }
        (Input::Invoke(one), Input::Invoke(other)) => same_op(one, other),
        (Input::Tick, Input::Tick) => true,
        (Input::Frame(_, _), Input::Tick | Input::Invoke(_))
        | (Input::Tick, Input::Frame(_, _) | Input::Invoke(_))
        | (Input::Invoke(_), Input::Frame(_, _) | Input::Tick) => false,
    }
}

fn same_op(one: &Op, other: &Op) -> bool
    ensures { result ≡ same_op one.now other.now }
{
    match (one, other) {
        (Op::Act(one), Op::Act(other)) => one.parts() == other.parts(),
        (Op::Query(one), Op::Query(other)) => one.parts() == other.parts(),
        (Op::Act(_), Op::Query(_)) | (Op::Query(_), Op::Act(_)) => false,
    }
}

fn same_letters(one: &[Letter], other: &[Letter]) -> bool
    ensures { result ≡ pointwise same_letter one.now other.now }
{
    if one.len() != other.len() {
        return false;
    }
    for (place, letter) in one.iter().enumerate() {
        if !same_letter(letter, &other[place]) {
            return false;
        }
    }
    true
}

fn same_letter(one: &Letter, other: &Letter) -> bool
    ensures { result ≡ same_letter one.now other.now }
{
    is_same(one.from, other.from) && is_same(one.to, other.to) && one.text == other.text
}

fn same_end(
    one: &Option<(ClientId, u64, Outcome)>,
    other: &Option<(ClientId, u64, Outcome)>,
) -> bool
    ensures { result ≡ same_end one.now other.now }
{
    match (one, other) {
        (Some((one, number, outcome)), Some((other, count, end))) => {
            one.0 == other.0 && number == count && same_outcome(outcome, end)
        }
        (None, None) => true,
        (Some(_), None) | (None, Some(_)) => false,
    }
}

fn same_outcome(one: &Outcome, other: &Outcome) -> bool
    ensures { result ≡ same_outcome one.now other.now }
{
    match (one, other) {
        (Outcome::Done(one), Outcome::Done(other)) => one == other,
        (Outcome::GaveUp, Outcome::GaveUp) => true,
        (Outcome::Done(_), Outcome::GaveUp) | (Outcome::GaveUp, Outcome::Done(_)) => false,
    }
}
