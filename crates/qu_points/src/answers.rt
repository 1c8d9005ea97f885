//! The answers that are sent in a run.
ghost use Rattle.std.specs.Prelude.{◌≡◌, position};
ghost use Rattle.qu_points.specs.Points.{has_answered, first_answer};

use qu_base::List;
use qu_known::Answered;

/// The first event at which an answer to this round is sent.
pub fn first_answer(answers: &[List<Answered>], asked: Answered) -> Option<u64>
    ensures { result ≡ first_answer asked answers.now }
{
    let index = first_entry(answers, asked)?;
    Some(index as u64 + 1)
}

/// The index of the first entry with an answer to this round.
fn first_entry(answers: &[List<Answered>], asked: Answered) -> Option<usize>
    ensures { result ≡ position (has_answered asked) answers.now }
{
    answers
        .iter()
        .position(|rounds| has_answered(rounds.as_slice(), asked))
}

/// Whether this round is among these.
fn has_answered(rounds: &[Answered], asked: Answered) -> bool
    ensures { result ≡ has_answered asked rounds.now }
{
    rounds.iter().any(|round| *round == asked)
}
