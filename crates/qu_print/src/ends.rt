ghost use Rattle.std.specs.Prelude.{◌≡◌, ◌∷◌, [], ◌++◌, OnOk, count_by, string_bytes};
ghost use Rattle.qu_trace.specs.declared.premises.Premises.TheVariants.{Collide};
ghost use Rattle.qu_print.specs.Lines.{lines_text};
ghost use Rattle.qu_print.specs.Ends.{premises_line, end_line, counts_text, ended_done, ended_given_up, never_ended};

use qu_base::NoMemory;
use qu_machine::OpRecord;
use qu_objects::Outcome;
use qu_trace::Premises;

/// Writes whether the premises hold, and else the events of the first break.
#[tactic(auto, unfolding(crate::specs::Lines::lines_text, crate::specs::Ends::premises_line))]
pub fn put_premises(text: &mut String, premises: &Premises) -> Result<(), NoMemory>
    ensures { OnOk result (string_bytes text.new
        ≡ string_bytes text.old ++ lines_text (premises_line premises.now ∷ [])) }
{
    match premises {
        Premises::Hold => text.push_str("premises hold\n")?,
        Premises::Forged { event } => writeln!(text, "premises forged {event}")?,
        Premises::Collide { first, second } => put_collision(text, *first, *second)?,
    }
    Ok(())
}

/// Writes that the texts of two events collide.
#[tactic(auto, unfolding(crate::specs::Lines::lines_text, crate::specs::Ends::premises_line))]
fn put_collision(text: &mut String, first: u64, second: u64) -> Result<(), NoMemory>
    ensures { OnOk result (string_bytes text.new
        ≡ string_bytes text.old ++ lines_text (premises_line (Collide first second) ∷ [])) }
{
    write!(text, "premises collide {first}")?;
    writeln!(text, " {second}")?;
    Ok(())
}

/// Writes the line that counts how operations ended.
#[tactic(auto, unfolding(crate::specs::Lines::lines_text, crate::specs::Ends::end_line))]
pub fn put_end_line(text: &mut String, operations: &[OpRecord]) -> Result<(), NoMemory>
    ensures { OnOk result (string_bytes text.new
        ≡ string_bytes text.old ++ lines_text (end_line operations.now ∷ [])) }
{
    text.push_str("end ")?;
    put_counts(text, operations)?;
    text.push_str("\n")?;
    Ok(())
}

/// Writes how many operations there are, and how they ended.
#[tactic(auto, unfolding(crate::specs::Ends::counts_text))]
pub fn put_counts(text: &mut String, operations: &[OpRecord]) -> Result<(), NoMemory>
    ensures { OnOk result (string_bytes text.new ≡ string_bytes text.old ++ counts_text operations.now) }
{
    let calls = operations.len();
    let Ends {
        done,
        gave_up,
        unended,
    } = ends_of(operations);
    write!(text, "calls {calls} done {done}")?;
    write!(text, " gaveup {gave_up} open {unended}")?;
    Ok(())
}

/// How many operations ended in each way, and how many have not.
struct Ends {
    done: usize,
    gave_up: usize,
    unended: usize,
}

#[tactic(auto, using(std::proofs::lemmas::List::Sums::count_by_more_yes, std::proofs::lemmas::List::Sums::count_by_more_no))]
fn ends_of(operations: &[OpRecord]) -> Ends
    ensures done { result.done ≡ count_by ended_done operations.now }
    ensures gave_up { result.gave_up ≡ count_by ended_given_up operations.now }
    ensures unended { result.unended ≡ count_by never_ended operations.now }
{
    let mut ends = Ends {
        done: 0,
        gave_up: 0,
        unended: 0,
    };
    for operation in operations {
        match &operation.reply {
            Some((_, Outcome::Done(_))) => ends.done += 1,
            Some((_, Outcome::GaveUp)) => ends.gave_up += 1,
            None => ends.unended += 1,
        }
    }
    ends
}
