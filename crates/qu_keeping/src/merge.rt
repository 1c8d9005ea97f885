ghost use Rattle.std.specs.Prelude.{◌≡◌, ℕ, IfOk};
ghost use Rattle.qu_base.specs.declared.party.Party.{Party as AParty};
ghost use Rattle.qu_replay.specs.Replays.{RisesFrom, own_steps};
ghost use Rattle.qu_replay.specs.Merged.{AreByTicket, steps_of_ticket};

use qu_base::{List, NoMemory, Party};
use qu_replay::KeptStep;

/// The steps of all actors in the order of their tickets. Those of one ticket stand as they were handed in, so where
/// that was actor by actor, they stand by actor; and an actor whose own tickets rise keeps the order of its steps.
pub fn by_ticket(steps: List<(Party, KeptStep)>) -> Result<List<(Party, KeptStep)>, NoMemory>
    ensures sorted { IfOk result (λ merged. AreByTicket 0 merged) }
    ensures ties { IfOk result (λ merged. (ticket : ℕ)
        → steps_of_ticket ticket merged ≡ steps_of_ticket ticket steps) }
    ensures own { IfOk result (λ merged. (me : AParty) → RisesFrom 0 (own_steps me steps)
        → own_steps me merged ≡ own_steps me steps) }
{
    let mut merged = steps.into_vec();
    merged.sort_by_key(|(_, step)| step.ticket)?;
    Ok(List::from(merged))
}
