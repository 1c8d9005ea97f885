ghost use Rattle.std.specs.Prelude.{◌≡◌, [], ◌∷◌, ◌++◌, None, IfOk, OnOk, OnErr};
ghost use Rattle.qu_rows.specs.State.{ReplicaState};
ghost use Rattle.qu_replica.specs.Growth.{MayGain};
ghost use Rattle.qu_replica.specs.State.{with_gain};
ghost use Rattle.qu_replica.specs.Step.{replica_step};
ghost use Rattle.qu_replay.specs.Steps.{Replicates, replica_made, moved_replica, IsTakenByReplica};
ghost use Rattle.qu_keeping.specs.Kept.{kept_as};

use qu_base::{List, NoMemory};
use qu_frames::{Input, Letter};
use qu_replay::KeptStep;
use qu_replica::{Planned, Replica};
use std::alloc::Global;

/// A replica takes an input, and the step is put behind the others. Without memory all is as before.
pub fn replica_takes(
    alloc: Global,
    replica: &mut Replica,
    steps: &mut Vec<KeptStep>,
    input: Input,
    ticket: u64,
) -> Result<List<Letter>, NoMemory>
    requires { IsTakenByReplica input }
    ensures actor { OnOk result (Replicates replica.new ≡ (moved_replica replica.old input).actor) }
    ensures letters { IfOk result (λ letters. letters ≡ (moved_replica replica.old input).letters) }
    ensures steps { OnOk result
        (steps.new.items ≡ steps.old.items ++ kept_as ticket input (moved_replica replica.old input) ∷ []) }
    ensures err { OnErr result ((replica.new ≡ replica.old) × (steps.new.items ≡ steps.old.items)) }
{
    steps.reserve(1)?;
    let (planned, letters) = plan(alloc, &*replica, &input)?;
    let sent = replica.carry_out(planned);
    steps.push_reserved(KeptStep {
        ticket,
        input,
        letters,
        ended: None,
    });
    Ok(sent)
}

/// What a replica will make of a frame, and a copy of the letters that it will send.
fn plan(
    alloc: Global,
    replica: &Replica,
    input: &Input,
) -> Result<(Planned, List<Letter>), NoMemory>
    requires { IsTakenByReplica input.now }
    ensures actor { IfOk result (λ plan.
        Replicates (with_gain replica.now plan.0.gain) ≡ (moved_replica replica.now input.now).actor) }
    ensures letters { IfOk result (λ plan. plan.0.letters ≡ (moved_replica replica.now input.now).letters) }
    ensures unended { IfOk result (λ _. (moved_replica replica.now input.now).ended ≡ None) }
    ensures copied { IfOk result (λ plan. plan.1 ≡ plan.0.letters) }
    ensures may { IfOk result (λ plan. MayGain replica.now plan.0.gain) }
{
    let planned = replica.plan(text_of(input))?;
    let letters = Letter::copy_all(alloc, planned.letters.as_slice())?;
    Ok((planned, letters))
}

/// The bytes of a frame.
fn text_of(input: &Input) -> &[u8]
    requires { IsTakenByReplica input.now }
    ensures { (state : ReplicaState) → moved_replica state input.now ≡ replica_made (replica_step state result.now) }
{
    match input {
        Input::Frame(_, text) => text.as_slice(),
        Input::Tick | Input::Invoke(_) => unreachable!(),
    }
}
