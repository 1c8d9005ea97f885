ghost use Rattle.std.specs.Prelude.{◌≡◌, ◌<◌, ◌-◌, ◌^◌, [], ◌∷◌, ◌++◌, IfSome, IfOk, OnOk, OnErr};
ghost use Rattle.qu_client.specs.Plans.{planned_step};
ghost use Rattle.qu_world.specs.Step.{ended_as};
ghost use Rattle.qu_replay.specs.Steps.{Asks, client_made, moved_client, IsTakenByClient};
ghost use Rattle.qu_keeping.specs.Kept.{kept_as};

use qu_base::{ClientId, List, NoMemory};
use qu_client::{Client, InvokeFail, Moved, Planned};
use qu_frames::{Input, Letter};
use qu_objects::Outcome;
use qu_replay::KeptStep;
use std::alloc::Global;

/// The client with this name takes an input, and the step is put behind the others. Without memory all is as before.
pub fn client_takes(
    alloc: Global,
    me: ClientId,
    client: &mut Client,
    steps: &mut Vec<KeptStep>,
    input: Input,
    ticket: u64,
) -> Result<List<Letter>, NoMemory>
    requires idle { IsTakenByClient client.old input }
    requires numbers { IfSome client.old.last_request (λ last. last.0 < 2 ^ 64 - 1) }
    ensures actor { OnOk result (Asks client.new ≡ (moved_client me client.old input).actor) }
    ensures letters { IfOk result (λ letters. letters ≡ (moved_client me client.old input).letters) }
    ensures steps { OnOk result
        (steps.new.items ≡ steps.old.items ++ kept_as ticket input (moved_client me client.old input) ∷ []) }
    ensures err { OnErr result ((client.new ≡ client.old) × (steps.new.items ≡ steps.old.items)) }
{
    steps.reserve(1)?;
    let (planned, letters) = plan_with_letters(alloc, me, &*client, &input)?;
    let number = client.working_on();
    let Moved {
        letters: sent,
        ended,
    } = client.carry_out(planned);
    steps.push_reserved(KeptStep {
        ticket,
        input,
        letters,
        ended: ended_as(me, number, ended),
    });
    Ok(sent)
}

/// What the client with this name will make of an input, and a copy of the letters that it will send.
fn plan_with_letters(
    alloc: Global,
    me: ClientId,
    client: &Client,
    input: &Input,
) -> Result<(Planned, List<Letter>), NoMemory>
    requires idle { IsTakenByClient client.now input.now }
    requires numbers { IfSome client.now.last_request (λ last. last.0 < 2 ^ 64 - 1) }
    ensures made { IfOk result (λ plan. client_made me client.now (planned_step client.now plan.0)
        ≡ moved_client me client.now input.now) }
    ensures copied { IfOk result (λ plan. plan.1 ≡ plan.0.moved.letters) }
{
    let planned = plan(alloc, me, client, input)?;
    let letters = Letter::copy_all(alloc, planned.moved.letters.as_slice())?;
    Ok((planned, letters))
}

/// What the client with this name will make of an input.
fn plan(alloc: Global, me: ClientId, client: &Client, input: &Input) -> Result<Planned, NoMemory>
    requires idle { IsTakenByClient client.now input.now }
    requires numbers { IfSome client.now.last_request (λ last. last.0 < 2 ^ 64 - 1) }
    ensures { IfOk result (λ planned. client_made me client.now (planned_step client.now planned)
        ≡ moved_client me client.now input.now) }
{
    match input {
        Input::Frame(_, text) => client.plan(text.as_slice()),
        Input::Tick => client.plan_tick(),
        Input::Invoke(op) => match client.plan_invoke(op.copy(alloc)?) {
            Ok(planned) => Ok(planned),
            Err(InvokeFail::NoMemory) => Err(NoMemory),
            Err(InvokeFail::Busy) => unreachable!(),
        },
    }
}

/// The end of the operation that was under way, named by its client and number.
fn ended_as(
    me: ClientId,
    number: Option<u64>,
    ended: Option<Outcome>,
) -> Option<(ClientId, u64, Outcome)>
    ensures { result ≡ ended_as me number ended }
{
    match (number, ended) {
        (Some(number), Some(outcome)) => Some((me, number, outcome)),
        (Some(_), None) | (None, None) | (None, Some(_)) => None,
    }
}
