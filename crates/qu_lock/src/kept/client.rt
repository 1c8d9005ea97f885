ghost use Rattle.std.specs.Prelude.{◌≡◌, ◌<◌, ◌≤◌, ◌-◌, ◌^◌, [], ◌∷◌, ◌++◌, length, slice_get, Some, IfSome, IfOk, OnOk, OnErr};
ghost use Rattle.std.specs.Option.{option_copied};
ghost use Rattle.qu_base.specs.declared.party.Party.TheVariants as party;
ghost use Rattle.qu_replay.specs.Steps.{Asks, moved_client, IsTakenByClient};
ghost use Rattle.qu_replay.specs.Replays.{opening_actor, first_free_ticket, IsAfterLetter};
ghost use Rattle.qu_replay.specs.Operations.{begun_operations};
ghost use Rattle.qu_keeping.specs.Kept.{kept_as};
ghost use Rattle.qu_lock.specs.Calls.{calls_by, IsNextCall};

use super::Kept;
use crate::RunName;
use qu_base::{ClientId, List, NoMemory, Party};
use qu_client::Client;
use qu_frames::{Input, Letter};
use qu_keeping::client_takes;
use qu_objects::Op;
use qu_replay::KeptStep;
use std::alloc::Global;

impl<N: RunName> Kept<Client, N> {
    /// A client with this name, as it begins in the run, where it is correct.
    pub fn new(alloc: Global, me: ClientId, client: Client) -> Kept<Client, N>
        requires { opening_actor N.setup (party.Client me) ≡ Some (Asks client) }
        ensures { result ≡ (client, []) }
    {
        Kept::<Client, N>::opening(alloc, Party::Client(me), client)
    }

    /// Makes one step, keeps it, and gives the letters that it sends. Without memory all is as before.
    pub fn step(&mut self, input: Input, ticket: u64) -> Result<List<Letter>, NoMemory>
        requires idle { IsTakenByClient self.old.0 input }
        requires next { IsNextCall (calls_by self.old.0.me N.calls) self.old.1 input }
        requires later { first_free_ticket 0 self.old.1 ≤ ticket }
        requires after { IsAfterLetter ticket input }
        ensures actor { OnOk result (Asks self.new.0 ≡ (moved_client self.old.0.me self.old.0 input).actor) }
        ensures letters { IfOk result (λ letters. letters ≡ (moved_client self.old.0.me self.old.0 input).letters) }
        ensures steps { OnOk result (self.new.1
            ≡ self.old.1 ++ kept_as ticket input (moved_client self.old.0.me self.old.0 input) ∷ []) }
        ensures err { OnErr result (self.new ≡ self.old) }
    {
        self.numbers_last();
        let me = self.me();
        let sent = client_takes(
            self.alloc,
            me,
            &mut self.actor,
            &mut self.steps,
            input,
            ticket,
        )?;
        Ok(sent)
    }

    /// The next of its calls, where these are those of the run. None where it began all of them.
    pub fn next_call<'c>(&self, calls: &'c [(ClientId, Op)]) -> Option<&'c Op>
        requires { calls.now ≡ N.calls }
        ensures { option_copied result
            ≡ slice_get (calls_by self.now.0.me N.calls) (length (begun_operations self.now.1)) }
    {
        call_at(calls, self.me(), begun(self.steps.as_slice()))
    }

    /// Its name.
    fn me(&self) -> ClientId
        ensures { result ≡ self.now.0.me }
    {
        match self.me {
            Party::Client(me) => me,
            Party::Replica(_) => unreachable!(),
        }
    }

    /// The number of its last request is at most that of its invocations, which are in memory.
    fn numbers_last(&self)
        ensures { IfSome self.now.0.last_request (λ last. last.0 < 2 ^ 64 - 1) }
    {
        are_few(self.steps.as_slice());
    }
}

/// How many operations began in these steps.
fn begun(steps: &[KeptStep]) -> usize
    ensures { result ≡ length (begun_operations steps.now) }
{
    let mut begun = 0;
    for step in steps {
        if let Input::Invoke(_) = step.input {
            begun += 1;
        }
    }
    begun
}

/// The call of this client at this place, counted from 0.
fn call_at(calls: &[(ClientId, Op)], me: ClientId, place: usize) -> Option<&Op>
    ensures { option_copied result ≡ slice_get (calls_by me calls.now) place }
{
    let mut left = place;
    for (client, op) in calls {
        if client.0 == me.0 {
            if left == 0 {
                return Some(op);
            }
            left -= 1;
        }
    }
    None
}

/// A list that is in memory has fewer than 2^63 items.
fn are_few(steps: &[KeptStep])
    ensures { length steps.now < 2 ^ 63 }
{}
