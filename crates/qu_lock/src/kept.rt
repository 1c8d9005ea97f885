ghost use Rattle.std.specs.Prelude.{◌≡◌, ◌≤◌, ◌↔◌, [], IsTrue};
ghost use Rattle.qu_replay.specs.Replays.{first_free_ticket, IsAfterLetter};

mod client;
mod replica;

use crate::{Actor, RunName};
use qu_base::{List, Party};
use qu_frames::Input;
use qu_replay::{KeptStep, may_follow};
use std::alloc::Global;
use std::marker::{Model, PhantomData};

/// An actor of a run, and the steps that it took: it is where these lead from its opening. Contracts see both.
#[derive(Drop)]
pub struct Kept<A: Actor, N: RunName> {
    alloc: Global,
    me: Party,
    actor: A,
    steps: Vec<KeptStep>,
    run: PhantomData<N>,
}

impl<A: Actor, N: RunName> Model for Kept<A, N> {
    ghost use Rattle.std.specs.Prelude.{◌≡◌, List};
    ghost use Rattle.qu_replay.specs.declared.kept_step.KeptStep.{KeptStep};

    ghost Value = { A × List KeptStep };

    ghost view = { λ kept. (kept.actor, kept.steps.items) };

    ghost invariant = { λ kept. (kept.me ≡ A.name kept.actor)
        × A.stands N.setup N.calls kept.actor kept.steps.items };
}

impl<A: Actor, N: RunName> Kept<A, N> {
    /// The actor with this name, which took no step yet.
    fn opening(alloc: Global, me: Party, actor: A) -> Kept<A, N>
        requires name { me ≡ A.name actor }
        requires stands { A.stands N.setup N.calls actor [] }
        ensures { result ≡ (actor, []) }
    {
        Kept {
            alloc,
            me,
            actor,
            steps: Vec::new(alloc),
            run: PhantomData,
        }
    }

    /// The name of the actor.
    pub fn party(&self) -> Party
        ensures { result ≡ A.name self.now.0 }
    {
        self.me
    }

    /// The actor, as it is after its steps.
    pub fn actor(&self) -> &A
        ensures value { result.now ≡ self.now.0 }
        ensures stands { A.stands N.setup N.calls self.now.0 self.now.1 }
    {
        &self.actor
    }

    /// The steps that the actor took, from the first on.
    pub fn steps(&self) -> &[KeptStep]
        ensures value { result.now ≡ self.now.1 }
        ensures stands { A.stands N.setup N.calls self.now.0 self.now.1 }
    {
        self.steps.as_slice()
    }

    /// Whether the next step may take this input under this ticket: it is above that of each step so far, and of a
    /// frame above that of its letter.
    pub fn admits(&self, input: &Input, ticket: u64) -> bool
        ensures { IsTrue result ↔ ((first_free_ticket 0 self.now.1 ≤ ticket) × IsAfterLetter ticket input.now) }
    {
        may_follow(self.steps.as_slice(), ticket, input)
    }

    /// The actor and its steps.
    pub fn into_parts(self) -> (A, List<KeptStep>)
        ensures value { result ≡ self }
        ensures stands { A.stands N.setup N.calls result.0 result.1 }
    {
        let Kept {
            alloc: _,
            me: _,
            actor,
            steps,
            run: _,
        } = self;
        (actor, List::from(steps))
    }
}
