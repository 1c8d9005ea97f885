ghost use Rattle.std.specs.Prelude.{◌≡◌, ◌<◌, ◌-◌, ◌^◌, ◌↔◌, Err, None, IsTrue, IsSome, IfOk, OnOk, OnErr, IfSome, option_map};
ghost use Rattle.std.specs.Option.{option_copied};
ghost use Rattle.qu_client.specs.State.{client_at_start};
ghost use Rattle.qu_client.specs.Steps.{client_invoke, client_step, client_on_frame, client_tick, next_number, rest_of};
ghost use Rattle.qu_client.specs.Plans.{after_turn, planned_state, planned_step};

use super::rounds::begin_round;
use super::steps::counted_in;
use super::ticks::ticked_in;
use super::{ClientState, Moved, Planned, Turn};
use crate::backoff::Backoff;
use crate::work::{Counted, Phase, Work};
use qu_base::{ClientId, List, NoMemory, Party};
use qu_frames::{Frame, Letter, receive};
use qu_objects::Op;
use qu_question::{Kept, Named, keep_all, unmarked};
use qu_seal::KeyRing;
use std::alloc::Global;
use std::marker::Model;

/// Why an operation is not begun. The client is as before.
#[derive(Clone, Copy, Debug, PartialEq, Eq)]
pub enum InvokeFail {
    /// Number 28: an operation is under way.
    Busy,
    NoMemory,
}

impl From<NoMemory> for InvokeFail {
    ghost use Rattle.std.specs.Prelude.{◌≡◌};
    ghost use Rattle.qu_client.specs.declared.client.InvokeFail.TheVariants as fail;

    ghost from_gives = { λ error given. given ≡ fail.NoMemory };

    fn from(_error: NoMemory) -> InvokeFail {
        InvokeFail::NoMemory
    }
}

/// One client. Its operations run one at a time.
pub struct Client {
    alloc: Global,
    state: ClientState,
}

/// By hand, so that a value is let go in one step wherever that is.
impl Drop for Client {
    fn drop(self) {
        let Client { alloc: _, state: _ } = self;
    }
}

impl Model for Client {
    ghost use Rattle.qu_client.specs.State.{ClientState};

    ghost Value = { ClientState };

    ghost view = { λ client. client.state };
}

impl Client {
    /// A client that was sent nothing yet. Its rests are drawn from this seed, and from its own number.
    pub fn start(alloc: Global, me: ClientId, keys: KeyRing, seed: u64) -> Client
        ensures { result ≡ client_at_start me keys seed }
    {
        Client {
            alloc,
            state: ClientState {
                me,
                keys,
                waits: Backoff::seeded(seed, me),
                kept: List::new(alloc),
                last_request: None,
                work: None,
            },
        }
    }

    /// Whether an operation is under way.
    pub fn busy(&self) -> bool
        ensures { IsTrue result ↔ IsSome self.now.work }
    {
        self.state.work.is_some()
    }

    /// Whether the client rests before its next round.
    pub fn rests(&self) -> bool
        ensures { IsTrue result ↔ IsSome (rest_of self.now.work) }
    {
        self.rest_left().is_some()
    }

    /// How many ticks are left of its rest, `None` where it does not rest.
    pub fn rest_left(&self) -> Option<u32>
        ensures { result ≡ rest_of self.now.work }
    {
        let work = self.state.work.as_ref()?;
        work.phase.rest_left()
    }

    /// Number and round of its last request.
    pub fn last_request(&self) -> Option<(u64, u8)>
        ensures { result ≡ self.now.last_request }
    {
        self.state.last_request
    }

    /// The number of the operation under way.
    pub fn working_on(&self) -> Option<u64>
        ensures { result ≡ option_map (λ work. work.number) self.now.work }
    {
        let work = self.state.work.as_ref()?;
        Some(work.number)
    }

    /// The operation under way.
    pub fn work(&self) -> Option<&Work>
        ensures { option_copied result ≡ self.now.work }
    {
        self.state.work.as_ref()
    }

    /// The newest sealed histories that it was sent.
    pub fn kept(&self) -> &[Kept]
        ensures { result.now ≡ self.now.kept }
    {
        self.state.kept.as_slice()
    }

    /// Begins an operation, and tells the letters of its first round.
    pub fn invoke(&mut self, op: Op) -> Result<List<Letter>, InvokeFail>
        requires { IfSome self.old.last_request (λ last. last.0 < 2 ^ 64 - 1) }
        ensures busy { result ≡ Err InvokeFail.Busy ↔ IsSome self.old.work }
        ensures idle { OnOk result (self.old.work ≡ None) }
        ensures state { OnOk result (self.new ≡ (client_invoke self.old op).state) }
        ensures letters { IfOk result (λ letters. letters ≡ (client_invoke self.old op).letters) }
        ensures err { OnErr result (self.new ≡ self.old) }
    {
        let planned = self.plan_invoke(op)?;
        let Moved { letters, .. } = self.carry_out(planned);
        Ok(letters)
    }

    /// Takes the bytes of a frame whose HMAC is right for it; any others are ignored. Without memory
    /// the client is as before.
    pub fn step(&mut self, text: &[u8]) -> Result<Moved, NoMemory>
        ensures state { OnOk result (self.new ≡ (client_step self.old text.now).state) }
        ensures letters { IfOk result (λ moved. moved.letters ≡ (client_step self.old text.now).letters) }
        ensures ended { IfOk result (λ moved. moved.ended ≡ (client_step self.old text.now).ended) }
        ensures err { OnErr result (self.new ≡ self.old) }
    {
        let planned = self.plan(text)?;
        Ok(self.carry_out(planned))
    }

    /// Takes a tick of the clock. Without memory the client is as before.
    pub fn tick(&mut self) -> Result<Moved, NoMemory>
        ensures state { OnOk result (self.new ≡ (client_tick self.old).state) }
        ensures letters { IfOk result (λ moved. moved.letters ≡ (client_tick self.old).letters) }
        ensures ended { IfOk result (λ moved. moved.ended ≡ (client_tick self.old).ended) }
        ensures err { OnErr result (self.new ≡ self.old) }
    {
        let planned = self.plan_tick()?;
        Ok(self.carry_out(planned))
    }

    /// What `invoke` will make of this operation. All that it takes of memory is taken here.
    pub fn plan_invoke(&self, op: Op) -> Result<Planned, InvokeFail>
        requires { IfSome self.now.last_request (λ last. last.0 < 2 ^ 64 - 1) }
        ensures busy { result ≡ Err InvokeFail.Busy ↔ IsSome self.now.work }
        ensures step { IfOk result (λ planned. planned_step self.now planned ≡ client_invoke self.now op) }
    {
        if self.state.work.is_some() {
            return Err(InvokeFail::Busy);
        }
        let kept = unmarked(self.alloc, self.state.kept.as_slice())?;
        let number = self.next_number();
        let named = Named::of(self.alloc, &op)?;
        let planned = begin_round(self.alloc, &self.state, kept, op, number, 1, named)?;
        Ok(planned)
    }

    /// What `step` will make of these bytes. All that the step takes of memory is taken here.
    pub fn plan(&self, text: &[u8]) -> Result<Planned, NoMemory>
        ensures { IfOk result (λ planned. planned_step self.now planned ≡ client_step self.now text.now) }
    {
        let me = Party::Client(self.state.me);
        match receive(self.alloc, &self.state.keys, me, text)? {
            Some(frame) => self.plan_frame(&frame),
            None => Ok(Planned::turned(self.alloc, Turn::Stays)),
        }
    }

    /// What a frame will make. One that is no reply to this client is ignored.
    fn plan_frame(&self, frame: &Frame) -> Result<Planned, NoMemory>
        ensures { IfOk result (λ planned. planned_step self.now planned ≡ client_on_frame self.now frame.now) }
    {
        match frame {
            Frame::Reply {
                replica,
                client,
                number,
                round,
                verdict,
                culled,
                shown,
                ..
            } if client.0 == self.state.me.0 => {
                let held = self.state.kept.as_slice();
                let kept = keep_all(self.alloc, *number, *round, shown.as_slice(), held)?;
                counted_in(
                    self.alloc,
                    &self.state,
                    kept,
                    *replica,
                    *number,
                    *round,
                    verdict,
                    culled,
                )
            }
            _ => Ok(Planned::turned(self.alloc, Turn::Stays)),
        }
    }

    /// What `tick` will make. All that it takes of memory is taken here.
    pub fn plan_tick(&self) -> Result<Planned, NoMemory>
        ensures { IfOk result (λ planned. planned_step self.now planned ≡ client_tick self.now) }
    {
        match &self.state.work {
            Some(work) => ticked_in(self.alloc, &self.state, work),
            None => Ok(Planned::turned(self.alloc, Turn::Stays)),
        }
    }

    /// Makes what was planned of the state that the client has, which takes no memory.
    pub fn carry_out(&mut self, planned: Planned) -> Moved
        ensures state { self.new ≡ planned_state self.old planned }
        ensures moved { result ≡ planned.moved }
    {
        let Planned { kept, turn, moved } = planned;
        if let Some(kept) = kept {
            self.state.kept = kept;
        }
        self.turn(turn);
        moved
    }

    /// The operation under way stands so from now on.
    fn turn(&mut self, turn: Turn)
        ensures { self.new ≡ after_turn self.old turn }
    {
        match turn {
            Turn::Stays => {}
            Turn::Ends => self.state.work = None,
            Turn::Begins(work) => {
                self.state.last_request = Some((work.number, work.round));
                self.state.work = Some(work);
            }
            Turn::Counts(replies) => self.count(replies),
            Turn::Rests {
                ticks,
                waits,
                named,
            } => {
                self.state.waits = waits;
                self.rest(ticks, named);
            }
            Turn::Passes(phase) => self.pass(phase),
        }
    }

    /// These verdicts count.
    fn count(&mut self, replies: List<Counted>)
        ensures { self.new ≡ after_turn self.old (Turn.Counts replies) }
    {
        if let Some(work) = &mut self.state.work {
            work.replies = replies;
        }
    }

    /// It rests, with these objects named.
    fn rest(&mut self, ticks: u32, named: Named)
        ensures { self.new ≡ after_turn self.old (Turn.Rests ticks self.old.waits named) }
    {
        let alloc = self.alloc;
        if let Some(work) = &mut self.state.work {
            work.phase = Phase::Resting { ticks };
            work.named = named;
            work.replies = List::new(alloc);
        }
    }

    /// The round goes on in this phase.
    fn pass(&mut self, phase: Phase)
        ensures { self.new ≡ after_turn self.old (Turn.Passes phase) }
    {
        if let Some(work) = &mut self.state.work {
            work.phase = phase;
        }
    }

    /// The number of the next operation.
    fn next_number(&self) -> u64
        requires { IfSome self.now.last_request (λ last. last.0 < 2 ^ 64 - 1) }
        ensures { result ≡ next_number self.now.last_request }
    {
        match self.state.last_request {
            Some((number, _)) => number + 1,
            None => 1,
        }
    }
}
