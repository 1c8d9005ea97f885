ghost use Rattle.std.specs.Prelude.{◌≡◌, ◌≤◌, Ok, IfOk, is_none};
ghost use Rattle.qu_base.specs.declared.limits.TheConstants.{LAST_CLIENT};
ghost use Rattle.qu_frames.specs.Decoding.{decoded};
ghost use Rattle.qu_trace.specs.Faulty.{is_faulty};
ghost use Rattle.qu_listed.specs.Receivers.{frame_taken};
ghost use Rattle.qu_world.specs.Run.{IsSetup};
ghost use Rattle.qu_world.specs.State.{opening_world};

use qu_base::{Bounds, NoMemory, Party};
use qu_frames::{Frame, receive};
use qu_seal::KeyRing;
use qu_trace::Setup;
use qu_world::World;
use std::alloc::Global;
use std::marker::Model;

/// The parties of a run with their keys, as receivers of texts.
#[derive(Drop)]
pub struct Receivers<'a> {
    setup: &'a Setup,
    keys: KeyRing,
}

impl<'a> Model for Receivers<'a> {
    ghost use Rattle.std.specs.Prelude.{◌≡◌};
    ghost use Rattle.qu_trace.specs.declared.trace.Setup.{Setup as Parties};
    ghost use Rattle.qu_listed.specs.Receivers.{keys_of};

    ghost Value = { Parties };

    ghost view = { λ receivers. receivers.setup.now };

    ghost invariant = { λ receivers. receivers.keys ≡ keys_of receivers.setup.now };
}

impl<'a> Receivers<'a> {
    /// The parties of this setup.
    pub fn new(setup: &'a Setup) -> Receivers<'a>
        requires { setup.now.clients ≤ LAST_CLIENT }
        ensures { result ≡ setup.now }
    {
        Receivers {
            setup,
            keys: KeyRing::derive(setup.seed, &setup.bounds, setup.clients),
        }
    }

    /// Whether the party is faulty.
    pub fn is_faulty(&self, who: Party) -> bool
        ensures { result ≡ is_faulty self.now who }
    {
        self.setup.is_faulty(who)
    }

    /// How many of the replicas may lie.
    pub fn bounds(&self) -> Bounds
        ensures { result ≡ self.now.bounds }
    {
        self.setup.bounds
    }

    /// The world of the parties, in which nothing happened yet.
    pub fn start_world(&self, alloc: Global) -> Result<World, NoMemory>
        requires { IsSetup self.now }
        ensures { IfOk result (λ world. world ≡ opening_world self.now) }
    {
        World::start(alloc, self.setup.copy(alloc)?)
    }

    /// The frame that a party takes of a text.
    pub fn take(&self, alloc: Global, to: Party, text: &[u8]) -> Result<Option<Frame>, NoMemory>
        ensures { IfOk result (λ frame. frame ≡ frame_taken self.now to text.now) }
    {
        if self.setup.is_faulty(to) {
            return Ok(None);
        }
        receive(alloc, &self.keys, to, text)
    }

    /// Whether a party takes no frame of a text that is decoded to this one.
    pub fn ignores(&self, to: Party, frame: &Frame, text: &[u8]) -> bool
        requires { decoded text.now ≡ Ok frame.now }
        ensures { result ≡ is_none (frame_taken self.now to text.now) }
    {
        self.setup.is_faulty(to) || !frame.is_signed(&self.keys, to, text)
    }
}
