//! The world in which a run is told.
ghost use Rattle.std.specs.Prelude.{◌≡◌, OnOk};
ghost use Rattle.qu_listed.specs.World.{followed};

use qu_base::NoMemory;
use qu_trace::Event;
use qu_world::{World, WorldFail};
use std::alloc::Global;

/// Lets an event happen in the world. One that cannot happen there changes nothing.
pub fn follow(alloc: Global, world: &mut World, event: &Event) -> Result<(), NoMemory>
    ensures { OnOk result (world.new ≡ followed world.old event.now) }
{
    match world.follow(event.copy(alloc)?) {
        Err(WorldFail::NoMemory) => Err(NoMemory),
        Ok(()) | Err(_) => Ok(()),
    }
}
