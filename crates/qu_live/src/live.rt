ghost use Rattle.std.specs.Prelude.{◌≡◌, IfOk};
ghost use Rattle.qu_world.specs.Run.{IsSetup};
ghost use Rattle.qu_gather.specs.Live.{IsLive, AreCallsOf};

use crate::Gate;
use crate::actors::Actors;
use crate::ending::gather;
use crate::rounds::run_rounds;
use qu_base::ClientId;
use qu_gather::LiveFail;
use qu_lock::RunName;
use qu_objects::Op;
use qu_post::Post;
use qu_trace::{Setup, Trace};
use std::alloc::Global;
use std::marker::Brand;
use std::sync::Wait;
use std::thread::Threads;

/// Runs replicas and clients on threads, until each client has an end of each of its calls, and tells the run.
///
/// It may wait for ever, and then tells nothing.
pub fn run_live<R: Threads + Wait + Sync, G: Gate>(
    rt: &R,
    alloc: Global,
    setup: Setup,
    calls: &[(ClientId, Op)],
    gate: &G,
) -> Result<Trace, LiveFail>
    requires setup { IsSetup setup }
    requires calls { AreCallsOf setup calls.now }
    ensures { IfOk result (λ trace. IsLive setup calls.now trace) }
{
    run_as::<Brand, R, G>(rt, alloc, setup, calls, gate)
}

/// Runs the calls on threads, as the run that the type names.
fn run_as<N: RunName + Send + Sync, R: Threads + Wait + Sync, G: Gate>(
    rt: &R,
    alloc: Global,
    setup: Setup,
    calls: &[(ClientId, Op)],
    gate: &G,
) -> Result<Trace, LiveFail>
    requires named { (setup ≡ N.setup) × (calls.now ≡ N.calls) }
    requires setup { IsSetup setup }
    requires calls { AreCallsOf setup calls.now }
    ensures { IfOk result (λ trace. IsLive setup calls.now trace) }
{
    let post = Post::new(alloc, &setup.bounds, setup.clients, setup.liars.as_slice())?;
    let actors = Actors::<N>::start(alloc, &setup)?;
    let actors = run_rounds(rt, alloc, &post, calls, gate, actors)?;
    let Actors { replicas, clients } = actors;
    let journal = post.into_inner().into_journal();
    gather(alloc, setup, calls, replicas, clients, journal)
}
