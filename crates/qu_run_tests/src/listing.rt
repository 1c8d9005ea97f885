ghost use Rattle.std.specs.Prelude.{IfOk};
ghost use Rattle.qu_world.specs.Run.{IsSetup};

use qu_base::{Bounds, ClientId, List, Party, ReplicaId};
use qu_frames::Letter;
use qu_listing::events_text;
use qu_objects::Outcome;
use qu_testing::holds;
use qu_trace::{Entry, Event, Premises, Setup, Trace};
use std::alloc::Global;
use std::test::Fail;

const LISTING: &str = "event 1 tick client 1\n\
    \x20 letter 1 client 1 to replica 0: no frame\n\
    event 2 deliver 1 to replica 0, ignored\n\
    event 3 deliver 0 to nobody\n\
    event 4 deliver 2 to nobody, ends 1.3 given up\n";

#[test]
fn what_no_script_makes_is_told(rt: HostRuntime) -> Result<(), Fail> {
    let trace = trace_of(rt.alloc(), entries(rt.alloc())?)?;
    let listing = events_text(rt.alloc(), &trace, &Premises::Hold, &[])?;
    holds(listing.as_slice() == LISTING.as_bytes(), "the listing")
}

fn entries(alloc: Global) -> Result<List<Entry>, Fail> {
    let mut entries = List::new(alloc);
    put_entries(alloc, &mut entries)?;
    Ok(entries)
}

fn put_entries(alloc: Global, entries: &mut List<Entry>) -> Result<(), Fail> {
    let letters = List::one(alloc, no_frame(alloc)?)?;
    entries.push(entry(Event::Tick(ClientId(1)), letters, None))?;
    entries.push(entry(Event::Deliver(1), List::new(alloc), None))?;
    entries.push(entry(Event::Deliver(0), List::new(alloc), None))?;
    let ended = Some((ClientId(1), 3, Outcome::GaveUp));
    Ok(entries.push(entry(Event::Deliver(2), List::new(alloc), ended))?)
}

/// A letter of client 1 to replica 0 whose text is no frame.
fn no_frame(alloc: Global) -> Result<Letter, Fail> {
    let text = List::from_clones(alloc, "no frame".as_bytes())?;
    Ok(Letter {
        from: Party::Client(ClientId(1)),
        to: Party::Replica(ReplicaId(0)),
        text,
    })
}

fn trace_of(alloc: Global, entries: List<Entry>) -> Result<Trace, Fail>
    ensures { IfOk result (λ trace. IsSetup trace.setup) }
{
    let setup = Setup {
        bounds: Bounds::new(1)?,
        seed: 7,
        clients: 1,
        kinds: List::new(alloc),
        liars: List::new(alloc),
    };
    Ok(Trace { setup, entries })
}

fn entry(event: Event, letters: List<Letter>, ended: Option<(ClientId, u64, Outcome)>) -> Entry {
    Entry {
        event,
        letters,
        ended,
    }
}
