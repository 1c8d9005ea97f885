ghost use Rattle.std.specs.Prelude.{◌<◌, ◌^◌, length, IsTrue};
ghost use Rattle.qu_objects.specs.Digesting.{AsksFit};
ghost use Rattle.qu_objects.specs.Parts.{is_sized_ask, are_sized};
ghost use Rattle.qu_base.specs.Format.{AreBytes};
ghost use Rattle.qu_runs.specs.Plain.{HaveParts, HasEventParts};

use qu_base::{ClientId, ObjectId};
use qu_objects::{Ask, Op};
use qu_points::parts_fit;
use qu_trace::{Entry, Event};

/// Each operation that begins has parts, whose numbers fit their bytes and which carry no more than they may; what is
/// injected are bytes; and a run that is in memory has fewer than 2^63 events. Types and memory keep this; here it is
/// told of a whole run, and nothing is computed.
pub fn have_parts(entries: &[Entry])
    ensures parts { HaveParts entries.now }
    ensures few { length entries.now < 2 ^ 63 }
{
    for entry in entries {
        has_parts(&entry.event);
    }
}

/// The operation that an event begins, if it begins one, has parts, and what it injects are bytes.
fn has_parts(event: &Event)
    ensures { HasEventParts event.now }
{
    match event {
        Event::Invoke(client, Op::Act(act)) => {
            client_fits(*client);
            parts_fit(act.parts().as_slice());
        }
        Event::Invoke(client, Op::Query(query)) => {
            client_fits(*client);
            asks_fit(query.parts().as_slice());
        }
        Event::Inject(_, text) => are_bytes(text.as_slice()),
        Event::Deliver(_) | Event::Tick(_) => {}
    }
}

/// No part of a query carries too much. Types keep this, and nothing is computed.
#[tactic(auto, using(crate::proofs::SizedAsks::asks_fit))]
fn asks_fit(parts: &[(ObjectId, Ask)])
    requires { IsTrue (are_sized is_sized_ask parts.now) }
    ensures { AsksFit parts.now }
{}

fn client_fits(client: ClientId)
    ensures { client.0 < 2 ^ 16 }
{
    let _ = client.0;
}

/// What a slice of bytes holds are bytes.
fn are_bytes(text: &[u8])
    ensures { AreBytes text.now }
{}
