//! How a client stands before an event at which it steps.
ghost use Rattle.std.specs.Prelude.{◌≡◌, Some, IfOk};
ghost use Rattle.qu_listed.specs.Rounds.{offered_client, stepping_client, is_agreed_by, why_over, round_before, stood_by, stood_before};

use super::offer::Offer;
use super::receivers::Receivers;
use qu_base::{ClientId, NoMemory, Party};
use qu_client::{Client, Work, is_agreed};
use qu_frames::Frame;
use qu_listed::{Round, Stood, Why};
use qu_trace::Event;
use qu_world::World;
use std::alloc::Global;

/// How the correct client stands that steps at an event, if one does.
pub fn stood_before(
    alloc: Global,
    receivers: &Receivers,
    world: &World,
    offered: &Option<Offer>,
    event: &Event,
) -> Result<Option<Stood>, NoMemory>
    ensures { IfOk result (λ stood. stood ≡ stood_before receivers.now world.now offered.now event.now) }
{
    let Some(me) = stepping_client(offered, event) else {
        return Ok(None);
    };
    match world.client(me) {
        Some(client) => Ok(Some(stood_by(alloc, receivers, offered, me, client)?)),
        None => Ok(None),
    }
}

/// The client that is called, whose clock ticks, or that is offered a text.
fn stepping_client(offered: &Option<Offer>, event: &Event) -> Option<ClientId>
    ensures { result ≡ stepping_client offered.now event.now }
{
    match event {
        Event::Invoke(client, _) | Event::Tick(client) => Some(*client),
        Event::Deliver(_) | Event::Inject(_, _) => offered_client(offered),
    }
}

fn offered_client(offered: &Option<Offer>) -> Option<ClientId>
    ensures { result ≡ offered_client offered.now }
{
    let offer = offered.as_ref()?;
    match offer.to {
        Party::Replica(_) => None,
        Party::Client(me) => Some(me),
    }
}

fn stood_by(
    alloc: Global,
    receivers: &Receivers,
    offered: &Option<Offer>,
    me: ClientId,
    client: &Client,
) -> Result<Stood, NoMemory>
    ensures { IfOk result (λ stood. stood ≡ stood_by receivers.now offered.now me client.now) }
{
    let round = match client.work() {
        Some(work) => Some(round_before(alloc, receivers, offered, work)?),
        None => None,
    };
    Ok(Stood { client: me, round })
}

fn round_before(
    alloc: Global,
    receivers: &Receivers,
    offered: &Option<Offer>,
    work: &Work,
) -> Result<Round, NoMemory>
    ensures { IfOk result (λ round. round ≡ round_before receivers.now offered.now work.now) }
{
    let why = why_over(alloc, receivers, offered, work)?;
    Ok(Round {
        number: work.round,
        phase: work.phase,
        why,
    })
}

/// Why the round is over behind the event, if it is.
fn why_over(
    alloc: Global,
    receivers: &Receivers,
    offered: &Option<Offer>,
    work: &Work,
) -> Result<Why, NoMemory>
    ensures { IfOk result (λ why. why ≡ why_over receivers.now offered.now work.now) }
{
    let Some(offer) = offered else {
        return Ok(Why::TimedOut);
    };
    let frame = receivers.take(alloc, offer.to, offer.text)?;
    if is_agreed_by(alloc, receivers, work, &frame)? {
        Ok(Why::Agreed)
    } else {
        Ok(Why::Split)
    }
}

/// Whether a quorum agrees with the verdict that a reply brings.
fn is_agreed_by(
    alloc: Global,
    receivers: &Receivers,
    work: &Work,
    frame: &Option<Frame>,
) -> Result<bool, NoMemory>
    ensures { IfOk result (λ agreed. agreed ≡ is_agreed_by receivers.now.bounds work.now frame.now) }
{
    let Some(
        Frame::Reply {
            replica,
            verdict,
            culled,
            ..
        },
    ) = frame
    else {
        return Ok(false);
    };
    let replies = work.with_reply(alloc, *replica, verdict, culled)?;
    let bounds = receivers.bounds();
    Ok(is_agreed(bounds, &work.body, replies.as_slice(), verdict))
}
