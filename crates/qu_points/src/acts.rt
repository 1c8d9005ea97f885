ghost use Rattle.std.specs.Prelude.{◌≡◌, [], ◌++◌, Ok, IfOk, OnOk, IfSome};
ghost use Rattle.std.specs.Option.{option_copied};
ghost use Rattle.std.specs.List.{list_all, list_any, cons_option};
ghost use Rattle.qu_base.specs.declared.party.Party.TheVariants as party;
ghost use Rattle.qu_base.specs.declared.party.ReplicaId.{ReplicaId};
ghost use Rattle.qu_frames.specs.Decoding.{decoded};
ghost use Rattle.qu_frames.specs.Signing.{brought, is_signed};
ghost use Rattle.qu_trace.specs.Letters.{offered_by};
ghost use Rattle.qu_trace.specs.Decoded.{frame_found, IsFrameOf};
ghost use Rattle.qu_world.specs.State.{ring_of};
ghost use Rattle.qu_world.specs.Run.{IsSetup, IsRun};
ghost use Rattle.qu_points.specs.Signed.{IsSignedBy, client_in};
ghost use Rattle.qu_base.specs.Format.{AreBytes};
ghost use Rattle.qu_claims.specs.Handled.{is_of_setup, request_in, request_brought, request_to, handled_by};
ghost use Rattle.qu_objects.specs.declared.op.Op.TheVariants as op;
ghost use Rattle.qu_machine.specs.PointTests.{same_op};
ghost use Rattle.qu_points.specs.Points.{act_in, handled_acts, is_named_act};

use qu_base::{ClientId, List, NoMemory, Party, ReplicaId};
use qu_frames::{Body, Frame, Letter};
use qu_history::Sets;
use qu_objects::Act;
use qu_seal::KeyRing;
use qu_trace::{DecodedTrace, Event, Setup};
use std::alloc::Global;

/// Each act that a replica handled, with its client and its number, in the order of the events.
#[tactic(auto, unfolding(crate::specs::Points::handled_acts))]
pub fn handled_acts(
    alloc: Global,
    trace: &DecodedTrace<'_>,
) -> Result<List<(ClientId, u64, Act)>, NoMemory>
    requires { IsRun trace.now }
    ensures { IfOk result (λ acts. acts ≡ handled_acts trace.now) }
{
    let run = trace.trace();
    let mut acts = List::new(alloc);
    let keys = ring_of(&run.setup);
    for (index, entry) in run.entries.as_slice().iter().enumerate() {
        let frame = trace.offered(index);
        add_act(alloc, &mut acts, &keys, trace, &entry.event, frame)?;
    }
    Ok(acts)
}

/// The keys of a run.
fn ring_of(setup: &Setup) -> KeyRing
    requires { IsSetup setup.now }
    ensures { result ≡ ring_of setup.now }
{
    KeyRing::derive(setup.seed, &setup.bounds, setup.clients)
}

/// Adds the act that an event, which offers this frame or none, lets a replica handle, where it lets it handle one.
fn add_act(
    alloc: Global,
    acts: &mut List<(ClientId, u64, Act)>,
    keys: &KeyRing,
    trace: &DecodedTrace<'_>,
    event: &Event,
    frame: Option<&Frame>,
) -> Result<(), NoMemory>
    requires run { IsRun trace.now }
    requires keys { keys.now ≡ ring_of trace.now.setup }
    requires frame { IsFrameOf (option_copied frame) (offered_by trace.now.entries event.now) }
    ensures { OnOk result (acts.new ≡ acts.old ++ cons_option (act_in (handled_by trace.now event.now)) []) }
{
    if let Some(act) = handled_act(alloc, keys, trace, event, frame)? {
        acts.push(act)?;
    }
    Ok(())
}

/// The act that an event lets a replica handle.
fn handled_act(
    alloc: Global,
    keys: &KeyRing,
    trace: &DecodedTrace<'_>,
    event: &Event,
    frame: Option<&Frame>,
) -> Result<Option<(ClientId, u64, Act)>, NoMemory>
    requires run { IsRun trace.now }
    requires keys { keys.now ≡ ring_of trace.now.setup }
    requires frame { IsFrameOf (option_copied frame) (offered_by trace.now.entries event.now) }
    ensures { IfOk result (λ act. act ≡ act_in (handled_by trace.now event.now)) }
{
    let setup = &trace.trace().setup;
    match event {
        Event::Deliver(number) => match trace.letter(*number) {
            Some(letter) => act_to(
                alloc,
                keys,
                setup,
                client_of(letter),
                letter.to,
                letter.text.as_slice(),
                frame,
            ),
            None => Ok(None),
        },
        Event::Inject(to, text) => act_to(alloc, keys, setup, None, *to, text.as_slice(), frame),
        Event::Invoke(_, _) | Event::Tick(_) => Ok(None),
    }
}

/// The client that sent a letter, if a client did.
fn client_of(letter: &Letter) -> Option<Party>
    ensures { result ≡ client_in (letter.now).from }
{
    match letter.from {
        Party::Client(client) => Some(Party::Client(client)),
        Party::Replica(_) => None,
    }
}

/// The act that a text, which is this frame or none, asks of the party that it reaches; the client sent it as a letter,
/// if there is one.
#[tactic(auto, using(qu_trace::proofs::DecodedLaws::decoded_to, crate::proofs::Handled::SignedActs::no_request))]
fn act_to(
    alloc: Global,
    keys: &KeyRing,
    setup: &Setup,
    client: Option<Party>,
    to: Party,
    text: &[u8],
    frame: Option<&Frame>,
) -> Result<Option<(ClientId, u64, Act)>, NoMemory>
    requires keys { keys.now ≡ ring_of setup.now }
    requires sent { IfSome client (λ from. IsSignedBy (ring_of setup.now) from to text.now) }
    requires frame { option_copied frame ≡ frame_found (decoded text.now) }
    ensures { IfOk result (λ act. act ≡ act_in (request_to setup.now text.now to)) }
{
    match (to, frame) {
        (Party::Replica(me), Some(frame)) if me.0 < setup.bounds.n() && !setup.is_faulty(to) => {
            act_brought(alloc, keys, setup, client, me, text, frame)
        }
        (Party::Replica(_) | Party::Client(_), _) => Ok(None),
    }
}

/// The act that a frame asks of the replica that it reaches. The HMAC is verified only of what would be an act.
#[tactic(auto, unfolding(qu_frames::specs::Signing::brought), using(crate::proofs::Handled::SignedActs::signed_act, crate::proofs::Handled::SignedActs::unsigned_act, crate::proofs::Handled::SignedActs::no_act))]
fn act_brought(
    alloc: Global,
    keys: &KeyRing,
    setup: &Setup,
    client: Option<Party>,
    me: ReplicaId,
    text: &[u8],
    frame: &Frame,
) -> Result<Option<(ClientId, u64, Act)>, NoMemory>
    requires keys { keys.now ≡ ring_of setup.now }
    requires sent { IfSome client (λ from. IsSignedBy (ring_of setup.now) from (party.Replica me) text.now) }
    requires frame { decoded text.now ≡ Ok frame.now }
    ensures { IfOk result (λ act. act ≡ act_in (request_brought setup.now me
        (brought (ring_of setup.now) (party.Replica me) text.now))) }
{
    match act_in(alloc, setup, frame)? {
        Some(act) if is_signed(keys, client, Party::Replica(me), text, frame) => Ok(Some(act)),
        Some(_) | None => Ok(None),
    }
}

/// Whether the HMAC of a frame is right for the party that it reaches. It is not verified of a frame that its own
/// client sent as a letter: what a client sends is signed.
#[tactic(auto, using(crate::proofs::Handled::OwnLetters::own_is_signed))]
fn is_signed(keys: &KeyRing, client: Option<Party>, to: Party, text: &[u8], frame: &Frame) -> bool
    requires sent { IfSome client (λ from. IsSignedBy keys.now from to text.now) }
    requires frame { decoded text.now ≡ Ok frame.now }
    ensures { result ≡ is_signed keys.now to text.now frame.now }
{
    are_bytes(text);
    client == Some(frame.sender()) || frame.is_signed(keys, to, text)
}

/// What a slice of bytes holds are bytes. Types keep this, and nothing is computed.
fn are_bytes(text: &[u8])
    ensures { AreBytes text.now }
{}

/// The act that a frame asks for, whichever replica handles it: it does not depend on what is culled of the sets.
fn act_in(
    alloc: Global,
    setup: &Setup,
    frame: &Frame,
) -> Result<Option<(ClientId, u64, Act)>, NoMemory>
    ensures { (me : ReplicaId) → IfOk result (λ act. act ≡ act_in (request_in setup.now me frame.now)) }
{
    match frame {
        Frame::Request {
            client,
            number,
            sets,
            body: Body::Act(act),
            ..
        } if are_known(setup, sets) => Ok(Some((*client, *number, act.copy(alloc)?))),
        Frame::Request { .. } | Frame::Reply { .. } | Frame::Fetch { .. } | Frame::Fetched { .. } =>
            Ok(None),
    }
}

/// Whether the setup has all objects of the sets.
fn are_known(setup: &Setup, sets: &Sets) -> bool
    ensures { result ≡ list_all (is_of_setup setup.now) sets.now }
{
    let known = setup.kinds.len();
    sets.objects()
        .iter()
        .all(|set| usize::from(set.object.0) < known)
}

/// Whether an act is among these.
pub fn is_handled(acts: &[(ClientId, u64, Act)], client: ClientId, number: u64, act: &Act) -> bool
    ensures { result ≡ list_any (is_named_act client number act.now) acts.now }
{
    acts.iter().any(|other| other.0 == client && other.1 == number && same_acts(&other.2, act))
}

/// Whether two acts have the same parts.
fn same_acts(first: &Act, second: &Act) -> bool
    ensures { result ≡ same_op (op.Act first.now) (op.Act second.now) }
{
    first.parts() == second.parts()
}
