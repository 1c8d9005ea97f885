//! Replies that are made for a client, as a replica's.
ghost use Rattle.std.specs.Prelude.{◌≡◌, map, find, Ok, IfOk};
ghost use Rattle.std.specs.Option.{option_copied};
ghost use Rattle.qu_frames.specs.Formats.{objects_in_sets};
ghost use Rattle.qu_adversary.specs.Sealing.{sealed_for};
ghost use Rattle.qu_world.specs.State.{ring_of};
ghost use Rattle.qu_script.specs.Fake.{last_request, last_reply, thin, shown_now, is_history_of, echoed, far_candidate, far_history, asked_in, reply_in, told_of, all_replicas, reached, fake_reply_text, fake_of};

use super::letters::last_sent;
use qu_adversary::{in_name_of, reply_of, sealed_for};
use qu_base::{Bounds, ClientId, Digest, List, NoMemory, ObjectId, Party, ReadFail, ReplicaId};
use qu_frames::{Frame, Refusal, Verdict, decode};
use qu_history::{AddFail, History, Sealed, Sets};
use qu_language::How;
use qu_seal::KeyRing;
use qu_stamp::{Candidate, Group, LAST_TIME, Stamp};
use qu_world::World;
use std::alloc::Global;

/// What a made reply answers: number and round of a request, and the objects of its sets.
#[derive(Drop)]
pub struct LastRequest {
    pub number: u64,
    pub round: u8,
    pub objects: List<ObjectId>,
}

/// The bytes of a reply of a replica to the last request of a client, with histories and a verdict of
/// choice, and with HMACs that are right for these replicas, or for all.
///
/// `None` exactly where the client has sent no request, or there is no reply to echo.
#[tactic(auto, unfolding(crate::specs::Fake::fake_of))]
pub fn fake(
    alloc: Global,
    world: &World,
    me: ReplicaId,
    client: ClientId,
    how: How,
    good: &Option<List<ReplicaId>>,
) -> Result<Option<List<u8>>, NoMemory>
    ensures { IfOk result (λ text. text ≡ fake_of world.now me client how good.now) }
{
    let Some(asked) = last_request(alloc, world, client)? else {
        return Ok(None);
    };
    let Some((verdict, histories)) = told(alloc, world, me, client, asked.objects.as_slice(), how)?
    else {
        return Ok(None);
    };
    let keys = keys_of(world);
    let good = reached(alloc, &keys.bounds(), good)?;
    let text = answer(
        alloc,
        &keys,
        me,
        client,
        good.as_slice(),
        &asked,
        verdict,
        &histories,
    )?;
    Ok(Some(text))
}

/// The bytes of the answer to a request.
#[tactic(auto, unfolding(crate::specs::Fake::fake_reply_text))]
fn answer(
    alloc: Global,
    keys: &KeyRing,
    me: ReplicaId,
    client: ClientId,
    good: &[ReplicaId],
    asked: &LastRequest,
    verdict: Verdict,
    histories: &List<History>,
) -> Result<List<u8>, NoMemory>
    ensures { IfOk result
        (λ text. text ≡ fake_reply_text keys.now me client good.now asked.now (verdict, histories.now)) }
{
    let shown = sealed_all(alloc, keys, me, good, histories.as_slice())?;
    reply_of(
        alloc,
        keys,
        me,
        client,
        asked.number,
        asked.round,
        verdict,
        shown,
    )
}

/// The keys of a run.
fn keys_of(world: &World) -> KeyRing
    ensures { result ≡ ring_of world.now.setup }
{
    let setup = &world.trace().setup;
    KeyRing::derive(setup.seed, &setup.bounds, setup.clients)
}

/// What the last request of a client asks.
fn last_request(
    alloc: Global,
    world: &World,
    client: ClientId,
) -> Result<Option<LastRequest>, NoMemory>
    ensures { IfOk result (λ asked. asked ≡ last_request world.now client) }
{
    let entries = world.trace().entries.as_slice();
    let Some(letter) = last_sent(entries, Party::Client(client), None) else {
        return Ok(None);
    };
    match decode(alloc, letter.text.as_slice()) {
        Ok(frame) => asked_in(alloc, &frame),
        Err(ReadFail::Bad(_)) => Ok(None),
        Err(ReadFail::NoMemory) => Err(NoMemory),
    }
}

/// What a frame asks for, where it is a request.
fn asked_in(alloc: Global, frame: &Frame) -> Result<Option<LastRequest>, NoMemory>
    ensures { IfOk result (λ asked. asked ≡ asked_in (Ok frame.now)) }
{
    match frame {
        Frame::Request {
            number,
            round,
            sets,
            ..
        } => Ok(Some(LastRequest {
            number: *number,
            round: *round,
            objects: objects_of(alloc, sets)?,
        })),
        _ => Ok(None),
    }
}

fn objects_of(alloc: Global, sets: &Sets) -> Result<List<ObjectId>, NoMemory>
    ensures { IfOk result (λ objects. objects ≡ objects_in_sets sets.now) }
{
    let mut objects = List::new(alloc);
    for set in sets.objects().as_slice() {
        objects.push(set.object)?;
    }
    Ok(objects)
}

/// The verdict and the histories of the last reply of a replica to a client.
fn last_reply(
    alloc: Global,
    world: &World,
    source: ReplicaId,
    client: ClientId,
) -> Result<Option<(Verdict, List<Sealed>)>, NoMemory>
    ensures { IfOk result (λ reply. reply ≡ last_reply world.now source client) }
{
    let entries = world.trace().entries.as_slice();
    let to = Some(Party::Client(client));
    let Some(letter) = last_sent(entries, Party::Replica(source), to) else {
        return Ok(None);
    };
    match decode(alloc, letter.text.as_slice()) {
        Ok(frame) => told_in(alloc, &frame),
        Err(ReadFail::Bad(_)) => Ok(None),
        Err(ReadFail::NoMemory) => Err(NoMemory),
    }
}

/// What a frame tells, where it is a reply.
fn told_in(alloc: Global, frame: &Frame) -> Result<Option<(Verdict, List<Sealed>)>, NoMemory>
    ensures { IfOk result (λ told. told ≡ reply_in (Ok frame.now)) }
{
    match frame {
        Frame::Reply { verdict, shown, .. } => Ok(Some((
            verdict.copy(alloc)?,
            Sealed::copy_all(alloc, shown.as_slice())?,
        ))),
        _ => Ok(None),
    }
}

/// The verdict and the histories of these objects, as this replica tells them.
#[tactic(auto, unfolding(crate::specs::Fake::told_of))]
fn told(
    alloc: Global,
    world: &World,
    me: ReplicaId,
    client: ClientId,
    objects: &[ObjectId],
    how: How,
) -> Result<Option<(Verdict, List<History>)>, NoMemory>
    ensures { IfOk result (λ told. told ≡ told_of world.now me client objects.now how) }
{
    match how {
        How::Show(source) => {
            let histories = show_all(alloc, world, source, me, objects)?;
            Ok(Some((thin(objects), histories)))
        }
        How::Echo(source) => {
            let Some((verdict, shown)) = last_reply(alloc, world, source, client)? else {
                return Ok(None);
            };
            let histories = echo_all(alloc, shown.as_slice(), me, objects)?;
            Ok(Some((verdict, histories)))
        }
        How::Far => {
            let histories = far_all(alloc, me, objects)?;
            Ok(Some((thin(objects), histories)))
        }
    }
}

/// The refusal of the lowest of these objects.
fn thin(objects: &[ObjectId]) -> Verdict
    ensures { result ≡ thin objects.now }
{
    let object = match objects {
        [lowest, ..] => *lowest,
        [] => ObjectId(0),
    };
    Verdict::Refused(Refusal::Thin(object))
}

/// The histories that a replica has now, as this replica's.
fn show_all(
    alloc: Global,
    world: &World,
    source: ReplicaId,
    me: ReplicaId,
    objects: &[ObjectId],
) -> Result<List<History>, NoMemory>
    ensures { IfOk result
        (λ histories. histories ≡ map (λ object. shown_now world.now source me object) objects.now) }
{
    let mut histories = List::new(alloc);
    for object in objects {
        histories.push(show(alloc, world, source, me, *object)?)?;
    }
    Ok(histories)
}

#[tactic(auto, unfolding(crate::specs::Fake::shown_now))]
fn show(
    alloc: Global,
    world: &World,
    source: ReplicaId,
    me: ReplicaId,
    object: ObjectId,
) -> Result<History, NoMemory>
    ensures { IfOk result (λ history. history ≡ shown_now world.now source me object) }
{
    match world.history(source, object) {
        Some(history) => in_name_of(alloc, me, history),
        None => History::opening(alloc, object, me),
    }
}

/// The histories of a reply, as this replica's.
fn echo_all(
    alloc: Global,
    shown: &[Sealed],
    me: ReplicaId,
    objects: &[ObjectId],
) -> Result<List<History>, NoMemory>
    ensures { IfOk result
        (λ histories. histories ≡ map (λ object. echoed shown.now me object) objects.now) }
{
    let mut histories = List::new(alloc);
    for object in objects {
        histories.push(echo(alloc, shown, me, *object)?)?;
    }
    Ok(histories)
}

#[tactic(auto, unfolding(crate::specs::Fake::echoed))]
fn echo(
    alloc: Global,
    shown: &[Sealed],
    me: ReplicaId,
    object: ObjectId,
) -> Result<History, NoMemory>
    ensures { IfOk result (λ history. history ≡ echoed shown.now me object) }
{
    match first_of(shown, object) {
        Some(sealed) => in_name_of(alloc, me, &sealed.history),
        None => History::opening(alloc, object, me),
    }
}

/// The first one of an object.
fn first_of(shown: &[Sealed], object: ObjectId) -> Option<&Sealed>
    ensures { option_copied result ≡ find (is_history_of object) shown.now }
{
    shown
        .iter()
        .find(|sealed| sealed.history.object().0 == object.0)
}

/// Histories with a candidate of the greatest time.
fn far_all(alloc: Global, me: ReplicaId, objects: &[ObjectId]) -> Result<List<History>, NoMemory>
    ensures { IfOk result (λ histories. histories ≡ map (λ object. far_history me object) objects.now) }
{
    let mut histories = List::new(alloc);
    for object in objects {
        histories.push(far(alloc, me, *object)?)?;
    }
    Ok(histories)
}

fn far(alloc: Global, me: ReplicaId, object: ObjectId) -> Result<History, NoMemory>
    ensures { IfOk result (λ history. history ≡ far_history me object) }
{
    let mut history = History::opening(alloc, object, me)?;
    match history.add(far_candidate()) {
        Ok(()) => Ok(history),
        Err(AddFail::NoMemory) => Err(NoMemory),
        Err(AddFail::NotLater(_)) => unreachable!(),
        Err(AddFail::HistoryFull) => unreachable!(),
    }
}

/// An update of client 1 at the greatest time, upon the opening candidate.
fn far_candidate() -> Candidate
    ensures { result ≡ far_candidate }
{
    Candidate {
        stamp: Stamp {
            time: LAST_TIME,
            barrier: false,
            client: ClientId(1),
            act: None,
            set: Digest([0xff; 32]),
        },
        prior: Stamp::opening(),
        group: Group::none(),
    }
}

/// The replicas that are named, and all of them where none are.
fn reached(
    alloc: Global,
    bounds: &Bounds,
    good: &Option<List<ReplicaId>>,
) -> Result<List<ReplicaId>, NoMemory>
    ensures { IfOk result (λ found. found ≡ reached bounds.now good.now) }
{
    match good {
        Some(good) => good.copy(alloc),
        None => all_replicas(alloc, bounds),
    }
}

#[tactic(auto, unfolding(crate::specs::Fake::all_replicas))]
fn all_replicas(alloc: Global, bounds: &Bounds) -> Result<List<ReplicaId>, NoMemory>
    ensures { IfOk result (λ all. all ≡ all_replicas bounds.now) }
{
    let mut all = List::new(alloc);
    for number in 0..bounds.n() {
        all.push(ReplicaId(number))?;
    }
    Ok(all)
}

/// The histories with HMACs that are right for these replicas.
fn sealed_all(
    alloc: Global,
    keys: &KeyRing,
    me: ReplicaId,
    good: &[ReplicaId],
    histories: &[History],
) -> Result<List<Sealed>, NoMemory>
    ensures { IfOk result
        (λ sealed. sealed ≡ map (λ history. sealed_for keys.now me good.now history) histories.now) }
{
    let mut sealed = List::new(alloc);
    for history in histories {
        sealed.push(sealed_for(alloc, keys, me, history, good)?)?;
    }
    Ok(sealed)
}
