ghost use Rattle.std.specs.Prelude.{◌≡◌, IfOk};
ghost use Rattle.qu_frames.specs.declared.frame.Frame.TheVariants as Frames;

use super::Verdict;
use qu_base::{ClientId, List, NoMemory, ObjectId, Party, ReplicaId};
use qu_history::{Sealed, Sets};
use qu_objects::{Act, ObjState, Op, Query};
use qu_stamp::Stamp;
use std::alloc::Global;

/// What a request asks for.
pub enum Body {
    Act(Act),
    Ask(Query),
    /// That this object be repaired, by its class in the sets.
    Mend(ObjectId),
}

/// By hand, so that a body is let go in one step wherever that is.
impl Drop for Body {
    fn drop(self) {
        match self {
            Body::Act(_) | Body::Ask(_) | Body::Mend(_) => {}
        }
    }
}

impl Body {
    ghost use Rattle.qu_frames.specs.Body.{body_of};

    /// An equal body.
    pub fn copy(&self, alloc: Global) -> Result<Body, NoMemory>
        ensures { IfOk result (λ body. body ≡ self.now) }
    {
        Ok(match self {
            Body::Act(act) => Body::Act(act.copy(alloc)?),
            Body::Ask(query) => Body::Ask(query.copy(alloc)?),
            Body::Mend(target) => Body::Mend(*target),
        })
    }

    /// The body of an operation's request.
    pub fn of(alloc: Global, op: &Op) -> Result<Body, NoMemory>
        ensures { IfOk result (λ body. body ≡ body_of op.now) }
    {
        Ok(match op {
            Op::Act(act) => Body::Act(act.copy(alloc)?),
            Op::Query(query) => Body::Ask(query.copy(alloc)?),
        })
    }
}

/// What one party sends to another, under an HMAC of the pair's key.
pub enum Frame {
    /// A client's operation, by its number and round, upon the histories that the client was shown.
    Request {
        client: ClientId,
        number: u64,
        round: u8,
        sets: Sets,
        body: Body,
        mac: [u8; 32],
    },
    /// A replica's answer to a request, with its sealed histories of the objects of the request's sets.
    Reply {
        replica: ReplicaId,
        client: ClientId,
        number: u64,
        round: u8,
        verdict: Verdict,
        /// The entries of the sets whose HMAC for this replica was not right, in rising order.
        culled: List<(ObjectId, ReplicaId)>,
        shown: List<Sealed>,
        mac: [u8; 32],
    },
    /// A replica asks another one for the version of an object under this stamp, which is no barrier's.
    Fetch {
        replica: ReplicaId,
        object: ObjectId,
        stamp: Stamp,
        mac: [u8; 32],
    },
    /// A replica's answer to a fetch: the state of the object under this stamp.
    Fetched {
        replica: ReplicaId,
        object: ObjectId,
        stamp: Stamp,
        state: ObjState,
        mac: [u8; 32],
    },
}

/// By hand, so that a value is let go in one step wherever that is.
impl Drop for Frame {
    fn drop(self) {
        match self {
            Frame::Request {
                client: _,
                number: _,
                round: _,
                sets: _,
                body: _,
                mac: _,
            }
            | Frame::Reply {
                replica: _,
                client: _,
                number: _,
                round: _,
                verdict: _,
                culled: _,
                shown: _,
                mac: _,
            }
            | Frame::Fetch {
                replica: _,
                object: _,
                stamp: _,
                mac: _,
            }
            | Frame::Fetched {
                replica: _,
                object: _,
                stamp: _,
                state: _,
                mac: _,
            } => {}
        }
    }
}

impl Frame {
    /// An equal frame.
    pub fn copy(&self, alloc: Global) -> Result<Frame, NoMemory>
        ensures { IfOk result (λ frame. frame ≡ self.now) }
    {
        match self {
            Frame::Request {
                client,
                number,
                round,
                sets,
                body,
                mac,
            } => request_copy(alloc, *client, *number, *round, sets, body, *mac),
            Frame::Reply {
                replica,
                client,
                number,
                round,
                verdict,
                culled,
                shown,
                mac,
            } => reply_copy(
                alloc, *replica, *client, *number, *round, verdict, culled, shown, *mac,
            ),
            Frame::Fetch {
                replica,
                object,
                stamp,
                mac,
            } => Ok(fetch_copy(*replica, *object, *stamp, *mac)),
            Frame::Fetched {
                replica,
                object,
                stamp,
                state,
                mac,
            } => fetched_copy(alloc, *replica, *object, *stamp, state, *mac),
        }
    }
}

/// A request with equal parts.
fn request_copy(
    alloc: Global,
    client: ClientId,
    number: u64,
    round: u8,
    sets: &Sets,
    body: &Body,
    mac: [u8; 32],
) -> Result<Frame, NoMemory>
    ensures { IfOk result (λ frame. frame ≡ Frames.Request client number round sets.now body.now mac) }
{
    let sets = sets.copy()?;
    let body = body.copy(alloc)?;
    Ok(Frame::Request {
        client,
        number,
        round,
        sets,
        body,
        mac,
    })
}

/// A reply with equal parts.
fn reply_copy(
    alloc: Global,
    replica: ReplicaId,
    client: ClientId,
    number: u64,
    round: u8,
    verdict: &Verdict,
    culled: &List<(ObjectId, ReplicaId)>,
    shown: &List<Sealed>,
    mac: [u8; 32],
) -> Result<Frame, NoMemory>
    ensures { IfOk result (λ frame. frame
        ≡ Frames.Reply replica client number round verdict.now culled.now shown.now mac) }
{
    let culled = culled.copy(alloc)?;
    let shown = Sealed::copy_all(alloc, shown.as_slice())?;
    let verdict = verdict.copy(alloc)?;
    Ok(Frame::Reply {
        replica,
        client,
        number,
        round,
        verdict,
        culled,
        shown,
        mac,
    })
}

/// A fetch with these parts.
fn fetch_copy(replica: ReplicaId, object: ObjectId, stamp: Stamp, mac: [u8; 32]) -> Frame
    ensures { result ≡ Frames.Fetch replica object stamp mac }
{
    Frame::Fetch {
        replica,
        object,
        stamp,
        mac,
    }
}

/// What was fetched, with an equal state.
fn fetched_copy(
    alloc: Global,
    replica: ReplicaId,
    object: ObjectId,
    stamp: Stamp,
    state: &ObjState,
    mac: [u8; 32],
) -> Result<Frame, NoMemory>
    ensures { IfOk result (λ frame. frame ≡ Frames.Fetched replica object stamp state.now mac) }
{
    let state = state.copy(alloc)?;
    Ok(Frame::Fetched {
        replica,
        object,
        stamp,
        state,
        mac,
    })
}

/// The bytes of a frame on their way.
pub struct Letter {
    pub from: Party,
    pub to: Party,
    pub text: List<u8>,
}

/// By hand, so that a value is let go in one step wherever that is.
impl Drop for Letter {
    fn drop(self) {
        let Letter {
            from: _,
            to: _,
            text: _,
        } = self;
    }
}

impl Letter {
    /// Its bytes, which are not copied.
    pub fn into_text(self) -> List<u8>
        ensures { result ≡ self.text }
    {
        let Letter {
            from: _,
            to: _,
            text,
        } = self;
        text
    }

    /// An equal letter.
    pub fn copy(&self, alloc: Global) -> Result<Letter, NoMemory>
        ensures { IfOk result (λ letter. letter ≡ self.now) }
    {
        Ok(Letter {
            from: self.from,
            to: self.to,
            text: self.text.copy(alloc)?,
        })
    }

    /// Equal letters.
    pub fn copy_all(alloc: Global, letters: &[Letter]) -> Result<List<Letter>, NoMemory>
        ensures { IfOk result (λ copies. copies ≡ letters.now) }
    {
        let mut copies = List::new(alloc);
        for letter in letters {
            copies.push(letter.copy(alloc)?)?;
        }
        Ok(copies)
    }
}
