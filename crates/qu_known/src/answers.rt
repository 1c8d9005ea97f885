//! The rounds that are answered.
ghost use Rattle.std.specs.Prelude.{◌≡◌, Ok};
ghost use Rattle.qu_known.specs.Answers.{round_answered};

use qu_base::ClientId;
use qu_frames::Frame;

/// The round of an operation to which an answer was sent.
#[derive(Clone, Copy, PartialEq, Eq)]
pub struct Answered {
    pub client: ClientId,
    pub number: u64,
    pub round: u8,
}

/// The round that a frame answers, None where it is no answer.
pub fn answered_by(frame: &Frame) -> Option<Answered>
    ensures { result ≡ round_answered (Ok frame.now) }
{
    match frame {
        Frame::Reply {
            client,
            number,
            round,
            ..
        } => Some(Answered {
            client: *client,
            number: *number,
            round: *round,
        }),
        Frame::Request { .. } | Frame::Fetch { .. } | Frame::Fetched { .. } => None,
    }
}
