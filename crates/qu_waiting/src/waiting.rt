ghost use Rattle.std.specs.Prelude.{◌≡◌, Some, IfOk};
ghost use Rattle.qu_frames.specs.Reading.{own_mac, request_with};
ghost use Rattle.qu_frames.specs.Signing.{brought};
ghost use Rattle.qu_waiting.specs.Waiting.{taken_by};

use qu_base::{List, NoMemory, ObjectId, Party};
use qu_frames::{Frame, Reading, read_request, receive};
use qu_seal::KeyRing;
use qu_stamp::Stamp;
use std::alloc::Global;
use std::marker::Model;

/// A request that waits for versions, as it came.
pub struct Waiting {
    pub reading: Reading,
    /// The HMAC that it had.
    mac: [u8; 32],
    /// The versions that were missing when it was decided upon.
    pub missing: List<(ObjectId, Stamp)>,
}

/// By hand, so that a value is let go in one step wherever that is.
impl Drop for Waiting {
    fn drop(self) {
        let Waiting {
            reading: _,
            mac: _,
            missing: _,
        } = self;
    }
}

impl Model for Waiting {
    ghost use Rattle.qu_waiting.specs.Waiting.{Waiting as Waits, taken_by};

    ghost Value = { Waits };

    ghost view = { λ waiting. record {
      request = taken_by waiting.reading waiting.mac;
      missing = waiting.missing;
    } };
}

impl Waiting {
    /// The request that a text brought, which was read so, waits for these versions.
    #[tactic(auto, using(crate::proofs::Taken::taken_is_request))]
    pub fn new(
        alloc: Global,
        keys: &KeyRing,
        me: Party,
        text: &[u8],
        reading: &Reading,
        missing: List<(ObjectId, Stamp)>,
    ) -> Result<Waiting, NoMemory>
        requires { brought keys.now me text.now ≡ Some (request_with reading.now (own_mac text.now)) }
        ensures { IfOk result (λ waiting. waiting
            ≡ record { request = taken_by reading.now (own_mac text.now); missing = missing }) }
    {
        let Some(Frame::Request { mac, .. }) = receive(alloc, keys, me, text)? else {
            unreachable!()
        };
        match read_request(alloc, text)? {
            Some(again) => {
                if !again.is_brought(keys, me, text) {
                    unreachable!();
                }
                Ok(Waiting {
                    reading: again,
                    mac,
                    missing,
                })
            }
            None => unreachable!(),
        }
    }

    /// This request, waiting for these versions.
    pub fn with_missing(self, missing: List<(ObjectId, Stamp)>) -> Waiting
        ensures { result ≡ record self { missing = missing } }
    {
        let Waiting {
            reading,
            mac,
            missing: _,
        } = self;
        Waiting {
            reading,
            mac,
            missing,
        }
    }
}
