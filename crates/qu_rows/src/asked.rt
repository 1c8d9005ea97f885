ghost use Rattle.std.specs.Prelude.{◌≡◌, IfOk};
ghost use Rattle.qu_history.specs.Text.{sets_digest};
ghost use Rattle.qu_rows.specs.Rows.{act_asked, asked_of};

use qu_base::{ClientId, Digest, NoMemory};
use qu_frames::{Body, Reading};
use qu_history::Sets;
use qu_objects::act_digest;
use std::alloc::Global;
use std::marker::Model;

/// A request with its culled sets, and with the digests that a stamp carries.
#[derive(Drop)]
pub struct Asked<'a> {
    pub(crate) client: ClientId,
    pub(crate) number: u64,
    pub(crate) sets: &'a Sets,
    /// The digest of the act that is asked for, none of a query or a repair.
    pub(crate) act: Option<Digest>,
    /// The digest of the culled sets.
    pub(crate) set: Digest,
}

impl<'a> Model for Asked<'a> {
    ghost use Rattle.qu_rows.specs.Rows.{Asked as Request};

    ghost Value = { Request };

    ghost view = { λ asked. record {
      client = asked.client;
      number = asked.number;
      sets = asked.sets.now;
      act = asked.act;
      set = asked.set;
    } };
}

impl<'a> Asked<'a> {
    /// The request that was read, with these culled sets and their digest. For the text of its act it takes memory.
    pub fn new(
        alloc: Global,
        reading: &Reading,
        sets: &'a Sets,
        set: Digest,
    ) -> Result<Asked<'a>, NoMemory>
        requires { set ≡ sets_digest sets.now }
        ensures { IfOk result (λ asked. asked
            ≡ asked_of reading.now.client reading.now.number sets.now reading.now.body) }
    {
        let client = reading.client();
        let number = reading.number();
        Ok(Asked {
            client,
            number,
            sets,
            act: act_asked(alloc, client, number, reading.body())?,
            set,
        })
    }

    /// Its culled sets.
    pub fn sets(&self) -> &'a Sets
        ensures { result.now ≡ self.now.sets }
    {
        self.sets
    }
}

/// The digest of the act that is asked for, none of a query or a repair.
fn act_asked(
    alloc: Global,
    client: ClientId,
    number: u64,
    body: &Body,
) -> Result<Option<Digest>, NoMemory>
    ensures { IfOk result (λ act. act ≡ act_asked client number body.now) }
{
    match body {
        Body::Act(act) => Ok(Some(act_digest(alloc, client, number, act)?)),
        Body::Ask(_) | Body::Mend(_) => Ok(None),
    }
}
