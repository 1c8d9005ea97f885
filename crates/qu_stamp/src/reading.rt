ghost use Rattle.std.specs.Prelude.{◌≡◌, OnErr};
ghost use Rattle.qu_base.specs.Format.{optional, digest_form};
ghost use Rattle.qu_base.specs.Reading.{Reads, IsRead};
ghost use Rattle.qu_stamp.specs.Formats.{least_client, most_client, stamp_client_form, stamp_set_form, stamp_with, stamp_form, plain_stamp_form, next_stamp};

use super::{LAST_TIME, Stamp};
use qu_base::{BadText, ClientId, Cursor, Digest, LAST_CLIENT, Why};

/// The stamp at the front of a text: time, barrier mark, client, act mark, the act's digest where
/// the mark is 1, and the digest of the sets. After a refusal the text is as before.
#[tactic(auto, using(crate::proofs::Forms::stamp_read))]
pub fn read_stamp(text: &mut Cursor) -> Result<Stamp, BadText>
    ensures read { IsRead stamp_form result text.old text.new }
    ensures kept { OnErr result (text.new ≡ text.old) }
{
    text.are_bytes();
    let mut ahead = text.ahead();
    let stamp = stamp_at(&mut ahead, true)?;
    *text = ahead;
    Ok(stamp)
}

/// The stamp at the front of a text, where a barrier mark of 1 is out of range at its byte. After a
/// refusal the text is as before.
#[tactic(auto, using(crate::proofs::Forms::plain_stamp_read))]
pub fn read_plain_stamp(text: &mut Cursor) -> Result<Stamp, BadText>
    ensures read { IsRead plain_stamp_form result text.old text.new }
    ensures kept { OnErr result (text.new ≡ text.old) }
{
    text.are_bytes();
    let mut ahead = text.ahead();
    let stamp = stamp_at(&mut ahead, false)?;
    *text = ahead;
    Ok(stamp)
}

/// The stamp of the candidate of a history after one with this stamp: the opening one first. After a refusal the text
/// is as before.
pub fn read_next_stamp(text: &mut Cursor, before: Option<Stamp>) -> Result<Stamp, BadText>
    ensures read { Reads (next_stamp before) result text.old text.new }
    ensures kept { OnErr result (text.new ≡ text.old) }
{
    let mut ahead = text.ahead();
    let stamp = next_stamp_at(&mut ahead, before)?;
    *text = ahead;
    Ok(stamp)
}

#[tactic(auto, unfolding(crate::specs::Stamp::same_stamp))]
fn next_stamp_at(text: &mut Cursor, before: Option<Stamp>) -> Result<Stamp, BadText>
    ensures { Reads (next_stamp before) result text.old text.new }
{
    let start = text.ahead();
    let stamp = stamp_at(text, true)?;
    match before {
        None if stamp != Stamp::opening() => Err(start.refusal(Why::Range)),
        Some(before) if !before.is_below(&stamp) => Err(start.refusal(Why::Order)),
        None | Some(_) => Ok(stamp),
    }
}

/// The stamp at the front of a text, a barrier's only where it may be.
#[tactic(auto, unfolding(crate::specs::Formats::stamp_with))]
pub(crate) fn stamp_at(text: &mut Cursor, barrier_may_be: bool) -> Result<Stamp, BadText>
    ensures { Reads (stamp_with barrier_may_be) result text.old text.new }
{
    let time = text.u64_within(0, LAST_TIME)?;
    let later = time != 0;
    let barrier = text.flag(barrier_may_be && later)?;
    let client = client_at(text, time)?;
    let act = act_at(text, later && !barrier)?;
    let set = set_at(text, time)?;
    Ok(Stamp {
        time,
        barrier,
        client,
        act,
        set,
    })
}

/// The client of a stamp with this time.
fn client_at(text: &mut Cursor, time: u64) -> Result<ClientId, BadText>
    ensures { Reads (stamp_client_form time) result text.old text.new }
{
    let client = text.u16_within(least_client(time), most_client(time))?;
    Ok(ClientId(client))
}

/// Client 0 stands at time 0 and nowhere else.
fn least_client(time: u64) -> u16
    ensures { result ≡ least_client time }
{
    if time == 0 { 0 } else { 1 }
}

fn most_client(time: u64) -> u16
    ensures { result ≡ most_client time }
{
    if time == 0 { 0 } else { LAST_CLIENT }
}

/// The digest of the act, where there may be one and its mark says that there is.
fn act_at(text: &mut Cursor, may: bool) -> Result<Option<Digest>, BadText>
    ensures { Reads (optional may digest_form) result text.old text.new }
{
    if text.flag(may)? {
        Ok(Some(text.digest()?))
    } else {
        Ok(None)
    }
}

/// The digest of the sets of a stamp with this time.
fn set_at(text: &mut Cursor, time: u64) -> Result<Digest, BadText>
    ensures { Reads (stamp_set_form time) result text.old text.new }
{
    let start = text.ahead();
    let set = text.digest()?;
    if time == 0 && set != Stamp::opening().set {
        return Err(start.refusal(Why::Range));
    }
    Ok(set)
}
