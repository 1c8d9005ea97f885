ghost use Rattle.std.specs.Prelude.{◌≡◌, ◌<◌, ◌≤◌, IsTrue, IfOk, OnErr};
ghost use Rattle.qu_base.specs.Reading.{Reads, IsRead};
ghost use Rattle.qu_stamp.specs.Group.{is_group};
ghost use Rattle.qu_stamp.specs.Formats.{may_have_act, object_from, member_form, may_be_size, some_members, members_form, lists_itself, group_form, is_below_or_opening, may_be_prior, prior_form, basis_form, candidate_form};

use super::group::is_group_size;
use super::pairs::Pairs;
use super::reading::stamp_at;
use super::{Candidate, Group, LAST_TIME, Stamp};
use qu_base::{BadText, Cursor, OBJECT_IDS, ObjectId, Why};

/// What stands behind the stamp of a candidate: the stamp upon which it rests, and its group.
pub type Basis = (Stamp, Group);

/// The candidate on this object at the front of a text: its stamp, its prior and its group. After a refusal the
/// text is as before.
#[tactic(auto, using(crate::proofs::Forms::candidate_read))]
pub fn read_candidate(text: &mut Cursor, object: ObjectId) -> Result<Candidate, BadText>
    ensures read { IsRead (candidate_form object) result text.old text.new }
    ensures kept { OnErr result (text.new ≡ text.old) }
{
    text.are_bytes();
    let mut ahead = text.ahead();
    let candidate = candidate_at(&mut ahead, object)?;
    *text = ahead;
    Ok(candidate)
}

#[tactic(auto, unfolding(crate::specs::Formats::candidate_form))]
fn candidate_at(text: &mut Cursor, object: ObjectId) -> Result<Candidate, BadText>
    ensures { Reads (candidate_form object) result text.old text.new }
{
    let stamp = stamp_at(text, true)?;
    let (prior, group) = basis_at(text, object, &stamp)?;
    Ok(Candidate {
        stamp,
        prior,
        group,
    })
}

/// The prior and the group of a candidate with this stamp on this object. After a refusal the text is as before.
pub fn read_basis(text: &mut Cursor, object: ObjectId, stamp: &Stamp) -> Result<Basis, BadText>
    ensures read { Reads (basis_form object stamp.now) result text.old text.new }
    ensures kept { OnErr result (text.new ≡ text.old) }
{
    let mut ahead = text.ahead();
    let basis = basis_at(&mut ahead, object, stamp)?;
    *text = ahead;
    Ok(basis)
}

#[tactic(auto, unfolding(crate::specs::Formats::basis_form))]
fn basis_at(text: &mut Cursor, object: ObjectId, stamp: &Stamp) -> Result<Basis, BadText>
    ensures { Reads (basis_form object stamp.now) result text.old text.new }
{
    let prior = prior_at(text, stamp)?;
    let group = group_at(text, object, stamp)?;
    Ok((prior, group))
}

fn prior_at(text: &mut Cursor, stamp: &Stamp) -> Result<Stamp, BadText>
    ensures { Reads (prior_form stamp.now) result text.old text.new }
{
    let start = text.ahead();
    let prior = stamp_at(text, true)?;
    if !may_be_prior(stamp, &prior) {
        return Err(start.refusal(Why::Range));
    }
    Ok(prior)
}

/// Whether a candidate with this stamp may have this prior, which is no barrier's.
fn may_be_prior(stamp: &Stamp, prior: &Stamp) -> bool
    ensures { result ≡ may_be_prior stamp.now prior.now }
{
    is_below_or_opening(stamp, prior) && !prior.barrier
}

/// A prior is below the stamp, and the opening one where that is the opening one.
#[tactic(auto, unfolding(crate::specs::Stamp::same_stamp))]
fn is_below_or_opening(stamp: &Stamp, prior: &Stamp) -> bool
    ensures { result ≡ is_below_or_opening stamp.now prior.now }
{
    if *stamp == Stamp::opening() {
        *prior == Stamp::opening()
    } else {
        prior.is_below(stamp)
    }
}

/// The group of a candidate with this stamp on this object.
#[tactic(auto, unfolding(crate::specs::Formats::group_form), using(crate::proofs::Forms::members_are_group))]
fn group_at(text: &mut Cursor, object: ObjectId, stamp: &Stamp) -> Result<Group, BadText>
    ensures { Reads (group_form object stamp.now) result text.old text.new }
{
    text.are_bytes();
    let start = text.ahead();
    let members = members_at(text, stamp)?;
    let group = Group::of(members);
    if !lists_itself(object, stamp, &group) {
        return Err(start.refusal(Why::Range));
    }
    Ok(group)
}

/// Whether the group lists the candidate's own object, with its time.
fn lists_itself(object: ObjectId, stamp: &Stamp, group: &Group) -> bool
    ensures { result ≡ lists_itself object stamp.now group.now }
{
    match group.time(object) {
        Some(time) => group.pairs().is_empty() || time == stamp.time,
        None => group.pairs().is_empty(),
    }
}

/// A count, and so many members of the group of a candidate with this stamp.
#[tactic(auto, unfolding(crate::specs::Formats::members_form))]
fn members_at(text: &mut Cursor, stamp: &Stamp) -> Result<Pairs, BadText>
    ensures { Reads (members_form stamp.now) result text.old text.new }
{
    let start = text.ahead();
    let count = text.u8_within(0, 255)?;
    if !may_be_size(stamp, count) {
        return Err(start.refusal(Why::Range));
    }
    next_members(text, count)
}

/// Whether the group of a candidate with this stamp may have so many members: the opening candidate and barriers
/// stand alone.
fn may_be_size(stamp: &Stamp, count: u8) -> bool
    ensures value { result ≡ may_be_size stamp.now count }
    ensures few { IsTrue result → count ≤ 4 }
{
    is_group_size(usize::from(count)) && (count == 0 || stamp.time != 0 && !stamp.barrier)
}

/// So many members.
#[tactic(auto, using(qu_base::proofs::Lists::list_laws))]
fn next_members(text: &mut Cursor, count: u8) -> Result<Pairs, BadText>
    requires { count ≤ 4 }
    ensures { Reads (some_members 0 count) result text.old text.new }
{
    let mut members = Pairs::none();
    let mut least = 0;
    for at in 0..count {
        let member = member_at(text, least)?;
        least = member.0.0 + 1;
        members.push(member);
    }
    Ok(members)
}

/// The next member, on an object that is not below this number.
#[tactic(auto, unfolding(crate::specs::Formats::member_form))]
fn member_at(text: &mut Cursor, least: u16) -> Result<(ObjectId, u64), BadText>
    ensures given { Reads (member_form least) result text.old text.new }
    ensures below { IfOk result (λ member. (member.0).0 < OBJECT_IDS) }
{
    let object = object_from(least, text)?;
    let time = text.u64_within(1, LAST_TIME)?;
    Ok((object, time))
}

/// The next object, which is not below this number. After a refusal the text is as before.
#[tactic(auto, using(crate::proofs::Forms::object_below))]
pub fn object_from(least: u16, text: &mut Cursor) -> Result<ObjectId, BadText>
    ensures given { Reads (object_from least) result text.old text.new }
    ensures below { IfOk result (λ object. object.0 < OBJECT_IDS) }
    ensures kept { OnErr result (text.new ≡ text.old) }
{
    text.are_bytes();
    let mut ahead = text.ahead();
    let object = ahead.object()?;
    if object.0 < least {
        return Err(text.refusal(Why::Order));
    }
    *text = ahead;
    Ok(object)
}
