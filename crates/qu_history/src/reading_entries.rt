ghost use Rattle.std.specs.Prelude.{◌<◌, IfOk};
ghost use Rattle.qu_base.specs.Reading.{Gives};
ghost use Rattle.qu_history.specs.Formats.{some_macs, macs_form, entry_form, sealed_entry_form, some_entries, entries_form, sealed_from, some_shown, shown_form};

use super::reading::candidates_at;
use super::{History, OBJECTS_LIMIT, Sealed};
use qu_base::{
    Cursor, List, OBJECT_IDS, ObjectId, REPLICA_IDS, ReadFail, ReplicaId, Why, is_replica_count,
};
use qu_stamp::object_from;
use std::alloc::Global;

/// A count, and so many entries of this object, by rising replicas.
#[tactic(auto, unfolding(crate::specs::Formats::entries_form))]
pub(crate) fn entries_at(
    alloc: Global,
    object: ObjectId,
    text: &mut Cursor,
) -> Result<List<Sealed>, ReadFail>
    ensures { Gives (entries_form object) result text.old text.new }
{
    let count = text.u8_within(0, REPLICA_IDS)?;
    next_entries(alloc, count, object, text)
}

/// So many entries of this object.
#[tactic(auto, using(qu_base::proofs::Lists::list_laws))]
fn next_entries(
    alloc: Global,
    count: u8,
    object: ObjectId,
    text: &mut Cursor,
) -> Result<List<Sealed>, ReadFail>
    ensures { Gives (some_entries object 0 count) result text.old text.new }
{
    let mut entries = List::new(alloc);
    let mut least = 0;
    for at in 0..count {
        let entry = entry_at(alloc, object, least, text)?;
        least = entry.history.replica().0 + 1;
        entries.push(entry)?;
    }
    Ok(entries)
}

/// The next entry of this object, by a replica that is not below this number.
#[tactic(auto, unfolding(crate::specs::Formats::sealed_entry_form))]
fn entry_at(
    alloc: Global,
    object: ObjectId,
    least: u8,
    text: &mut Cursor,
) -> Result<Sealed, ReadFail>
    ensures given { Gives (sealed_entry_form object least) result text.old text.new }
    ensures below { IfOk result (λ entry. ((entry.history).replica).0 < REPLICA_IDS) }
{
    let history = entry_history(alloc, object, least, text)?;
    let macs = macs_at(alloc, text)?;
    Ok(Sealed { history, macs })
}

/// Its history.
#[tactic(auto, unfolding(crate::specs::Formats::entry_form), using(crate::proofs::Forms::replica_below))]
fn entry_history(
    alloc: Global,
    object: ObjectId,
    least: u8,
    text: &mut Cursor,
) -> Result<History, ReadFail>
    ensures given { Gives (entry_form object least) result text.old text.new }
    ensures below { IfOk result (λ history. (history.replica).0 < REPLICA_IDS) }
{
    let start = text.ahead();
    let own = text.object()?;
    if own != object {
        return Err(ReadFail::Bad(start.refusal(Why::Range)));
    }
    text.are_bytes();
    let start = text.ahead();
    let replica = text.replica()?;
    if replica.0 < least {
        return Err(ReadFail::Bad(start.refusal(Why::Order)));
    }
    let candidates = candidates_at(alloc, own, text)?;
    Ok(History::of(own, replica, candidates))
}

/// A count, and so many sealed histories of this replica, by rising objects.
#[tactic(auto, unfolding(crate::specs::Formats::shown_form))]
pub(crate) fn shown_at(
    alloc: Global,
    replica: ReplicaId,
    text: &mut Cursor,
) -> Result<List<Sealed>, ReadFail>
    ensures { Gives (shown_form replica) result text.old text.new }
{
    let count = text.u8_within(0, OBJECTS_LIMIT as u8)?;
    next_shown(alloc, count, replica, text)
}

/// So many sealed histories of this replica.
#[tactic(auto, using(qu_base::proofs::Lists::list_laws))]
fn next_shown(
    alloc: Global,
    count: u8,
    replica: ReplicaId,
    text: &mut Cursor,
) -> Result<List<Sealed>, ReadFail>
    ensures { Gives (some_shown replica 0 count) result text.old text.new }
{
    let mut shown = List::new(alloc);
    let mut least = 0;
    for at in 0..count {
        let sealed = sealed_from(alloc, replica, least, text)?;
        least = sealed.history.object().0 + 1;
        shown.push(sealed)?;
    }
    Ok(shown)
}

/// The next sealed history of this replica, of an object that is not below this number.
#[tactic(auto, unfolding(crate::specs::Formats::sealed_from))]
fn sealed_from(
    alloc: Global,
    replica: ReplicaId,
    least: u16,
    text: &mut Cursor,
) -> Result<Sealed, ReadFail>
    ensures given { Gives (sealed_from replica least) result text.old text.new }
    ensures below { IfOk result (λ sealed. ((sealed.history).object).0 < OBJECT_IDS) }
{
    let object = object_from(least, text)?;
    let start = text.ahead();
    let own = text.replica()?;
    if own != replica {
        return Err(ReadFail::Bad(start.refusal(Why::Range)));
    }
    let candidates = candidates_at(alloc, object, text)?;
    let history = History::of(object, own, candidates);
    let macs = macs_at(alloc, text)?;
    Ok(Sealed { history, macs })
}

/// The count of the HMACs, and each of them.
fn macs_at(alloc: Global, text: &mut Cursor) -> Result<List<[u8; 32]>, ReadFail>
    ensures { Gives macs_form result text.old text.new }
{
    let start = text.ahead();
    let count = text.u8_within(0, 255)?;
    if !is_replica_count(count) {
        return Err(ReadFail::Bad(start.refusal(Why::Range)));
    }
    next_macs(alloc, count, text)
}

/// So many HMACs.
#[tactic(auto, using(qu_base::proofs::Lists::list_laws))]
fn next_macs(alloc: Global, count: u8, text: &mut Cursor) -> Result<List<[u8; 32]>, ReadFail>
    ensures { Gives (some_macs count) result text.old text.new }
{
    let mut macs = List::new(alloc);
    for at in 0..count {
        let mac = text.array()?;
        macs.push(mac)?;
    }
    Ok(macs)
}
