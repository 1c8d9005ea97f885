ghost use Rattle.std.specs.Prelude.{◌≡◌, [], None, IfOk, IfErr, OnOk};
ghost use Rattle.qu_replay.specs.Told.{AreTold};
ghost use Rattle.qu_replay.specs.Merged.{merged_entries};
ghost use Rattle.qu_replay.specs.Entries.{WereSentBefore};
ghost use Rattle.qu_gather.specs.Torn.{IsUntold, IsEarly};
ghost use Rattle.qu_gather.specs.Ticks.{late_letter};

use qu_base::{List, Party};
use qu_gather::{LiveFail, Torn, late_letter};
use qu_journal::{first_unlike, unlike_pair, unsent_pair};
use qu_replay::{EntriesFail, KeptStep, entries_of};
use qu_trace::{Entry, Setup};
use std::alloc::Global;

/// The entries that tell kept steps, where these are the filed ones, both in the order of tickets, and each takes what
/// was sent to its actor. What does not fit is taken out of the lists, so that no memory is needed to tell it: want of
/// memory is told only where all fits.
pub fn tell(
    alloc: Global,
    kept: List<(Party, KeptStep)>,
    filed: List<(Party, KeptStep)>,
) -> Result<List<Entry>, LiveFail>
    ensures told { IfOk result (λ entries. AreTold [] kept entries) }
    ensures entries { IfOk result (λ entries. entries ≡ merged_entries kept) }
    ensures sent { IfOk result (λ entries. WereSentBefore [] kept) }
    ensures filed { IfOk result (λ entries. kept ≡ filed) }
    ensures untold { IfErr result (IsUntold kept filed) }
{
    if let Some(at) = first_unlike(kept.as_slice(), filed.as_slice()) {
        let (kept, filed) = unlike_pair(kept, filed, at);
        return Err(LiveFail::Torn(Torn::Steps { kept, filed }));
    }
    match entries_of(alloc, kept.as_slice()) {
        Ok(entries) => Ok(entries),
        Err(EntriesFail::Unsent(at)) => {
            let (kept, filed) = unsent_pair(kept, filed, at);
            Err(LiveFail::Torn(Torn::Steps { kept, filed }))
        }
        Err(EntriesFail::NoMemory) => Err(LiveFail::NoMemory),
    }
}

/// Whether no client ticked before a letter that it waited for was delivered; else the first such letter.
pub fn tick_in_time(alloc: Global, setup: &Setup, entries: &[Entry]) -> Result<(), LiveFail>
    ensures in_time { OnOk result (late_letter setup.now [] entries.now ≡ None) }
    ensures early { IfErr result (IsEarly setup.now entries.now) }
{
    match late_letter(alloc, setup, entries)? {
        Some((client, letter)) => Err(LiveFail::Torn(Torn::Early { client, letter })),
        None => Ok(()),
    }
}
