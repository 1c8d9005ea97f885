ghost use Rattle.std.specs.Prelude.{◌≡◌, ◌≤◌, ◌+◌, ◌||◌, false, length, take, IfOk};
ghost use Rattle.qu_trace.specs.Letters.{letters_of};
ghost use Rattle.qu_world.specs.State.{numbered};
ghost use Rattle.qu_world.specs.Step.{is_to_faulty};
ghost use Rattle.qu_script.specs.Waiting.{delivers, delivers_from, is_delivered, is_passed_over, waiting_from, DeliverBelow, MayBeginAt, begin_at, begin_behind};
ghost use Rattle.qu_script.specs.Outage.{is_held_back};

use super::Outage;
use qu_base::NoMemory;
use qu_trace::{Entry, Event, Sent, Setup};

/// Where a search for a letter that waits may begin.
#[derive(Clone, Copy)]
pub struct Begin {
    /// The first letter that it looks at: each below it is passed over for good.
    pub letter: u64,
    /// The first event that it looks at: none before it delivers that letter or one behind it.
    pub event: usize,
}

/// Finds the lowest letter that flow takes, where it passes over each below that of `from` for good.
///
/// It answers where the next search may begin too, which is at no higher letter than one that is only held
/// back. A count of letters that no `u64` holds counts as want of memory.
pub fn find_waiting(
    setup: &Setup,
    entries: &Sent<'_>,
    outage: &Outage,
    from: Begin,
) -> Result<(Begin, Option<u64>), NoMemory>
    requires { MayBeginAt setup.now entries.now outage.now.lost from }
    ensures found { IfOk result (λ found. found.1
        ≡ waiting_from setup.now entries.now outage.now 1 (length (letters_of entries.now))) }
    ensures next { IfOk result (λ found. MayBeginAt setup.now entries.now outage.now.lost found.0) }
{
    let (letter, found) = find_lowest(setup, entries, outage, from)?;
    let event = events_below(entries.entries(), from.event, letter);
    Ok((Begin { letter, event }, found))
}

/// How many events from the first on deliver only letters below this one, as so many are known to do.
fn events_below(entries: &[Entry], known: usize, letter: u64) -> usize
    requires within { known ≤ length entries.now }
    requires below { DeliverBelow (take known entries.now) letter }
    ensures within { result ≤ length entries.now }
    ensures below { DeliverBelow (take result entries.now) letter }
{
    let mut count = known;
    'events: while count < entries.len() {
        if is_delivery_from(&entries[count].event, letter) {
            return count;
        }
        count += 1;
    }
    count
}

/// Whether the event delivers the letter or one behind it.
fn is_delivery_from(event: &Event, letter: u64) -> bool
    ensures { result ≡ delivers_from letter event.now }
{
    match event {
        Event::Deliver(number) => letter <= *number,
        Event::Invoke(..) | Event::Tick(..) | Event::Inject(..) => false,
    }
}

/// Finds the letter, and the first letter at which the next search may begin.
fn find_lowest(
    setup: &Setup,
    entries: &Sent<'_>,
    outage: &Outage,
    from: Begin,
) -> Result<(u64, Option<u64>), NoMemory>
    requires { MayBeginAt setup.now entries.now outage.now.lost from }
    ensures found { IfOk result (λ found. found.1
        ≡ waiting_from setup.now entries.now outage.now 1 (length (letters_of entries.now))) }
    ensures next { IfOk result (λ found. MayBeginAt setup.now entries.now outage.now.lost
        (begin_at from.event found.0)) }
{
    let mut next = from.letter;
    let mut number = from.letter;
    'search: while entries.letter(number).is_some() {
        let passed = is_passed_over(setup, entries, outage, from.event, number);
        if !is_left(entries, outage, number, passed) {
            return Ok((next, Some(number)));
        }
        let after = number_behind(number)?;
        next = begin_behind(passed, next, number, after);
        number = after;
    }
    Ok((next, None))
}

/// Where the next search may begin, if it might begin at `next`, and this letter was left.
fn begin_behind(passed: bool, next: u64, letter: u64, after: u64) -> u64
    ensures { result ≡ begin_behind passed next letter after }
{
    if passed && next == letter {
        after
    } else {
        next
    }
}

/// Whether flow passes over the letter for good, or a held replica keeps it back.
fn is_left(entries: &Sent<'_>, outage: &Outage, letter: u64, passed: bool) -> bool
    ensures { result ≡ (passed || is_held_back outage.now.held (numbered (letters_of entries.now) letter)) }
{
    passed || is_held_back(entries, outage, letter)
}

fn is_held_back(entries: &Sent<'_>, outage: &Outage, letter: u64) -> bool
    ensures { result ≡ is_held_back outage.now.held (numbered (letters_of entries.now) letter) }
{
    match entries.letter(letter) {
        Some(letter) => outage.holds_back(letter),
        None => false,
    }
}

/// Whether the letter was lost, or goes to a faulty party, or an event has delivered it, of which so many first ones
/// have not.
fn is_passed_over(
    setup: &Setup,
    entries: &Sent<'_>,
    outage: &Outage,
    event: usize,
    letter: u64,
) -> bool
    requires within { event ≤ length entries.now }
    requires not_before { is_delivered (take event entries.now) letter ≡ false }
    ensures { result ≡ is_passed_over setup.now entries.now outage.now.lost letter }
{
    letter <= outage.lost()
        || is_to_faulty(setup, entries, letter)
        || was_delivered_behind(entries.entries(), event, letter)
}

fn is_to_faulty(setup: &Setup, entries: &Sent<'_>, letter: u64) -> bool
    ensures { result ≡ is_to_faulty setup.now (numbered (letters_of entries.now) letter) }
{
    match entries.letter(letter) {
        Some(letter) => setup.is_faulty(letter.to),
        None => false,
    }
}

/// Whether an event has delivered the letter, where so many first ones have not.
fn was_delivered_behind(entries: &[Entry], event: usize, letter: u64) -> bool
    requires within { event ≤ length entries.now }
    requires not_before { is_delivered (take event entries.now) letter ≡ false }
    ensures { result ≡ is_delivered entries.now letter }
{
    was_delivered(&entries[event..], letter)
}

/// Whether an event has delivered the letter.
#[tactic(auto, unfolding(crate::specs::Waiting::is_delivered))]
fn was_delivered(entries: &[Entry], letter: u64) -> bool
    ensures { result ≡ is_delivered entries.now letter }
{
    entries
        .iter()
        .any(|entry| is_delivery(&entry.event, letter))
}

/// Whether the event delivers the letter.
fn is_delivery(event: &Event, letter: u64) -> bool
    ensures { result ≡ delivers letter event.now }
{
    match event {
        Event::Deliver(number) => *number == letter,
        Event::Invoke(..) | Event::Tick(..) | Event::Inject(..) => false,
    }
}

/// The number that the next letter will have, which is looked for behind this one if it was sent.
///
/// A number that no `u64` holds counts as want of memory.
pub fn next_letter(entries: &Sent<'_>, known: u64) -> Result<u64, NoMemory>
    ensures { IfOk result (λ next. next ≡ length (letters_of entries.now) + 1) }
{
    let mut next = number_behind(if_sent(entries, known))?;
    'letters: while entries.letter(next).is_some() {
        next = number_behind(next)?;
    }
    Ok(next)
}

/// The number of a letter if it was sent, and else 0.
#[tactic(auto, using(crate::proofs::WaitingFacts::found_within))]
fn if_sent(entries: &Sent<'_>, letter: u64) -> u64
    ensures { result ≤ length (letters_of entries.now) }
{
    if entries.letter(letter).is_some() {
        letter
    } else {
        0
    }
}

fn number_behind(number: u64) -> Result<u64, NoMemory>
    ensures { IfOk result (λ after. after ≡ number + 1) }
{
    number.checked_add(1).ok_or(NoMemory)
}
