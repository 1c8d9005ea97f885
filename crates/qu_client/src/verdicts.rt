ghost use Rattle.std.specs.Prelude.{◌≡◌, ◌≤◌, length};
ghost use Rattle.std.specs.Option.{option_copied};
ghost use Rattle.qu_client.specs.Verdicts.{fitting, is_mended, fits, identical_verdicts, best_of, has_replied, silent, is_hopeless, is_agreed};

use super::{Counted, Whom};
use qu_base::Bounds;
use qu_frames::{Body, Verdict};
use qu_objects::Answer;

/// The answer of a verdict that fits what was asked, where it tells one. Done and Already both fit an act, and are
/// counted apart.
pub fn fitting<'v>(body: &Body, verdict: &'v Verdict) -> Option<&'v Answer>
    ensures { option_copied result ≡ fitting body.now verdict.now }
{
    match (body, verdict) {
        (Body::Act(_), Verdict::Done { answer, .. }) => Some(answer),
        (Body::Act(_), Verdict::Already(answer)) => Some(answer),
        (Body::Ask(_), Verdict::Told { answer, .. }) => Some(answer),
        _ => None,
    }
}

/// Whether an object was to be mended, and one was.
fn is_mended(body: &Body, verdict: &Verdict) -> bool
    ensures { result ≡ is_mended body.now verdict.now }
{
    match (body, verdict) {
        (Body::Mend(_), Verdict::Mended(_, _)) => true,
        _ => false,
    }
}

/// Whether a verdict fits what was asked.
fn fits(body: &Body, verdict: &Verdict) -> bool
    ensures { result ≡ fits body.now verdict.now }
{
    fitting(body, verdict).is_some() || is_mended(body, verdict)
}

/// Whether a verdict fits, and a quorum agrees with it.
pub fn is_agreed(bounds: Bounds, body: &Body, replies: &[Counted], verdict: &Verdict) -> bool
    ensures { result ≡ is_agreed bounds body.now replies.now verdict.now }
{
    fits(body, verdict) && identical_verdicts(verdict, replies) >= usize::from(bounds.q())
}

/// How many verdicts are identical to this one.
#[tactic(auto, unfolding(crate::specs::Verdicts::identical_verdicts))]
fn identical_verdicts(verdict: &Verdict, replies: &[Counted]) -> usize
    ensures value { result ≡ identical_verdicts verdict.now replies.now }
    ensures most { result ≤ length replies.now }
{
    replies
        .iter()
        .filter(|counted| counted.verdict.get().is_same(verdict))
        .count()
}

/// Whether a quorum replied, and those that are silent can make no quorum of any verdict that fits.
pub fn is_hopeless(bounds: Bounds, body: &Body, whom: Whom, replies: &[Counted]) -> bool
    ensures { result ≡ is_hopeless bounds body.now whom replies.now }
{
    let quorum = usize::from(bounds.q());
    replies.len() >= quorum
        && best_of(body, replies).saturating_add(silent(bounds, whom, replies)) < quorum
}

/// How many replicas are silent: they were asked, and have not replied.
#[tactic(auto, unfolding(crate::specs::Verdicts::silent))]
fn silent(bounds: Bounds, whom: Whom, replies: &[Counted]) -> usize
    ensures { result ≡ silent bounds whom replies.now }
{
    (0..bounds.n())
        .filter(|replica| whom.includes(bounds, *replica) && !has_replied(replies, *replica))
        .count()
}

/// Whether a verdict of the replica is among those that count.
pub fn has_replied(replies: &[Counted], replica: u8) -> bool
    ensures { result ≡ has_replied replies.now replica }
{
    replies.iter().any(|counted| counted.replica.0 == replica)
}

/// The greatest number of identical verdicts that fit.
#[tactic(auto, unfolding(crate::specs::Verdicts::best_of))]
fn best_of(body: &Body, replies: &[Counted]) -> usize
    ensures value { result ≡ best_of body.now replies.now replies.now }
    ensures most { result ≤ length replies.now }
{
    let mut best = 0;
    for counted in replies {
        if fits(body, counted.verdict.get()) {
            best = best.max(identical_verdicts(counted.verdict.get(), replies));
        }
    }
    best
}
