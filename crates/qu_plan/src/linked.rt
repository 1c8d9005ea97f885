ghost use Rattle.std.specs.Prelude.{◌≡◌};
ghost use Rattle.qu_plan.specs.Linked.{is_passed, is_at, is_above};

use qu_stamp::Stamp;

/// Whether a link is none, or below the stamp.
#[tactic(auto, unfolding(crate::specs::Linked::is_passed))]
pub fn is_passed(stamp: &Stamp, link: Option<Stamp>) -> bool
    ensures { result ≡ is_passed stamp.now link }
{
    match link {
        Some(own) => own.is_below(stamp),
        None => true,
    }
}

/// Whether a link is the stamp.
#[tactic(auto, unfolding(crate::specs::Linked::is_at, qu_stamp::specs::Stamp::same_stamp))]
pub fn is_at(stamp: &Stamp, link: Option<Stamp>) -> bool
    ensures { result ≡ is_at stamp.now link }
{
    match link {
        Some(own) => own == *stamp,
        None => false,
    }
}

/// Whether a link is above the stamp.
#[tactic(auto, unfolding(crate::specs::Linked::is_above))]
pub fn is_above(stamp: &Stamp, link: Option<Stamp>) -> bool
    ensures { result ≡ is_above stamp.now link }
{
    match link {
        Some(own) => stamp.is_below(&own),
        None => false,
    }
}
