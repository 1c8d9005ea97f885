ghost use Rattle.std.specs.Prelude.{◌≡◌};
ghost use Rattle.qu_objects.specs.RefusalNumber.{is_kind_refusal};

pub use kind_blob::TOO_LONG;
pub use kind_counter::{OVER, UNDER};
pub use kind_dir::{BAD_NAME, EXISTS, FULL, MISSING};

/// The last of the numbers from `OVER` on, which refusals of objects of some kind have.
pub const LAST_OF_KINDS: u8 = FULL;

/// Number 12: what is done or asked is none of the object's kind.
pub const WRONG_KIND: u8 = 12;

/// Whether a refusal of a part has this number.
pub fn is_kind_refusal(why: u8) -> bool
    ensures { result ≡ is_kind_refusal why }
{
    OVER <= why && why <= LAST_OF_KINDS || why == WRONG_KIND
}

/// The numbers of the refusals that are of no kind.
pub fn refusal_numbers_are_these()
    ensures last_of_kinds { LAST_OF_KINDS ≡ 9 }
    ensures wrong_kind { WRONG_KIND ≡ 12 }
{}
