ghost use Rattle.std.specs.Prelude.{◌≡◌};
ghost use Rattle.qu_mends.specs.Table.{has_no_room};

use qu_history::{HISTORY_LIMIT, History};

/// Whether the history has no room for a candidate more.
pub fn has_no_room(own: &History) -> bool
    ensures { result ≡ has_no_room own.now.candidates }
{
    HISTORY_LIMIT <= own.len()
}
