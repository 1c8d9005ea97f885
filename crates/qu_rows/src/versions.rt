ghost use Rattle.std.specs.Prelude.{◌≡◌};
ghost use Rattle.std.specs.Option.{option_copied};
ghost use Rattle.qu_versions.specs.Versions.{version_at};
ghost use Rattle.qu_rows.specs.State.{one_more};

use qu_base::ObjectId;
use qu_objects::ObjState;
use qu_stamp::Stamp;
use qu_versions::Stored;

/// The version of an object under this stamp, where this is it.
#[tactic(auto, unfolding(qu_versions::specs::Versions::version_at, qu_stamp::specs::Stamp::same_stamp))]
pub(crate) fn version_of<'a>(
    stored: Option<&'a Stored>,
    object: ObjectId,
    stamp: &Stamp,
) -> Option<&'a ObjState>
    ensures { option_copied result ≡ version_at object stamp.now (one_more (option_copied stored.entry)) }
{
    match stored {
        Some(held) if held.object == object && held.stamp == *stamp => Some(&held.state),
        _ => None,
    }
}
