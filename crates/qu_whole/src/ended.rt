ghost use Rattle.std.specs.Prelude.{◌≡◌, IsTrue};
ghost use Rattle.qu_gather.specs.Gathered.{HasEnded, HaveEnded};

use qu_base::ClientId;
use qu_client::Client;
use qu_lock::{Kept, RunName};
use qu_objects::Op;

/// Whether each of these clients began all its calls, and none is under way, where these are the calls of the run.
pub fn have_ended<N: RunName>(calls: &[(ClientId, Op)], held: &[Kept<Client, N>]) -> bool
    requires { calls.now ≡ N.calls }
    ensures { IsTrue result → HaveEnded N.calls held.now }
{
    for kept in held {
        if !has_ended(calls, kept) {
            return false;
        }
    }
    true
}

/// Whether a client began all its calls, and none is under way.
fn has_ended<N: RunName>(calls: &[(ClientId, Op)], kept: &Kept<Client, N>) -> bool
    requires { calls.now ≡ N.calls }
    ensures { IsTrue result → HasEnded N.calls kept.now }
{
    !kept.actor().busy() && kept.next_call(calls).is_none()
}
