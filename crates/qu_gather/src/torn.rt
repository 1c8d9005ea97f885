use qu_base::{ClientId, NoMemory, Party};
use qu_post::Filed;
use qu_replay::KeptStep;

/// What does not fit of what the threads of a run left behind.
pub enum Torn {
    /// Behind the lock of one actor stands another one.
    Moved {
        lock: Party,
        held: Party,
    },
    /// The kept and the filed step of the lowest ticket at which they differ, or at which there is only one of them.
    /// Where they never do: the first kept step on what was not sent to its actor before, and the filed step that its
    /// letter names.
    Steps {
        kept: Option<KeptStep>,
        filed: Option<Filed>,
    },
    /// A client ticked before a letter that it waited for was delivered: this one, by its number in the run.
    Early {
        client: ClientId,
        letter: u64,
    },
}

/// By hand, so that a value is let go in one step wherever that is.
impl Drop for Torn {
    fn drop(self) {
        match self {
            Torn::Moved { lock: _, held: _ }
            | Torn::Steps { kept: _, filed: _ }
            | Torn::Early {
                client: _,
                letter: _,
            } => {}
        }
    }
}

/// Why a run on threads gives no trace.
#[derive(Drop)]
pub enum LiveFail {
    Torn(Torn),
    NoMemory,
}

impl From<NoMemory> for LiveFail {
    ghost use Rattle.std.specs.Prelude.{◌≡◌};
    ghost use Rattle.qu_gather.specs.declared.torn.LiveFail.TheVariants as fail;

    ghost from_gives = { λ error given. given ≡ fail.NoMemory };

    fn from(_error: NoMemory) -> LiveFail {
        LiveFail::NoMemory
    }
}
