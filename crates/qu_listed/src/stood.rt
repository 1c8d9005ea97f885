//! How a client stands before an event at which it steps.
use qu_base::ClientId;
use qu_client::Phase;

/// Why a round is over.
#[derive(Clone, Copy, PartialEq, Eq)]
pub enum Why {
    /// A quorum agrees.
    Agreed,
    /// No quorum can agree any more.
    Split,
    /// A tick of the client's clock came first.
    TimedOut,
}

/// The round that is under way before an event, or that ended before a rest.
#[derive(Clone, Copy)]
pub struct Round {
    pub number: u8,
    pub phase: Phase,
    /// Why the round is over behind the event, if it is.
    pub why: Why,
}

/// A correct client that steps at an event, before it.
#[derive(Clone, Copy)]
pub struct Stood {
    pub client: ClientId,
    pub round: Option<Round>,
}
