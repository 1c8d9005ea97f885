ghost use Rattle.std.specs.Prelude.{◌≡◌, ◌≤◌};
ghost use Rattle.qu_client.specs.Waits.{wait_words, longest, next_wait};

use super::{LONGEST_WAIT, MOST_DOUBLINGS};
use qu_base::ClientId;
use rand_core::utils::NextWord;
use rand_pcg::Lcg64Xsh32;
use std::alloc::AllocError;
use std::marker::Model;

/// The waits of a client between rounds that found it behind. Clients draw different waits, so that they do not
/// hinder each other again.
#[derive(Drop)]
pub struct Backoff {
    words: Lcg64Xsh32,
}

impl Model for Backoff {
    ghost use Rattle.rand_pcg.specs.Lcg.{Lcg};

    ghost Value = { Lcg };

    ghost view = { λ backoff. backoff.words };
}

impl Backoff {
    /// The waits that the seed gives to the client.
    pub fn seeded(seed: u64, client: ClientId) -> Backoff
        ensures { result ≡ wait_words seed client }
    {
        Backoff {
            words: Lcg64Xsh32::new(seed, u64::from(client.0)),
        }
    }

    /// How many ticks the client rests after the round, at least one. The most that it may be doubles with each
    /// round, up to `LONGEST_WAIT`.
    #[tactic(auto, using(crate::proofs::Waits::wait_laws))]
    pub fn next(&mut self, round: u8) -> u32
        ensures value { (result, self.new) ≡ next_wait round self.old }
        ensures rests { 1 ≤ result }
        ensures most { result ≤ longest round }
        ensures never_longer { result ≤ LONGEST_WAIT }
    {
        1 + self.words.next_word() % longest(round)
    }
}

/// The clone draws the same waits.
impl Clone for Backoff {
    ghost is_clone = { λ backoff copied. copied ≡ backoff };

    fn clone(&self) -> Result<Backoff, AllocError> {
        let words = self.words.clone()?;
        Ok(Backoff { words })
    }
}

/// The longest wait after the round.
#[tactic(auto, using(crate::proofs::Waits::wait_laws), unfolding(crate::specs::Waits::longest))]
fn longest(round: u8) -> u32
    ensures value { result ≡ longest round }
    ensures some { 1 ≤ result }
    ensures most { result ≤ LONGEST_WAIT }
{
    1 << round.min(MOST_DOUBLINGS)
}
