ghost use Rattle.std.specs.Prelude.{◌≡◌, ◌≤◌, ◌↔◌, Ok, Err, IsOk, IfOk, IfErr};
ghost use Rattle.qu_base.specs.Bounds.{replicas, is_replica_count, quorum, repair, AreThresholds};

use super::{MOST_FAULTS, REPLICA_IDS};
use std::marker::Model;

/// Why a number of faulty replicas is refused.
#[derive(Clone, Copy, Debug, PartialEq, Eq)]
pub enum BadBounds {
    /// Number 1: it is not from 1 to `MOST_FAULTS`.
    OutOfRange(u8),
}

/// How many replicas there are, and how many of them answer, where up to `b` of them may lie.
///
/// Contracts see the number `b`. What a proof may use of the sizes is the clause `thresholds`.
#[derive(Clone, Copy, Debug, PartialEq, Eq)]
pub struct Bounds {
    faults: u8,
}

impl Model for Bounds {
    ghost use Rattle.std.specs.Prelude.{ℕ, ◌≤◌};
    ghost use Rattle.qu_base.specs.declared.limits.TheConstants.{MOST_FAULTS};

    ghost Value = { ℕ };

    ghost view = { λ bounds. bounds.faults };

    ghost invariant = { λ bounds. (1 ≤ bounds.faults) × (bounds.faults ≤ MOST_FAULTS) };

    ghost inverse = { λ b. record { faults = b } };
}

impl Bounds {
    /// The bounds for `b` lying replicas, from 1 to `MOST_FAULTS`.
    pub fn new(b: u8) -> Result<Bounds, BadBounds>
        ensures accepted { IsOk result ↔ ((1 ≤ b) × (b ≤ MOST_FAULTS)) }
        ensures value { IfOk result (λ bounds. bounds ≡ b) }
        ensures refused { IfErr result (λ bad. bad ≡ BadBounds.OutOfRange b) }
    {
        match b {
            1..=MOST_FAULTS => Ok(Bounds { faults: b }),
            _ => Err(BadBounds::OutOfRange(b)),
        }
    }

    /// How many replicas may lie.
    pub fn b(&self) -> u8
        ensures value { result ≡ self.now }
        ensures in_range { (1 ≤ result) × (result ≤ MOST_FAULTS) }
        ensures thresholds { AreThresholds self.now }
    {
        self.faults
    }

    /// How many replicas there are.
    pub fn n(&self) -> u8
        ensures value { result ≡ replicas self.now }
        ensures most { result ≤ REPLICA_IDS }
        ensures thresholds { AreThresholds self.now }
    {
        replicas_for(self.faults)
    }

    /// How many replicas make a quorum.
    #[tactic(auto, unfolding(crate::specs::Bounds::quorum))]
    pub fn q(&self) -> u8
        ensures value { result ≡ quorum self.now }
        ensures thresholds { AreThresholds self.now }
    {
        4 * self.faults + 1
    }

    /// How many replicas have to show a candidate before it may be repaired.
    #[tactic(auto, using(crate::proofs::ThresholdFacts::are_thresholds), unfolding(crate::specs::Bounds::repair))]
    pub fn r(&self) -> u8
        ensures value { result ≡ repair self.now }
        ensures thresholds { AreThresholds self.now }
    {
        2 * self.faults + 1
    }
}

/// How many replicas there are, where so many may lie.
#[tactic(auto, unfolding(crate::specs::Bounds::replicas))]
fn replicas_for(faults: u8) -> u8
    requires { faults ≤ MOST_FAULTS }
    ensures value { result ≡ replicas faults }
    ensures most { result ≤ REPLICA_IDS }
{
    5 * faults + 1
}

/// Whether so many replicas are those of some number of faults.
#[tactic(auto, unfolding(crate::specs::Bounds::is_replica_count))]
pub fn is_replica_count(count: u8) -> bool
    ensures { result ≡ is_replica_count count }
{
    count == replicas_for(1) || count == replicas_for(2) || count == replicas_for(3)
}
