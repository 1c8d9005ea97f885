ghost use Rattle.std.specs.Prelude.{◌≡◌};
ghost use Rattle.qu_frames.specs.Blank.{blank_mac};

/// The HMAC of a frame before its own is made: 32 zero bytes.
#[tactic(auto, unfolding(crate::specs::Blank::blank_mac))]
pub const fn blank_mac() -> [u8; 32]
    ensures { result ≡ blank_mac }
{
    [0; 32]
}
