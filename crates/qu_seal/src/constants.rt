ghost use Rattle.std.specs.Prelude.{◌≡◌};

/// The tag under which an act is digested.
pub const ACT_TAG: u8 = 1;

/// The tag under which the sets of a request are digested.
pub const SETS_TAG: u8 = 2;

/// The tag under which a history is digested for its HMACs.
pub const HISTORY_TAG: u8 = 3;

/// The tag under which the bytes of a frame before its HMAC are digested.
pub const FRAME_TAG: u8 = 4;

/// The bytes of a block of SHA-256, and so of the key of an HMAC.
pub const BLOCK: usize = 64;

/// The byte that RFC 2104 calls ipad, with which the inner hash begins.
pub const IPAD: u8 = 0x36;

/// The byte that RFC 2104 calls opad, with which the outer hash begins.
pub const OPAD: u8 = 0x5c;

/// The constants of this crate, by their numbers: no two tags are one.
pub fn constants_are_these()
    ensures act_tag { ACT_TAG ≡ 1 }
    ensures sets_tag { SETS_TAG ≡ 2 }
    ensures history_tag { HISTORY_TAG ≡ 3 }
    ensures frame_tag { FRAME_TAG ≡ 4 }
    ensures block { BLOCK ≡ 64 }
    ensures ipad { IPAD ≡ 54 }
    ensures opad { OPAD ≡ 92 }
{}
