ghost use Rattle.std.specs.Prelude.{◌≡◌};

/// The most parts of an operation, and so the most of which an answer or a verdict tells.
pub const MOST_PARTS: u8 = 4;

/// The last code of a method.
pub const LAST_METHOD: u8 = 6;

/// The last code of an ask.
pub const LAST_ASK: u8 = 4;

/// The last code of an item.
pub const LAST_ITEM: u8 = 3;

/// The last code of a kind of objects.
pub const LAST_KIND: u8 = 3;

/// The most clients of which a state keeps something.
pub const KEPT_LIMIT: u8 = 64;

/// The most objects to which a state has a link.
pub const LINKS_LIMIT: u8 = 64;

/// The limits of this crate, by their numbers.
pub fn limits_are_these()
    ensures most_parts { MOST_PARTS ≡ 4 }
    ensures last_method { LAST_METHOD ≡ 6 }
    ensures last_ask { LAST_ASK ≡ 4 }
    ensures last_item { LAST_ITEM ≡ 3 }
    ensures last_kind { LAST_KIND ≡ 3 }
    ensures kept_limit { KEPT_LIMIT ≡ 64 }
    ensures links_limit { LINKS_LIMIT ≡ 64 }
{}
