ghost use Rattle.std.specs.Prelude.{◌≡◌};

/// Clients are numbered from 1 to this.
pub const LAST_CLIENT: u16 = 64;

/// Objects are numbered from 0 to below this.
pub const OBJECT_IDS: u16 = 64;

/// Replicas are numbered from 0 to below this.
pub const REPLICA_IDS: u8 = 16;

/// The most replicas that may lie.
pub const MOST_FAULTS: u8 = 3;

/// The most bytes of a content.
pub const CONTENT_LIMIT: u16 = 4096;

/// The most bytes of a name.
pub const NAME_LIMIT: u8 = 255;

/// The most entries of a listing.
pub const ENTRIES_LIMIT: u16 = 256;

/// The limits of this crate, by their numbers.
pub fn limits_are_these()
    ensures last_client { LAST_CLIENT ≡ 64 }
    ensures object_ids { OBJECT_IDS ≡ 64 }
    ensures replica_ids { REPLICA_IDS ≡ 16 }
    ensures most_faults { MOST_FAULTS ≡ 3 }
    ensures content_limit { CONTENT_LIMIT ≡ 4096 }
    ensures name_limit { NAME_LIMIT ≡ 255 }
    ensures entries_limit { ENTRIES_LIMIT ≡ 256 }
{}
