/// What stands last in the line of a letter.
#[derive(Clone, Copy, PartialEq, Eq)]
pub enum LastWord {
    /// The SHA-256 digest of all its bytes.
    Digest,
    /// All its bytes.
    Bytes,
}
