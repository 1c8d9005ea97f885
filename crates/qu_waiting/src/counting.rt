/// Whether a version that a replica sends counts as its answer to a fetch.
#[derive(Clone, Copy, PartialEq, Eq)]
pub enum Counting {
    /// No fetch of the version runs.
    NotFetched,
    /// The version is of another kind than the object.
    OtherKind,
    /// The replica answered before.
    Twice,
    /// It counts, and more identical ones are needed.
    Counted,
    /// It counts, and is the last of the identical ones that are needed.
    Found,
}
