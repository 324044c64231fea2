//! The result of a refresh.

/// The result of a refresh.
#[derive(Clone, Copy, Debug, PartialEq, Eq)]
pub enum Refreshed {
    /// A full document is the copy.
    Full,
    /// A delta was overlaid.
    Delta,
    /// A delta was fetched, which a plain client overlaid, and then a full document took the place
    /// of the copy.
    DeltaThenFull,
    /// A certified client's copy is as it was: the full document is older, and of its run.
    Kept,
}
