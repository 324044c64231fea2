//! The result of an overlay.

/// The result of the overlay of a delta.
#[derive(Clone, Copy, Debug, PartialEq, Eq)]
pub struct Overlaid {
    /// Whether the document has a hash code and it is that of the new copy. If not, Eureka's client
    /// asks for a full document.
    pub hash_equal: bool,
}
