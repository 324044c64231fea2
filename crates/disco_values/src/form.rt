//! The two forms of a document.

/// How much of each instance a document says: all members, or those that a caller needs to route.
#[derive(Clone, Copy, Debug, PartialEq, Eq, PartialOrd, Ord)]
pub enum Form {
    Full,
    Compact,
}
