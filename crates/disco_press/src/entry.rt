//! Entries of a press list.
use disco_history::Change;
use disco_hub::Copied;

/// An entry: a note, or that all notes so far are published.
#[derive(Drop)]
pub enum LogEntry {
    /// A round begins.
    Begun,
    /// The registry changes.
    Changed(Change),
    /// A key is copied.
    Copied(Copied),
    /// Readers take the edition of all that was noted from here on.
    Published,
}
