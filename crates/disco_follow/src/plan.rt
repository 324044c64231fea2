//! The options of `follow`.
use crate::wanted::Wanted;
use disco_values::{Form, Text};

/// The options of `follow`: the server, what is written, and how often the client refreshes.
#[derive(Debug, Drop)]
pub(crate) struct Plan {
    /// The server's host, by name or address, and its port: `HOST:PORT`.
    pub(crate) address: Text,
    /// What is written, and how.
    pub(crate) wanted: Wanted,
    /// The form of the documents that are fetched.
    pub(crate) form: Form,
    /// The pause between two refreshes, in milliseconds.
    pub(crate) pause: u64,
    /// How many refreshes are made; 0 is no end.
    pub(crate) times: u64,
}
