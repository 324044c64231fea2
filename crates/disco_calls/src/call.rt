//! Calls: what a request asks for.

use disco_message::Allow;
use disco_registry::Op;
use disco_values::{DocKey, Form, Key, Text};

/// A call: what a request asks for.
#[derive(Debug, Drop)]
pub enum Call {
    /// The document of a query, which readers may share.
    Load(DocKey),
    /// The document of one instance.
    Instance(Key, Form),
    /// The document of the instance of an id, of whichever app.
    ById(Text, Form),
    /// An operation on the registry.
    Write(Op),
    /// Nothing: the path has these methods, and not that of the request.
    Lacks(Allow),
}
