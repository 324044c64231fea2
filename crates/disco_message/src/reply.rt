//! Replies.
ghost use Rattle.std.specs.Prelude.{◌≡◌, ℕ, List};

use crate::status_line::Allow;
use disco_values::Cert;
use http::StatusCode;

/// The body of a reply: a value that holds bytes. An `Arc` of one is answered without a copy.
pub trait Document {
    // Its bytes.
    ghost content: { Self → List ℕ };

    /// Its bytes.
    fn bytes(&self) -> &[u8]
        ensures { result.now ≡ content self.now };
}

/// A reply: its status, the methods of `Allow` if it has that field, its JSON document, and the
/// document's certificate. A reply of status 204 is written without its document.
#[derive(Debug, Drop)]
pub struct Reply<D> {
    pub status: StatusCode,
    pub allow: Option<Allow>,
    pub document: Option<D>,
    pub cert: Option<Cert>,
}
