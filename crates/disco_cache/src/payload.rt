//! A document as it is served.
ghost use Rattle.std.specs.Prelude.{◌≡◌};

use disco_values::{Bytes, Cert, DocKey};

/// A document as it is served.
#[derive(Debug, Drop)]
pub struct Payload {
    pub key: DocKey,
    /// The run of the server that built it.
    pub run: u64,
    /// The version that the document starts from: that of `version`, but for a delta.
    pub base: u64,
    /// The version at which the document was built.
    pub version: u64,
    /// Compact JSON (RFC 8259).
    pub text: Bytes,
}

impl Payload {
    ghost use Rattle.disco_cache.specs.Payloads.{cert_of};

    /// Its certificate (this project's own rule): its run and its two versions.
    pub fn cert(&self) -> Cert
        ensures { result ≡ cert_of self.now }
    {
        Cert {
            run: self.run,
            base: self.base,
            version: self.version,
        }
    }
}
