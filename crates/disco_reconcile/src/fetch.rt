//! The interface by which a client fetches documents.
ghost use Rattle.std.specs.Prelude.{◌≡◌, ◌≤◌, ◌⊎◌, ℕ, Result};
ghost use Rattle.disco_values.specs.declared.fault.Fault.{Fault};
ghost use Rattle.disco_values.specs.declared.query.Query.TheVariants.{Apps, Delta};
ghost use Rattle.disco_values.specs.declared.doc_key.DocKey.{DocKey};
ghost use Rattle.disco_http.specs.Causes.{Raises};
ghost use Rattle.disco_reconcile.specs.Failures.{IsFailure};
ghost use Rattle.disco_reconcile.specs.declared.fetch.Fetched.{Fetched};

use disco_values::{Bytes, Cert, DocKey, Fault};

/// The answer to a request for a document.
#[derive(Debug, Drop)]
pub struct Fetched {
    /// The status code (RFC 9110).
    pub status: u16,
    pub body: Bytes,
    /// The certificate of the document, where there is one.
    pub cert: Option<Cert>,
}

/// Fetches documents from a registry server.
pub trait Fetch {
    // In the first state it may answer so to a fetch of the document, and is then in the second state.
    ghost gives: { Self → DocKey → Result Fetched Fault → Self → Type 0 };

    // How often a fetch has failed.
    ghost failed: { Self → ℕ };

    /// Asks for all apps or for the delta.
    ///
    /// # Errors
    ///
    /// A fault where the fetch fails. Any but `OutOfMemory` raises the count of failures, or finds
    /// it at 2^64 - 1.
    fn fetch(&mut self, key: &DocKey) -> Result<Fetched, Fault>
        requires { (key.now.query ≡ Apps) ⊎ (key.now.query ≡ Delta) }
        ensures answer { gives self.old key.now result self.new }
        ensures count { failed self.old ≤ failed self.new }
        ensures cause { IsFailure result → Raises (failed self.old) (failed self.new) };

    /// How often a fetch has failed.
    fn failures(&self) -> u64
        ensures { result ≡ failed self.now };
}
