//! Certificates of documents.

/// The certificate of a document (this project's own rule): the run that served it, the version that it
/// starts from, and the version at which it was built.
#[derive(Clone, Copy, Debug, PartialEq, Eq)]
pub struct Cert {
    pub run: u64,
    pub base: u64,
    pub version: u64,
}
