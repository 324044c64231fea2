//! A client's copy of a registry.
//!
//! A full document replaces the copy, and a delta is overlaid on it. What the copy holds after each
//! depends on the document and the copy before it alone, whoever wrote the document. A `CertifiedCopy`
//! takes only documents after which its run and version are known.
#![tactic(auto)]

mod certified;
mod copy;
mod counted;
mod known;
mod overlaid;
mod taken;
mod vip;

pub use certified::CertifiedCopy;
pub use copy::Copy;
pub use known::Known;
pub use overlaid::Overlaid;
