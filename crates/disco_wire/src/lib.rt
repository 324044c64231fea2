//! Reads documents and registrations, and defines what the JSON tree of a document means and when a
//! document is true.
//!
//! What a document means is a function of its JSON tree alone, whoever wrote it.
#![tactic(auto)]

mod document;
pub mod laws;
mod registration;
mod tree;
mod wire;

pub use document::read_document;
pub use registration::read_registration;
pub use wire::{Mention, Mentions, Shape, Wire};
