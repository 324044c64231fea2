//! The compact form of records and of documents.
//!
//! It says of each instance what a caller needs to route, and leaves the rest to the defaults.
#![tactic(auto)]

mod document;
mod projection;
mod text;

pub use document::write_compact;
pub use projection::project;
pub use text::text_compact;
