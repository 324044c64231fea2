//! Writes the documents that queries ask for.
//!
//! A written document is the compact text of a JSON tree, and means what its definition says. It is
//! joined from the texts of its instances, which are kept.
#![tactic(auto)]

mod delta;
mod document;
mod groups;
mod in_order;
mod instance;
mod join;
mod many;
mod members;
mod named;
mod piece;
mod places;
mod plain_text;
mod room;
mod selected;
mod text_buffer;
mod texts;

pub use disco_values::Query;
pub use document::{write_document, write_full};
pub use instance::{text_full, write_text, write_texts};
pub use room::{Room, room_for};
pub use texts::Texts;
