//! The history of a registry, and the definitions that every layer above uses.
//!
//! A history is the list of the changes that were accepted. Version v of the registry is what the first
//! v of them leave. No code keeps a whole history: only contracts speak of it.
#![tactic(auto)]

mod change;
mod held;
pub mod laws;
mod list;

pub use change::{Change, last_of};
pub use held::Held;
pub use list::RecordList;
