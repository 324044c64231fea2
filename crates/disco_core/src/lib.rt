//! The registry with all that follows its changes: counts, vips, leases, texts and recent changes.
#![tactic(auto)]

mod counts;
mod leases;
mod recent;
mod state;
mod texts;
mod vips;

pub use disco_writer::Room;
pub use state::{Core, Ready};
