//! A desk, which publishes editions under a lock, and seats, which read them without one. Beside each
//! edition is its press list, which exists in proofs alone.
#![tactic(auto)]

mod desk;
mod entry;
mod heard;
mod log;
mod look;
mod monotone_list;
mod opening;
mod published_log;
mod reserve;
mod rounds;
mod seat;
mod seats;
mod seen;
mod snapshot;
mod snapshot_reader;
mod snapshot_writer;
mod writes;

pub use desk::Desk;
pub use disco_cache::Edition;
pub use disco_hub::Room;
pub use look::Looked;
pub use opening::Opening;
pub use published_log::Naming;
pub use seat::Seat;
pub use seats::open;
pub use seen::Seen;
