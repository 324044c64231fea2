//! The registry with its response cache: the documents that are kept until a change names them, and the
//! rounds in which a publisher copies documents for readers. Defines the press list too, as plain data:
//! what a publisher and the writers noted.
#![tactic(auto)]

mod cancel;
mod copied;
mod expiry;
mod hub;
mod kept;
mod keys;
mod round;
mod rounds;

pub use cancel::{Cancel, cancel_all};
pub use copied::Copied;
pub use disco_core::{Ready, Room};
pub use disco_values::Settings;
pub use expiry::Expired;
pub use hub::Hub;
