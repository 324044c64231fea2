//! How many instances have each status, the hash code that these numbers give, and which
//! instances have a vip or a secure vip.
#![tactic(auto)]

mod address;
mod behind;
mod chunk;
mod chunks;
mod counts;
mod owner;
mod piece;
mod pieces;
mod place;
mod vip_places;
mod vips;

pub use address::next_vip;
pub use counts::Counts;
pub use vips::VipIndex;
