//! Leases: how long each instance may go without a renewal.
//!
//! A lease has a duration and a mark, the moment from which the duration runs. A lease that isn't
//! renewed in time runs out, and a run of expiry takes it. Runs take none where too few renewals came
//! from all instances in the last minute.
#![tactic(auto)]

mod book;
mod lease;
mod minute;
mod overdue;
mod places;

pub use book::LeaseBook;
pub use minute::Minute;
