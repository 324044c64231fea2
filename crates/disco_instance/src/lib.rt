//! What the registry keeps of an instance, and how it is read from JSON.
//!
//! The members, their ranges and their defaults are those of an instance in Eureka's REST
//! operations. The values that it is made of are those of `disco_values`.
#![tactic(auto)]

mod data_center;
mod details;
mod from_value;
mod known;
mod lease;
mod members;
mod metadata;
mod names;
mod parts;
mod port;
mod record;
mod shared_details;

pub use data_center::DataCenter;
pub use details::Details;
pub use disco_values::{
    Action, Bytes, Cert, Entries, Fault, Field, Form, Key, Status, Text, status_of, upper,
};
pub use from_value::action_from_value;
pub use known::well_formed;
pub use lease::Lease;
pub use members::{non_empty_member, text_member, whole};
pub use port::Port;
pub use record::Record;
pub use shared_details::SharedDetails;
