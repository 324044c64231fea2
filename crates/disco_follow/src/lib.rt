//! The command `follow`: a certified client, which writes what changes in its copy of a server's
//! registry: a line for each new copy, for the instances of a vip that are up, and for each refusal.
//! [`connect`] and [`fetcher`] make the connections of clients.
#![tactic(auto)]

mod change;
mod changes;
mod connection;
mod equality;
mod follow_command;
mod line;
mod lines;
mod names;
mod objects;
mod pace;
mod plan;
mod refreshes;
mod reply_source;
mod tell;
mod texts;
mod told;
mod wanted;

pub use connection::{Connected, connect, fetcher};
pub use equality::are_same;
pub use follow_command::follow;
pub use refreshes::follow_client;
pub use wanted::Wanted;
