//! What the program `discovery` does: [`run`] runs the command that its words name. [`replay`] answers
//! the events of an input on an empty registry, [`serve`] serves connections, [`follow`] writes what
//! changes in a server's registry, [`fleet`] shows writers, a server and clients at work, and
//! [`settings_of`] reads the options of a command.
#![tactic(auto)]

mod fleets;
mod program;
mod replay_command;
mod serve_command;
mod service;

pub use disco_follow::follow;
pub use disco_options::settings_of;
pub use disco_press::Opening;
pub use fleets::{fleet, lines_of};
pub use program::run;
pub use replay_command::replay;
pub use serve_command::{serve, serve_by};
