//! The command line: reads the words of a command, and answers words that are refused or ask for help.
//! [`settings_of`] reads the options of a command.
#![tactic(auto)]

mod commands;
mod faults;
mod limits;
mod options;
mod settings;
mod subcommand;

pub use commands::read_words;
pub use faults::{refused, report, report_address, without_words};
pub use limits::{MOST_OPEN, MOST_PORT, MOST_THREADS, MOST_WORKERS, OPEN, PAUSE, WORKERS};
pub use options::{count, flag_given, number_given, text_given};
pub use settings::{read_settings, settings_from, settings_of};
pub use subcommand::Subcommand;
