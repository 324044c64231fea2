//! Event lines and answer lines: [`answer_input`] answers the events of an input, one a line, with a
//! line for each.
#![tactic(auto)]

mod answers;
mod find;
mod input;
mod line;
mod lines;
mod load;
mod put;
mod words;

pub use input::answer_input;
