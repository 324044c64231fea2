//! The recently changed queue: the last changes of a registry, with the moments at which they came.
//!
//! Changes come at the back and leave at the front, so what is kept is the history from some change
//! on. How many changes came before is the base; base and kept changes together give the version.
#![tactic(auto)]

mod kept;
mod latest;
pub mod laws;
mod numbers;
mod queue;

pub use latest::Latest;
pub use queue::ChangedQueue;
