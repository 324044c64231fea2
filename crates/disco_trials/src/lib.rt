//! What the programs of trials share: where two texts or two outcomes differ, how the result of a trial
//! is printed, and a clock.
#![tactic(auto)]

mod differing;
mod outcome;
mod printing;
mod ticks;

pub use differing::difference;
pub use outcome::{Difference, Outcome};
pub use printing::{compared, is_told, told};
pub use ticks::Ticks;
