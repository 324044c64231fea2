//! The registry: what is held, and what each operation does to it.
//!
//! The rules are those of Eureka's REST operations. A [`Registry`] stands for every history whose
//! records it holds and whose length is its version.
#![tactic(auto)]

mod op;
mod records;
mod registry;
mod settle;

pub use op::{Applied, Op};
pub use registry::{Ready, Registry};
