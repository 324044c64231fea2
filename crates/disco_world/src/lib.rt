//! Runs lists of events over one registry, and answers each event.
//!
//! The contract of [`run`] is the library's main theorem: every served document is the registry at one
//! version, restricted to what was asked for. For a load it is that of the moment, for a look one since
//! the last published round began. A certified client's copy is exactly the registry of a run at a
//! version.
#![tactic(auto)]

mod asks;
mod certified;
mod clients;
mod event;
mod instance_summary;
mod levels;
mod loads;
mod restarts;
mod rounds;
mod runs;

pub use event::{Event, Reply, Step};
pub use instance_summary::{InstanceSummaries, InstanceSummary};
pub use runs::run;
