//! The two levels of the response cache: kept documents, and the edition that readers see.
#![tactic(auto)]

mod cache;
mod edition;
mod entry;
mod payload;
mod query_ref;

pub use cache::DocCache;
pub use disco_values::DocKey;
pub use edition::Edition;
pub use payload::Payload;
