//! A client that keeps a copy of a registry by fetching documents.
//!
//! It knows neither server nor connection: a `Fetch` says by a relation of its own what a fetch may
//! answer, and what the client makes of the answers is a function of them. `HttpFetch` fetches over
//! one connection. A plain client goes by hash codes, as Eureka's, and a certified one by the
//! certificates of the documents alone.
#![tactic(auto)]

mod certified;
mod client;
mod document;
mod fetch;
mod http_fetch;
mod kept;
mod laws;
mod plain;
mod refreshed;

pub use client::Client;
pub use fetch::{Fetch, Fetched};
pub use http_fetch::HttpFetch;
pub use laws::{growth_law, served_law};
pub use refreshed::Refreshed;
