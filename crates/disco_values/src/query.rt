//! Queries: which instances a document is of.
ghost use Rattle.std.specs.Prelude.{◌≡◌};
ghost use Rattle.disco_values.specs.Query.{is_delta};

use crate::key::Key;
use crate::text::Text;
use std::alloc::AllocError;

/// A query: which instances a document is of.
#[derive(Debug, Drop, PartialEq, Eq, PartialOrd, Ord)]
pub enum Query {
    /// All: Eureka's `GET /apps`.
    Apps,
    /// Those that changed: Eureka's `GET /apps/delta`.
    Delta,
    /// Those of an app, by its name in upper case: Eureka's `GET /apps/{app}`.
    App(Text),
    /// Those with a vip: Eureka's `GET /vips/{vip}`.
    Vip(Text),
    /// Those with a secure vip: Eureka's `GET /svips/{svip}`.
    Svip(Text),
    /// The one of a key: Eureka's `GET /apps/{app}/{id}`.
    Instance(Key),
}

impl Query {
    /// Whether it asks for what changed.
    pub fn is_delta(&self) -> bool
        ensures { result ≡ is_delta self.now }
    {
        matches!(self, Query::Delta)
    }
}

impl Clone for Query {
    ghost is_clone = { λ s t. t ≡ s };

    fn clone(&self) -> Result<Query, AllocError> {
        match self {
            Query::Apps => Ok(Query::Apps),
            Query::Delta => Ok(Query::Delta),
            Query::App(name) => Ok(Query::App(name.clone()?)),
            Query::Vip(vip) => Ok(Query::Vip(vip.clone()?)),
            Query::Svip(svip) => Ok(Query::Svip(svip.clone()?)),
            Query::Instance(key) => Ok(Query::Instance(key.clone()?)),
        }
    }
}
