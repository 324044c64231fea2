//! The cache key of a document.
ghost use Rattle.std.specs.Prelude.{◌≡◌};
ghost use Rattle.disco_values.specs.Keys.{doc_cmp};

use crate::form::Form;
use crate::query::Query;
use std::alloc::AllocError;
use std::cmp::Ordering;

/// The cache key of a document: what is asked for, and in which form.
#[derive(Debug, Drop, PartialEq, Eq, PartialOrd, Ord)]
pub struct DocKey {
    pub query: Query,
    pub form: Form,
}

impl DocKey {
    /// The order of the two: by kind (apps, delta, app, vip, secure vip, instance), then by name in
    /// byte order, then the full form before the compact one.
    pub fn compare(&self, other: &DocKey) -> Ordering
        ensures { result ≡ doc_cmp self.now other.now }
    {
        self.cmp(other)
    }
}

impl Clone for DocKey {
    ghost is_clone = { λ s t. t ≡ s };

    fn clone(&self) -> Result<DocKey, AllocError> {
        Ok(DocKey {
            query: self.query.clone()?,
            form: self.form,
        })
    }
}
