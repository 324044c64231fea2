//! The details of an instance, shared by its records.
ghost use Rattle.std.specs.Prelude.{◌≡◌, IfOk};

use crate::details::Details;
use std::alloc::{AllocError, Global};
use std::marker::Model;
use std::ops::Deref;
use std::sync::Arc;

/// Details that records share. They are dropped with the last record that has them.
#[derive(Debug, Drop)]
pub struct SharedDetails {
    details: Arc<Details, Global>,
}

impl Model for SharedDetails {
    ghost use Rattle.disco_instance.specs.declared.details.Details.{Details};

    ghost Value = { Details };

    ghost view = { λ s. s.details.value };
}

impl SharedDetails {
    /// These details, to be shared.
    ///
    /// # Errors
    ///
    /// `AllocError` where memory is refused.
    pub fn new(alloc: Global, details: Details) -> Result<SharedDetails, AllocError>
        ensures { IfOk result (λ s. s ≡ details) }
    {
        Ok(SharedDetails {
            details: Arc::new(alloc, details)?,
        })
    }

    /// The same details for one more record. Nothing of them is copied.
    ///
    /// # Errors
    ///
    /// `AllocError` where they can have no more records.
    pub(crate) fn share(&self) -> Result<SharedDetails, AllocError>
        ensures { IfOk result (λ s. s ≡ self.now) }
    {
        Ok(SharedDetails {
            details: Arc::try_clone(&self.details)?,
        })
    }
}

impl Deref for SharedDetails {
    type Target = Details;

    ghost deref_gives = { λ s x. x ≡ s };

    fn deref(&self) -> &Details
        ensures { result.now ≡ self.now }
    {
        &self.details
    }
}
