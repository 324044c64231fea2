//! The data centre of an instance.
ghost use Rattle.std.specs.Prelude.{◌≡◌};

use disco_values::Text;
use std::alloc::AllocError;

/// The data centre of an instance: the member `dataCenterInfo`.
#[derive(Debug, Drop)]
pub struct DataCenter {
    /// The member `@class`.
    pub class: Text,
    pub name: Text,
}

impl Clone for DataCenter {
    ghost is_clone = { λ s t. t ≡ s };

    fn clone(&self) -> Result<DataCenter, AllocError> {
        Ok(DataCenter {
            class: self.class.clone()?,
            name: self.name.clone()?,
        })
    }
}
