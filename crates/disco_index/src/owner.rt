//! Owners of places: instances, each with one of its addresses.
ghost use Rattle.std.specs.Prelude.{◌≡◌, IfOk, IfSome};

use disco_values::{Key, Text};
use std::alloc::{AllocError, Global};
use std::marker::Model;
use std::sync::Arc;

/// An instance with one of its addresses.
#[derive(Drop)]
pub(crate) struct Owner {
    address: Text,
    key: Key,
}

/// An instance with one of its addresses, shared by the places under the vips of that address. Vips and
/// secure vips of equal addresses have one owner.
#[derive(Drop)]
pub(crate) struct SharedOwner {
    owner: Arc<Owner, Global>,
}

impl Model for SharedOwner {
    ghost use Rattle.disco_index.specs.declared.owner.Owner.{Owner};

    ghost Value = { Owner };

    ghost view = { λ s. s.owner.value };
}

impl SharedOwner {
    /// An owner, to be shared. A long address shares its text with the one that is given.
    pub(crate) fn new(alloc: Global, address: &Text, key: &Key) -> Result<SharedOwner, AllocError>
        ensures address { IfOk result (λ s. s.address ≡ address.now) }
        ensures key { IfOk result (λ s. s.key ≡ key.now) }
    {
        let owner = Owner {
            address: address.clone()?,
            key: key.clone()?,
        };
        Ok(SharedOwner {
            owner: Arc::new(alloc, owner)?,
        })
    }

    /// The other owner where it has this address, else a new one.
    pub(crate) fn with_address(
        alloc: Global,
        address: &Text,
        key: &Key,
        other: Option<SharedOwner>,
    ) -> Result<SharedOwner, AllocError>
        requires { IfSome other (λ o. o.key ≡ key.now) }
        ensures address { IfOk result (λ s. s.address ≡ address.now) }
        ensures key { IfOk result (λ s. s.key ≡ key.now) }
    {
        if let Some(other) = other {
            if other.address() == address.as_str() {
                return Ok(other);
            }
        }
        SharedOwner::new(alloc, address, key)
    }

    /// The same owner for one more place. Nothing of it is copied.
    pub(crate) fn share(&self) -> Result<SharedOwner, AllocError>
        ensures { IfOk result (λ s. s ≡ self.now) }
    {
        Ok(SharedOwner {
            owner: Arc::try_clone(&self.owner)?,
        })
    }

    pub(crate) fn address(&self) -> &str
        ensures { result.now ≡ self.now.address }
    {
        self.owner.address.as_str()
    }

    pub(crate) fn key(&self) -> &Key
        ensures { result.now ≡ self.now.key }
    {
        &self.owner.key
    }
}
