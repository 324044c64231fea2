//! The details of an instance: the parts of a record that own memory, but for its key.
ghost use Rattle.std.specs.Prelude.{◌≡◌, IfOk, IfErr};
ghost use Rattle.disco_values.specs.Entries.{with_entries};
ghost use Rattle.disco_values.specs.declared.fault.Fault.TheVariants.{OutOfMemory};

use crate::data_center::DataCenter;
use disco_values::{Entries, Fault, Text};
use std::alloc::AllocError;

/// The parts of a record that own memory, but for its key: data centre, pages, addresses and metadata.
/// Records that differ only in status, lease or moments share them.
#[derive(Debug, Drop)]
pub struct Details {
    pub data_center: DataCenter,
    pub health_check_url: Text,
    pub home_page_url: Text,
    pub status_page_url: Text,
    pub host_name: Text,
    pub ip_addr: Text,
    pub metadata: Entries,
    /// Vips separated by commas.
    pub secure_vip_address: Text,
    /// Vips separated by commas.
    pub vip_address: Text,
}

impl Clone for Details {
    ghost is_clone = { λ s t. t ≡ s };

    fn clone(&self) -> Result<Details, AllocError> {
        Ok(Details {
            data_center: self.data_center.clone()?,
            health_check_url: self.health_check_url.clone()?,
            home_page_url: self.home_page_url.clone()?,
            status_page_url: self.status_page_url.clone()?,
            host_name: self.host_name.clone()?,
            ip_addr: self.ip_addr.clone()?,
            metadata: self.metadata.copy()?,
            secure_vip_address: self.secure_vip_address.clone()?,
            vip_address: self.vip_address.clone()?,
        })
    }
}

impl Details {
    /// The same details with these entries put into their metadata.
    ///
    /// # Errors
    ///
    /// `OutOfMemory` alone.
    pub(crate) fn with_entries(&self, entries: &Entries) -> Result<Details, Fault>
        ensures details_are { IfOk result (λ d. d ≡ record self.now { metadata = with_entries self.now.metadata entries.now }) }
        ensures memory { IfErr result (λ e. e ≡ OutOfMemory) }
    {
        let mut new = self.clone()?;
        new.metadata.put_all(entries)?;
        Ok(new)
    }
}
