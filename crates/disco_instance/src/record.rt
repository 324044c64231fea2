//! A record of an instance.
ghost use Rattle.std.specs.Prelude.{◌≡◌, ◌≢◌, ◌<◌, ◌^◌, [], IfOk, IfErr};
ghost use Rattle.disco_instance.specs.Since.{since};
ghost use Rattle.disco_values.specs.Text.{in_upper_case};
ghost use Rattle.disco_values.specs.declared.fault.Fault.TheVariants.{OutOfMemory};

use crate::lease::Lease;
use crate::port::Port;
use crate::shared_details::SharedDetails;
use disco_values::{Entries, Fault, Key, Status};
use std::alloc::Global;

/// What an instance registered, as the registry keeps it. Moments are in milliseconds.
#[derive(Debug, Drop)]
pub struct Record {
    /// The members `app` and `instanceId`.
    pub key: Key,
    /// 0 to 2,147,483,647.
    pub country_id: u32,
    pub details: SharedDetails,
    /// The member `isCoordinatingDiscoveryServer`.
    pub is_coordinating: bool,
    /// When the instance last changed its own record.
    pub last_dirty: u64,
    /// When the registry last put the record.
    pub last_updated: u64,
    pub lease: Lease,
    pub overridden_status: Status,
    pub port: Port,
    pub secure_port: Port,
    pub status: Status,
    pub ghost has_app: { key.app ≢ [] },
    pub ghost has_id: { key.id ≢ [] },
    pub ghost app_in_upper_case: { in_upper_case key.app ≡ key.app },
    pub ghost country_in_range: { country_id < 2 ^ 31 },
    pub ghost lasts: { 0 < lease.duration_secs },
    pub ghost duration_in_range: { lease.duration_secs < 2 ^ 31 },
    pub ghost interval_in_range: { lease.renewal_interval_secs < 2 ^ 31 },
}

impl Record {
    ghost use Rattle.disco_values.specs.Entries.{with_entries};
    ghost use Rattle.disco_instance.specs.Row.{row};
    ghost use Rattle.disco_instance.specs.Moments.{put_at, modified_at, cancelled_at};

    /// A copy of the record. Its key is copied, and its details are shared.
    ///
    /// # Errors
    ///
    /// `OutOfMemory` alone.
    pub fn copy(&self) -> Result<Record, Fault>
        ensures same { IfOk result (λ r. r ≡ self.now) }
        ensures memory { IfErr result (λ e. e ≡ OutOfMemory) }
    {
        let key = self.key.clone()?;
        let details = self.details.share()?;
        Ok(self.made_of(key, details))
    }

    /// The same record, of an equal key and equal details.
    fn made_of(&self, key: Key, details: SharedDetails) -> Record
        requires key { key ≡ self.now.key }
        requires details { details ≡ self.now.details }
        ensures { result ≡ self.now }
    {
        Record {
            key,
            country_id: self.country_id,
            details,
            is_coordinating: self.is_coordinating,
            last_dirty: self.last_dirty,
            last_updated: self.last_updated,
            lease: self.lease,
            overridden_status: self.overridden_status,
            port: self.port,
            secure_port: self.secure_port,
            status: self.status,
        }
    }

    /// The record as a registration at a moment puts it, with the status and the override that
    /// were settled. `held_up` is since when the held record says that the instance is up, 0 for
    /// no such moment.
    pub fn registered(
        self,
        status: Status,
        overridden_status: Status,
        held_up: u64,
        now: u64,
    ) -> Record
        ensures { row result ≡ put_at (row self) status overridden_status now held_up now }
    {
        let mut new = self;
        new.status = status;
        new.overridden_status = overridden_status;
        new.last_updated = now;
        new.lease = new.lease.put(now, up_since(held_up, status, now), now);
        new
    }

    /// The record as a change of its status or its override at a moment puts it.
    pub fn modified(self, status: Status, overridden_status: Status, now: u64) -> Record
        ensures { row result ≡ modified_at (row self) status overridden_status now }
    {
        let mut new = self;
        new.status = status;
        new.overridden_status = overridden_status;
        new.last_updated = now;
        let registration = new.lease.registration;
        let service_up = up_since(new.lease.service_up, status, now);
        new.lease = new.lease.put(registration, service_up, now);
        new
    }

    /// The record with these entries put into its metadata.
    ///
    /// # Errors
    ///
    /// `OutOfMemory` alone.
    pub fn with_entries(self, alloc: Global, entries: &Entries) -> Result<Record, Fault>
        ensures record_is { IfOk result (λ r. row r ≡ record (row self) { metadata = with_entries (row self).metadata entries.now }) }
        ensures memory { IfErr result (λ e. e ≡ OutOfMemory) }
    {
        let details = self.details.with_entries(entries)?;
        let mut new = self;
        new.details = SharedDetails::new(alloc, details)?;
        Ok(new)
    }

    /// The last record of an instance that is cancelled at a moment.
    pub fn cancelled(self, now: u64) -> Record
        ensures { row result ≡ cancelled_at (row self) now }
    {
        let mut new = self;
        new.last_updated = now;
        new.lease = new.lease.evicted(now);
        new
    }
}

fn up_since(held_up: u64, status: Status, now: u64) -> u64
    ensures { result ≡ since held_up status now }
{
    if held_up > 0 {
        held_up
    } else if status.is(Status::Up) {
        now
    } else {
        0
    }
}
