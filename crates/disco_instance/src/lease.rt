//! The lease of an instance.
ghost use Rattle.std.specs.Prelude.{◌≡◌};

/// The lease of an instance: the member `leaseInfo`. Moments are in milliseconds.
#[derive(Clone, Copy, Debug)]
pub struct Lease {
    /// How long a renewal lasts, in seconds: 1 to 2,147,483,647.
    pub duration_secs: u32,
    /// How often the instance means to renew, in seconds: 0 to 2,147,483,647.
    pub renewal_interval_secs: u32,
    /// When the instance was cancelled, 0 while it is there: the member `evictionTimestamp`.
    pub eviction: u64,
    /// When the record was last put: the member `lastRenewalTimestamp`.
    pub last_renewal: u64,
    /// When the instance last registered: the member `registrationTimestamp`.
    pub registration: u64,
    /// Since when the instance is up, 0 for no such moment: the member `serviceUpTimestamp`.
    pub service_up: u64,
}

impl Lease {
    /// The lease of a record that is put at a moment.
    pub(crate) fn put(self, registration: u64, service_up: u64, now: u64) -> Lease
        ensures { result ≡ record self { last_renewal = now; eviction = 0; registration = registration; service_up = service_up } }
    {
        let mut new = self;
        new.last_renewal = now;
        new.eviction = 0;
        new.registration = registration;
        new.service_up = service_up;
        new
    }

    /// The lease of an instance that is cancelled at a moment.
    pub(crate) fn evicted(self, now: u64) -> Lease
        ensures { result ≡ record self { eviction = now } }
    {
        let mut new = self;
        new.eviction = now;
        new
    }
}
