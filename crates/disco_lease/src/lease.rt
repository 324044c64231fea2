//! A lease.
ghost use Rattle.std.specs.Prelude.{◌≡◌, ◌*◌, ◌<◌, ◌^◌};
ghost use Rattle.disco_lease.specs.Due.{due_moment};
ghost use Rattle.disco_lease.specs.Leases.{extended, marked};

/// A lease: how many seconds it lasts, and its mark, which is a moment in milliseconds or one duration
/// after it. The mark isn't kept as one number, since it may not fit 64 bits.
#[derive(Clone, Copy, Debug)]
pub(crate) struct Lease {
    duration_secs: u32,
    /// Whether the mark is one duration after the moment.
    is_extended: bool,
    moment: u64,
}

impl Lease {
    ghost use Rattle.disco_lease.specs.Seen.{plain_lease};

    /// The lease of an instance that registers.
    pub(crate) fn marked(duration_secs: u32, now: u64) -> Lease
        ensures { plain_lease result ≡ marked duration_secs now }
    {
        Lease {
            duration_secs,
            is_extended: false,
            moment: now,
        }
    }

    /// How long it lasts, in milliseconds.
    fn duration(self) -> u128
        ensures duration { result ≡ self.duration_secs * 1000 }
        ensures small { result < 2 ^ 42 }
    {
        u128::from(self.duration_secs) * 1000
    }

    /// Its mark, in milliseconds.
    fn mark(self) -> u128
        ensures mark { result ≡ (plain_lease self).mark }
        ensures small { result < 2 ^ 65 }
    {
        if self.is_extended {
            u128::from(self.moment) + self.duration()
        } else {
            u128::from(self.moment)
        }
    }

    /// The lease with its mark one duration from now. It lasts two durations then, as Eureka's do.
    pub(crate) fn extended(self, now: u64) -> Lease
        ensures { plain_lease result ≡ extended now (plain_lease self) }
    {
        Lease {
            duration_secs: self.duration_secs,
            is_extended: true,
            moment: now,
        }
    }

    /// When the lease runs out, in milliseconds.
    pub(crate) fn due(self) -> u128
        ensures { result ≡ due_moment (plain_lease self) }
    {
        self.mark() + self.duration()
    }
}
