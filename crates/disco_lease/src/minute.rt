//! What the closing of a minute keeps.
ghost use Rattle.std.specs.Prelude.{◌≡◌};
ghost use Rattle.disco_lease.specs.Due.{lets_expire, most_taken};
ghost use Rattle.disco_lease.specs.Leases.{no_minute};

/// What the closing of a minute keeps: how many renewals were accepted in it, and how many
/// instances were then held.
#[derive(Clone, Copy, Debug)]
pub struct Minute {
    pub renewals: u64,
    pub instances: u64,
}

impl Minute {
    /// What is kept before the first closing.
    pub(crate) fn none() -> Minute
        ensures { result ≡ no_minute }
    {
        Minute {
            renewals: 0,
            instances: 0,
        }
    }

    /// Whether a run may take leases after this minute (Eureka's self-preservation): more than 85 of
    /// 100 of the renewals that its instances send, at two each, came.
    pub(crate) fn lets_expire(self) -> bool
        ensures { result ≡ lets_expire self }
    {
        let needed = u128::from(self.instances) * 2 * 85 / 100;
        0 < needed && needed < u128::from(self.renewals)
    }
}

/// How many of so many instances one run takes at most.
pub(crate) fn most_taken(held: u64) -> u64
    ensures { result ≡ most_taken held }
{
    let stay = u128::from(held) * 85 / 100;
    held - stay as u64
}
