//! The clock of a running server.
ghost use Rattle.std.specs.Prelude.{◌≡◌, ◌≤◌, IfOk};
ghost use Rattle.core.specs.Duration.{as_nanos};
ghost use Rattle.disco_server.specs.Moments.{moment_of};

use crate::clock::Clock;
use std::time::Duration;
use std::{io, rt};

/// A clock in whole milliseconds since the Unix epoch: the host's time at the start, and what the host's
/// monotonic clock has gone on since. So a host's time that is put back or forward later changes
/// nothing. The moments of one copy don't fall: where the monotonic clock can't be read, it says its
/// last moment once more. Copies have one start.
#[derive(Clone, Copy, Debug)]
pub struct SystemClock<R> {
    host: R,
    /// The moment of the start.
    start: u64,
    /// What the monotonic clock said at the start.
    begun: Duration,
    /// The moment that was said last.
    last: u64,
}

/// The whole milliseconds of a time, up to 2^64 - 1.
fn moment_of(time: Duration) -> u64
    ensures { result ≡ moment_of (as_nanos time) }
{
    u64::try_from(time.as_millis()).unwrap_or(u64::MAX)
}

impl<R> SystemClock<R> {
    /// A clock that starts at a time since the Unix epoch.
    fn starting(host: R, time: Duration, begun: Duration) -> SystemClock<R>
        ensures start { result.start ≡ moment_of (as_nanos time) }
        ensures last { result.last ≡ result.start }
    {
        let start = moment_of(time);
        SystemClock {
            host,
            start,
            begun,
            last: start,
        }
    }
}

impl<R: rt::Clock> SystemClock<R> {
    /// A clock that starts now; at moment 0 where the host can't say which time it is.
    pub fn new(host: R) -> SystemClock<R>
        ensures { result.last ≡ result.start }
    {
        let time = host.since_1970().unwrap_or(Duration::ZERO);
        let begun = host.monotonic().unwrap_or(Duration::ZERO);
        SystemClock::starting(host, time, begun)
    }

    /// A clock that starts now.
    ///
    /// # Errors
    ///
    /// What the host says where a clock of it can't be read.
    pub fn started(host: R) -> io::Result<SystemClock<R>>
    where
        R: Drop,
        ensures { IfOk result (λ clock. clock.last ≡ clock.start) }
    {
        let time = host.since_1970()?;
        let begun = host.monotonic()?;
        Ok(SystemClock::starting(host, time, begun))
    }

    /// How long ago the start was.
    fn since_start(&self) -> Duration {
        match self.host.monotonic() {
            Ok(now) => now.saturating_sub(self.begun),
            Err(_) => Duration::ZERO,
        }
    }
}

impl<R: rt::Clock> Clock for SystemClock<R> {
    ghost ticks = { λ old now new. (old.last ≤ now) × ((new.last ≡ now) × (new.start ≡ old.start)) };

    fn now(&mut self) -> u64 {
        let moment = self.start.saturating_add(moment_of(self.since_start()));
        self.last = self.last.max(moment);
        self.last
    }
}
