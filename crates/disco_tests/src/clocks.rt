//! A host whose time is put back and far forward.
use disco_server::{Clock, SystemClock};
use disco_values::Fault;
use std::cell::Cell;
use std::time::Duration;
use std::{io, rt};

/// What the clock has to say at the start, and a second after each change of the host's time.
pub(crate) const WANTED: [u64; 4] = [5_000_000, 5_001_000, 5_002_000, 5_003_000];

/// A host whose clocks say what they are told, in milliseconds.
#[derive(Debug, Drop)]
struct Host {
    since_1970: Cell<u64>,
    monotonic: Cell<u64>,
}

impl rt::Clock for Host {
    fn monotonic(&self) -> io::Result<Duration> {
        Ok(Duration::from_millis(self.monotonic.get()))
    }

    fn since_1970(&self) -> io::Result<Duration> {
        Ok(Duration::from_millis(self.since_1970.get()))
    }
}

/// What a clock says at its start, where the host's time is an hour back a second later, where it is
/// centuries ahead one more second later, and where it is as at the start after a third.
pub(crate) fn moments() -> Result<[u64; 4], Fault> {
    let host = Host {
        since_1970: Cell::new(5_000_000),
        monotonic: Cell::new(70_000),
    };
    let mut clock = SystemClock::new(&host);
    let mut said = [clock.now(); 4];
    for (i, time) in [1_400_000, 9_000_000_000_000, 5_000_000].iter().enumerate() {
        host.since_1970.set(*time);
        host.monotonic.set(71_000 + 1_000 * i as u64);
        said[i + 1] = clock.now();
    }
    Ok(said)
}
