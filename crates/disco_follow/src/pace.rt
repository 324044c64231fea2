//! How long a reply may take.
ghost use Rattle.std.specs.Prelude.{◌≡◌, ◌+◌, ◌/◌};

use std::cell::Cell;
use std::rt::Clock;
use std::time::{Duration, Instant};

/// How long a reply may take of which nothing came, in seconds.
const PATIENCE: u64 = 30;

/// For how many bytes that came a reply may take a second longer.
const BYTES_A_SECOND: u64 = 65_536;

/// How long a reply may take of which so many bytes came, in seconds.
fn patience(came: u64) -> u64
    ensures { result ≡ 30 + came / 65536 }
{
    PATIENCE + came / BYTES_A_SECOND
}

/// Since when a reply is awaited, and how many bytes of it came.
#[derive(Debug, Drop)]
pub(crate) struct Pace {
    begun: Cell<Option<Instant>>,
    came: Cell<u64>,
}

impl Pace {
    /// No reply is awaited.
    pub(crate) fn new() -> Pace {
        Pace {
            begun: Cell::new(None),
            came: Cell::new(0),
        }
    }

    /// A reply is awaited from now on. False where the host can't say when that is.
    pub(crate) fn begin<R: Clock>(&self, rt: &R) -> bool {
        self.came.set(0);
        self.begun.set(Instant::now(rt).ok());
        self.begun.get().is_some()
    }

    /// How long the reply may take from now on, where that is any time.
    pub(crate) fn left<R: Clock>(&self, rt: &R) -> Option<Duration> {
        let passed = self.begun.get()?.elapsed(rt).ok()?;
        let left = Duration::from_secs(patience(self.came.get())).checked_sub(passed)?;
        if left.is_zero() { None } else { Some(left) }
    }

    /// So many bytes more came.
    pub(crate) fn go_on(&self, count: usize) {
        self.came.set(self.came.get().saturating_add(count as u64));
    }
}
