//! Pauses of a worker, in which others have the lock.
use std::time::{Duration, Instant};
use std::{rt, thread};

/// For how many milliseconds a worker is at it between two pauses, or little longer, and how long a
/// pause is.
const PAUSE_MILLIS: u64 = 1;

/// When a worker paused last.
#[derive(Drop)]
pub(crate) struct Pauses {
    /// Nothing where the host's clock can't be read.
    last: Option<Instant>,
}

impl Pauses {
    /// As behind a pause.
    pub(crate) fn new<R: rt::Clock>(rt: &R) -> Pauses {
        Pauses {
            last: Instant::now(rt).ok(),
        }
    }

    /// Pauses where the last pause is long enough ago, so that whoever waits for the lock meanwhile
    /// has it.
    pub(crate) fn pause_if_due<R: rt::Clock>(&mut self, rt: &R) {
        let length = Duration::from_millis(PAUSE_MILLIS);
        if self.is_due(rt, length) {
            thread::sleep(rt, length);
            self.last = Instant::now(rt).ok();
        }
    }

    /// Whether the last pause is so long ago. It is where that can't be told.
    fn is_due<R: rt::Clock>(&self, rt: &R, length: Duration) -> bool {
        match (&self.last, Instant::now(rt)) {
            (Some(last), Ok(now)) => now.duration_since(*last) >= length,
            _ => true,
        }
    }
}
