//! Waits between two looks.
use std::rt::Clock;
use std::thread::sleep;
use std::time::Duration;

/// How often a trial looks for something, at most.
pub(crate) const LOOKS: u64 = 20_000;

/// Waits for a millisecond.
pub(crate) fn nap<R: Clock>(rt: &R) {
    sleep(rt, Duration::from_millis(1));
}
