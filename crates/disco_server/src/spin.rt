//! How a worker waits for the lock of the desk.

use std::hint::spin_loop;
use std::sync::{Mutex, MutexGuard, Wait};

/// How often a lock is tried before the thread sleeps.
const TRIES: u32 = 40;

/// How often the processor pauses between two tries, each of which disturbs who holds the lock.
const PAUSES: u32 = 24;

fn pause() {
    for _ in 0..PAUSES {
        spin_loop();
    }
}

/// Takes a lock as [`Mutex::lock`] does, but spins longer before the thread sleeps: for some 5
/// microseconds, or 50 where a pause of the processor is long. A change holds the lock for less than
/// it costs to sleep and to be woken.
pub(crate) fn spin_and_lock<'m, T, R: Wait>(rt: &R, mutex: &'m Mutex<T>) -> MutexGuard<'m, T> {
    for _ in 0..TRIES {
        if let Some(guard) = mutex.try_lock() {
            return guard;
        }
        pause();
    }
    mutex.lock(rt)
}
