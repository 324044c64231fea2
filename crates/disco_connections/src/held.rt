//! How many bytes all connections keep of what came.
use std::sync::atomic::{AtomicBool, AtomicU64, Ordering};

/// With so many bytes in all, reads of bodies that aren't small are paused.
const MOST: u64 = 64 << 20;

/// A connection that keeps no more than this reads on.
pub(crate) const FEW: u64 = 16_384;

/// The bytes that all connections keep.
#[derive(Drop)]
pub(crate) struct Held {
    bytes: AtomicU64,
    /// Reads of some connection are paused.
    is_short: AtomicBool,
    /// One reads on to the end of its body all the same, so that bodies come to an end.
    passes: AtomicBool,
}

impl Held {
    /// Nothing is kept.
    pub(crate) fn new() -> Held {
        Held {
            bytes: AtomicU64::new(0),
            is_short: AtomicBool::new(false),
            passes: AtomicBool::new(false),
        }
    }

    /// A connection keeps so many bytes now in place of others.
    pub(crate) fn change(&self, before: u64, now: u64) {
        if now > before {
            self.bytes.fetch_add(now - before, Ordering::SeqCst);
        } else if now < before {
            self.bytes.fetch_sub(before - now, Ordering::SeqCst);
        }
    }

    /// Whether so much is kept that reads are paused.
    pub(crate) fn is_full(&self) -> bool {
        self.bytes.load(Ordering::SeqCst) >= MOST
    }

    /// Whether all may read on again.
    pub(crate) fn has_room(&self) -> bool {
        self.bytes.load(Ordering::SeqCst) < MOST / 2
    }

    /// Notes whether reads of some connection are paused.
    pub(crate) fn note_short(&self, short: bool) {
        self.is_short.store(short, Ordering::SeqCst);
    }

    /// Whether reads of some connection are paused.
    pub(crate) fn is_short(&self) -> bool {
        self.is_short.load(Ordering::SeqCst)
    }

    /// Whether a connection may read on all the same: while no other does.
    pub(crate) fn begin_pass(&self) -> bool {
        self.passes
            .compare_exchange(false, true, Ordering::SeqCst, Ordering::SeqCst)
            .is_ok()
    }

    /// It has come to the end of its body, or to its own.
    pub(crate) fn end_pass(&self) {
        self.passes.store(false, Ordering::SeqCst);
    }
}
