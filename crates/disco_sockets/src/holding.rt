//! A gate that holds an answer until another connection has one.
use disco_server::{Gate, Point};
use std::sync::atomic::{AtomicBool, Ordering};
use std::thread::yield_now;

/// How often a worker looks whether it may go on, at most.
const TURNS: u64 = 10_000_000;

/// A gate that holds the first connection's first answer until the second connection has one.
#[derive(Drop)]
pub(crate) struct Holding {
    /// The first connection has an answer.
    first: AtomicBool,
    /// The second connection has an answer.
    second: AtomicBool,
    /// The first connection was held in vain.
    in_vain: AtomicBool,
}

impl Holding {
    pub(crate) fn new() -> Holding {
        Holding {
            first: AtomicBool::new(false),
            second: AtomicBool::new(false),
            in_vain: AtomicBool::new(false),
        }
    }

    /// Whether the first connection was held, and not in vain.
    pub(crate) fn was_kept(&self) -> bool {
        self.first.load(Ordering::SeqCst)
            && self.second.load(Ordering::SeqCst)
            && !self.in_vain.load(Ordering::SeqCst)
    }

    fn hold(&self) {
        self.first.store(true, Ordering::SeqCst);
        for _ in 0..TURNS {
            if self.second.load(Ordering::SeqCst) {
                return;
            }
            yield_now();
        }
        self.in_vain.store(true, Ordering::SeqCst);
    }
}

impl Gate for Holding {
    fn pass(&self, point: Point) {
        match point {
            Point::Answered(1) => self.hold(),
            Point::Answered(2) => self.second.store(true, Ordering::SeqCst),
            Point::Answered(_) | Point::Received(_) => {}
        }
    }
}
