//! A clock that is turned by hand.
use crate::naps::{LOOKS, nap};
use disco_server::Clock;
use std::rt;
use std::sync::atomic::{AtomicU64, Ordering};

/// The moment at which a dial starts, in milliseconds.
pub(crate) const START: u64 = 1_000_000;

/// How many clocks there are, one for each timed worker.
const CLOCKS: u64 = 4;

/// How often each clock is asked until all is done that was due: it may be in the midst of being asked,
/// then it says the moment, a run that lets one lease run out asks when it begins and when it cancels,
/// and when the clock is asked once more what was due is done.
const TURNS: u64 = 5;

/// What all clocks say, and how often each was asked.
#[derive(Drop)]
pub(crate) struct Dial {
    /// Milliseconds.
    moment: AtomicU64,
    /// How many clocks were asked.
    clocks: AtomicU64,
    first: AtomicU64,
    second: AtomicU64,
    third: AtomicU64,
    fourth: AtomicU64,
}

impl Dial {
    /// A dial at its start.
    pub(crate) fn new() -> Dial {
        Dial {
            moment: AtomicU64::new(START),
            clocks: AtomicU64::new(0),
            first: AtomicU64::new(0),
            second: AtomicU64::new(0),
            third: AtomicU64::new(0),
            fourth: AtomicU64::new(0),
        }
    }

    /// How often the clock of a number was asked.
    fn count(&self, number: u64) -> &AtomicU64 {
        match number {
            1 => &self.first,
            2 => &self.second,
            3 => &self.third,
            _ => &self.fourth,
        }
    }

    /// The least number of times that each clock was asked.
    fn asked(&self) -> u64 {
        if self.clocks.load(Ordering::SeqCst) < CLOCKS {
            return 0;
        }
        let first = self.first.load(Ordering::SeqCst);
        let second = self.second.load(Ordering::SeqCst);
        let third = self.third.load(Ordering::SeqCst);
        let fourth = self.fourth.load(Ordering::SeqCst);
        first.min(second).min(third).min(fourth)
    }

    /// Turns the dial to so many milliseconds behind its start, and waits until each worker has done
    /// what was due. Whether each did.
    pub(crate) fn turn<R: rt::Clock>(&self, rt: &R, passed: u64) -> bool {
        self.moment
            .store(START.saturating_add(passed), Ordering::SeqCst);
        self.reset();
        for _ in 0..LOOKS {
            if self.asked() >= TURNS {
                return true;
            }
            nap(rt);
        }
        false
    }

    /// Turns the dial on by so many milliseconds.
    pub(crate) fn turn_on(&self, millis: u64) {
        self.moment.fetch_add(millis, Ordering::SeqCst);
    }

    /// Counts anew.
    fn reset(&self) {
        self.first.store(0, Ordering::SeqCst);
        self.second.store(0, Ordering::SeqCst);
        self.third.store(0, Ordering::SeqCst);
        self.fourth.store(0, Ordering::SeqCst);
    }
}

/// A clock that says what the dial is turned to. A copy that wasn't asked yet becomes a clock of its
/// own when it is.
#[derive(Clone, Copy)]
pub(crate) struct Turned<'a> {
    dial: &'a Dial,
    /// Its number, from 1, and 0 until it is asked.
    number: u64,
}

impl<'a> Turned<'a> {
    pub(crate) fn new(dial: &'a Dial) -> Turned<'a> {
        Turned { dial, number: 0 }
    }
}

impl Clock for Turned<'_> {
    ghost ticks = { λ _ _ _. Unit {0} };

    fn now(&mut self) -> u64 {
        let moment = self.dial.moment.load(Ordering::SeqCst);
        if self.number == 0 {
            self.number = self
                .dial
                .clocks
                .fetch_add(1, Ordering::SeqCst)
                .saturating_add(1);
        }
        self.dial.count(self.number).fetch_add(1, Ordering::SeqCst);
        moment
    }
}
