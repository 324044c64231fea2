//! The clock of trials.
use disco_server::Clock;

/// A clock that goes on by one step each time that it is asked.
#[derive(Clone, Copy, Debug)]
pub struct Ticks {
    step: u64,
    last: u64,
}

impl Ticks {
    /// A clock with steps of so many milliseconds. It begins with the first step.
    pub fn new(step: u64) -> Ticks {
        Ticks { step, last: 0 }
    }
}

impl Clock for Ticks {
    ghost use Rattle.std.specs.Prelude.{◌≡◌};

    ghost ticks = { λ old now new. now ≡ new.last };

    fn now(&mut self) -> u64 {
        self.last = self.last.saturating_add(self.step);
        self.last
    }
}
