//! When what is done again and again is due.
ghost use Rattle.std.specs.Prelude.{◌≡◌, ◌≤◌, ◌↔◌, IsFalse, IsTrue};
ghost use Rattle.disco_connections.specs.Timeouts.{moment_after};

/// What is due at a moment, and then one period after each moment at which it was found due.
#[derive(Clone, Copy, Debug)]
pub struct Timer {
    /// Milliseconds.
    period: u64,
    /// The moment at which it is due next, in milliseconds.
    next: u64,
}

impl Timer {
    /// Due for the first time one period after now.
    pub fn new(period: u64, now: u64) -> Timer
        ensures period { result.period ≡ period }
        ensures next { result.next ≡ moment_after now period }
    {
        Timer {
            period,
            next: now.saturating_add(period),
        }
    }

    /// Whether it is due now. Then it is due next one period after now.
    pub fn is_due(&mut self, now: u64) -> bool
        ensures due { IsTrue result ↔ (self.old.next ≤ now) }
        ensures again { IsTrue result → self.new ≡ record self.old { next = moment_after now self.old.period } }
        ensures kept { IsFalse result → self.new ≡ self.old }
    {
        if now < self.next {
            return false;
        }
        self.next = now.saturating_add(self.period);
        true
    }
}
