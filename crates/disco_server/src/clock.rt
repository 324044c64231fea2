//! Moments.
ghost use Rattle.std.specs.Prelude.{ℕ};

/// What says which moment it is.
pub trait Clock {
    // A clock before it is asked, the moment that it says, and the clock afterwards.
    ghost ticks: { Self → ℕ → Self → Type 0 };

    /// The moment in whole milliseconds.
    fn now(&mut self) -> u64
        ensures { ticks self.old result self.new };
}
