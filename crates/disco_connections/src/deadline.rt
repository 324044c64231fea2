//! The deadline of a connection.
ghost use Rattle.std.specs.Prelude.{◌≡◌, ◌≢◌, ◌≤◌, ◌⊎◌, ◌↔◌, IsFalse, IsTrue};
ghost use Rattle.disco_connections.specs.Timeouts.{longest, moment_after};
ghost use Rattle.disco_connections.specs.declared.timeouts.Phase.TheVariants.{Between};

use crate::timeouts::{Phase, Timeouts};

/// What a connection waits for, and until when.
#[derive(Clone, Copy, Debug)]
pub struct Deadline {
    pub(crate) phase: Phase,
    /// Milliseconds.
    pub(crate) moment: u64,
}

impl Deadline {
    /// That of a connection of which nothing came.
    pub fn new(timeouts: &Timeouts, now: u64) -> Deadline
        ensures phase { result.phase ≡ Between }
        ensures moment { result.moment ≡ moment_after now timeouts.now.between }
    {
        Deadline {
            phase: Phase::Between,
            moment: now.saturating_add(timeouts.between),
        }
    }

    /// Enters a phase. The deadline stays where the connection was in that phase already and answered no
    /// request meanwhile (`anew`). A reply has so many bytes when it begins.
    pub fn expect(&mut self, timeouts: &Timeouts, phase: Phase, bytes: u64, anew: bool, now: u64)
        ensures phase { self.new.phase ≡ phase }
        ensures kept { phase ≡ self.old.phase → IsFalse anew → self.new ≡ self.old }
        ensures begun { (phase ≢ self.old.phase) ⊎ IsTrue anew
            → self.new ≡ record { phase = phase; moment = moment_after now (longest timeouts.now phase bytes) } }
    {
        if anew || phase != self.phase {
            let time = timeouts.longest(phase, bytes);
            *self = Deadline {
                phase,
                moment: now.saturating_add(time),
            };
        }
    }

    /// Whether it is past.
    pub fn is_over(&self, now: u64) -> bool
        ensures { IsTrue result ↔ (self.now.moment ≤ now) }
    {
        self.moment <= now
    }
}
