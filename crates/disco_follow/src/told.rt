//! What was written last of a client.
ghost use Rattle.std.specs.Prelude.{◌≡◌, [], true, false};
ghost use Rattle.std.specs.FinMap.{empty};
ghost use Rattle.disco_values.specs.Fault.{fault_number};
ghost use Rattle.disco_follow.specs.Telling.{is_news, is_told_last};

use disco_client::Copy;
use disco_values::{Bytes, Fault};
use std::alloc::Global;
use std::marker::Model;

/// What was written last of a client: its copy, the line of the vip that is asked for, and the refusal,
/// if no copy was written after it.
#[derive(Drop)]
pub(crate) struct Told {
    begun: bool,
    pub(crate) copy: Copy,
    pub(crate) up: Bytes,
    /// The number of the refusal, 0 where there is none.
    fault: u32,
}

impl Model for Told {
    ghost use Rattle.std.specs.Coded.{codes};
    ghost use Rattle.std.specs.FinMap.{code};
    ghost use Rattle.disco_follow.specs.Telling.{Told as Seen};

    ghost Value = { Seen };

    ghost coded = { Prim.hlevel (codes, code) };

    ghost view = { λ t. record { begun = t.begun; copy = t.copy; up = t.up; fault = t.fault } };
}

impl Told {
    /// Nothing yet.
    pub(crate) fn new(alloc: Global) -> Told
        ensures { result ≡ record { begun = false; copy = empty; up = []; fault = 0 } }
    {
        Told {
            begun: false,
            copy: Copy::new(alloc),
            up: Bytes::from_vec(Vec::new(alloc)),
            fault: 0,
        }
    }
}

impl Told {
    /// Whether to write a copy in which so many instances changed.
    pub(crate) fn is_news(&self, changed: usize) -> bool
        ensures { result ≡ is_news self.now changed }
    {
        !(self.begun && (self.fault == 0 && changed == 0))
    }

    /// Whether this refusal was written last.
    pub(crate) fn is_told_last(&self, fault: &Fault) -> bool
        ensures { result ≡ is_told_last self.now fault.now }
    {
        self.fault == fault.number()
    }

    /// What was written last where that is a copy, and the line of its vip.
    pub(crate) fn of(copy: Copy, up: Bytes) -> Told
        ensures { result ≡ record { begun = true; copy = copy; up = up; fault = 0 } }
    {
        Told {
            begun: true,
            copy,
            up,
            fault: 0,
        }
    }

    /// What was written last once a refusal was written.
    pub(crate) fn refused(self, fault: &Fault) -> Told
        ensures { result ≡ record self { fault = fault_number fault.now } }
    {
        Told {
            begun: self.begun,
            copy: self.copy,
            up: self.up,
            fault: fault.number(),
        }
    }
}
