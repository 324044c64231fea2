//! The acceptor by which workers take connections, one at a time.
ghost use Rattle.std.specs.Prelude.{◌≡◌, ◌+◌, ◌-◌, ◌^◌, ◌↔◌, ◌⊎◌, IfErr, IsTrue, MatchResult, None, Some, min, option_map};
ghost use Rattle.disco_values.specs.declared.fault.Fault.TheVariants.{OutOfMemory, ReadFailed};

use disco_values::Fault;

/// Why no more connections are taken.
#[derive(Clone, Copy, Debug)]
pub enum Refusal {
    /// A worker found no memory.
    NoMemory,
    /// The host refused a connection or a worker.
    ByHost,
}

/// How many connections were taken, and whether more may be.
#[derive(Debug, Drop)]
pub struct Acceptor {
    /// How many connections may be taken, where it isn't 0.
    most: u64,
    taken: u64,
    /// Why no more connections are taken, where one was refused, or a worker was.
    refused: Option<Refusal>,
}

impl Acceptor {
    ghost use Rattle.disco_connections.specs.Acceptors.{IsOpen, fault_of};

    /// An acceptor for so many connections, and for any number where that is 0.
    pub fn new(most: u64) -> Acceptor
        ensures most { result.most ≡ most }
        ensures taken { result.taken ≡ 0 }
        ensures open { result.refused ≡ None }
    {
        Acceptor {
            most,
            taken: 0,
            refused: None,
        }
    }

    /// Whether one connection more may be taken.
    pub(crate) fn is_open(&self) -> bool
        ensures { IsTrue result ↔ IsOpen self.now }
    {
        self.refused.is_none() && (self.most == 0 || self.taken < self.most)
    }

    /// Counts a connection, and answers its number.
    pub(crate) fn take(&mut self) -> u64
        requires { IsOpen self.old }
        ensures number { result ≡ min (self.old.taken + 1) (2 ^ 64 - 1) }
        ensures taken { self.new ≡ record self.old { taken = result } }
    {
        self.taken = self.taken.saturating_add(1);
        self.taken
    }

    /// From now on no connection is taken, since one was refused, or a worker.
    pub fn refuse(&mut self, refusal: Refusal)
        ensures { self.new ≡ record self.old { refused = Some refusal } }
    {
        self.refused = Some(refusal);
    }

    /// Why connections were refused, if they were.
    ///
    /// # Errors
    ///
    /// `OutOfMemory` or `ReadFailed`, where connections were refused.
    pub fn outcome(&self) -> Result<(), Fault>
        ensures refused { MatchResult result (λ _. self.now.refused ≡ None) (λ e. option_map fault_of self.now.refused ≡ Some e) }
        ensures fault { IfErr result (λ fault. (fault ≡ OutOfMemory) ⊎ (fault ≡ ReadFailed)) }
    {
        match self.refused {
            Some(Refusal::NoMemory) => Err(Fault::OutOfMemory),
            Some(Refusal::ByHost) => Err(Fault::ReadFailed),
            None => Ok(()),
        }
    }
}
