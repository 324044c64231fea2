//! A fetcher whose connection can be replaced.
ghost use Rattle.std.specs.Prelude.{◌≡◌, ◌≢◌, ◌≤◌, ◌⊎◌};
ghost use Rattle.disco_values.specs.declared.fault.Fault.TheVariants.{OutOfMemory};
ghost use Rattle.disco_values.specs.declared.query.Query.TheVariants.{Apps, Delta};
ghost use Rattle.disco_http.specs.Causes.{Raises};

use disco_follow::Connected;
use disco_reconcile::{Fetch, Fetched};
use disco_values::{DocKey, Fault};

/// A fetcher over a connection to a server. Between two runs of the server it has no connection. It
/// counts the fetches that failed over all its connections.
#[derive(Drop)]
pub(super) struct Line {
    connected: Option<Connected>,
    failures: u64,
}

impl Line {
    /// No connection yet.
    pub(super) fn new() -> Line {
        Line {
            connected: None,
            failures: 0,
        }
    }

    /// The same with another connection.
    pub(super) fn over(self, connected: Connected) -> Line {
        Line {
            connected: Some(connected),
            failures: self.failures,
        }
    }

    /// The same without a connection.
    pub(super) fn hung_up(self) -> Line {
        Line {
            connected: None,
            failures: self.failures,
        }
    }

    /// Counts a failure, but for want of memory.
    fn count(&mut self, fault: Fault)
        ensures count { self.old.failures ≤ self.new.failures }
        ensures cause { fault ≢ OutOfMemory → Raises self.old.failures self.new.failures }
    {
        if !matches!(fault, Fault::OutOfMemory) {
            self.failures = self.failures.saturating_add(1);
        }
    }

    /// The answer of the server, if there is a connection.
    fn ask(&mut self, key: &DocKey) -> Result<Fetched, Fault>
        requires { (key.now.query ≡ Apps) ⊎ (key.now.query ≡ Delta) }
        ensures { self.new.failures ≡ self.old.failures }
    {
        match &mut self.connected {
            Some(connected) => connected.fetch(key),
            None => Err(Fault::NotFetched),
        }
    }
}

impl Fetch for Line {
    ghost gives = { λ _ _ _ _. Unit {0} };

    ghost failed = { λ line. line.failures };

    fn fetch(&mut self, key: &DocKey) -> Result<Fetched, Fault> {
        match self.ask(key) {
            Ok(fetched) => Ok(fetched),
            Err(fault) => {
                self.count(fault);
                Err(fault)
            }
        }
    }

    fn failures(&self) -> u64 {
        self.failures
    }
}
