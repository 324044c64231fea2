//! A fetcher that answers by a script.
ghost use Rattle.std.specs.Prelude.{◌≡◌, ◌≤◌, IfErr};
ghost use Rattle.disco_values.specs.declared.fault.Fault.TheVariants.{NotFetched, OutOfMemory};
ghost use Rattle.disco_http.specs.Causes.{Raises};

use disco_reconcile::{Fetch, Fetched};
use disco_values::{Bytes, Cert, DocKey, Fault};
use std::alloc::Global;
use std::cell::Cell;

/// What a server answers.
#[derive(Clone, Copy, Debug)]
pub(crate) enum Reply {
    /// A status and a body.
    Is(u16, &'static str),
    /// A document with its certificate.
    Certified(&'static str, Cert),
    Fails,
}

/// What a server answers to the delta and to all apps, while a client refreshes once.
#[derive(Clone, Copy, Debug)]
pub(crate) struct Turn {
    pub(crate) delta: Reply,
    pub(crate) apps: Reply,
}

impl Turn {
    /// Nothing is answered.
    pub(crate) const NONE: Turn = Turn {
        delta: Reply::Fails,
        apps: Reply::Fails,
    };
}

/// A fetcher that answers by the current turn.
#[derive(Drop)]
pub(crate) struct Script<'a> {
    pub(crate) alloc: Global,
    pub(crate) turn: &'a Cell<Turn>,
    pub(crate) failures: u64,
}

impl Script<'_> {
    fn fail(&mut self) -> Fault
        ensures error { result ≡ NotFetched }
        ensures count { self.old.failures ≤ self.new.failures }
        ensures cause { Raises self.old.failures self.new.failures }
    {
        self.failures = self.failures.saturating_add(1);
        Fault::NotFetched
    }
}

/// What is fetched where a server replies.
pub(crate) fn replied(
    alloc: Global,
    status: u16,
    body: &str,
    cert: Option<Cert>,
) -> Result<Fetched, Fault>
    ensures { IfErr result (λ e. e ≡ OutOfMemory) }
{
    Ok(Fetched {
        status,
        body: Bytes::from_vec(body.as_bytes().to_vec(alloc)?),
        cert,
    })
}

impl Fetch for Script<'_> {
    ghost gives = { λ _ _ _ _. Unit {0} };

    ghost failed = { λ s. s.failures };

    fn fetch(&mut self, key: &DocKey) -> Result<Fetched, Fault> {
        let turn = self.turn.get();
        let reply = if key.query.is_delta() {
            turn.delta
        } else {
            turn.apps
        };
        match reply {
            Reply::Is(status, body) => replied(self.alloc, status, body, None),
            Reply::Certified(body, cert) => replied(self.alloc, 200, body, Some(cert)),
            Reply::Fails => Err(self.fail()),
        }
    }

    fn failures(&self) -> u64 {
        self.failures
    }
}
