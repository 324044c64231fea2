//! Refreshes whose results are written as lines.
ghost use Rattle.std.specs.Prelude.{◌≡◌, ◌≤◌};
ghost use Rattle.disco_values.specs.declared.fault.Fault.TheVariants.{NotFetched};
ghost use Rattle.disco_http.specs.Causes.{Raises};

use crate::samples::{GONE, ONE};
use crate::script::replied;
use disco_follow::{Wanted, follow_client};
use disco_http::Counted;
use disco_reconcile::{Client, Fetch, Fetched};
use disco_values::{Cert, DocKey, Fault, Form, Text};
use std::alloc::Global;
use std::rt::Clock;

/// A document with its certificate.
#[derive(Clone, Copy, Debug)]
struct Answer {
    document: &'static str,
    cert: Cert,
}

/// What is answered to one fetch after another; `None` is a fetch that fails.
const ANSWERS: [Option<Answer>; 5] = [
    Some(Answer {
        document: ONE,
        cert: Cert {
            run: 7,
            base: 1,
            version: 1,
        },
    }),
    None,
    None,
    Some(Answer {
        document: GONE,
        cert: Cert {
            run: 7,
            base: 1,
            version: 3,
        },
    }),
    Some(Answer {
        document: GONE,
        cert: Cert {
            run: 7,
            base: 3,
            version: 3,
        },
    }),
];

/// What is written of them: a refusal once, and a copy where it changed.
pub(crate) const TOLD: &str =
    "copy 7 1 +ORDERS/h1:orders:8080=UP\nvip ORDERS h1:8080\nfault 22\ncopy 7 3 -ORDERS/h1:orders:8080\nvip ORDERS\n";

/// Answers in turn, and fails behind the last answer.
#[derive(Drop)]
struct Answers<'a> {
    alloc: Global,
    all: &'a [Option<Answer>],
    /// How many were given.
    given: usize,
    failures: u64,
}

impl Answers<'_> {
    fn next(&mut self) -> Option<Answer>
        ensures { self.new.failures ≡ self.old.failures }
    {
        if self.given >= self.all.len() {
            return None;
        }
        let answer = self.all[self.given];
        self.given += 1;
        answer
    }

    fn fail(&mut self) -> Fault
        ensures error { result ≡ NotFetched }
        ensures count { self.old.failures ≤ self.new.failures }
        ensures cause { Raises self.old.failures self.new.failures }
    {
        self.failures = self.failures.saturating_add(1);
        Fault::NotFetched
    }
}

impl Fetch for Answers<'_> {
    ghost gives = { λ _ _ _ _. Unit {0} };

    ghost failed = { λ s. s.failures };

    fn fetch(&mut self, _key: &DocKey) -> Result<Fetched, Fault> {
        match self.next() {
            Some(next) => replied(self.alloc, 200, next.document, Some(next.cert)),
            None => Err(self.fail()),
        }
    }

    fn failures(&self) -> u64 {
        self.failures
    }
}

/// Tells of five refreshes.
fn tell<R: Clock, F: Fetch>(
    rt: &R,
    alloc: Global,
    client: &mut Client<F>,
    told: &mut Vec<u8>,
) -> Result<(), Fault> {
    let wanted = Wanted {
        vip: Some(Text::new(alloc, "ORDERS")?),
        json: false,
    };
    let mut out = Counted::new(told);
    follow_client(rt, alloc, client, &wanted, 5, 1, &mut out)
}

/// What is written of a client's refreshes.
fn told_of<R: Clock>(rt: &R, alloc: Global, told: &mut Vec<u8>) -> Result<(), Fault> {
    let answers = Answers {
        alloc,
        all: &ANSWERS,
        given: 0,
        failures: 0,
    };
    let mut client = Client::certified(alloc, answers, Form::Full);
    tell(rt, alloc, &mut client, told)
}

/// What is written of them by a certified client.
pub(crate) fn follow<R: Clock>(rt: &R, alloc: Global) -> Result<String, Fault> {
    let mut told = Vec::new(alloc);
    told_of(rt, alloc, &mut told)?;
    Ok(String::from_utf8_lossy(alloc, told.as_slice())?)
}
