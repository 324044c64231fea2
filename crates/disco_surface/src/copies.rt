//! Copies of a registry, and clients that keep them by a fetcher of one's own.
ghost use Rattle.std.specs.Prelude.{◌≤◌};
ghost use Rattle.disco_http.specs.Causes.{Raises};

use crate::given::{say, say_text};
use disco_cache::DocKey;
use disco_client::{Copy, Overlaid};
use disco_instance::{Bytes, Cert, Fault, Form};
use disco_reconcile::{Client, Fetch, Fetched, Refreshed};
use disco_wire::read_document;
use disco_writer::Query;
use std::alloc::Global;

/// All apps: one instance that is up, and one that is down.
const APPS: &str =
    r#"{"applications":{"application":{"name":"ORDERS","instance":[{"instanceId":"1","status":"UP","vipAddress":"x,orders"},{"instanceId":"2","status":"DOWN","vipAddress":"orders"}]},"versions__delta":1}}"#;

/// A delta: the second instance is gone.
const DELTA: &str =
    r#"{"applications":{"application":{"name":"ORDERS","instance":{"instanceId":"2","actionType":"DELETED"}},"apps__hashcode":"UP_1_","versions__delta":2}}"#;

/// How many of a vip's instances are up.
fn say_up(alloc: Global, copy: &Copy, vip: &str, out: &mut String) -> Result<(), Fault> {
    let up = copy.up(alloc, vip)?.len() as u64;
    say(out, "up", up)
}

/// The same of one vip after another.
fn tell_up(alloc: Global, copy: &Copy, out: &mut String) -> Result<(), Fault> {
    say_up(alloc, copy, "orders", out)?;
    say_up(alloc, copy, "Orders", out)?;
    say_up(alloc, copy, "order", out)?;
    say_up(alloc, copy, "x,orders", out)?;
    say_up(alloc, copy, "", out)
}

fn say_hash(alloc: Global, copy: &Copy, out: &mut String) -> Result<(), Fault> {
    let hash = copy.hash(alloc)?;
    say_text(out, "hash", hash.as_str())
}

fn overlay(alloc: Global, copy: &mut Copy) -> Result<Overlaid, Fault> {
    copy.overlay(read_document(alloc, DELTA.as_bytes())?)
}

fn tell_copy(alloc: Global, copy: &mut Copy, out: &mut String) -> Result<(), Fault> {
    copy.full(read_document(alloc, APPS.as_bytes())?)?;
    say_hash(alloc, copy, out)?;
    say(out, "records", copy.records().len() as u64)?;
    tell_up(alloc, copy, out)?;
    say(out, "is its hash", copy.hash_is("DOWN_1_UP_1_") as u64)?;
    say(out, "is its hash", copy.hash_is("DOWN_1_UP_1") as u64)?;
    let Overlaid { hash_equal } = overlay(alloc, copy)?;
    say(out, "hash equal", hash_equal as u64)?;
    say(out, "held", copy.len() as u64)
}

/// Gives the same two documents each time, and counts the fetches that fail.
#[derive(Drop)]
struct Given {
    alloc: Global,
    failures: u64,
}

/// The answer of a server that has this document.
fn answer(alloc: Global, body: &str, base: u64, version: u64) -> Result<Fetched, Fault> {
    let cert = Cert {
        run: 7,
        base,
        version,
    };
    Ok(Fetched {
        status: 200,
        body: Bytes::from_vec(body.as_bytes().to_vec(alloc)?),
        cert: Some(cert),
    })
}

impl Given {
    fn new(alloc: Global) -> Given {
        Given { alloc, failures: 0 }
    }

    /// Counts a failure.
    fn fail(&mut self)
        ensures count { self.old.failures ≤ self.new.failures }
        ensures raised { Raises self.old.failures self.new.failures }
    {
        self.failures = self.failures.saturating_add(1);
    }

    /// All apps, or the delta.
    fn answer(&self, key: &DocKey) -> Result<Fetched, Fault> {
        match key.query {
            Query::Delta => answer(self.alloc, DELTA, 1, 2),
            _ => answer(self.alloc, APPS, 1, 1),
        }
    }
}

impl Fetch for Given {
    ghost gives = { λ _ _ _ _. Unit {0} };

    ghost failed = { λ given. given.failures };

    fn fetch(&mut self, key: &DocKey) -> Result<Fetched, Fault> {
        let fetched = self.answer(key);
        if fetched.is_err() {
            self.fail();
        }
        fetched
    }

    fn failures(&self) -> u64 {
        self.failures
    }
}

fn refreshed_name(refreshed: Refreshed) -> &'static str {
    match refreshed {
        Refreshed::Full => "full",
        Refreshed::Delta => "delta",
        Refreshed::DeltaThenFull => "delta then full",
        Refreshed::Kept => "kept",
    }
}

/// Two refreshes of a client, and what it holds then.
fn tell_client(client: &mut Client<Given>, out: &mut String) -> Result<(), Fault> {
    for _ in 0..2 {
        say_text(out, "refreshed", refreshed_name(client.refresh()?))?;
    }
    say(
        out,
        "held",
        client.copy().map_or(0, |copy| copy.len()) as u64,
    )?;
    say(out, "run", client.run().unwrap_or(0))?;
    say(out, "version", client.version().unwrap_or(0))
}

fn tell_plain(alloc: Global, out: &mut String) -> Result<(), Fault> {
    let mut client = Client::new(alloc, Given::new(alloc), Form::Full);
    tell_client(&mut client, out)
}

fn tell_certified(alloc: Global, out: &mut String) -> Result<(), Fault> {
    let mut client = Client::certified(alloc, Given::new(alloc), Form::Full);
    tell_client(&mut client, out)
}

fn tell_copies(alloc: Global, out: &mut String) -> Result<(), Fault> {
    let mut copy = Copy::new(alloc);
    tell_copy(alloc, &mut copy, out)
}

/// What a copy and two clients hold.
pub(crate) fn tell(alloc: Global, out: &mut String) -> Result<(), Fault> {
    tell_copies(alloc, out)?;
    tell_plain(alloc, out)?;
    tell_certified(alloc, out)
}
