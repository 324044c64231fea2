//! Fetches over one connection.
ghost use Rattle.std.specs.Prelude.{◌≡◌, ◌≢◌, ◌≤◌, ℕ, List, Some, IfErr, IfOk, IfSome, OnOk, true, false};
ghost use Rattle.std.specs.Io.KnownBytes.{Appends};
ghost use Rattle.disco_values.specs.declared.fault.Fault.TheVariants.{OutOfMemory};
ghost use Rattle.disco_values.specs.Query.{is_delta};
ghost use Rattle.disco_http.specs.Causes.{Raises};
ghost use Rattle.disco_http.specs.Replies.{TakesReply};
ghost use Rattle.disco_http.specs.Streams.{ahead, reader_limits};
ghost use Rattle.disco_http.specs.Sinks.{sink_of};
ghost use Rattle.disco_reconcile.specs.Connection.{BreaksOff, Fails, FetchesBy, failures_of, is_fetch_spent, reader_of, request_text, writer_of};

use crate::fetch::{Fetch, Fetched};
use disco_http::{Reader, ReceivedReply, Sink, Source, Writer};
use disco_values::{Bytes, DocKey, Fault, Form};
use std::alloc::Global;

/// Fetches by `GET`s on one connection, which is kept open. After a reply that ends the connection,
/// and after any fetch that failed, each later fetch fails.
#[derive(Drop)]
pub struct HttpFetch<R, W> {
    alloc: Global,
    reader: Reader<R>,
    writer: Writer<W>,
    spent: bool,
    failures: u64,
}

/// The request for all apps or for the delta.
#[tactic(auto, unfolding(crate::specs::Connection::request_text))]
fn request_of(delta: bool, form: Form) -> &'static [u8]
    ensures { result.now ≡ request_text delta form }
{
    match (delta, form) {
        (false, Form::Full) => {
            b"GET /eureka/v2/apps HTTP/1.1\r\nHost: localhost\r\nX-Eureka-Accept: full\r\n\r\n"
        }
        (false, Form::Compact) => {
            b"GET /eureka/v2/apps HTTP/1.1\r\nHost: localhost\r\nX-Eureka-Accept: compact\r\n\r\n"
        }
        (true, Form::Full) => {
            b"GET /eureka/v2/apps/delta HTTP/1.1\r\nHost: localhost\r\nX-Eureka-Accept: full\r\n\r\n"
        }
        (true, Form::Compact) => {
            b"GET /eureka/v2/apps/delta HTTP/1.1\r\nHost: localhost\r\nX-Eureka-Accept: compact\r\n\r\n"
        }
    }
}

impl<R: Source + Drop, W: Sink + Drop> HttpFetch<R, W> {
    /// Fetches by what a reader reads and a writer writes, which belong to one connection.
    pub fn new(alloc: Global, reader: Reader<R>, writer: Writer<W>) -> HttpFetch<R, W>
        ensures reader { reader_of result ≡ reader }
        ensures writer { writer_of result ≡ writer }
        ensures failures { failures_of result ≡ 0 }
        ensures spent { is_fetch_spent result ≡ false }
    {
        HttpFetch {
            alloc,
            reader,
            writer,
            spent: false,
            failures: 0,
        }
    }
}

impl<R: Source, W: Sink> HttpFetch<R, W> {
    /// Writes the request in one write, and reads the reply.
    fn exchange(&mut self, key: &DocKey) -> Result<ReceivedReply, Fault>
        ensures failures { self.new.failures ≡ self.old.failures }
        ensures limits { reader_limits self.new.reader ≡ reader_limits self.old.reader }
        ensures fresh { OnOk result (self.old.spent ≡ false) }
        ensures asked { OnOk result (Appends (W.contents (sink_of self.old.writer)) (W.contents (sink_of self.new.writer))
            (request_text (is_delta key.now.query) key.now.form)) }
        ensures reply { IfOk result (λ reply. IfSome (ahead R.remaining self.old.reader) (λ stream.
            (rest : List ℕ) × TakesReply (reader_limits self.old.reader) stream reply.head reply.body.items rest
            × (ahead R.remaining self.new.reader ≡ Some rest))) }
        ensures why { IfErr result (λ fault. Fails R.remaining W.failed self.old fault self.new) }
        ensures reads { IfErr result (λ fault. BreaksOff R.remaining R.failed self.old fault self.new) }
    {
        if self.spent || self.reader.is_spent() || self.writer.is_spent() {
            return Err(Fault::NotFetched);
        }
        let request = request_of(key.query.is_delta(), key.form);
        self.writer.write_bytes(request)?;
        self.reader.read_reply(self.alloc)
    }

    /// Lets all later fetches fail. Counts the failure, but for want of memory.
    fn give_up(&mut self, fault: Fault)
        ensures spent { self.new.spent ≡ true }
        ensures count { self.old.failures ≤ self.new.failures }
        ensures cause { fault ≢ OutOfMemory → Raises self.old.failures self.new.failures }
        ensures reader { self.new.reader ≡ self.old.reader }
        ensures writer { self.new.writer ≡ self.old.writer }
    {
        self.spent = true;
        if !matches!(fault, Fault::OutOfMemory) {
            self.failures = self.failures.saturating_add(1);
        }
    }
}

impl<R: Source, W: Sink> Fetch for HttpFetch<R, W> {
    ghost gives = { FetchesBy R.remaining R.failed W.contents W.failed };

    ghost failed = { failures_of };

    fn fetch(&mut self, key: &DocKey) -> Result<Fetched, Fault> {
        match self.exchange(key) {
            Ok(reply) => {
                self.spent = reply.head.closes();
                Ok(Fetched {
                    status: reply.head.status(),
                    cert: reply.head.certificate(),
                    body: Bytes::from_vec(reply.body),
                })
            }
            Err(fault) => {
                self.give_up(fault);
                Err(fault)
            }
        }
    }

    fn failures(&self) -> u64 {
        self.failures
    }
}
