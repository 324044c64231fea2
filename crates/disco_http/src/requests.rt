//! Requests that are read.
ghost use Rattle.std.specs.Prelude.{◌≡◌, [], ℕ, List, IfOk, IfErr, IfNone, IfSome, IsErrOf, IsFalse, IsTrue, is_err, Some, OnOk};
ghost use Rattle.disco_values.specs.declared.fault.Fault.TheVariants.{ReadFailed};
ghost use Rattle.disco_http.specs.Causes.{Cause, is_of_request};

use crate::incoming::Incoming;
use crate::reader::Reader;
use crate::session::next_request;
use crate::source::{Failed, Source};
use crate::steps::Session;
use disco_message::{Document, Request};
use disco_values::Fault;
use std::alloc::Global;
use std::mem;

/// The document of no reply.
#[derive(Drop)]
struct Nothing;

impl Document for Nothing {
    ghost content = { λ _. [] };

    fn bytes(&self) -> &[u8] {
        b""
    }
}

impl<R: Source> Reader<R> {
    ghost use Rattle.disco_http.specs.Requests.{HasNone, TakesRequest, Refused};
    ghost use Rattle.disco_http.specs.Streams.{ahead, reader_limits, source_of, is_spent, Came};

    /// Reads a request. None at the end of the input, between requests.
    ///
    /// # Errors
    ///
    /// `BadRequest`, `HeadTooLarge`, `UnsupportedCoding`, `BodyTooLarge`, `OutOfMemory` or
    /// `ReadFailed`. Then the reader is spent.
    pub fn read_request(&mut self, alloc: Global) -> Result<Option<Request>, Fault>
        requires { IsFalse (is_spent self.old) }
        // What is read is the request at the front of the stream, and the rest stays ahead.
        ensures request { IfOk result (λ found. IfSome found (λ request. IfSome (ahead R.remaining self.old) (λ stream.
            (rest : List ℕ) × TakesRequest (reader_limits self.old) stream request rest × (ahead R.remaining self.new ≡ Some rest)))) }
        // Nothing is read only where nothing is left.
        ensures none { IfOk result (λ found. IfNone found (IfSome (ahead R.remaining self.old) (λ stream. stream ≡ []))) }
        // A refusal has its cause in the stream.
        ensures refused { IfErr result (λ fault. IfSome (ahead R.remaining self.old) (Refused (reader_limits self.old) fault)) }
        // After a failed read what had come holds no whole request.
        ensures broken { IsErrOf result ReadFailed → IfSome (ahead R.remaining self.old) (λ stream.
            Came (HasNone (reader_limits self.old)) stream (R.remaining (source_of self.new))) }
        ensures limits { reader_limits self.new ≡ reader_limits self.old }
        // A failed read has raised the count of failures.
        ensures fault { IfErr result (λ fault. IsTrue (is_of_request fault)) }
        ensures cause { Cause ReadFailed (R.failed (source_of self.old)) (R.failed (source_of self.new)) result }
        ensures none_failed { OnOk result (R.failed (source_of self.new) ≡ R.failed (source_of self.old)) }
        ensures spent { is_spent self.new ≡ is_err result }
    {
        // The session has what the reader has unread, and gives it back.
        let incoming = mem::replace(&mut self.incoming, Incoming::none(alloc));
        let mut session: Session<Nothing> = Session::over(self.limits, incoming);
        let read = next_request(alloc, &mut session, &mut self.source, &mut self.room);
        mem::swap(&mut session.incoming, &mut self.incoming);
        self.spent = !matches!(read, Ok(Ok(_)));
        match read {
            Ok(found) => found,
            Err(Failed) => Err(Fault::ReadFailed),
        }
    }
}
