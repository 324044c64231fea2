//! Replies that are read, as a client does.
ghost use Rattle.std.specs.Prelude.{◌≡◌, ℕ, List, IfOk, IfErr, IfSome, IsErrOf, IsFalse, IsTrue, is_err, Some, OnOk};
ghost use Rattle.disco_values.specs.declared.fault.Fault.TheVariants.{ReadFailed};
ghost use Rattle.disco_http.specs.Causes.{Cause, is_of_reply};

use crate::body::Body;
use crate::parts::{Found, Part, find};
use crate::reader::Reader;
use crate::source::Source;
use disco_message::{Extent, ReceivedHead};
use disco_values::Fault;
use std::alloc::Global;

/// A reply that was received.
#[derive(Debug, Drop)]
pub struct ReceivedReply {
    pub head: ReceivedHead,
    pub body: Vec<u8>,
}

impl<R: Source> Reader<R> {
    ghost use Rattle.disco_http.specs.Found.{HasNoExtent, ReplyRead};
    ghost use Rattle.disco_http.specs.Replies.{ExtentRefused, HasNoReply, ReadsExtent, ReplyRefused};
    ghost use Rattle.disco_http.specs.Streams.{ahead, Came};

    /// Reads the head of a reply.
    fn read_reply_head(&mut self, alloc: Global) -> Result<ReceivedHead, Fault>
        requires { IsTrue self.old.spent }
        ensures head { IfOk result (λ says. IfSome (ahead R.remaining self.old) (λ stream. ReplyRead self.old.limits stream says (ahead R.remaining self.new))) }
        ensures refused { IfErr result (λ fault. IfSome (ahead R.remaining self.old) (ReplyRefused self.old.limits fault)) }
        ensures broken { IsErrOf result ReadFailed → IfSome (ahead R.remaining self.old) (λ stream.
            Came (HasNoReply self.old.limits) stream (R.remaining self.new.source)) }
        ensures limits { self.new.limits ≡ self.old.limits }
        ensures spent { self.new.spent ≡ self.old.spent }
        ensures phase { self.new.incoming.phase ≡ self.old.incoming.phase }
        ensures fault { IfErr result (λ fault. IsTrue (is_of_reply fault)) }
        ensures cause { Cause ReadFailed (R.failed self.old.source) (R.failed self.new.source) result }
        ensures none_failed { OnOk result (R.failed self.new.source ≡ R.failed self.old.source) }
    {
        loop {
            let unread = &mut self.incoming.unread;
            match find(&self.limits, Part::ReplyHead, unread, &mut self.room.spans)? {
                Some(Found::ReplyHead(line)) => {
                    let head = ReceivedHead::new(alloc, unread.bytes(), &self.room.spans, &line)?;
                    unread.consume(line.len);
                    return Ok(head);
                }
                Some(_) => unreachable!(),
                None => {}
            }
            if !self.more()? {
                return Err(Fault::BadRequest);
            }
        }
    }

    /// Reads the body behind the head of a reply.
    fn read_body(&mut self, alloc: Global, extent: Extent) -> Result<Vec<u8>, Fault>
        requires { IsTrue self.old.spent }
        ensures body { IfOk result (λ body. IfSome (ahead R.remaining self.old) (λ after.
            (rest : List ℕ) × ReadsExtent self.old.limits extent after body.items rest × (ahead R.remaining self.new ≡ Some rest))) }
        ensures refused { IfErr result (λ fault. IfSome (ahead R.remaining self.old) (ExtentRefused self.old.limits extent fault)) }
        ensures broken { IsErrOf result ReadFailed → IfSome (ahead R.remaining self.old) (λ after.
            Came (HasNoExtent self.old.limits extent) after (R.remaining self.new.source)) }
        ensures limits { self.new.limits ≡ self.old.limits }
        ensures spent { self.new.spent ≡ self.old.spent }
        ensures phase { self.new.incoming.phase ≡ self.old.incoming.phase }
        ensures fault { IfErr result (λ fault. IsTrue (is_of_reply fault)) }
        ensures cause { Cause ReadFailed (R.failed self.old.source) (R.failed self.new.source) result }
        ensures none_failed { OnOk result (R.failed self.new.source ≡ R.failed self.old.source) }
    {
        let mut body = Body::new(&self.limits, extent, Vec::new(alloc))?;
        loop {
            if body.advance(
                &self.limits,
                &mut self.incoming.unread,
                &mut self.room.spans,
            )? {
                return Ok(body.bytes);
            }
            if !self.more()? {
                return match extent {
                    Extent::UntilEnd => Ok(body.bytes),
                    Extent::Framed(_) => Err(Fault::BadRequest),
                };
            }
        }
    }
}

impl<R: Source> Reader<R> {
    ghost use Rattle.disco_http.specs.Replies.{HasNoReply, TakesReply, ReplyRefused};
    ghost use Rattle.disco_http.specs.Streams.{ahead, reader_limits, source_of, is_spent, Came};

    /// Reads a reply, its body by length, in chunks or, with neither, up to the end of the input.
    ///
    /// # Errors
    ///
    /// `BadRequest` (also at an end before its head), `HeadTooLarge`, `BodyTooLarge`, `OutOfMemory`
    /// or `ReadFailed`. Then the reader is spent.
    pub fn read_reply(&mut self, alloc: Global) -> Result<ReceivedReply, Fault>
        requires { IsFalse (is_spent self.old) }
        // What is read is the reply at the front of the stream, and the rest stays ahead.
        ensures reply { IfOk result (λ reply. IfSome (ahead R.remaining self.old) (λ stream.
            (rest : List ℕ) × TakesReply (reader_limits self.old) stream reply.head reply.body.items rest × (ahead R.remaining self.new ≡ Some rest))) }
        // A refusal has its cause in the stream.
        ensures refused { IfErr result (λ fault. IfSome (ahead R.remaining self.old) (ReplyRefused (reader_limits self.old) fault)) }
        // After a failed read what had come holds no whole reply, but for one without an end of its own.
        ensures broken { IsErrOf result ReadFailed → IfSome (ahead R.remaining self.old) (λ stream.
            Came (HasNoReply (reader_limits self.old)) stream (R.remaining (source_of self.new))) }
        ensures limits { reader_limits self.new ≡ reader_limits self.old }
        ensures fault { IfErr result (λ fault. IsTrue (is_of_reply fault)) }
        // A failed read has raised the count of failures.
        ensures cause { Cause ReadFailed (R.failed (source_of self.old)) (R.failed (source_of self.new)) result }
        ensures none_failed { OnOk result (R.failed (source_of self.new) ≡ R.failed (source_of self.old)) }
        ensures spent { is_spent self.new ≡ is_err result }
    {
        self.spent = true;
        let head = self.read_reply_head(alloc)?;
        let body = self.read_body(alloc, head.extent())?;
        self.spent = false;
        Ok(ReceivedReply { head, body })
    }
}
