//! A sink with room for a reply in front of it.
ghost use Rattle.std.specs.Prelude.{◌≤◌};
ghost use Rattle.std.specs.Vec.{vec_capacity};
ghost use Rattle.disco_values.specs.declared.fault.Fault.TheVariants.{WriteFailed};

use crate::source::Sink;
use crate::whole::write_all;
use disco_message::HEAD_ROOM;
use disco_values::Fault;
use std::alloc::{AllocError, Global};

/// Bodies up to this size are written together with their head, in bytes.
pub(crate) const SMALL_BODY: usize = 4_096;

/// A sink with room for the head of a reply and a small body, so that no reply takes memory. Behind a
/// write that failed nothing more is written.
#[derive(Drop)]
pub struct Writer<W> {
    pub(crate) sink: W,
    pub(crate) room: Vec<u8>,
    pub(crate) spent: bool,
    ghost fits: { 4352 ≤ vec_capacity room },
}

impl<W: Drop> Writer<W> {
    ghost use Rattle.std.specs.Prelude.{◌≡◌, IfOk, IsFalse};
    ghost use Rattle.disco_http.specs.Sinks.{is_writer_spent, sink_of};

    /// Room in front of a sink, with nothing written.
    ///
    /// # Errors
    ///
    /// `AllocError` where memory is refused.
    pub fn new(alloc: Global, sink: W) -> Result<Writer<W>, AllocError>
        ensures sink { IfOk result (λ writer. sink_of writer ≡ sink) }
        ensures spent { IfOk result (λ writer. IsFalse (is_writer_spent writer)) }
    {
        let room = Vec::with_capacity(alloc, HEAD_ROOM + SMALL_BODY)?;
        Ok(Writer {
            sink,
            room,
            spent: false,
        })
    }

    /// The same room in front of another sink, with nothing written. Takes no memory.
    pub fn over<V>(self, sink: V) -> Writer<V>
        ensures sink { sink_of result ≡ sink }
        ensures spent { IsFalse (is_writer_spent result) }
    {
        let Writer {
            sink: _sink,
            room,
            spent: _,
        } = self;
        Writer {
            sink,
            room,
            spent: false,
        }
    }
}

impl<W: Sink> Writer<W> {
    ghost use Rattle.std.specs.Prelude.{◌≡◌, ℕ, List, length, is_err, IfErr, IsFalse, IsTrue, OnOk, OnErr};
    ghost use Rattle.std.specs.Io.KnownBytes.{Appends};
    ghost use Rattle.disco_http.specs.Causes.{Raises};
    ghost use Rattle.disco_http.specs.Exchanges.{HasText};
    ghost use Rattle.disco_http.specs.Writes.{AppendsProperFront, WritesBytes};
    ghost use Rattle.disco_http.specs.Sinks.{is_writer_spent, sink_of};

    /// Whether a write failed, or the connection has ended. Then nothing more is written.
    pub fn is_spent(&self) -> bool
        ensures { result ≡ is_writer_spent self.now }
    {
        self.spent
    }

    /// Writes nothing more.
    pub(crate) fn spend(&mut self)
        ensures spent { IsTrue (is_writer_spent self.new) }
        ensures sink { sink_of self.new ≡ sink_of self.old }
    {
        self.spent = true;
    }

    /// Writes a text of so many bytes. It begins with what is in the room, and this body follows where
    /// that isn't all of it.
    pub(crate) fn send(&mut self, size: usize, body: &[u8]) -> Result<(), Fault>
        ensures written { (text : List ℕ) → HasText text self.old.room.items body.now → size ≡ length text
            → WritesBytes (W.contents self.old.sink) (W.contents self.new.sink) (W.failed self.old.sink) (W.failed self.new.sink) result text }
        ensures fault { IfErr result (λ fault. fault ≡ WriteFailed) }
        ensures spent { self.new.spent ≡ self.old.spent }
    {
        write_all(&mut self.sink, &self.room)?;
        if self.room.len() < size {
            write_all(&mut self.sink, body)?;
        }
        Ok(())
    }

    /// Writes these bytes as they are, as the head of a request. Takes no memory.
    ///
    /// # Errors
    ///
    /// `WriteFailed` alone. Then a front of the bytes was written, and the writer is spent.
    pub fn write_bytes(&mut self, bytes: &[u8]) -> Result<(), Fault>
        requires { IsFalse (is_writer_spent self.old) }
        ensures written { OnOk result (Appends (W.contents (sink_of self.old)) (W.contents (sink_of self.new)) bytes.now) }
        ensures front { OnErr result (AppendsProperFront (W.contents (sink_of self.old)) (W.contents (sink_of self.new)) bytes.now) }
        ensures fault { IfErr result (λ fault. fault ≡ WriteFailed) }
        ensures cause { OnErr result (Raises (W.failed (sink_of self.old)) (W.failed (sink_of self.new))) }
        ensures none_failed { OnOk result (W.failed (sink_of self.new) ≡ W.failed (sink_of self.old)) }
        ensures spent { is_writer_spent self.new ≡ is_err result }
    {
        let result = write_all(&mut self.sink, bytes);
        self.spent = result.is_err();
        result
    }
}
