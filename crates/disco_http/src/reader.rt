//! A source with a buffer in front of it.
ghost use Rattle.std.specs.Prelude.{◌≡◌, ◌⊎◌, ◌<◌, ◌++◌, ℕ, List, IsTrue, IsFalse, IsErrOf, Ok, false, true, vec_len, IfOk, IfErr, OnOk, OnErr, length};
ghost use Rattle.std.specs.Io.KnownBytes.{Keeps, Consumes, IsAtEnd};
ghost use Rattle.disco_values.specs.declared.fault.Fault.TheVariants.{ReadFailed};
ghost use Rattle.disco_http.specs.Causes.{Cause};
ghost use Rattle.disco_http.specs.declared.incoming.Phase.TheVariants as phase;

use crate::incoming::{Incoming, Phase, Room};
use crate::source::{Failed, Source};
use crate::unread::Unread;
use disco_message::{Limits, Request};
use disco_values::Fault;
use std::alloc::{AllocError, Global};

/// A source with a buffer in front of it, which holds what was read and not yet taken. The buffer
/// has the size of the largest head and keeps it. The room of a request that was answered is kept for
/// the next: it grows to the largest head and the largest body that were read.
#[derive(Drop)]
pub struct Reader<R> {
    /// What a connection may ask for.
    pub limits: Limits,
    pub(crate) source: R,
    pub(crate) incoming: Incoming,
    pub(crate) room: Room,
    pub(crate) spent: bool,
    ghost size: { vec_len incoming.unread.buffer ≡ limits.head },
    ghost places: { vec_len room.spans ≡ limits.fields },
    ghost between: { IsFalse spent → incoming.phase ≡ phase.Head },
}

impl<R: Source> Reader<R> {
    ghost use Rattle.disco_http.specs.Streams.{ahead, reader_limits, source_of, is_spent};

    /// A buffer in front of a source, with nothing read.
    ///
    /// # Errors
    ///
    /// `AllocError` where memory is refused.
    pub fn new(alloc: Global, source: R, limits: Limits) -> Result<Reader<R>, AllocError>
    where
        R: Drop,
        ensures ahead { IfOk result (λ reader. Keeps (R.remaining source) (ahead R.remaining reader)) }
        ensures limits { IfOk result (λ reader. reader_limits reader ≡ limits) }
        ensures source { IfOk result (λ reader. source_of reader ≡ source) }
        ensures spent { IfOk result (λ reader. IsFalse (is_spent reader)) }
    {
        let incoming = Incoming {
            unread: Unread::new(alloc, limits.head)?,
            phase: Phase::Head,
        };
        let room = Room::new(alloc, limits.fields)?;
        Ok(Reader {
            limits,
            source,
            incoming,
            room,
            spent: false,
        })
    }

    /// The same buffer in front of another source, with nothing read. Takes no memory.
    pub fn over<S: Source>(self, source: S) -> Reader<S>
    where
        R: Drop,
        ensures ahead { Keeps (S.remaining source) (ahead S.remaining result) }
        ensures limits { reader_limits result ≡ reader_limits self }
        ensures source { source_of result ≡ source }
        ensures spent { IsFalse (is_spent result) }
    {
        let Reader {
            limits,
            source: _source,
            incoming,
            room,
            spent: _,
        } = self;
        let mut unread = incoming.unread;
        unread.clear();
        Reader {
            limits,
            source,
            incoming: Incoming {
                unread,
                phase: Phase::Head,
            },
            room,
            spent: false,
        }
    }

    /// Keeps the room of a request that was answered, for the next one.
    pub fn keep(&mut self, request: Request)
        ensures ahead { ahead R.remaining self.new ≡ ahead R.remaining self.old }
        ensures limits { reader_limits self.new ≡ reader_limits self.old }
        ensures source { source_of self.new ≡ source_of self.old }
        ensures spent { is_spent self.new ≡ is_spent self.old }
    {
        self.room.keep(request);
    }

    /// Reads nothing more.
    pub fn spend(&mut self)
        ensures spent { IsTrue (is_spent self.new) }
        ensures ahead { ahead R.remaining self.new ≡ ahead R.remaining self.old }
        ensures limits { reader_limits self.new ≡ reader_limits self.old }
        ensures source { source_of self.new ≡ source_of self.old }
    {
        self.spent = true;
    }

    /// Whether a call was refused, or the connection has ended. Then nothing more is read.
    pub fn is_spent(&self) -> bool
        ensures { result ≡ is_spent self.now }
    {
        self.spent
    }
}

impl<R: Source> Reader<R> {
    ghost use Rattle.disco_http.specs.Streams.{unread};

    /// Reads once, behind what is unread. False at the end of the input.
    pub(crate) fn more(&mut self) -> Result<bool, Fault>
        requires { length (unread self.old) < self.old.limits.head }
        ensures came { OnOk result ((came : List ℕ) × (unread self.new ≡ unread self.old ++ came)
            × Consumes (R.remaining self.old.source) (R.remaining self.new.source) came) }
        ensures grown { result ≡ Ok true → length (unread self.old) < length (unread self.new) }
        ensures end { result ≡ Ok false → (unread self.new ≡ unread self.old) × IsAtEnd (R.remaining self.new.source) }
        ensures broken { OnErr result ((unread self.new ≡ unread self.old) × Keeps (R.remaining self.old.source) (R.remaining self.new.source)) }
        ensures phase { self.new.incoming.phase ≡ self.old.incoming.phase }
        ensures limits { self.new.limits ≡ self.old.limits }
        ensures spent { self.new.spent ≡ self.old.spent }
        ensures fault { IfErr result (λ fault. fault ≡ ReadFailed) }
        ensures cause { Cause ReadFailed (R.failed self.old.source) (R.failed self.new.source) result }
        ensures none_failed { OnOk result (R.failed self.new.source ≡ R.failed self.old.source) }
    {
        match self.incoming.unread.read_from(&mut self.source) {
            Ok(count) => Ok(count > 0),
            Err(Failed) => Err(Fault::ReadFailed),
        }
    }
}
