//! What a connection reads from and writes to.
ghost use Rattle.std.specs.Prelude.{◌≡◌, ℕ, ◌<◌, List, Option, IfOk, length};
ghost use Rattle.std.specs.Io.{ReadsAtMost, WritesAtMost};
ghost use Rattle.std.specs.Io.KnownBytes.{ReadConsumes, WriteAppends};
ghost use Rattle.disco_http.specs.Causes.{Counts, Raises};

use std::io::{ErrorKind, Read, Write};

/// The host failed to read or to write.
#[derive(Clone, Copy, Debug, PartialEq, Eq)]
pub struct Failed;

/// A read or a write that is interrupted is tried again, so often at most.
const TURNS: u64 = 1 << 32;

/// What has come of the message that is read next.
#[derive(Clone, Copy, Debug, PartialEq, Eq)]
pub enum Stage {
    /// Nothing of it: the last one is over.
    Between,
    /// Some of its head, and not all.
    Head,
    /// Its head, and not all of its body.
    Body,
}

/// What a connection reads from.
pub trait Source {
    // The bytes that reads will give from here on, where they are known.
    ghost remaining: { Self → Option (List ℕ) };

    // How often a read has failed.
    ghost failed: { Self → ℕ };

    /// Reads once. 0 is the end of the input, where `buf` has room.
    ///
    /// # Errors
    ///
    /// `Failed` where the read fails. That raises the count of failures, or finds it at 2^64 - 1.
    fn read(&mut self, buf: &mut [u8]) -> Result<usize, Failed>
        ensures bound { ReadsAtMost result buf.new }
        ensures bytes { ReadConsumes (remaining self.old) (remaining self.new) result buf.new }
        ensures cause { Counts (failed self.old) (failed self.new) result };

    /// How often a read has failed.
    fn failures(&self) -> u64
        ensures { result ≡ failed self.now };

    /// Is told what has come of the next request before it is read on: a source may wait longer for
    /// one than for another. What reads give stays the same.
    fn expect(&self, _stage: Stage) {}
}

/// What a connection writes to.
pub trait Sink {
    // The bytes that were written, where they are known.
    ghost contents: { Self → Option (List ℕ) };

    // How often a write has failed.
    ghost failed: { Self → ℕ };

    /// Writes once, at least one byte where there are any.
    ///
    /// # Errors
    ///
    /// `Failed` where the write fails. That raises the count of failures, or finds it at 2^64 - 1.
    fn write(&mut self, buf: &[u8]) -> Result<usize, Failed>
        ensures bound { WritesAtMost result buf.now }
        ensures some { IfOk result (λ n. 0 < length buf.now → 0 < n) }
        ensures bytes { WriteAppends (contents self.old) (contents self.new) result buf.now }
        ensures cause { Counts (failed self.old) (failed self.new) result };

    /// How often a write has failed.
    fn failures(&self) -> u64
        ensures { result ≡ failed self.now };
}

/// Any reader or writer, with its failures counted up to 2^64 - 1.
#[derive(Drop)]
pub struct Counted<T> {
    pub inner: T,
    pub failures: u64,
}

impl<T> Counted<T> {
    /// A reader or writer of which no failure was counted yet.
    pub fn new(inner: T) -> Counted<T>
        ensures inner { result.inner ≡ inner }
        ensures none { result.failures ≡ 0 }
    {
        Counted { inner, failures: 0 }
    }

    /// Counts a failure.
    fn fail(&mut self) -> Failed
        ensures inner { self.new.inner ≡ self.old.inner }
        ensures raised { Raises self.old.failures self.new.failures }
    {
        self.failures = self.failures.saturating_add(1);
        Failed
    }
}

impl<R: Read> Source for Counted<R> {
    ghost remaining = { λ c. R.remaining c.inner };

    ghost failed = { λ c. c.failures };

    fn read(&mut self, buf: &mut [u8]) -> Result<usize, Failed> {
        for _ in 0..TURNS {
            match self.inner.read(buf) {
                Ok(n) => return Ok(n),
                Err(e) => {
                    if e.kind() != ErrorKind::Interrupted {
                        break;
                    }
                }
            }
        }
        Err(self.fail())
    }

    fn failures(&self) -> u64 {
        self.failures
    }
}

// A write of no byte is a failure, where there are bytes to write.
impl<W: Write> Sink for Counted<W> {
    ghost contents = { λ c. W.contents c.inner };

    ghost failed = { λ c. c.failures };

    fn write(&mut self, buf: &[u8]) -> Result<usize, Failed> {
        for _ in 0..TURNS {
            match self.inner.write(buf) {
                Ok(0) if !buf.is_empty() => break,
                Ok(n) => return Ok(n),
                Err(e) => {
                    if e.kind() != ErrorKind::Interrupted {
                        break;
                    }
                }
            }
        }
        Err(self.fail())
    }

    fn failures(&self) -> u64 {
        self.failures
    }
}
