//! Bytes that came and were not yet used.
ghost use Rattle.std.specs.Prelude.{◌≡◌, ◌+◌, ◌≤◌, ◌<◌, ◌++◌, [], ℕ, List, max, Ok, IfOk, OnOk, OnErr, drop, length, slice_range, take, vec_len};
ghost use Rattle.std.specs.Borrow.{sem};
ghost use Rattle.std.specs.Vec.{vec_capacity};
ghost use Rattle.std.specs.Io.KnownBytes.{Keeps, Consumes, IsAtEnd};
ghost use Rattle.disco_http.specs.Causes.{Counts};

use crate::source::{Failed, Source};
use std::alloc::{AllocError, Global};

/// Bytes that came and were not yet used, in a buffer.
#[derive(Drop)]
pub(crate) struct Unread {
    pub(crate) buffer: Vec<u8>,
    pub(crate) start: usize,
    pub(crate) end: usize,
    ghost ordered: { start ≤ end },
    ghost within: { end ≤ vec_len buffer },
}

/// Reads once into a buffer, from the place `end` on.
fn read_at<R: Source>(source: &mut R, buffer: &mut [u8], end: usize) -> Result<usize, Failed>
    requires { end < length buffer.old }
    ensures front { take end buffer.new ≡ take end buffer.old }
    ensures length { length buffer.new ≡ length buffer.old }
    ensures within { IfOk result (λ n. end + n ≤ length buffer.new) }
    ensures bytes { IfOk result (λ n. Consumes (R.remaining source.old) (R.remaining source.new) (slice_range buffer.new end (end + n))) }
    ensures end { result ≡ Ok 0 → IsAtEnd (R.remaining source.new) }
    ensures err { OnErr result (Keeps (R.remaining source.old) (R.remaining source.new)) }
    ensures cause { Counts (R.failed source.old) (R.failed source.new) result }
{
    source.read(&mut buffer[end..])
}

impl Unread {
    ghost use Rattle.disco_http.specs.Unread.{LendsRoom, bytes_of, room_of};

    /// No bytes, in a buffer of this size.
    pub(crate) fn new(alloc: Global, size: usize) -> Result<Unread, AllocError>
        ensures none { IfOk result (λ unread. bytes_of unread ≡ []) }
        ensures size { IfOk result (λ unread. vec_len unread.buffer ≡ size) }
    {
        let buffer = vec![in alloc; 0; size]?;
        Ok(Unread {
            buffer,
            start: 0,
            end: 0,
        })
    }

    /// No bytes, and no buffer.
    pub(crate) fn none(alloc: Global) -> Unread
        ensures none { bytes_of result ≡ [] }
        ensures size { vec_len result.buffer ≡ 0 }
        ensures capacity { vec_capacity result.buffer ≡ 0 }
    {
        Unread {
            buffer: Vec::new(alloc),
            start: 0,
            end: 0,
        }
    }

    /// Gives the buffer back, where there are no bytes.
    pub(crate) fn release(&mut self, alloc: Global)
        ensures same { bytes_of self.new ≡ bytes_of self.old }
        ensures size { vec_len self.new.buffer ≤ vec_len self.old.buffer }
        ensures none { bytes_of self.old ≡ [] → vec_capacity self.new.buffer ≡ 0 }
    {
        if self.start == self.end {
            *self = Unread::none(alloc);
        }
    }

    /// Drops the bytes, and keeps the buffer.
    pub(crate) fn clear(&mut self)
        ensures none { bytes_of self.new ≡ [] }
        ensures size { vec_len self.new.buffer ≡ vec_len self.old.buffer }
    {
        self.start = 0;
        self.end = 0;
    }

    /// The bytes.
    pub(crate) fn bytes(&self) -> &[u8]
        ensures bytes { result.now ≡ bytes_of self.now }
        ensures within { length result.now ≤ vec_len self.now.buffer }
    {
        &self.buffer[self.start..self.end]
    }

    /// Goes past so many of the bytes.
    pub(crate) fn consume(&mut self, count: usize)
        requires { count ≤ length (bytes_of self.old) }
        ensures rest { bytes_of self.new ≡ drop count (bytes_of self.old) }
        ensures size { vec_len self.new.buffer ≡ vec_len self.old.buffer }
    {
        self.start += count;
    }

    /// Moves so many of the bytes behind a body.
    pub(crate) fn move_to(&mut self, body: &mut Vec<u8>, count: usize) -> Result<(), AllocError>
        requires { count ≤ length (bytes_of self.old) }
        ensures body { OnOk result (body.new.items ≡ body.old.items ++ take count (bytes_of self.old)) }
        ensures rest { OnOk result (bytes_of self.new ≡ drop count (bytes_of self.old)) }
        ensures size { vec_len self.new.buffer ≡ vec_len self.old.buffer }
    {
        body.extend_from_slice(&self.bytes()[..count])?;
        self.consume(count);
        Ok(())
    }

    /// Moves the bytes to the front of the buffer.
    fn compact(&mut self)
        ensures same { bytes_of self.new ≡ bytes_of self.old }
        ensures size { vec_len self.new.buffer ≡ vec_len self.old.buffer }
        ensures end { self.new.end ≡ length (bytes_of self.old) }
    {
        let (start, end) = (self.start, self.end);
        self.buffer.copy_within(start..end, 0);
        self.start = 0;
        self.end = end - start;
    }

    /// Makes room for a read, if the bytes don't fill the buffer.
    fn make_room(&mut self)
        ensures same { bytes_of self.new ≡ bytes_of self.old }
        ensures size { vec_len self.new.buffer ≡ vec_len self.old.buffer }
        ensures room { length (bytes_of self.old) < vec_len self.old.buffer → self.new.end < vec_len self.new.buffer }
    {
        // Where nothing is unread, what comes next is read into the memory that was used last.
        if self.start == self.end || self.end == self.buffer.len() {
            self.compact();
        }
    }

    /// Makes room for a read. A buffer that the bytes fill doubles, from `least` up to `most`.
    pub(crate) fn grow(&mut self, least: usize, most: usize) -> Result<(), AllocError>
        requires { 0 < least }
        ensures same { bytes_of self.new ≡ bytes_of self.old }
        ensures size { vec_len self.new.buffer ≤ max (vec_len self.old.buffer) most }
        ensures room { OnOk result (length (bytes_of self.old) < most → self.new.end < vec_len self.new.buffer) }
    {
        self.make_room();
        let size = self.buffer.len();
        if self.end == size {
            let double = size.saturating_mul(2).max(least).min(most);
            self.buffer.resize(double.max(size), 0)?;
        }
        Ok(())
    }

    /// So much of the room behind the bytes.
    pub(crate) fn room(&mut self, size: usize) -> &mut [u8]
        requires { self.old.end + size ≤ vec_len self.old.buffer }
        ensures* writes_back { sem 𝓛 (LendsRoom self.entry result) }
        ensures value { result.now ≡ take size (room_of self.old) }
    {
        let from = self.end;
        self.buffer.slice_mut(from..from + size)
    }

    /// So many bytes came into the room.
    pub(crate) fn add(&mut self, count: usize)
        ensures bytes { bytes_of self.new ≡ bytes_of self.old ++ take count (room_of self.old) }
        ensures size { vec_len self.new.buffer ≡ vec_len self.old.buffer }
    {
        self.end += count.min(self.buffer.len() - self.end);
    }

    /// Reads once, behind the bytes. 0 is the end of the input.
    pub(crate) fn read_from<R: Source>(&mut self, source: &mut R) -> Result<usize, Failed>
        requires { length (bytes_of self.old) < vec_len self.old.buffer }
        ensures came { IfOk result (λ n. (came : List ℕ) × (bytes_of self.new ≡ bytes_of self.old ++ came) × (length came ≡ n)
            × Consumes (R.remaining source.old) (R.remaining source.new) came) }
        ensures end { result ≡ Ok 0 → IsAtEnd (R.remaining source.new) }
        ensures broken { OnErr result ((bytes_of self.new ≡ bytes_of self.old) × Keeps (R.remaining source.old) (R.remaining source.new)) }
        ensures size { vec_len self.new.buffer ≡ vec_len self.old.buffer }
        ensures cause { Counts (R.failed source.old) (R.failed source.new) result }
    {
        self.make_room();
        let count = read_at(source, self.buffer.as_mut_slice(), self.end)?;
        self.end += count;
        Ok(count)
    }
}
