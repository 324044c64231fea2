//! A body that comes: of so many bytes, in chunks, or up to the end of the input.
ghost use Rattle.std.specs.Prelude.{◌≡◌, ◌⊎◌, ◌+◌, ◌-◌, ◌*◌, ◌≤◌, ◌<◌, ◌^◌, ◌++◌, ◌↔◌, [], ℕ, List, IsFalse, IsTrue, drop, length, vec_len};
ghost use Rattle.std.specs.Prelude.{IfOk, IfErr, Ok, OnOk, false};
ghost use Rattle.httparse.specs.Ascii.{crlf_bytes};
ghost use Rattle.httparse.specs.declared.spans.HeaderSpan.{HeaderSpan};
ghost use Rattle.disco_values.specs.declared.fault.Fault.TheVariants.{BodyTooLarge, OutOfMemory};
ghost use Rattle.disco_message.specs.declared.framing.Framing.TheVariants.{Chunked, Sized};
ghost use Rattle.disco_message.specs.declared.received.Extent.{Extent};
ghost use Rattle.disco_message.specs.declared.received.Extent.TheVariants.{UntilEnd};

use crate::parts::{Found, Part, find};
use crate::unread::Unread;
use disco_message::{Extent, Framing, Limits};
use disco_values::Fault;
use httparse::spans::HeaderSpan;
use std::alloc::AllocError;

/// What of a body still comes.
#[derive(Clone, Copy, Debug)]
pub(crate) enum Left {
    /// So many bytes.
    Bytes(u64),
    /// The line in front of a chunk.
    Line,
    /// So many bytes of a chunk with the line end behind it.
    Chunk(u64),
    /// The fields behind the last chunk.
    Trailer,
    /// All bytes up to the end of the input.
    ToEnd,
}

/// What a turn came to.
#[derive(Clone, Copy, Debug)]
pub(crate) enum Turn {
    /// The body is whole.
    Whole,
    /// A part of it was read, and the next one may be there.
    Goes,
    /// It waits for bytes.
    Waits,
}

/// A body of which some came.
#[derive(Drop)]
pub(crate) struct Body {
    pub(crate) bytes: Vec<u8>,
    pub(crate) left: Left,
    /// How many bytes more its next chunks may have, or what comes up to the end.
    pub(crate) room: u64,
    ghost fits: { room < 2 ^ 63 },
}

/// Whether a line end stands from a place on, and nothing behind it.
fn is_line_end(bytes: &[u8], from: usize) -> bool
    requires { from ≤ length bytes.now }
    ensures { IsTrue result ↔ (drop from bytes.now ≡ crlf_bytes) }
{
    &bytes[from..] == b"\r\n".as_slice()
}

impl Body {
    ghost use Rattle.disco_http.specs.Coming.{BodyAt, Lessens, Refuses, Turns, effort, fuel, is_of_bytes, turn_of};
    ghost use Rattle.disco_http.specs.Replies.{ExtentRefused, ReadsExtent};
    ghost use Rattle.disco_http.specs.Unread.{bytes_of};
    ghost use Rattle.disco_http.specs.declared.body.Left.TheVariants as left;
    ghost use Rattle.disco_http.specs.declared.body.Turn.TheVariants as turn;

    /// A body of which nothing came, in empty room.
    ///
    /// Refused as `BodyTooLarge` where its size is beyond the limit.
    pub(crate) fn new(limits: &Limits, extent: Extent, room: Vec<u8>) -> Result<Body, Fault>
        requires { room.items ≡ [] }
        ensures begun { IfOk result (λ body. (after : List ℕ) → BodyAt limits.now extent after body.bytes.items body.left body.room after) }
        ensures refused { IfErr result (λ fault. (after : List ℕ) → ExtentRefused limits.now extent fault after) }
        ensures fault { IfErr result (λ fault. fault ≡ BodyTooLarge) }
        ensures fuel { IfOk result (λ body. (unread : ℕ) → fuel limits.now.head body.left body.room unread ≤ limits.now.body * (limits.now.head + 3) + limits.now.head + (limits.now.head - unread)) }
    {
        let left = match extent {
            Extent::Framed(Framing::Sized(size)) => {
                if size > limits.body {
                    return Err(Fault::BodyTooLarge);
                }
                Left::Bytes(size)
            }
            Extent::Framed(Framing::Chunked) => Left::Line,
            Extent::UntilEnd => Left::ToEnd,
        };
        Ok(Body {
            bytes: room,
            left,
            room: limits.body,
        })
    }

    /// Takes what came of so many bytes. Answers how many are missing still.
    fn take(&mut self, unread: &mut Unread, missing: u64) -> Result<u64, AllocError>
        ensures taken { IfOk result (λ missing_still. (piece : List ℕ) × (bytes_of unread.old ≡ piece ++ bytes_of unread.new)
            × (self.new.bytes.items ≡ self.old.bytes.items ++ piece) × (length piece + missing_still ≡ missing)) }
        ensures all { IfOk result (λ missing_still. 0 < missing_still → bytes_of unread.new ≡ []) }
        ensures left { self.new.left ≡ self.old.left }
        ensures room { self.new.room ≡ self.old.room }
        ensures size { vec_len unread.new.buffer ≡ vec_len unread.old.buffer }
    {
        let count = unread.bytes().len();
        if count as u64 >= missing {
            unread.move_to(&mut self.bytes, missing as usize)?;
            return Ok(0);
        }
        unread.move_to(&mut self.bytes, count)?;
        Ok(missing - count as u64)
    }

    /// Takes what came of a body of which so many bytes are missing.
    fn take_sized(
        &mut self,
        limits: &Limits,
        unread: &mut Unread,
        missing: u64,
    ) -> Result<Turn, Fault>
        requires left { self.old.left ≡ left.Bytes missing }
        requires size { vec_len unread.old.buffer ≤ limits.now.head }
        ensures turns { IfOk result (Turns limits.now self.old (bytes_of unread.old) self.new (bytes_of unread.new)) }
        ensures refused { IfErr result (Refuses limits.now self.old (bytes_of unread.old)) }
        ensures stops { result ≡ Ok turn.Goes → ⊥ }
        ensures waits { result ≡ Ok turn.Waits → bytes_of unread.new ≡ [] }
        ensures fuel { IfOk result (Lessens limits.now.head self.old (bytes_of unread.old) self.new (bytes_of unread.new)) }
        ensures fault { IfErr result (λ fault. IsTrue (is_of_bytes fault)) }
        ensures size { vec_len unread.new.buffer ≡ vec_len unread.old.buffer }
    {
        let missing = self.take(unread, missing)?;
        self.left = Left::Bytes(missing);
        Ok(if missing == 0 {
            Turn::Whole
        } else {
            Turn::Waits
        })
    }

    /// Begins a chunk of this size, whose line was read; with 0, the fields behind the last one.
    fn begin_chunk(&mut self, size: u64) -> Result<(), Fault>
        ensures last { size ≡ 0 → OnOk result ((self.new.left ≡ left.Trailer) × (self.new.room ≡ self.old.room)) }
        ensures begun { 0 < size → OnOk result ((self.new.left ≡ left.Chunk (size + 2)) × (size + self.new.room ≡ self.old.room)) }
        ensures bytes { self.new.bytes ≡ self.old.bytes }
        ensures refused { IfErr result (λ fault. (fault ≡ BodyTooLarge) × (self.old.room < size)) }
    {
        if size == 0 {
            self.left = Left::Trailer;
            return Ok(());
        }
        if size > self.room {
            return Err(Fault::BodyTooLarge);
        }
        self.room -= size;
        self.left = Left::Chunk(size + 2);
        Ok(())
    }

    /// Reads the line in front of a chunk.
    fn read_line(
        &mut self,
        limits: &Limits,
        unread: &mut Unread,
        spans: &mut Vec<HeaderSpan>,
    ) -> Result<Turn, Fault>
        requires left { self.old.left ≡ left.Line }
        requires size { vec_len unread.old.buffer ≤ limits.now.head }
        requires places { vec_len spans.old ≡ limits.now.fields }
        ensures turns { IfOk result (Turns limits.now self.old (bytes_of unread.old) self.new (bytes_of unread.new)) }
        ensures refused { IfErr result (Refuses limits.now self.old (bytes_of unread.old)) }
        ensures goes { result ≡ Ok turn.Goes → length (bytes_of unread.new) < length (bytes_of unread.old) }
        ensures waits { result ≡ Ok turn.Waits → length (bytes_of unread.new) < limits.now.head }
        ensures fuel { IfOk result (Lessens limits.now.head self.old (bytes_of unread.old) self.new (bytes_of unread.new)) }
        ensures fault { IfErr result (λ fault. IsTrue (is_of_bytes fault)) }
        ensures size { vec_len unread.new.buffer ≡ vec_len unread.old.buffer }
        ensures places { vec_len spans.new ≡ vec_len spans.old }
    {
        let Ok(found) = find(limits, Part::SizeLine, unread, spans) else {
            return Err(Fault::BadRequest);
        };
        let Some(Found::SizeLine(len, size)) = found else {
            return Ok(Turn::Waits);
        };
        unread.consume(len);
        self.begin_chunk(size)?;
        Ok(Turn::Goes)
    }

    /// Takes what came of a chunk and its line end, of which so many bytes are missing.
    fn take_chunk(
        &mut self,
        limits: &Limits,
        unread: &mut Unread,
        missing: u64,
    ) -> Result<Turn, Fault>
        requires left { self.old.left ≡ left.Chunk missing }
        requires size { vec_len unread.old.buffer ≤ limits.now.head }
        ensures turns { IfOk result (Turns limits.now self.old (bytes_of unread.old) self.new (bytes_of unread.new)) }
        ensures refused { IfErr result (Refuses limits.now self.old (bytes_of unread.old)) }
        ensures goes { result ≡ Ok turn.Goes → (self.new.left ≡ left.Line) × (length (bytes_of unread.new) ≤ length (bytes_of unread.old)) }
        ensures waits { result ≡ Ok turn.Waits → bytes_of unread.new ≡ [] }
        ensures fuel { IfOk result (Lessens limits.now.head self.old (bytes_of unread.old) self.new (bytes_of unread.new)) }
        ensures fault { IfErr result (λ fault. IsTrue (is_of_bytes fault)) }
        ensures size { vec_len unread.new.buffer ≡ vec_len unread.old.buffer }
    {
        let missing = self.take(unread, missing)?;
        if missing > 0 {
            self.left = Left::Chunk(missing);
            return Ok(Turn::Waits);
        }
        let end = self.bytes.len().saturating_sub(2);
        if !is_line_end(&self.bytes, end) {
            return Err(Fault::BadRequest);
        }
        self.bytes.truncate(end);
        self.left = Left::Line;
        Ok(Turn::Goes)
    }

    /// Goes past the fields behind the last chunk.
    fn skip_trailer(
        &self,
        limits: &Limits,
        unread: &mut Unread,
        spans: &mut Vec<HeaderSpan>,
    ) -> Result<Turn, Fault>
        requires left { self.now.left ≡ left.Trailer }
        requires size { vec_len unread.old.buffer ≤ limits.now.head }
        requires places { vec_len spans.old ≡ limits.now.fields }
        ensures turns { IfOk result (Turns limits.now self.now (bytes_of unread.old) self.now (bytes_of unread.new)) }
        ensures refused { IfErr result (Refuses limits.now self.now (bytes_of unread.old)) }
        ensures stops { result ≡ Ok turn.Goes → ⊥ }
        ensures waits { result ≡ Ok turn.Waits → length (bytes_of unread.new) < limits.now.head }
        ensures fuel { IfOk result (Lessens limits.now.head self.now (bytes_of unread.old) self.now (bytes_of unread.new)) }
        ensures fault { IfErr result (λ fault. IsTrue (is_of_bytes fault)) }
        ensures size { vec_len unread.new.buffer ≡ vec_len unread.old.buffer }
        ensures places { vec_len spans.new ≡ vec_len spans.old }
    {
        let Some(Found::Trailer(len)) = find(limits, Part::Trailer, unread, spans)? else {
            return Ok(Turn::Waits);
        };
        unread.consume(len);
        Ok(Turn::Whole)
    }

    /// Takes all that came.
    fn take_all(&mut self, limits: &Limits, unread: &mut Unread) -> Result<Turn, Fault>
        requires left { self.old.left ≡ left.ToEnd }
        requires size { vec_len unread.old.buffer ≤ limits.now.head }
        ensures turns { IfOk result (Turns limits.now self.old (bytes_of unread.old) self.new (bytes_of unread.new)) }
        ensures refused { IfErr result (Refuses limits.now self.old (bytes_of unread.old)) }
        ensures waits { IfOk result (λ came_to. (came_to ≡ turn.Waits) × (bytes_of unread.new ≡ [])) }
        ensures fuel { IfOk result (Lessens limits.now.head self.old (bytes_of unread.old) self.new (bytes_of unread.new)) }
        ensures fault { IfErr result (λ fault. IsTrue (is_of_bytes fault)) }
        ensures size { vec_len unread.new.buffer ≡ vec_len unread.old.buffer }
    {
        let count = unread.bytes().len();
        if count as u64 > self.room {
            return Err(Fault::BodyTooLarge);
        }
        unread.move_to(&mut self.bytes, count)?;
        self.room -= count as u64;
        Ok(Turn::Waits)
    }

    /// Reads the next part of the body, as far as it came.
    fn turn(
        &mut self,
        limits: &Limits,
        unread: &mut Unread,
        spans: &mut Vec<HeaderSpan>,
    ) -> Result<Turn, Fault>
        requires size { vec_len unread.old.buffer ≤ limits.now.head }
        requires places { vec_len spans.old ≡ limits.now.fields }
        ensures turns { IfOk result (Turns limits.now self.old (bytes_of unread.old) self.new (bytes_of unread.new)) }
        ensures refused { IfErr result (Refuses limits.now self.old (bytes_of unread.old)) }
        ensures goes { result ≡ Ok turn.Goes → effort self.new.left (bytes_of unread.new) < effort self.old.left (bytes_of unread.old) }
        ensures waits { result ≡ Ok turn.Waits → length (bytes_of unread.new) < limits.now.head }
        ensures fuel { IfOk result (Lessens limits.now.head self.old (bytes_of unread.old) self.new (bytes_of unread.new)) }
        ensures fault { IfErr result (λ fault. IsTrue (is_of_bytes fault)) }
        ensures size { vec_len unread.new.buffer ≡ vec_len unread.old.buffer }
        ensures places { vec_len spans.new ≡ vec_len spans.old }
    {
        match self.left {
            Left::Bytes(missing) => self.take_sized(limits, unread, missing),
            Left::Line => self.read_line(limits, unread, spans),
            Left::Chunk(missing) => self.take_chunk(limits, unread, missing),
            Left::Trailer => self.skip_trailer(limits, unread, spans),
            Left::ToEnd => self.take_all(limits, unread),
        }
    }

    /// Reads as much of the body as came. Whether it is whole; else it waits for bytes.
    pub(crate) fn advance(
        &mut self,
        limits: &Limits,
        unread: &mut Unread,
        spans: &mut Vec<HeaderSpan>,
    ) -> Result<bool, Fault>
        requires size { vec_len unread.old.buffer ≤ limits.now.head }
        requires places { vec_len spans.old ≡ limits.now.fields }
        ensures turns { IfOk result (λ whole. Turns limits.now self.old (bytes_of unread.old) self.new (bytes_of unread.new) (turn_of whole)) }
        ensures refused { IfErr result (Refuses limits.now self.old (bytes_of unread.old)) }
        ensures waits { result ≡ Ok false → length (bytes_of unread.new) < limits.now.head }
        ensures fuel { IfOk result (λ whole. Lessens limits.now.head self.old (bytes_of unread.old) self.new (bytes_of unread.new) (turn_of whole)) }
        ensures fault { IfErr result (λ fault. IsTrue (is_of_bytes fault)) }
        ensures size { vec_len unread.new.buffer ≡ vec_len unread.old.buffer }
        ensures places { vec_len spans.new ≡ vec_len spans.old }
    {
        loop {
            match self.turn(limits, unread, spans)? {
                Turn::Whole => return Ok(true),
                Turn::Waits => return Ok(false),
                Turn::Goes => {}
            }
        }
    }
}
