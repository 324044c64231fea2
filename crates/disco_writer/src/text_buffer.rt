//! A text that is being written.
ghost use Rattle.std.specs.Prelude.{◌≡◌, ◌∷◌, ◌++◌, ◌≤◌, ◌+◌, [], IfOk, OnOk, length, take};

use std::alloc::{AllocError, Global};
use std::marker::Model;

/// A text as far as it is written. Contracts see its bytes.
///
/// A piece is copied into room that is there already. Most pieces are constant texts, whose lengths
/// the compiler knows: these take a comparison and a few moves, and no call.
#[derive(Drop)]
pub(crate) struct TextBuffer {
    /// The text, and behind it bytes that mean nothing.
    room: Vec<u8>,
    /// How many bytes the text has.
    len: usize,
}

impl Model for TextBuffer {
    ghost use Rattle.std.specs.Prelude.{List, ℕ, ◌≤◌, length, take};

    ghost Value = { List ℕ };

    ghost view = { λ b. take b.len b.room.items };

    ghost invariant = { λ b. b.len ≤ length b.room.items };
}

/// Makes room for so many bytes behind the first `len`, twice as much as there was at least.
#[cold]
#[inline(never)]
fn grow(room: &mut Vec<u8>, len: usize, more: usize) -> Result<(), AllocError>
    requires { len ≤ length room.old.items }
    ensures same { take len room.new.items ≡ take len room.old.items }
    ensures within { len ≤ length room.new.items }
    ensures room { OnOk result (len + more ≤ length room.new.items) }
{
    let needed = len.checked_add(more).ok_or(AllocError)?;
    room.resize(needed.max(room.len().saturating_mul(2)), 0)
}

/// Makes sure that there is room for so many bytes behind the first `len`.
#[inline(always)]
fn make_room(room: &mut Vec<u8>, len: usize, more: usize) -> Result<(), AllocError>
    requires { len ≤ length room.old.items }
    ensures same { take len room.new.items ≡ take len room.old.items }
    ensures within { len ≤ length room.new.items }
    ensures room { OnOk result (len + more ≤ length room.new.items) }
{
    if room.len() - len < more {
        grow(room, len, more)?;
    }
    Ok(())
}

/// Puts a piece behind the first `at` bytes, and says where it ends.
#[inline(always)]
fn put(room: &mut [u8], at: usize, piece: &[u8]) -> usize
    requires { at + length piece.now ≤ length room.old }
    ensures text { take result room.new ≡ take at room.old ++ piece.now }
    ensures end { result ≡ at + length piece.now }
    ensures size { length room.new ≡ length room.old }
{
    let end = at + piece.len();
    room[at..end].copy_from_slice(piece);
    end
}

impl TextBuffer {
    /// An empty text, with room for so many bytes.
    pub(crate) fn with_capacity(alloc: Global, capacity: usize) -> Result<TextBuffer, AllocError>
        ensures { IfOk result (λ b. b ≡ []) }
    {
        let mut room = Vec::with_capacity(alloc, capacity)?;
        room.resize(capacity, 0)?;
        Ok(TextBuffer { room, len: 0 })
    }

    /// The allocator of its room.
    pub(crate) fn allocator(&self) -> Global {
        *self.room.allocator()
    }

    pub(crate) fn len(&self) -> usize
        ensures { result ≡ length self.now }
    {
        self.len
    }

    pub(crate) fn as_slice(&self) -> &[u8]
        ensures { result.now ≡ self.now }
    {
        &self.room[..self.len]
    }

    /// Puts bytes behind the text.
    #[inline(always)]
    pub(crate) fn push(&mut self, piece: &[u8]) -> Result<(), AllocError>
        ensures { OnOk result (self.new ≡ self.old ++ piece.now) }
    {
        make_room(&mut self.room, self.len, piece.len())?;
        self.len = put(&mut self.room, self.len, piece);
        Ok(())
    }

    /// Puts bytes between quotes behind the text. One check of room serves all three pieces.
    #[inline(always)]
    pub(crate) fn push_between_quotes(&mut self, piece: &[u8]) -> Result<(), AllocError>
        ensures { OnOk result (self.new ≡ self.old ++ 34 ∷ (piece.now ++ 34 ∷ [])) }
    {
        make_room(&mut self.room, self.len, piece.len() + 2)?;
        let opened = put(&mut self.room, self.len, b"\"");
        let closed = put(&mut self.room, opened, piece);
        self.len = put(&mut self.room, closed, b"\"");
        Ok(())
    }

    /// The text by itself, without spare room.
    pub(crate) fn into_vec(self) -> Vec<u8>
        ensures { result.items ≡ self }
    {
        let TextBuffer { mut room, len } = self;
        room.truncate(len);
        room.shrink_to_fit();
        room
    }
}
