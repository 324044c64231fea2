//! A short text, stored in the value itself.
ghost use Rattle.std.specs.Prelude.{◌≡◌, ◌≤◌, ◌+◌, ◌++◌, ◌-◌, drop, length, replicate};
ghost use Rattle.std.specs.Cmp.Lexicographic.{slice_cmp};
ghost use Rattle.std.specs.Ordering.{nat_cmp};
ghost use Rattle.disco_values.specs.Front.{AreBytes, first_eight, front_of};

use crate::front::{eight_of, front_of};
use std::cmp::Ordering;
use std::marker::Model;
use std::str;

/// How many bytes an inline text has at most.
pub(crate) const MOST_INLINE: usize = 30;

/// A text of at most [`MOST_INLINE`] bytes. It takes no memory beside itself.
#[derive(Debug, Drop)]
pub(crate) struct InlineText {
    /// The text, and behind it zeros.
    bytes: [u8; MOST_INLINE],
    len: u8,
}

impl Model for InlineText {
    ghost use Rattle.std.specs.Prelude.{◌≤◌, ◌≡◌, List, ℕ, IsUtf8, length, take};
    ghost use Rattle.disco_values.specs.Padded.{IsPadded};

    ghost Value = { List ℕ };

    ghost view = { λ t. take t.len t.bytes };

    ghost invariant = { λ t. (t.len ≤ 30) × (length t.bytes ≡ 30) × ∥ IsUtf8 (take t.len t.bytes) ∥₁ × IsPadded t.len t.bytes };
}

/// The bytes, and zeros behind them.
fn padded(text: &[u8]) -> [u8; MOST_INLINE]
    requires { length text.now ≤ 30 }
    ensures { result ≡ text.now ++ replicate (30 - length text.now) 0 }
{
    let mut bytes = [0; MOST_INLINE];
    bytes[..text.len()].copy_from_slice(text);
    bytes
}

impl InlineText {
    /// A text that is short enough.
    pub(crate) fn new(text: &str) -> InlineText
        requires { length text.now ≤ 30 }
        ensures { result ≡ text.now }
    {
        InlineText {
            bytes: padded(text.as_bytes()),
            len: text.len() as u8,
        }
    }

    /// A copy of the text.
    pub(crate) fn copy(&self) -> InlineText
        ensures { result ≡ self.now }
    {
        InlineText {
            bytes: self.bytes,
            len: self.len,
        }
    }

    pub(crate) fn as_str(&self) -> &str
        ensures { result.now ≡ self.now }
    {
        // The bytes are UTF-8: that is proved, as what the call asks for.
        unsafe { str::from_utf8_unchecked(&self.bytes[..self.len as usize]) }
    }

    /// Eight bytes from there on as one number, with the zeros that stand behind the text.
    #[inline(always)]
    fn eight_at(&self, at: usize) -> u64
        requires { at + 8 ≤ 30 }
        ensures { result ≡ first_eight (drop at self.now) }
    {
        eight_of(&self.bytes[at..])
    }

    /// The order of two texts with equal fronts, by what stands behind their first six bytes, eight
    /// bytes at once. Where that is the same, zeros behind them and all, the shorter one comes first.
    pub(crate) fn order(&self, other: &InlineText) -> Ordering
        requires fronts { front_of self.now ≡ front_of other.now }
        requires one { AreBytes self.now }
        requires other { AreBytes other.now }
        ensures { result ≡ slice_cmp nat_cmp self.now other.now }
    {
        // Whether eight bytes differ is seen before they are made a number to compare.
        if self.eight_at(6) != other.eight_at(6) {
            return self.eight_at(6).cmp(&other.eight_at(6));
        }
        if self.eight_at(14) != other.eight_at(14) {
            return self.eight_at(14).cmp(&other.eight_at(14));
        }
        if self.eight_at(22) != other.eight_at(22) {
            return self.eight_at(22).cmp(&other.eight_at(22));
        }
        self.len.cmp(&other.len)
    }

    /// Its front, with the zeros that stand behind it.
    pub(crate) fn front(&self) -> u64
        ensures { result ≡ front_of self.now }
    {
        front_of(&self.bytes, self.len as usize)
    }
}
