//! The first place of a byte.
ghost use Rattle.std.specs.Prelude.{◌≡◌, ◌==◌, length};
ghost use Rattle.std.specs.List.{position};

use std::simd::prelude::*;

/// How many bytes are compared at once: words are short.
const BLOCK: usize = 8;

/// The first place of a byte in one block.
#[inline(always)]
fn first_in_block(byte: u8, block: &[u8]) -> Option<usize>
    requires { length block.now ≡ 8 }
    ensures { result ≡ position (λ b. b == byte) block.now }
{
    let places = u8x8::from_slice(block)
        .simd_eq(u8x8::splat(byte))
        .to_bitmask();
    if places == 0 {
        None
    } else {
        Some(places.trailing_zeros() as usize)
    }
}

/// The first place of a byte in fewer bytes than a block has.
#[inline(always)]
fn first_in_rest(byte: u8, rest: &[u8]) -> Option<usize>
    ensures { result ≡ position (λ b. b == byte) rest.now }
{
    rest.iter().position(|b| *b == byte)
}

/// The first place of a byte, looked for block by block while a whole one is left.
pub(crate) fn first_of(byte: u8, bytes: &[u8]) -> Option<usize>
    ensures { result ≡ position (λ b. b == byte) bytes.now }
{
    let mut at = 0;
    while bytes.len() - at >= BLOCK {
        if let Some(found) = first_in_block(byte, &bytes[at..at + BLOCK]) {
            return Some(at + found);
        }
        at += BLOCK;
    }
    let found = first_in_rest(byte, &bytes[at..])?;
    Some(at + found)
}
