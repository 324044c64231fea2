//! The front of a text: its first bytes and its length, as one number.
ghost use Rattle.std.specs.Prelude.{◌≡◌, ◌≤◌, ◌<◌, ◌%◌, ◌↔◌, IsTrue, length, min};
ghost use Rattle.disco_values.specs.Front.{AreBytes, first_eight, with_len};

/// How many bytes a front has.
const FRONT: usize = 8;

/// The first eight bytes as one number, the first of them the highest.
#[inline(always)]
pub(crate) fn eight_of(bytes: &[u8]) -> u64
    requires { 8 ≤ length bytes.now }
    ensures eight { result ≡ first_eight bytes.now }
    ensures bytes { AreBytes bytes.now }
{
    match bytes.first_chunk::<FRONT>() {
        Some(eight) => u64::from_be_bytes(*eight),
        None => 0,
    }
}

/// The length, or 8 where it is greater.
#[inline(always)]
fn at_most_eight(len: usize) -> usize
    ensures { result ≡ min len 8 }
{
    if len < FRONT { len } else { FRONT }
}

/// The front of a text of `len` bytes; `bytes` are its first ones, with zeros behind a shorter text.
/// The high seven bytes of the number are the first seven of the text. Its low byte is the length, at
/// most 8. Fronts that differ are in the order of their texts. A front whose low byte is less than 8 is
/// that of one text alone.
#[inline(always)]
pub(crate) fn front_of(bytes: &[u8], len: usize) -> u64
    requires { 8 ≤ length bytes.now }
    ensures front { result ≡ with_len (first_eight bytes.now) len }
    ensures bytes { AreBytes bytes.now }
{
    // The length replaces the eighth byte.
    eight_of(bytes) / 256 * 256 + at_most_eight(len) as u64
}

/// Whether only one text has this front.
#[inline(always)]
pub(crate) fn is_whole(front: u64) -> bool
    ensures { IsTrue result ↔ (front % 256 < 8) }
{
    front % 256 < FRONT as u64
}
