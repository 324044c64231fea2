//! Decodes percent-encoded names.
ghost use Rattle.std.specs.Prelude.{◌≡◌, ◌==◌, ◌&&◌, not, IfOk, IfErr, IfSome, Some, option_map};
ghost use Rattle.std.specs.Char.{is_ascii};
ghost use Rattle.std.specs.Cow.{cow_str_bytes};
ghost use Rattle.std.specs.List.{list_all};
ghost use Rattle.disco_values.specs.declared.fault.Fault.TheVariants.{OutOfMemory};
ghost use Rattle.disco_operations.specs.Decoding.{decoded_text};

use disco_values::{Fault, Text};
use percent_encoding::{DecodeError, percent_decode};
use std::alloc::Global;
use std::borrow::CowStr;
use std::str;

/// Whether a name is ASCII and has no escape, so that it spells itself.
#[inline(always)]
fn is_plain(name: &[u8]) -> bool
    ensures { result ≡ list_all (λ b. is_ascii b && not (b == 37)) name.now }
{
    name.iter().all(|byte| byte.is_ascii() && *byte != b'%')
}

/// What a name spells that is ASCII and has no escape, `None` for any other.
#[inline(always)]
fn plain<'a>(name: &'a [u8]) -> Option<&'a str>
    ensures { IfSome result (λ text. Some text.now ≡ decoded_text name.entry.now) }
{
    if is_plain(name) {
        // SAFETY: ASCII is UTF-8, which the call wants proved.
        Some(unsafe { str::from_utf8_unchecked(name) })
    } else {
        None
    }
}

/// What any name spells, as [`decoded`] gives it.
#[inline(never)]
fn spelled<'a>(alloc: Global, encoded: &'a [u8]) -> Result<Option<CowStr<'a>>, Fault>
    ensures text { IfOk result (λ found. option_map cow_str_bytes found ≡ decoded_text encoded.entry.now) }
    ensures memory { IfErr result (λ e. e ≡ OutOfMemory) }
{
    match percent_decode(encoded).decode_utf8(alloc) {
        Ok(text) => Ok(Some(text)),
        Err(DecodeError::Utf8(_)) => Ok(None),
        Err(DecodeError::OutOfMemory) => Err(Fault::OutOfMemory),
    }
}

/// What an encoded name spells, where that is UTF-8: an escape as `%2F` stands for its byte, every
/// other byte for itself (RFC 3986, section 2.1). A name with no escape is borrowed.
///
/// # Errors
///
/// `OutOfMemory` alone.
#[inline(always)]
pub fn decoded<'a>(alloc: Global, encoded: &'a [u8]) -> Result<Option<CowStr<'a>>, Fault>
    ensures text { IfOk result (λ found. option_map cow_str_bytes found ≡ decoded_text encoded.entry.now) }
    ensures memory { IfErr result (λ e. e ≡ OutOfMemory) }
{
    match plain(encoded) {
        Some(text) => Ok(Some(CowStr::Borrowed(text))),
        None => spelled(alloc, encoded),
    }
}

/// What an encoded name spells, in memory of its own, as [`decoded`] gives it.
///
/// # Errors
///
/// `OutOfMemory` alone.
pub fn decoded_text(alloc: Global, encoded: &[u8]) -> Result<Option<Text>, Fault>
    ensures text { IfOk result (λ found. found ≡ decoded_text encoded.now) }
    ensures memory { IfErr result (λ e. e ≡ OutOfMemory) }
{
    match decoded(alloc, encoded)? {
        Some(text) => Ok(Some(Text::new(alloc, text.as_str())?)),
        None => Ok(None),
    }
}
