//! Whole inputs that are read from a source, and whole texts that are written to a sink.
ghost use Rattle.std.specs.Prelude.{◌≡◌, ◌++◌, ◌<◌, ◌^◌, ◌⊎◌, ℕ, List, IfOk, IfErr, IfSome, IsFalse, IsTrue, OnOk, length, vec_len};
ghost use Rattle.std.specs.Io.KnownBytes.{Consumes, IsAtEnd};
ghost use Rattle.disco_values.specs.declared.fault.Fault.TheVariants.{OutOfMemory, ReadFailed, WriteFailed};
ghost use Rattle.disco_http.specs.Causes.{Cause};
ghost use Rattle.disco_http.specs.Writes.{WritesBytes};

use crate::source::{Failed, Sink, Source};
use disco_values::Fault;
use std::alloc::Global;

/// Bytes of one read, at most.
const PIECE: usize = 16_384;

/// Reads once, and puts what came behind the bytes. False at the end of the input.
fn read_more<R: Source>(
    source: &mut R,
    piece: &mut [u8],
    bytes: &mut Vec<u8>,
) -> Result<bool, Fault>
    requires { 0 < length piece.old }
    ensures more { OnOk result ((came : List ℕ) × (bytes.new.items ≡ bytes.old.items ++ came)
        × Consumes (R.remaining source.old) (R.remaining source.new) came) }
    ensures grown { IfOk result (λ some. IsTrue some → vec_len bytes.old < vec_len bytes.new) }
    ensures bound { vec_len bytes.new < 2 ^ 64 }
    ensures length { length piece.new ≡ length piece.old }
    ensures end { IfOk result (λ some. IsFalse some → IsAtEnd (R.remaining source.new)) }
    ensures fault { IfErr result (λ e. (e ≡ OutOfMemory) ⊎ (e ≡ ReadFailed)) }
    ensures cause { Cause ReadFailed (R.failed source.old) (R.failed source.new) result }
    ensures none_failed { OnOk result (R.failed source.new ≡ R.failed source.old) }
{
    match source.read(piece) {
        Ok(count) => {
            bytes.extend_from_slice(&piece[..count])?;
            Ok(count > 0)
        }
        Err(Failed) => Err(Fault::ReadFailed),
    }
}

/// All bytes that a source gives, up to its end.
///
/// # Errors
///
/// `ReadFailed` where a read fails, and `OutOfMemory`.
pub fn read_all<R: Source>(alloc: Global, source: &mut R) -> Result<Vec<u8>, Fault>
    ensures all { IfOk result (λ bytes. IfSome (R.remaining source.old) (λ given. bytes.items ≡ given)) }
    ensures end { OnOk result (IsAtEnd (R.remaining source.new)) }
    ensures fault { IfErr result (λ e. (e ≡ OutOfMemory) ⊎ (e ≡ ReadFailed)) }
    ensures cause { Cause ReadFailed (R.failed source.old) (R.failed source.new) result }
    ensures none_failed { OnOk result (R.failed source.new ≡ R.failed source.old) }
{
    let mut piece = [0u8; PIECE];
    let mut bytes = Vec::new(alloc);
    while read_more(source, &mut piece, &mut bytes)? {}
    Ok(bytes)
}

/// Writes all of these bytes, in as many writes as it takes.
///
/// # Errors
///
/// `WriteFailed` where a write fails. Then a front of the bytes was written.
pub fn write_all<W: Sink>(sink: &mut W, bytes: &[u8]) -> Result<(), Fault>
    ensures written { WritesBytes (W.contents sink.old) (W.contents sink.new) (W.failed sink.old) (W.failed sink.new) result bytes.now }
    ensures fault { IfErr result (λ e. e ≡ WriteFailed) }
{
    let mut at = 0;
    while at < bytes.len() {
        match sink.write(&bytes[at..]) {
            Ok(count) => at += count,
            Err(Failed) => return Err(Fault::WriteFailed),
        }
    }
    Ok(())
}
