//! Bytes that are read in pieces.
ghost use Rattle.std.specs.Prelude.{◌<◌};

use disco_http::{Failed, Source};

/// Bytes of which a read gives at most so many.
#[derive(Drop)]
pub(crate) struct Pieces<'a> {
    rest: &'a [u8],
    piece: usize,
    ghost some: { 0 < piece },
}

impl<'a> Pieces<'a> {
    /// Bytes of which a read gives at most so many, and at least one.
    pub(crate) fn new(rest: &'a [u8], piece: usize) -> Pieces<'a> {
        Pieces {
            rest,
            piece: piece.max(1),
        }
    }
}

impl<'a> Source for Pieces<'a> {
    ghost use Rattle.std.specs.Prelude.{Some};

    ghost remaining = { λ p. Some p.rest.now };

    ghost failed = { λ p. 0 };

    fn read(&mut self, buf: &mut [u8]) -> Result<usize, Failed> {
        let n = buf.len().min(self.piece).min(self.rest.len());
        buf[..n].copy_from_slice(&self.rest[..n]);
        self.rest = &self.rest[n..];
        Ok(n)
    }

    fn failures(&self) -> u64 {
        0
    }
}
