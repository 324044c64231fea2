//! Connections that lie in memory, and fail.
use std::io;
use std::io::{Read, Write};

/// A source that gives its bytes in pieces of so many, in so many reads. The next read fails, and so
/// does one past their end.
#[derive(Drop)]
pub(crate) struct Given<'a> {
    pub(crate) rest: &'a [u8],
    pub(crate) piece: usize,
    pub(crate) reads: u32,
}

impl Read for Given<'_> {
    fn read(&mut self, buf: &mut [u8]) -> io::Result<usize> {
        if self.reads == 0 || self.rest.is_empty() {
            return Err(io::Error::from(io::ErrorKind::ConnectionReset));
        }
        self.reads -= 1;
        let n = buf.len().min(self.piece).min(self.rest.len());
        buf[..n].copy_from_slice(&self.rest[..n]);
        self.rest = &self.rest[n..];
        Ok(n)
    }
}

/// A sink that takes so many writes. The next one fails.
#[derive(Drop)]
pub(crate) struct Taking {
    pub(crate) writes: u32,
}

impl Write for Taking {
    fn write(&mut self, buf: &[u8]) -> io::Result<usize> {
        if self.writes == 0 {
            return Err(io::Error::from(io::ErrorKind::StorageFull));
        }
        self.writes -= 1;
        Ok(buf.len())
    }

    fn flush(&mut self) -> io::Result<()> {
        Ok(())
    }
}
