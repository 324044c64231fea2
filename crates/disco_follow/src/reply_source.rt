//! Reads the replies of a server that isn't trusted.
ghost use Rattle.std.specs.Prelude.{◌≡◌, ◌≤◌, ℕ, List, None, length};
ghost use Rattle.std.specs.Io.{ReadsAtMost};
ghost use Rattle.disco_http.specs.Causes.{Raises};

use crate::pace::Pace;
use disco_http::{Failed, Source};
use std::io;
use std::io::{ErrorKind, Read};
use std::net::TcpStream;
use std::rt::Clock;

/// How often a read is tried again that was interrupted, at most.
const TURNS: u64 = 1 << 32;

/// How many bytes are looked at once, at most.
const PIECE: usize = 16_384;

/// Reads a stream while a reply has time left, and never parts of two lines at once. So it reads
/// nothing that the server sends behind a reply together with the reply's end.
#[derive(Drop)]
pub(crate) struct ReplySource<'a, R> {
    rt: &'a R,
    stream: TcpStream,
    pace: &'a Pace,
    failures: u64,
}

/// How many bytes there are up to the end of the first line; all where no line ends.
fn first_line(bytes: &[u8]) -> usize
    ensures { result ≤ length bytes.now }
{
    match bytes.iter().position(|byte| *byte == b'\n') {
        Some(end) if end < bytes.len() => end + 1,
        _ => bytes.len(),
    }
}

impl<'a, R> ReplySource<'a, R> {
    pub(crate) fn new(rt: &'a R, stream: TcpStream, pace: &'a Pace) -> ReplySource<'a, R>
        ensures { result.failures ≡ 0 }
    {
        ReplySource {
            rt,
            stream,
            pace,
            failures: 0,
        }
    }

    fn fail(&mut self) -> Failed
        ensures { Raises self.old.failures self.new.failures }
    {
        self.failures = self.failures.saturating_add(1);
        Failed
    }
}

/// Reads a stream once, no line together with the next, where the reply may take more time.
fn read_in_time<R: Clock>(
    rt: &R,
    stream: &mut TcpStream,
    pace: &Pace,
    buf: &mut [u8],
) -> io::Result<usize>
    ensures { ReadsAtMost result buf.new }
{
    let left = pace.left(rt);
    if left.is_none() {
        return Err(io::Error::from(ErrorKind::TimedOut));
    }
    stream.set_read_timeout(left)?;
    let room = buf.len().min(PIECE);
    let seen = stream.peek(&mut buf[..room])?;
    let size = first_line(&buf[..seen.min(room)]);
    let count = stream.read(&mut buf[..size])?;
    pace.go_on(count);
    Ok(count)
}

impl<R: Clock> Source for ReplySource<'_, R> {
    ghost remaining = { λ _. None };

    ghost failed = { λ s. s.failures };

    fn read(&mut self, buf: &mut [u8]) -> Result<usize, Failed> {
        for _ in 0..TURNS {
            match read_in_time(self.rt, &mut self.stream, self.pace, buf) {
                Ok(count) => return Ok(count),
                Err(error) => {
                    if error.kind() != ErrorKind::Interrupted {
                        break;
                    }
                }
            }
        }
        Err(self.fail())
    }

    fn failures(&self) -> u64 {
        self.failures
    }
}
