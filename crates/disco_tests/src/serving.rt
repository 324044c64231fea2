//! Connections of which one read or one write fails, each in turn.
ghost use Rattle.std.specs.Prelude.{IsFalse};
ghost use Rattle.disco_http.specs.Streams.{is_spent};

use disco_http::{Counted, End, Reader, Served, Service, Writer, serve};
use disco_message::{Document, Limits, Reply, Request, StatusCode};
use disco_values::Fault;
use std::alloc::{AllocError, Global};
use std::io;
use std::io::{Read, Write};

/// How often a client asks on one connection.
const ASKED: usize = 4;

/// How many bytes are read or written at once, at most.
const PIECE: usize = 7;

/// More than a connection has reads or writes.
const CALLS: usize = 100;

/// What a client asks, each time.
const REQUESTS: &[&str] = &[
    "GET /a HTTP/1.1\r\nHost: a\r\n\r\n",
    "POST /a HTTP/1.1\r\nHost: a\r\nContent-Length: 9\r\n\r\n123456789",
    "POST /a HTTP/1.1\r\nHost: a\r\nTransfer-Encoding: chunked\r\n\r\n3\r\n123\r\n6\r\n456789\r\n0\r\na: b\r\n\r\n",
];

/// What it gets, each time.
const REPLY: &str =
    "HTTP/1.1 200 OK\r\nContent-Type: application/json\r\nContent-Length: 2\r\n\r\n{}";

/// What a client sends, and how many reads of it succeed.
#[derive(Drop)]
struct Line<'a> {
    rest: &'a [u8],
    reads: usize,
    failed: bool,
}

/// A source that gives a client's bytes in pieces, and then fails.
#[derive(Drop)]
struct Halting<'l, 'a> {
    line: &'l mut Line<'a>,
}

impl Read for Halting<'_, '_> {
    fn read(&mut self, buf: &mut [u8]) -> io::Result<usize> {
        if self.line.reads == 0 {
            self.line.failed = true;
            return Err(io::Error::from(io::ErrorKind::ConnectionReset));
        }
        self.line.reads -= 1;
        let count = buf.len().min(PIECE);
        self.line.rest.read(&mut buf[..count])
    }
}

/// What a client got, and how many writes to it succeed.
#[derive(Drop)]
struct Paper {
    text: Vec<u8>,
    writes: usize,
    failed: bool,
}

/// A sink that takes what is written in pieces, and then fails.
#[derive(Drop)]
struct Stopping<'p> {
    paper: &'p mut Paper,
}

impl Write for Stopping<'_> {
    fn write(&mut self, buf: &[u8]) -> io::Result<usize> {
        if self.paper.writes == 0 {
            self.paper.failed = true;
            return Err(io::Error::from(io::ErrorKind::ConnectionReset));
        }
        self.paper.writes -= 1;
        let count = buf.len().min(PIECE);
        self.paper.text.write(&buf[..count])
    }

    fn flush(&mut self) -> io::Result<()> {
        Ok(())
    }
}

/// The document of each reply.
#[derive(Clone, Copy, Debug)]
struct Page;

impl Document for Page {
    ghost use Rattle.std.specs.Prelude.{codes};

    ghost content = { λ _. codes "{}" };

    fn bytes(&self) -> &[u8] {
        b"{}"
    }
}

/// A service that counts its answers.
#[derive(Clone, Copy, Debug)]
struct Clerk {
    answered: u64,
}

impl Service for Clerk {
    type Body = Page;

    ghost answers = { λ _ _ _ _. Unit {0} };

    fn call(&mut self, _request: &Request) -> Reply<Page> {
        self.answered = self.answered.saturating_add(1);
        Reply {
            status: StatusCode::OK,
            allow: None,
            document: Some(Page),
            cert: None,
        }
    }
}

/// Serves the connection of a reader. None where it isn't spent then, or where the clerk counted
/// otherwise.
fn converse_by(
    alloc: Global,
    reader: &mut Reader<Counted<Halting<'_, '_>>>,
    paper: &mut Paper,
) -> Result<Option<Served>, AllocError>
    requires { IsFalse (is_spent reader.old) }
{
    let mut writer = Writer::new(alloc, Counted::new(Stopping { paper }))?;
    let mut clerk = Clerk { answered: 0 };
    let served = serve(alloc, reader, &mut writer, &mut clerk);
    if reader.is_spent() && writer.is_spent() && served.requests == clerk.answered {
        Ok(Some(served))
    } else {
        Ok(None)
    }
}

/// As [`converse_by`], of a new reader.
fn converse(
    alloc: Global,
    line: &mut Line<'_>,
    paper: &mut Paper,
) -> Result<Option<Served>, AllocError> {
    let mut reader = Reader::new(alloc, Counted::new(Halting { line }), Limits::of_server())?;
    converse_by(alloc, &mut reader, paper)
}

/// How a connection has to end.
fn end_of(line: &Line<'_>, paper: &Paper) -> End {
    if paper.failed {
        End::Fault(Fault::WriteFailed)
    } else if line.failed {
        End::Fault(Fault::ReadFailed)
    } else {
        End::Closed
    }
}

/// How many requests of a length have to be answered: where no write failed those that came whole,
/// else those whose reply was begun.
fn answered(came: usize, paper: &Paper, request: usize) -> usize {
    if paper.failed {
        (paper.text.len() / REPLY.len()).saturating_add(1)
    } else {
        came / request.max(1)
    }
}

/// Whether so many replies were written, the last of them in part where a write failed.
fn are_written(paper: &Paper, whole: &[u8], replies: usize) -> bool {
    let written = paper.text.len();
    let most = replies.saturating_mul(REPLY.len());
    if paper.failed {
        whole.starts_with(paper.text.as_slice()) && written < most
    } else {
        whole.starts_with(paper.text.as_slice()) && written == most
    }
}

/// A text, as often as a client asks.
fn repeated(alloc: Global, text: &str) -> Result<Vec<u8>, AllocError> {
    let mut bytes = Vec::new(alloc);
    for _ in 0..ASKED {
        bytes.extend_from_slice(text.as_bytes())?;
    }
    Ok(bytes)
}

/// How a connection ended: whether a read or a write of it failed, and whether all is as it then has to
/// be.
#[derive(Clone, Copy, Debug)]
struct Ended {
    failed: bool,
    well: bool,
}

/// A connection of which so many reads and so many writes don't fail.
fn end_with(
    alloc: Global,
    request: &str,
    reads: usize,
    writes: usize,
) -> Result<Ended, AllocError> {
    let bytes = repeated(alloc, request)?;
    let whole = repeated(alloc, REPLY)?;
    let mut line = Line {
        rest: bytes.as_slice(),
        reads,
        failed: false,
    };
    let mut paper = Paper {
        text: Vec::new(alloc),
        writes,
        failed: false,
    };
    let served = converse(alloc, &mut line, &mut paper)?;
    let came = bytes.len().saturating_sub(line.rest.len());
    let requests = answered(came, &paper, request.len());
    let wanted = Served {
        requests: requests as u64,
        end: end_of(&line, &paper),
    };
    Ok(Ended {
        failed: line.failed || paper.failed,
        well: served == Some(wanted) && are_written(&paper, whole.as_slice(), requests),
    })
}

/// Connections that ended otherwise than they have to: those on which a request is asked, where the read
/// or the write behind so many of them fails.
#[derive(Clone, Copy, Debug, PartialEq, Eq)]
pub(crate) struct Wrong {
    request: usize,
    calls: usize,
}

/// The first that ended otherwise, with each read and each write failing in turn, and at last none.
fn wrong_with(alloc: Global, request: usize, text: &str) -> Result<Option<Wrong>, AllocError> {
    let mut failed = true;
    for calls in 0..CALLS {
        let read = end_with(alloc, text, calls, usize::MAX)?;
        let write = end_with(alloc, text, usize::MAX, calls)?;
        if !read.well || !write.well {
            return Ok(Some(Wrong { request, calls }));
        }
        failed = read.failed || write.failed;
    }
    Ok(failed.then_some(Wrong {
        request,
        calls: CALLS,
    }))
}

/// Whatever read or write of a connection fails, the whole requests that had come are answered, up to
/// the reply that failed, and then reader and writer are spent. None where it is so.
pub(crate) fn first_wrong(alloc: Global) -> Result<Option<Wrong>, Fault> {
    for (request, text) in REQUESTS.iter().enumerate() {
        if let Some(wrong) = wrong_with(alloc, request, text)? {
            return Ok(Some(wrong));
        }
    }
    Ok(None)
}
