//! A connection by a source, a sink and a service of one's own.
ghost use Rattle.std.specs.Prelude.{◌≡◌, codes, IsFalse};
ghost use Rattle.disco_http.specs.Streams.{is_spent};

use crate::given::{say, say_text};
use disco_http::{
    Counted, Document, End, Failed, Limits, Reader, ReceivedReply, Reply, Request, Served, Service,
    Sink, Source, StatusCode, Writer, serve, write_reply,
};
use disco_instance::Fault;
use std::alloc::Global;

/// A request with a body of two bytes.
const REQUEST: &[u8] = b"POST /a HTTP/1.1\r\nHost: a\r\nContent-Length: 2\r\n\r\n{}";

/// A reply without a body.
const REPLY: &[u8] = b"HTTP/1.1 404 Not Found\r\nContent-Length: 0\r\n\r\n";

/// A source that gives one byte at a time.
#[derive(Drop)]
struct Drops<'a> {
    rest: &'a [u8],
}

impl Source for Drops<'_> {
    ghost use Rattle.std.specs.Prelude.{None};

    ghost remaining = { λ _. None };

    ghost failed = { λ _. 0 };

    fn read(&mut self, buf: &mut [u8]) -> Result<usize, Failed> {
        if buf.is_empty() || self.rest.is_empty() {
            return Ok(0);
        }
        buf[0] = self.rest[0];
        self.rest = &self.rest[1..];
        Ok(1)
    }

    fn failures(&self) -> u64 {
        0
    }
}

/// A sink that counts the bytes written to it.
#[derive(Drop)]
struct Scale {
    bytes: usize,
}

impl Sink for Scale {
    ghost use Rattle.std.specs.Prelude.{None};

    ghost contents = { λ _. None };

    ghost failed = { λ _. 0 };

    fn write(&mut self, buf: &[u8]) -> Result<usize, Failed> {
        self.bytes = self.bytes.saturating_add(buf.len());
        Ok(buf.len())
    }

    fn failures(&self) -> u64 {
        0
    }
}

/// The document of each reply.
#[derive(Clone, Copy, Debug)]
struct Page;

impl Document for Page {
    ghost content = { λ _. codes "{}" };

    fn bytes(&self) -> &[u8] {
        b"{}"
    }
}

/// A service that answers each request with the page.
#[derive(Clone, Copy, Debug)]
struct Clerk;

fn reply() -> Reply<Page> {
    Reply {
        status: StatusCode::OK,
        allow: None,
        document: Some(Page),
        cert: None,
    }
}

impl Service for Clerk {
    type Body = Page;

    ghost answers = { λ _ _ _ _. Unit {0} };

    fn call(&mut self, _request: &Request) -> Reply<Page> {
        reply()
    }
}

fn end_name(end: &End) -> &'static str {
    match end {
        End::Closed => "closed",
        End::Asked => "asked",
        End::Limit => "limit",
        End::Fault(_) => "fault",
    }
}

/// Limits of one's own.
fn limits() -> Limits {
    Limits {
        head: 4_096,
        fields: 20,
        body: 65_536,
        requests: 10,
    }
}

/// The method of a request, and how many bytes its body has.
fn tell_whole(request: &Request, out: &mut String) -> Result<(), Fault> {
    say_text(out, "method", request.method().as_str())?;
    say(out, "bytes", request.body().len() as u64)
}

/// The same of a request that was read.
fn tell_read(read: Option<Request>, out: &mut String) -> Result<(), Fault> {
    match read {
        Some(request) => tell_whole(&request, out),
        None => say(out, "bytes", 0),
    }
}

/// The same of the next request.
fn tell_request(
    alloc: Global,
    reader: &mut Reader<Drops<'_>>,
    out: &mut String,
) -> Result<(), Fault>
    requires { IsFalse (is_spent reader.old) }
{
    tell_read(reader.read_request(alloc)?, out)
}

fn tell_received(reply: &ReceivedReply, out: &mut String) -> Result<(), Fault> {
    say(out, "status", reply.head.status() as u64)?;
    say(out, "bytes", reply.body.len() as u64)
}

/// The status of a reply that is read.
fn tell_reply(alloc: Global, out: &mut String) -> Result<(), Fault> {
    let mut reader = Reader::new(alloc, Counted::new(REPLY), Limits::of_client())?;
    let read = reader.read_reply(alloc);
    tell_received(&read?, out)
}

/// Whether a writer is spent behind a last reply.
fn tell_written(alloc: Global, out: &mut String) -> Result<(), Fault> {
    let mut writer = Writer::new(alloc, Scale { bytes: 0 })?;
    write_reply(&mut writer, &reply(), true)?;
    say(out, "spent", writer.is_spent() as u64)
}

fn tell_end(served: &Served, out: &mut String) -> Result<(), Fault> {
    let Served { requests, end } = served;
    say(out, "requests", *requests)?;
    say_text(out, "end", end_name(end))
}

/// A connection that is served.
fn tell_served(alloc: Global, reader: &mut Reader<Drops<'_>>, out: &mut String) -> Result<(), Fault>
    requires { IsFalse (is_spent reader.old) }
{
    let mut writer = Writer::new(alloc, Scale { bytes: 0 })?;
    let served = serve(alloc, reader, &mut writer, &mut Clerk);
    tell_end(&served, out)
}

/// The same of its first byte on.
fn tell_connection(alloc: Global, out: &mut String) -> Result<(), Fault> {
    let mut reader = Reader::new(alloc, Drops { rest: REQUEST }, Limits::of_server())?;
    tell_served(alloc, &mut reader, out)
}

/// A request that is read.
fn tell_first(alloc: Global, out: &mut String) -> Result<(), Fault> {
    let mut reader = Reader::new(alloc, Drops { rest: REQUEST }, limits())?;
    tell_request(alloc, &mut reader, out)
}

/// What is read, written and served.
pub(crate) fn tell(alloc: Global, out: &mut String) -> Result<(), Fault> {
    tell_first(alloc, out)?;
    tell_reply(alloc, out)?;
    tell_written(alloc, out)?;
    tell_connection(alloc, out)
}
