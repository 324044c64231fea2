//! A client that doesn't read its reply.
use crate::client::{LAST_APPS, send, visit};
use disco_connections::{EventLoop, Room, Timeouts, Turn, listen};
use disco_http::Service;
use disco_message::{Document, Limits, Reply, Request, StatusCode};
use std::alloc::Global;
use std::io;
use std::io::Read;
use std::net::{Net, SocketAddr, TcpListener, TcpStream};
use std::rt::Clock;
use std::sync::Wait;

/// How many bytes the document of the reply has: more than a host takes.
const DOCUMENT: usize = 16_777_216;

/// How many bytes of the reply the host takes at most, the client's side among them.
const MOST: usize = 1_048_576;

/// How many turns the reply is written in at most.
const TURNS: u64 = 1_000;

/// A document.
#[derive(Clone, Copy, Debug)]
struct Page<'a> {
    bytes: &'a [u8],
}

impl Document for Page<'_> {
    ghost content = { λ page. page.bytes.now };

    fn bytes(&self) -> &[u8] {
        self.bytes
    }
}

/// Answers each request with a document.
#[derive(Clone, Copy, Debug)]
struct Clerk<'a> {
    bytes: &'a [u8],
    has_answered: bool,
}

impl<'a> Service for Clerk<'a> {
    type Body = Page<'a>;

    ghost answers = { λ _ _ _ _. Unit {0} };

    fn call(&mut self, _request: &Request) -> Reply<Page<'a>> {
        self.has_answered = true;
        Reply {
            status: StatusCode::OK,
            allow: None,
            document: Some(Page { bytes: self.bytes }),
            cert: None,
        }
    }
}

/// Serves one connection until the host takes no more of its reply, and ends it. Whether it came to that.
fn fill<'p, R: Wait + Clock>(
    rt: &R,
    alloc: Global,
    event_loop: &EventLoop<'_, Page<'p>, ()>,
    bytes: &'p [u8],
) -> io::Result<bool> {
    let mut room = Room::new(alloc, Limits::of_server())?;
    let mut clerk = Clerk {
        bytes,
        has_answered: false,
    };
    let mut goes_on = None;
    for _ in 0..TURNS {
        let taken = match goes_on {
            Some(connection) => Some(connection),
            None => event_loop.next(rt, alloc),
        };
        let Some(mut connection) = taken else {
            return Ok(false);
        };
        let turn = event_loop.serve(alloc, &mut *connection, &mut room, &mut clerk);
        if clerk.has_answered && turn == Turn::Rests {
            return Ok(true);
        }
        goes_on = event_loop.leave(rt, connection, turn);
    }
    Ok(false)
}

/// How many bytes come until the end.
fn count(mut stream: &TcpStream) -> io::Result<usize> {
    let mut bytes = [0u8; 4_096];
    let mut all = 0usize;
    for _ in 0..DOCUMENT {
        match stream.read(&mut bytes)? {
            0 => return Ok(all),
            count => all = all.saturating_add(count),
        }
    }
    Ok(all)
}

/// How many bytes the host takes of a reply with this document, which the client of this connection
/// doesn't read. None where it takes all.
fn taken_by<'p, R: Wait + Clock>(
    rt: &R,
    alloc: Global,
    event_loop: &EventLoop<'_, Page<'p>, ()>,
    stream: &TcpStream,
    bytes: &'p [u8],
) -> io::Result<Option<usize>> {
    send(stream, LAST_APPS)?;
    if !fill(rt, alloc, event_loop, bytes)? {
        return Ok(None);
    }
    Ok(Some(count(stream)?))
}

/// The same of a new connection.
fn taken_over<'p, R: Net<Stream = TcpStream> + Wait + Clock>(
    rt: &R,
    alloc: Global,
    event_loop: &EventLoop<'_, Page<'p>, ()>,
    server: SocketAddr,
    bytes: &'p [u8],
) -> io::Result<Option<usize>> {
    let stream = visit(rt, server)?;
    taken_by(rt, alloc, event_loop, &stream, bytes)
}

/// The same of a new server.
fn taken_of<R>(rt: &R, alloc: Global, bytes: &[u8]) -> io::Result<Option<usize>>
where
    R: Net<Listener = TcpListener, Stream = TcpStream> + Wait + Clock,
{
    let listener = listen(rt, 0)?;
    let server = listener.local_addr()?;
    let (limits, timeouts) = (Limits::of_server(), Timeouts::of_server());
    let event_loop = EventLoop::new(rt, alloc, &listener, limits, timeouts, 1, 1)?;
    taken_over(rt, alloc, &event_loop, server, bytes)
}

/// Whether the host takes some of a long reply that isn't read, and not much.
pub(crate) fn is_bounded<R>(rt: &R, alloc: Global) -> io::Result<bool>
where
    R: Net<Listener = TcpListener, Stream = TcpStream> + Wait + Clock,
{
    let mut bytes = Vec::new(alloc);
    bytes.resize(DOCUMENT, b' ')?;
    let taken = taken_of(rt, alloc, bytes.as_slice())?;
    Ok(taken.is_some_and(|taken| 0 < taken && taken < MOST))
}
