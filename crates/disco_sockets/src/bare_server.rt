//! A server without a desk: each request is answered with 204.
use disco_connections::{EventLoop, Room, Timeouts};
use disco_http::Service;
use disco_message::{Document, Limits, Reply, Request, StatusCode};
use std::alloc::{AllocError, Global};
use std::net::{Net, TcpListener, TcpStream};
use std::sync::Wait;
use std::thread::Threads;
use std::{io, rt, thread};

/// How many workers there are.
pub(crate) const WORKERS: usize = 4;

/// The document of no reply.
#[derive(Clone, Copy, Debug)]
pub(crate) struct Nothing;

impl Document for Nothing {
    ghost use Rattle.std.specs.Prelude.{[]};

    ghost content = { λ _. [] };

    fn bytes(&self) -> &[u8] {
        b""
    }
}

/// Answers each request with 204.
#[derive(Clone, Copy, Debug)]
struct Always;

impl Service for Always {
    type Body = Nothing;

    ghost answers = { λ _ _ _ _. Unit {0} };

    fn call(&mut self, _request: &Request) -> Reply<Nothing> {
        Reply {
            status: StatusCode::NO_CONTENT,
            allow: None,
            document: None,
            cert: None,
        }
    }
}

/// Serves turn by turn until no connection more is taken and all have ended.
fn work<R: Wait + rt::Clock>(
    rt: &R,
    alloc: Global,
    event_loop: &EventLoop<'_, Nothing, ()>,
) -> Result<(), AllocError> {
    let mut room = Room::new(alloc, Limits::of_server())?;
    let mut goes_on = None;
    for _ in rt.forever() {
        let taken = match goes_on {
            Some(connection) => Some(connection),
            None => event_loop.next(rt, alloc),
        };
        let Some(mut connection) = taken else {
            return Ok(());
        };
        let turn = event_loop.serve(alloc, &mut *connection, &mut room, &mut Always);
        goes_on = event_loop.leave(rt, connection, turn);
    }
    Ok(())
}

/// Serves so many connections, with four workers and so many slots.
pub(crate) fn serve<
    R: Net<Listener = TcpListener, Stream = TcpStream> + Threads + Wait + rt::Clock + Sync,
>(
    rt: &R,
    alloc: Global,
    listener: &TcpListener,
    timeouts: &Timeouts,
    slots: usize,
    connections: u64,
) -> io::Result<()> {
    let limits = Limits::of_server();
    let event_loop = EventLoop::new(rt, alloc, listener, limits, *timeouts, slots, connections)?;
    let event_loop = &event_loop;
    thread::scope(thread::scope_env(), rt, move |scope| {
        for _ in 0..WORKERS {
            let _ = scope.spawn(move || work(rt, alloc, event_loop));
        }
    });
    Ok(())
}
