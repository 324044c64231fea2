//! Accepts that fail.
use crate::bare_server::Nothing;
use crate::client::visit;
use disco_connections::{Accepted, Acceptor, EventLoop, Refusal, Timeouts, accept, listen};
use disco_message::Limits;
use disco_values::Fault;
use std::alloc::Global;
use std::io;
use std::net::{Net, OpenListener, SocketAddr, TcpListener, TcpStream};
use std::rt::Clock;
use std::sync::Wait;
use std::sync::atomic::{AtomicU64, Ordering};

/// The host's numbers for: no descriptor; and no listener.
const NO_DESCRIPTOR: i32 = 24;

const NO_LISTENER: i32 = 22;

/// A listener of which so many accepts fail.
#[derive(Drop)]
struct Failing<'a> {
    listener: &'a TcpListener,
    /// The host's number for the failure.
    number: i32,
    left: AtomicU64,
}

impl OpenListener for Failing<'_> {
    type Stream = TcpStream;

    fn accept(&self) -> io::Result<(TcpStream, SocketAddr)> {
        if self.left.load(Ordering::SeqCst) > 0 {
            self.left.fetch_sub(1, Ordering::SeqCst);
            return Err(io::Error::from_raw_os_error(self.number));
        }
        self.listener.accept()
    }
}

/// What the third accept comes to behind two that fail, and what the acceptor came to.
fn third<R: Net<Stream = TcpStream>>(
    rt: &R,
    number: i32,
) -> io::Result<(Accepted<TcpStream>, Result<(), Fault>)> {
    let listener = listen(rt, 0)?;
    let failing = Failing {
        listener: &listener,
        number,
        left: AtomicU64::new(2),
    };
    let mut acceptor = Acceptor::new(0);
    let _visit = visit(rt, listener.local_addr()?)?;
    accept(&failing, &mut acceptor);
    accept(&failing, &mut acceptor);
    let accepted = accept(&failing, &mut acceptor);
    Ok((accepted, acceptor.outcome()))
}

/// What an event loop comes to whose acceptor is shut by the host.
fn behind_shut<R: Net + Clock + Wait>(rt: &R, alloc: Global) -> io::Result<Result<(), Fault>> {
    let listener = listen(rt, 0)?;
    let (limits, timeouts) = (Limits::of_server(), Timeouts::of_server());
    let event_loop = EventLoop::<Nothing, ()>::new(rt, alloc, &listener, limits, timeouts, 1, 0)?;
    event_loop.poller.lock(rt).acceptor.refuse(Refusal::ByHost);
    Ok(event_loop.into_outcome())
}

/// Behind a failure that passes a connection is taken, and one that doesn't shuts the acceptor and is
/// what the event loop comes to.
pub(crate) fn are_told_apart<R: Net<Stream = TcpStream> + Clock + Wait>(
    rt: &R,
    alloc: Global,
) -> io::Result<bool> {
    let passes = matches!(third(rt, NO_DESCRIPTOR)?, (Accepted::Taken(_, 1), Ok(())));
    let lasts = matches!(
        third(rt, NO_LISTENER)?,
        (Accepted::Refused, Err(Fault::ReadFailed)),
    );
    let told = matches!(behind_shut(rt, alloc)?, Err(Fault::ReadFailed));
    Ok(passes && lasts && told)
}
