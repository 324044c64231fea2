//! Tries a server without a desk with more clients than workers, and with slow ones.
use crate::bare_server::serve;
use crate::beating::all_beat;
use crate::client::visit;
use crate::slow::{are_answered_late, are_kept_out, gives_way, is_kept};
use disco_connections::{Timeouts, listen};
use std::alloc::Global;
use std::net::{Net, SocketAddr, TcpListener, TcpStream};
use std::sync::Wait;
use std::sync::atomic::{AtomicBool, Ordering};
use std::thread::{Threads, join};
use std::{io, rt};

/// How many connections a server takes, which are more than they make.
const CONNECTIONS: u64 = 2_000;

/// How many connections may be open at once, where there are as many as the clients like.
const OPEN: usize = 1_000;

/// And where there are few.
const FEW: usize = 3;

/// What the clients do.
#[derive(Clone, Copy, Debug)]
pub(crate) enum Crowd {
    /// More clients than workers make requests again and again.
    Beats,
    /// Requests come in two halves, while others wait.
    Halves,
    /// Heads and bodies come byte by byte, from more clients than workers.
    Drips,
    /// One client is silent.
    Silence,
    /// One client more than may be there at once.
    Many,
}

impl Crowd {
    /// How long connections are waited for.
    fn timeouts(self) -> Timeouts {
        let mut timeouts = Timeouts {
            between: 20_000,
            head: 20_000,
            body: 20_000,
            reply: 20_000,
            piece: 0,
            ending: 2_000,
            look: 20,
        };
        match self {
            Crowd::Beats | Crowd::Halves | Crowd::Many => {}
            Crowd::Drips => {
                timeouts.head = 300;
                timeouts.body = 1_600;
            }
            Crowd::Silence => timeouts.between = 600,
        }
        timeouts
    }

    /// How many connections may be there at once.
    fn places(self) -> usize {
        match self {
            Crowd::Many => FEW,
            _ => OPEN,
        }
    }
}

/// Has the clients do it. Whether all is as it has to be.
fn try_it<R: Net<Listener = TcpListener, Stream = TcpStream> + Threads + rt::Clock + Sync>(
    rt: &R,
    alloc: Global,
    server: SocketAddr,
    crowd: Crowd,
) -> io::Result<bool> {
    match crowd {
        Crowd::Beats => all_beat(rt, alloc, server),
        Crowd::Halves => are_answered_late(rt, alloc, server),
        Crowd::Drips => are_kept_out(rt, alloc, server),
        Crowd::Silence => is_kept(rt, alloc, server),
        Crowd::Many => gives_way(rt, alloc, server, FEW),
    }
}

/// Makes connections until the server has ended, which it does behind so many.
fn end<R: Net<Stream = TcpStream>>(rt: &R, server: SocketAddr, ended: &AtomicBool) {
    for _ in 0..CONNECTIONS {
        if ended.load(Ordering::SeqCst) {
            return;
        }
        let _ = visit(rt, server);
    }
}

/// Runs a server beside them. Whether all is as it has to be.
pub(crate) fn run<R>(rt: &R, alloc: Global, crowd: Crowd) -> io::Result<bool>
where
    R: Net<Listener = TcpListener, Stream = TcpStream> + Threads + Wait + rt::Clock + Sync,
{
    let listener = listen(rt, 0)?;
    let server = listener.local_addr()?;
    let (timeouts, ended) = (crowd.timeouts(), AtomicBool::new(false));
    let (listener, timeouts, ended) = (&listener, &timeouts, &ended);
    let (served, tried) = join(
        rt,
        move || {
            let served = serve(rt, alloc, listener, timeouts, crowd.places(), CONNECTIONS);
            ended.store(true, Ordering::SeqCst);
            served
        },
        move || {
            let tried = try_it(rt, alloc, server, crowd);
            end(rt, server, ended);
            tried
        },
    );
    served?;
    tried
}
