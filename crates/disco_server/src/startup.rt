//! Starts a server's workers.
ghost use Rattle.std.specs.Prelude.{◌≡◌, ◌⊎◌, IfErr, IfOk, Err, Ok};
ghost use Rattle.disco_values.specs.declared.fault.Fault.TheVariants.{OutOfMemory, ReadFailed};

use crate::clock::Clock;
use crate::desk_service::ServerContext;
use crate::gate::Gate;
use crate::shared::Shared;
use crate::worker::{Worker, work};
use disco_connections::{EventLoop, Refusal, Timeouts};
use disco_message::Limits;
use disco_press::{Desk, Naming, Seat, Seen};
use disco_values::Fault;
use std::alloc::{AllocError, Global};
use std::io::ErrorKind;
use std::net::{Net, TcpListener, TcpStream};
use std::sync::{Mutex, Wait};
use std::thread::{Scope, Threads};
use std::{rt, thread};

/// How many connections are open at once, at most.
const OPEN: usize = 16_384;

/// An event loop for the connections of a listener.
fn event_loop_for<'a, J: Naming, R: Net + rt::Clock>(
    rt: &R,
    alloc: Global,
    listener: &'a TcpListener,
    limits: Limits,
    slots: usize,
    connections: u64,
) -> Result<EventLoop<'a, Shared, Seen<J>>, Fault>
    ensures { IfErr result (λ fault. (fault ≡ OutOfMemory) ⊎ (fault ≡ ReadFailed)) }
{
    let timeouts = Timeouts::of_server();
    match EventLoop::new(rt, alloc, listener, limits, timeouts, slots, connections) {
        Ok(event_loop) => Ok(event_loop),
        Err(error) => match error.kind() {
            ErrorKind::OutOfMemory => Err(Fault::OutOfMemory),
            _ => Err(Fault::ReadFailed),
        },
    }
}

/// A worker for each seat.
fn workers_for<'a, J: Naming, R, C: Clock + Copy, G>(
    context: &'a ServerContext<'a, J, R, G>,
    seats: Vec<Seat<J>>,
    limits: Limits,
    clock: C,
) -> Result<Vec<Worker<'a, J, R, C, G>>, AllocError> {
    let mut workers = Vec::new(context.alloc);
    for seat in seats {
        workers.push(Worker::new(context, seat, clock, limits)?)?;
    }
    Ok(workers)
}

/// Puts each worker on a thread of its own, and calls `ready` once all are there. No connection is taken
/// before that, and none at all where a worker or `ready` is refused.
fn begin<'s, 'a: 's, E, J, R, C, G, T, F>(
    scope: &'s Scope<'s, E>,
    rt: &'s R,
    alloc: Global,
    event_loop: &'s EventLoop<'s, Shared, Seen<J>>,
    workers: Vec<Worker<'a, J, R, C, G>>,
    ready: F,
) -> Result<T, Fault>
where
    J: Naming + Send + Sync + 's,
    R: Net<Listener = TcpListener, Stream = TcpStream> + Threads + Wait + rt::Clock + Sync + 's,
    C: Clock + Copy + Send + 's,
    G: Gate + Sync + 's,
    F: FnOnce() -> Result<T, Fault>,
    requires { F.pre ready }
    ensures made { IfOk result (λ made. F.post ready (Ok made)) }
    ensures fault { IfErr result (λ fault. (fault ≡ ReadFailed) ⊎ F.post ready (Err fault)) }
{
    let mut entry = event_loop.poller.lock(rt);
    for worker in workers {
        let started = scope.spawn(move || work(rt, alloc, event_loop, worker));
        if started.is_err() {
            entry.acceptor.refuse(Refusal::ByHost);
            return Err(Fault::ReadFailed);
        }
    }
    let made = ready();
    if made.is_err() {
        entry.acceptor.refuse(Refusal::ByHost);
    }
    made
}

/// Has the workers take connections by the acceptor, as [`begin`] lets them, and returns once all have
/// ended.
fn run<J, R, C, G, T, F>(
    rt: &R,
    alloc: Global,
    event_loop: &EventLoop<'_, Shared, Seen<J>>,
    workers: Vec<Worker<'_, J, R, C, G>>,
    ready: F,
) -> Result<T, Fault>
where
    J: Naming + Send + Sync,
    R: Net<Listener = TcpListener, Stream = TcpStream> + Threads + Wait + rt::Clock + Sync,
    C: Clock + Copy + Send,
    G: Gate + Sync,
    F: FnOnce() -> Result<T, Fault>,
    requires { F.pre ready }
    ensures made { IfOk result (λ made. F.post ready (Ok made)) }
    ensures fault { IfErr result (λ fault. (fault ≡ ReadFailed) ⊎ F.post ready (Err fault)) }
{
    thread::scope(
        thread::scope_env(),
        rt,
        move |scope|
            requires { F.pre ready }
        { begin(scope, rt, alloc, event_loop, workers, ready) },
    )
}

/// Serves as [`start`] does, with room for so many connections at once (`slots`), and calls `ready` once all workers
/// are there, before any of them takes a connection. Gives what it made.
///
/// # Errors
///
/// Those of [`start`], and what `ready` refuses as. Then none has taken a connection.
pub fn start_with<'a, J, R, C, G, T, F>(
    rt: &'a R,
    alloc: Global,
    listener: TcpListener,
    desk: &'a Mutex<Desk<J>>,
    seats: Vec<Seat<J>>,
    limits: &Limits,
    connections: u64,
    slots: usize,
    clock: C,
    gate: &'a G,
    ready: F,
) -> Result<T, Fault>
where
    J: Naming + Send + Sync,
    R: Net<Listener = TcpListener, Stream = TcpStream> + Threads + Wait + rt::Clock + Sync,
    C: Clock + Copy + Send,
    G: Gate + Sync,
    T: Drop,
    F: FnOnce() -> Result<T, Fault>,
    requires { F.pre ready }
    ensures made { IfOk result (λ made. F.post ready (Ok made)) }
    ensures fault { IfErr result (λ fault. (fault ≡ OutOfMemory) ⊎ ((fault ≡ ReadFailed) ⊎ F.post ready (Err fault))) }
{
    let context = ServerContext::new(rt, alloc, desk, gate);
    let workers = workers_for(&context, seats, *limits, clock)?;
    let event_loop = event_loop_for(rt, alloc, &listener, *limits, slots, connections)?;
    let made = run(rt, alloc, &event_loop, workers, ready)?;
    event_loop.into_outcome()?;
    Ok(made)
}

/// Serves the connections of a listener, with a worker on a thread of its own for each seat. A worker
/// has a connection only while there is something to do for it. Returns once so many connections in
/// all have ended, and never where that is 0; with no seat none is taken.
///
/// A connection is waited for as a server does ([`Timeouts::of_server`]). At most 16,384 are open at once:
/// for one more the one ends that is silent longest between two requests.
///
/// # Errors
///
/// `OutOfMemory` and `ReadFailed`, once all workers have ended. Where the host refuses a worker, or
/// there is no memory or no descriptor before they begin, none takes a connection. Where it refuses
/// a connection for good, or a worker finds no memory for what it needs, no more is taken, and those
/// that were taken are served to their end.
pub fn start<'a, J, R, C, G>(
    rt: &'a R,
    alloc: Global,
    listener: TcpListener,
    desk: &'a Mutex<Desk<J>>,
    seats: Vec<Seat<J>>,
    limits: &Limits,
    connections: u64,
    clock: C,
    gate: &'a G,
) -> Result<(), Fault>
where
    J: Naming + Send + Sync,
    R: Net<Listener = TcpListener, Stream = TcpStream> + Threads + Wait + rt::Clock + Sync,
    C: Clock + Copy + Send,
    G: Gate + Sync,
    ensures { IfErr result (λ fault. (fault ≡ OutOfMemory) ⊎ (fault ≡ ReadFailed)) }
{
    start_with(
        rt,
        alloc,
        listener,
        desk,
        seats,
        limits,
        connections,
        OPEN,
        clock,
        gate,
        || Ok(()),
    )
}
