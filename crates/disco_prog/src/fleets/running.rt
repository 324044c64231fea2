//! One run of a server, and the work beside it.
ghost use Rattle.disco_press.specs.Openings.{Opens};

use crate::fleets::following::{Follower, connect_all, hang_up_all, refresh_all};
use crate::fleets::plan::Plan;
use crate::fleets::registering::register_all;
use crate::fleets::showing::lines_now;
use disco_http::{Sink, write_all};
use disco_message::Limits;
use disco_press::{Desk, Naming, Opening, Seat, open};
use disco_server::{Open, SystemClock, listen, publish_round, start_with};
use disco_values::{Fault, Settings};
use std::alloc::Global;
use std::net::{Net, TcpListener, TcpStream};
use std::rt::Clock;
use std::sync::{Mutex, Wait};
use std::thread;
use std::thread::{Scope, Threads};

/// How often each client refreshes while instances are registered.
const REFRESHES: u64 = 5;

/// How many rounds are published while instances are registered.
const ROUNDS: u64 = 3;

/// A run of the server: the first one, or one after it.
#[derive(Clone, Copy, Debug, PartialEq, Eq)]
pub(super) enum Turn {
    First,
    Again,
}

/// What is left when a fleet's work is done: the clients, none of which has a connection, and what it
/// came to, as lines.
#[derive(Drop)]
struct Came {
    clients: Vec<Follower>,
    lines: String,
}

/// Publishes so many rounds.
fn publish_rounds<J: Naming, R: Wait>(
    rt: &R,
    desk: &Mutex<Desk<J>>,
    rounds: u64,
) -> Result<(), Fault> {
    for _ in 0..rounds {
        publish_round(rt, desk)?;
    }
    Ok(())
}

/// Instances are registered and rounds are published on threads of their own, while clients refresh.
/// Gives the clients back.
fn work_in<'s, E, J: Naming + Send + Sync + 's, R>(
    scope: &'s Scope<'s, E>,
    rt: &'s R,
    alloc: Global,
    plan: &'s Plan,
    desk: &'s Mutex<Desk<J>>,
    clients: Vec<Follower>,
) -> Result<Vec<Follower>, Fault>
where
    R: Threads + Wait + Clock + Sync + 's,
{
    let Ok(registering) = scope.spawn(move || register_all(
        rt,
        alloc,
        desk,
        plan.writers,
        plan.instances,
    )) else {
        return Err(Fault::ReadFailed);
    };
    let Ok(publishing) = scope.spawn(move || publish_rounds(rt, desk, ROUNDS)) else {
        return Err(Fault::ReadFailed);
    };
    let clients = refresh_all(rt, alloc, clients, REFRESHES);
    registering.join(rt)?;
    publishing.join(rt)?;
    clients
}

/// Instances are registered, rounds are published and clients refresh, all at once. Gives the
/// clients back.
fn work_at_once<J: Naming + Send + Sync, R>(
    rt: &R,
    alloc: Global,
    plan: &Plan,
    desk: &Mutex<Desk<J>>,
    clients: Vec<Follower>,
) -> Result<Vec<Follower>, Fault>
where
    R: Threads + Wait + Clock + Sync,
{
    thread::scope(
        thread::scope_env(),
        rt,
        move |scope| work_in(scope, rt, alloc, plan, desk, clients),
    )
}

/// Instances are registered, in the first run while clients refresh. Gives the clients back.
fn begin<J: Naming + Send + Sync, R>(
    rt: &R,
    alloc: Global,
    plan: &Plan,
    turn: Turn,
    desk: &Mutex<Desk<J>>,
    clients: Vec<Follower>,
) -> Result<Vec<Follower>, Fault>
where
    R: Threads + Wait + Clock + Sync,
{
    match turn {
        Turn::First => work_at_once(rt, alloc, plan, desk, clients),
        Turn::Again => {
            register_all(rt, alloc, desk, plan.writers, plan.instances)?;
            Ok(clients)
        }
    }
}

/// What the writers, the publisher and the clients do beside the server.
fn work<J: Naming + Send + Sync, R>(
    rt: &R,
    alloc: Global,
    plan: &Plan,
    turn: Turn,
    desk: &Mutex<Desk<J>>,
    clients: Vec<Follower>,
) -> Result<Came, Fault>
where
    R: Threads + Wait + Clock + Sync,
{
    let clients = begin(rt, alloc, plan, turn, desk, clients)?;
    publish_round(rt, desk)?;
    let mut clients = refresh_all(rt, alloc, clients, 1)?;
    let lines = lines_now(rt, alloc, desk, clients.as_slice())?;
    hang_up_all(clients.as_mut_slice());
    Ok(Came { clients, lines })
}

/// Serves the clients, and once all workers are there starts the work on a thread of its own.
fn serve_in<'s, E, J: Naming + Send + Sync + 's, R>(
    scope: &'s Scope<'s, E>,
    rt: &'s R,
    alloc: Global,
    plan: &'s Plan,
    turn: Turn,
    listener: TcpListener,
    desk: &'s Mutex<Desk<J>>,
    seats: Vec<Seat<J>>,
    clients: Vec<Follower>,
) -> Result<Came, Fault>
where
    R: Net<Listener = TcpListener, Stream = TcpStream> + Threads + Wait + Clock + Sync + 's,
{
    let working = start_with(
        rt,
        alloc,
        listener,
        desk,
        seats,
        &Limits::of_server(),
        plan.clients,
        plan.clients as usize,
        SystemClock::new(rt),
        &Open,
        move || match scope.spawn(move || work(rt, alloc, plan, turn, desk, clients)) {
            Ok(working) => Ok(working),
            Err(_) => Err(Fault::ReadFailed),
        },
    )?;
    working.join(rt)
}

/// A server with a worker for each client, and beside it the work.
fn serve_and_work<J: Naming + Send + Sync, R>(
    rt: &R,
    alloc: Global,
    plan: &Plan,
    turn: Turn,
    listener: TcpListener,
    desk: &Mutex<Desk<J>>,
    seats: Vec<Seat<J>>,
    mut clients: Vec<Follower>,
) -> Result<Came, Fault>
where
    R: Net<Listener = TcpListener, Stream = TcpStream> + Threads + Wait + Clock + Sync,
{
    connect_all(rt, alloc, &listener, clients.as_mut_slice())?;
    thread::scope(thread::scope_env(), rt, move |scope| {
        serve_in(scope, rt, alloc, plan, turn, listener, desk, seats, clients)
    })
}

/// Writes what a fleet came to, and gives the clients back.
fn tell<W: Sink>(came: Came, out: &mut W) -> Result<Vec<Follower>, Fault> {
    let Came { clients, lines } = came;
    write_all(out, lines.as_bytes())?;
    Ok(clients)
}

/// Listens, opens a desk, and runs all; tells what came of it once the server has ended. Gives the
/// clients back, none of which has a connection.
pub(super) fn run<J: Naming + Send + Sync, R, W: Sink>(
    rt: &R,
    alloc: Global,
    plan: &Plan,
    turn: Turn,
    settings: &Settings,
    opening: Opening,
    clients: Vec<Follower>,
    out: &mut W,
) -> Result<Vec<Follower>, Fault>
where
    R: Net<Listener = TcpListener, Stream = TcpStream> + Threads + Wait + Clock + Sync,
    requires opening { Opens J.list J.name J.parts opening }
{
    let Ok(listener) = listen(rt, 0) else {
        return Err(Fault::ReadFailed);
    };
    let seats = plan.clients as usize;
    let (desk, seats) = open::<J, R>(rt, alloc, settings, seats, opening)?;
    let desk = Mutex::new(desk);
    let came = serve_and_work(rt, alloc, plan, turn, listener, &desk, seats, clients);
    desk.into_inner().close(rt);
    tell(came?, out)
}
