//! A worker, which serves the connections of an event loop, turn by turn.
use crate::clock::Clock;
use crate::desk_service::{DeskService, ServerContext};
use crate::gate::Gate;
use crate::shared::Shared;
use disco_calls::Routes;
use disco_connections::{Connection, EventLoop, Refusal, Room};
use disco_message::Limits;
use disco_press::{Naming, Seat, Seen};
use std::alloc::{AllocError, Global};
use std::rt;
use std::sync::Wait;

/// What a worker goes to its thread with.
#[derive(Drop)]
pub(crate) struct Worker<'a, J: Naming, R, C, G> {
    context: &'a ServerContext<'a, J, R, G>,
    seat: Seat<J>,
    clock: C,
    room: Room,
}

impl<'a, J: Naming, R, C, G> Worker<'a, J, R, C, G> {
    /// A worker with its room.
    pub(crate) fn new(
        context: &'a ServerContext<'a, J, R, G>,
        seat: Seat<J>,
        clock: C,
        limits: Limits,
    ) -> Result<Worker<'a, J, R, C, G>, AllocError>
    where
        C: Drop,
    {
        let room = Room::new(context.alloc, limits)?;
        Ok(Worker {
            context,
            seat,
            clock,
            room,
        })
    }
}

/// Serves a connection for a turn, by what was seen on it. Gives it again where it could go on and
/// nothing is ready.
fn serve_once<J: Naming, R: Wait + rt::Clock, C: Clock + Copy, G: Gate>(
    rt: &R,
    alloc: Global,
    event_loop: &EventLoop<'_, Shared, Seen<J>>,
    service: &mut DeskService<'_, J, R, C, G>,
    room: &mut Room,
    mut connection: Box<Connection<Shared, Seen<J>>>,
) -> Option<Box<Connection<Shared, Seen<J>>>> {
    service.begin(connection.number, connection.kept.take());
    let turn = event_loop.serve(alloc, &mut *connection, room, service);
    connection.kept = Some(service.seat.seen());
    event_loop.leave(rt, connection, turn)
}

/// Serves one connection after another that is ready, each for a turn, until no more are taken and all
/// have ended.
fn serve_all<J: Naming, R: Wait + rt::Clock, C: Clock + Copy, G: Gate>(
    rt: &R,
    alloc: Global,
    event_loop: &EventLoop<'_, Shared, Seen<J>>,
    service: &mut DeskService<'_, J, R, C, G>,
    mut room: Room,
) {
    let mut goes_on = None;
    for _ in rt.forever() {
        let taken = match goes_on {
            Some(connection) => Some(connection),
            None => event_loop.next(rt, alloc),
        };
        let Some(connection) = taken else {
            return;
        };
        goes_on = serve_once(rt, alloc, event_loop, service, &mut room, connection);
    }
}

/// Makes the worker's router, and serves. Has no more connections taken where there is no memory for
/// the router.
pub(crate) fn work<J: Naming, R: Wait + rt::Clock, C: Clock + Copy, G: Gate>(
    rt: &R,
    alloc: Global,
    event_loop: &EventLoop<'_, Shared, Seen<J>>,
    worker: Worker<'_, J, R, C, G>,
) {
    let Worker {
        context,
        seat,
        clock,
        room,
    } = worker;
    match Routes::new(alloc) {
        Ok(routes) => {
            let mut service = DeskService::new(context, routes, seat, clock);
            serve_all(rt, alloc, event_loop, &mut service, room);
        }
        Err(_) => event_loop
            .poller
            .lock(rt)
            .acceptor
            .refuse(Refusal::NoMemory),
    }
}
