//! A desk that answers the requests of a worker's connections.
ghost use Rattle.std.specs.Prelude.{◌≡◌};

use crate::clock::Clock;
use crate::gate::{Gate, Point};
use crate::locked::answer_in;
use crate::shared::Shared;
use disco_calls::Routes;
use disco_http::Service;
use disco_message::{Reply, Request};
use disco_press::{Desk, Naming, Seat, Seen};
use std::alloc::Global;
use std::sync::{Mutex, Wait};

/// What all workers of a server share.
#[derive(Drop)]
pub struct ServerContext<'a, J: Naming, R, G> {
    pub rt: &'a R,
    pub alloc: Global,
    pub desk: &'a Mutex<Desk<J>>,
    pub gate: &'a G,
    /// Whoever reads a long body has it.
    pub(crate) long_body: Mutex<()>,
}

impl<'a, J: Naming, R, G> ServerContext<'a, J, R, G> {
    /// What the workers share that serve a desk.
    pub fn new(
        rt: &'a R,
        alloc: Global,
        desk: &'a Mutex<Desk<J>>,
        gate: &'a G,
    ) -> ServerContext<'a, J, R, G> {
        ServerContext {
            rt,
            alloc,
            desk,
            gate,
            long_body: Mutex::new(()),
        }
    }
}

/// A desk that answers the requests of one connection after another, each at the moment that the
/// worker's clock says.
#[derive(Drop)]
pub struct DeskService<'a, J: Naming, R, C, G> {
    pub context: &'a ServerContext<'a, J, R, G>,
    /// The worker's own router.
    pub routes: Routes,
    /// The worker's own place at the desk.
    pub seat: Seat<J>,
    /// What says when.
    pub clock: C,
    /// The number of the connection, from 1.
    pub connection: u64,
}

impl<'a, J: Naming, R, C, G> DeskService<'a, J, R, C, G> {
    ghost use Rattle.disco_press.specs.Seats.{seat_told};

    /// A service for the connections of one worker, of which there was none yet.
    pub fn new(
        context: &'a ServerContext<'a, J, R, G>,
        routes: Routes,
        seat: Seat<J>,
        clock: C,
    ) -> DeskService<'a, J, R, C, G>
        ensures seat { result.seat ≡ seat }
        ensures clock { result.clock ≡ clock }
    {
        DeskService {
            context,
            routes,
            seat,
            clock,
            connection: 0,
        }
    }

    /// From now on the connection of this number is served. The seat knows what was seen on it: another
    /// worker may have served it before. Of a new connection nothing was seen.
    pub fn begin(&mut self, number: u64, seen: Option<Seen<J>>)
        ensures { self.new ≡ record self.old { connection = number; seat = seat_told self.old.seat seen } }
    {
        self.connection = number;
        if let Some(seen) = seen {
            self.seat.tell(seen);
        }
    }
}

impl<'a, J: Naming, R: Wait, C: Clock, G: Gate> Service for DeskService<'a, J, R, C, G> {
    ghost use Rattle.disco_server.specs.Serving.{ServesDesk};

    type Body = Shared;

    ghost answers = { ServesDesk C.ticks };

    fn call(&mut self, request: &Request) -> Reply<Shared> {
        self.context.gate.pass(Point::Received(self.connection));
        let now = self.clock.now();
        let reply = answer_in(self.context, &self.routes, &mut self.seat, request, now);
        self.context.gate.pass(Point::Answered(self.connection));
        reply
    }
}
