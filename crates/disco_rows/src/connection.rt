//! A connection of a row.
ghost use Rattle.disco_press.specs.Openings.{Opens};

use crate::pieces::Pieces;
use disco_calls::Routes;
use disco_http::{Counted, Reader, Served, Service, Writer, serve};
use disco_hub::Hub;
use disco_message::Limits;
use disco_press::{Desk, Naming, Opening, Seat, open};
use disco_server::{DeskService, HubService, Open, ServerContext};
use disco_trials::Ticks;
use disco_values::Settings;
use std::alloc::{AllocError, Global};
use std::io;
use std::sync::{Mutex, Wait};

/// How far each moment of a row is from the one before, in milliseconds.
const STEP: u64 = 1_000;

/// What a connection came to.
#[derive(Debug, Drop)]
pub(crate) struct Came {
    /// What the client gets.
    pub(crate) reply: Vec<u8>,
    pub(crate) served: Served,
}

/// What a connection comes to that sends these bytes, where a read gives at most so many of them.
fn run<V: Service>(
    alloc: Global,
    service: &mut V,
    request: &[u8],
    piece: usize,
) -> Result<Came, AllocError> {
    let mut reply = Vec::new(alloc);
    let mut reader = Reader::new(alloc, Pieces::new(request, piece), Limits::of_server())?;
    let mut writer = Writer::new(alloc, Counted::new(&mut reply))?;
    let served = serve(alloc, &mut reader, &mut writer, service);
    drop(writer);
    Ok(Came { reply, served })
}

/// What a connection comes to over an empty hub.
pub(crate) fn over_a_hub(
    alloc: Global,
    settings: &Settings,
    request: &[u8],
    piece: usize,
) -> Result<Came, AllocError> {
    let routes = Routes::new(alloc)?;
    let mut service = HubService::new(alloc, routes, Hub::new(alloc, settings), Ticks::new(STEP));
    run(alloc, &mut service, request, piece)
}

fn at_a_seat<J: Naming, R: Wait>(
    rt: &R,
    alloc: Global,
    desk: &Mutex<Desk<J>>,
    seat: Seat<J>,
    request: &[u8],
    piece: usize,
) -> io::Result<Came> {
    let context = ServerContext::new(rt, alloc, desk, &Open);
    let mut service = DeskService::new(&context, Routes::new(alloc)?, seat, Ticks::new(STEP));
    Ok(run(alloc, &mut service, request, piece)?)
}

/// What a connection comes to at the one seat of an empty desk, which is under its lock.
pub(crate) fn over_a_desk<J: Naming, R: Wait>(
    rt: &R,
    alloc: Global,
    opening: Opening,
    settings: &Settings,
    request: &[u8],
    piece: usize,
) -> io::Result<Came>
    requires opening { Opens J.list J.name J.parts opening }
{
    let Ok((desk, mut seats)) = open::<J, R>(rt, alloc, settings, 1, opening) else {
        return Err(io::Error::from(io::ErrorKind::OutOfMemory));
    };
    let desk = Mutex::new(desk);
    let came = match seats.pop() {
        Some(seat) => at_a_seat(rt, alloc, &desk, seat, request, piece),
        None => Err(io::Error::from(io::ErrorKind::NotFound)),
    };
    desk.into_inner().close(rt);
    came
}
