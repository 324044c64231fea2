//! A server by a clock and a gate of one's own: what answers a request, and what runs.
ghost use Rattle.std.specs.Prelude.{◌≡◌};

use crate::given::say;
use crate::hubs::settings;
use disco_http::{Counted, Limits, Reader, Reply, Request, Service, Writer};
use disco_hub::Hub;
use disco_instance::{Fault, Form};
use disco_press::{Desk, Naming, Seat};
use disco_reconcile::{Client, Fetch, HttpFetch};
use disco_server::{
    Clock, Gate, HubService, Point, Routes, Shared, answer, answer_hub, answer_on, listen, start,
    timers,
};
use std::alloc::Global;
use std::net::{Net, SocketAddr, TcpListener, TcpStream};
use std::rt;
use std::sync::atomic::{AtomicBool, Ordering};
use std::sync::{Mutex, MutexGuard, Wait};
use std::thread::{Threads, join, yield_now};

pub(crate) const GET: &[u8] = b"GET /eureka/v2/apps HTTP/1.1\r\nHost: a\r\n\r\n";

pub(crate) const GET_COMPACT: &[u8] =
    b"GET /eureka/v2/apps HTTP/1.1\r\nHost: a\r\nX-Eureka-Accept: compact\r\n\r\n";

/// Cancels the instance that is there.
const DELETE: &[u8] = b"DELETE /eureka/v2/apps/A/1 HTTP/1.1\r\nHost: a\r\n\r\n";

/// Registers an instance whose lease lasts 90 seconds.
const POST: &[u8] =
    b"POST /eureka/v2/apps/A HTTP/1.1\r\nHost: a\r\nContent-Length: 110\r\n\r\n{\"instance\":{\"instanceId\":\"r\",\"hostName\":\"h\",\"app\":\"A\",\"ipAddr\":\"10.0.0.1\",\"dataCenterInfo\":{\"name\":\"MyOwn\"}}}";

/// Renews it.
const PUT: &[u8] = b"PUT /eureka/v2/apps/A/r HTTP/1.1\r\nHost: a\r\n\r\n";

/// Reads it.
const GET_ONE: &[u8] = b"GET /eureka/v2/apps/A/r HTTP/1.1\r\nHost: a\r\n\r\n";

/// How often a thread looks at the flag of another one, at most.
const TURNS: u64 = 10_000_000;

/// A clock that stands still.
#[derive(Clone, Copy, Debug)]
pub(crate) struct Noon;

impl Clock for Noon {
    ghost ticks = { λ _ now _. now ≡ 12 };

    fn now(&mut self) -> u64 {
        12
    }
}

/// A gate that remembers whether a request was received, and whether one was answered.
#[derive(Drop)]
pub(crate) struct Turnstile {
    received: AtomicBool,
    answered: AtomicBool,
}

impl Turnstile {
    fn new() -> Turnstile {
        Turnstile {
            received: AtomicBool::new(false),
            answered: AtomicBool::new(false),
        }
    }

    fn was_passed(&self) -> bool {
        self.received.load(Ordering::SeqCst) && self.answered.load(Ordering::SeqCst)
    }
}

impl Gate for Turnstile {
    fn pass(&self, point: Point) {
        match point {
            Point::Received(_) => self.received.store(true, Ordering::SeqCst),
            Point::Answered(_) => self.answered.store(true, Ordering::SeqCst),
        }
    }
}

/// A request that was read.
fn taken(read: Result<Option<Request>, Fault>) -> Result<Request, Fault> {
    match read {
        Ok(Some(request)) => Ok(request),
        Ok(None) => Err(Fault::BadRequest),
        Err(fault) => Err(fault),
    }
}

/// The request that stands in some bytes.
fn read(alloc: Global, bytes: &[u8]) -> Result<Request, Fault> {
    let mut reader = Reader::new(alloc, Counted::new(bytes), Limits::of_server())?;
    taken(reader.read_request(alloc))
}

/// The version of the document that a reply has, 0 where it has none.
fn version_of(reply: &Reply<Shared>) -> u64 {
    match &reply.document {
        Some(shared) => shared.payload.version,
        None => 0,
    }
}

fn say_reply(out: &mut String, status: u16, version: u64) -> Result<(), Fault> {
    say(out, "status", status as u64)?;
    say(out, "version", version)
}

fn tell_reply(reply: Reply<Shared>, out: &mut String) -> Result<(), Fault> {
    say_reply(out, reply.status.as_u16(), version_of(&reply))
}

/// What a hub answers.
fn tell_answer(
    alloc: Global,
    routes: &Routes,
    hub: &mut Hub,
    request: &Request,
    out: &mut String,
) -> Result<(), Fault> {
    tell_reply(answer_hub(alloc, routes, hub, request, 2), out)
}

/// What a service over a hub answers, and when.
fn tell_call(
    service: &mut HubService<Noon>,
    request: &Request,
    out: &mut String,
) -> Result<(), Fault> {
    tell_reply(service.call(request), out)?;
    say(out, "noon", service.clock.now())
}

/// What a hub answers, and what a service over it does.
fn tell_both(
    alloc: Global,
    routes: &Routes,
    service: &mut HubService<Noon>,
    request: &Request,
    out: &mut String,
) -> Result<(), Fault> {
    tell_answer(alloc, routes, &mut service.hub, request, out)?;
    tell_call(service, request, out)
}

/// A service over a new hub.
pub(crate) fn service(alloc: Global, routes: Routes) -> HubService<Noon> {
    HubService::new(alloc, routes, Hub::new(alloc, &settings()), Noon)
}

/// Makes the calls that take a hub and no desk.
pub(crate) fn tell_hub(
    alloc: Global,
    routes: &Routes,
    service: &mut HubService<Noon>,
    out: &mut String,
) -> Result<(), Fault> {
    let request = read(alloc, GET)?;
    tell_both(alloc, routes, service, &request, out)
}

/// What a desk answers to one of its seats.
fn tell_on<J: Naming>(
    alloc: Global,
    routes: &Routes,
    desk: &mut Desk<J>,
    seat: &mut Seat<J>,
    out: &mut String,
) -> Result<(), Fault> {
    let request = read(alloc, GET)?;
    tell_reply(answer_on(alloc, routes, desk, seat, &request, 1), out)
}

/// The same, and how many changes the seat has made.
pub(crate) fn tell_desk<J: Naming>(
    alloc: Global,
    routes: &Routes,
    desk: &mut Desk<J>,
    seat: &mut Seat<J>,
    out: &mut String,
) -> Result<(), Fault> {
    tell_on(alloc, routes, desk, seat, out)?;
    say(out, "changes", seat.changes())
}

/// Waits until another thread has set the flag. False where it doesn't.
fn has_come(flag: &AtomicBool) -> bool {
    for _ in 0..TURNS {
        if flag.load(Ordering::SeqCst) {
            return true;
        }
        yield_now();
    }
    false
}

/// Holds the lock of a desk until another thread has answered. Sets `held` once it has the lock. False
/// where no answer comes.
fn hold<J: Naming, R: Wait>(
    rt: &R,
    desk: &Mutex<Desk<J>>,
    held: &AtomicBool,
    answered: &AtomicBool,
) -> bool {
    let guard = desk.lock(rt);
    held.store(true, Ordering::SeqCst);
    let came = has_come(answered);
    MutexGuard::unlock(guard);
    came
}

/// The status of what is answered to a request at a moment.
fn asked<J: Naming, R: Wait>(
    rt: &R,
    alloc: Global,
    routes: &Routes,
    desk: &Mutex<Desk<J>>,
    seat: &mut Seat<J>,
    bytes: &[u8],
    now: u64,
) -> Result<u16, Fault> {
    let request = read(alloc, bytes)?;
    let reply = answer(rt, alloc, routes, desk, seat, &request, now);
    Ok(reply.status.as_u16())
}

/// Answers a GET of a published document while another thread has the lock, and tells the status.
fn answer_beside<J: Naming, R: Wait>(
    rt: &R,
    alloc: Global,
    routes: &Routes,
    desk: &Mutex<Desk<J>>,
    seat: &mut Seat<J>,
    bytes: &[u8],
    held: &AtomicBool,
    answered: &AtomicBool,
) -> Result<u16, Fault> {
    let _ = has_come(held);
    let status = asked(rt, alloc, routes, desk, seat, bytes, 2);
    answered.store(true, Ordering::SeqCst);
    status
}

/// A GET of a published document is answered while another thread has the lock.
pub(crate) fn tell_beside<J: Naming + Send + Sync, R: Threads + Wait + Sync>(
    rt: &R,
    alloc: Global,
    routes: &Routes,
    desk: &Mutex<Desk<J>>,
    seat: &mut Seat<J>,
    bytes: &[u8],
    out: &mut String,
) -> Result<(), Fault> {
    let (held, answered) = (AtomicBool::new(false), AtomicBool::new(false));
    let (held, answered) = (&held, &answered);
    let (in_time, status) = join(
        rt,
        move || hold(rt, desk, held, answered),
        move || { answer_beside(rt, alloc, routes, desk, seat, bytes, held, answered) },
    );
    say(out, "beside the lock", status? as u64)?;
    say(out, "in time", in_time as u64)
}

/// Tells the status of what is answered at a moment under the lock.
fn tell_asked<J: Naming, R: Wait>(
    rt: &R,
    alloc: Global,
    routes: &Routes,
    desk: &Mutex<Desk<J>>,
    seat: &mut Seat<J>,
    bytes: &[u8],
    now: u64,
    out: &mut String,
) -> Result<(), Fault> {
    let status = asked(rt, alloc, routes, desk, seat, bytes, now)?;
    say(out, "asked", status as u64)
}

/// Two renewals under the lock are counted once each, and keep their instance, whose lease would have
/// run out.
fn tell_renewed<J: Naming, R: Wait>(
    rt: &R,
    alloc: Global,
    routes: &Routes,
    desk: &Mutex<Desk<J>>,
    seat: &mut Seat<J>,
    out: &mut String,
) -> Result<(), Fault> {
    tell_asked(rt, alloc, routes, desk, seat, POST, 0, out)?;
    tell_asked(rt, alloc, routes, desk, seat, PUT, 10_000, out)?;
    tell_asked(rt, alloc, routes, desk, seat, PUT, 10_000, out)?;
    let mut guard = desk.lock(rt);
    let minute = guard.close_minute();
    let expired = guard.expire(185_000);
    MutexGuard::unlock(guard);
    say(out, "renewals", minute.renewals)?;
    say(out, "gone", expired.gone)
}

/// Renewals under the lock do what they have to, and a read there does no more: it leaves its instance,
/// whose lease has run out then.
pub(crate) fn tell_renewals<J: Naming, R: Wait>(
    rt: &R,
    alloc: Global,
    routes: &Routes,
    desk: &Mutex<Desk<J>>,
    seat: &mut Seat<J>,
    out: &mut String,
) -> Result<(), Fault> {
    tell_asked(rt, alloc, routes, desk, seat, DELETE, 0, out)?;
    tell_renewed(rt, alloc, routes, desk, seat, out)?;
    tell_asked(rt, alloc, routes, desk, seat, GET_ONE, 300_000, out)?;
    let mut guard = desk.lock(rt);
    let minute = guard.close_minute();
    MutexGuard::unlock(guard);
    say(out, "instances", minute.instances)
}

/// What fetches over a connection.
fn fetches<'a>(
    alloc: Global,
    stream: &'a TcpStream,
) -> Result<HttpFetch<Counted<&'a TcpStream>, Counted<&'a TcpStream>>, Fault> {
    let reader = Reader::new(alloc, Counted::new(stream), Limits::of_client())?;
    let writer = Writer::new(alloc, Counted::new(stream))?;
    Ok(HttpFetch::new(alloc, reader, writer))
}

/// How many instances a client holds that fetches once.
fn held<F: Fetch>(client: &mut Client<F>) -> Result<u64, Fault> {
    client.refresh()?;
    Ok(client.copy().map_or(0, |copy| copy.len()) as u64)
}

/// The same of one that fetches over this connection.
fn held_over(alloc: Global, stream: &TcpStream) -> Result<u64, Fault> {
    let mut client = Client::new(alloc, fetches(alloc, stream)?, Form::Full);
    held(&mut client)
}

/// The same over a connection of its own.
fn held_by_client<R: Net<Stream = TcpStream>>(
    rt: &R,
    alloc: Global,
    server: SocketAddr,
) -> Result<u64, Fault> {
    match TcpStream::connect(rt, server) {
        Ok(stream) => held_over(alloc, &stream),
        Err(_) => Err(Fault::NotFetched),
    }
}

/// Serves one connection of a listener, and gives how many instances its client holds.
fn served<J: Naming + Send + Sync, R>(
    rt: &R,
    alloc: Global,
    listener: TcpListener,
    desk: &Mutex<Desk<J>>,
    seats: Vec<Seat<J>>,
    gate: &Turnstile,
) -> Result<u64, Fault>
where
    R: Net<Listener = TcpListener, Stream = TcpStream> + Threads + Wait + rt::Clock + Sync,
{
    let Ok(server) = listener.local_addr() else {
        return Err(Fault::ReadFailed);
    };
    let limits = Limits::of_server();
    let limits = &limits;
    let (served, held) = join(
        rt,
        move || start(rt, alloc, listener, desk, seats, limits, 1, Noon, gate),
        move || held_by_client(rt, alloc, server),
    );
    served.and(held)
}

/// A server that takes one connection, beside timed workers that are told to stop.
pub(crate) fn tell_running<J: Naming + Send + Sync, R>(
    rt: &R,
    alloc: Global,
    desk: &Mutex<Desk<J>>,
    seats: Vec<Seat<J>>,
    out: &mut String,
) -> Result<(), Fault>
where
    R: Net<Listener = TcpListener, Stream = TcpStream> + Threads + Wait + rt::Clock + Sync,
{
    timers(rt, desk, Noon, &AtomicBool::new(true))?;
    let Ok(listener) = listen(rt, 0) else {
        return Err(Fault::ReadFailed);
    };
    let gate = Turnstile::new();
    let held = served(rt, alloc, listener, desk, seats, &gate)?;
    say(out, "a client holds", held)?;
    say(out, "passed", gate.was_passed() as u64)
}
