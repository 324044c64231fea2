//! The trials of a server, each on connections of its own.
use crate::client::{LAST_APPS, hears, is_at_end, send, visit};
use crate::naps::{LOOKS, nap};
use crate::timed::apps;
use disco_press::{Desk, Looked, Naming, Seat};
use std::alloc::Global;
use std::net::{Net, Shutdown, SocketAddr, TcpStream};
use std::sync::{Mutex, MutexGuard, Wait};
use std::{io, rt};

/// Asks for all apps.
const APPS: &[u8] = b"GET /eureka/v2/apps HTTP/1.1\r\nHost: a\r\n\r\n";

/// Asks for an app that isn't there.
const NO_APP: &[u8] = b"GET /eureka/v2/apps/NONE HTTP/1.1\r\nHost: a\r\n\r\n";

/// The front of a head.
const HALF_HEAD: &[u8] = b"GET /eureka/v2/apps HTTP/1.1\r\nHo";

/// Registers an instance.
pub(crate) const REGISTRATION: &[u8] =
    b"POST /eureka/v2/apps/A HTTP/1.1\r\nHost: a\r\nContent-Type: application/json\r\nContent-Length: 110\r\n\r\n{\"instance\":{\"instanceId\":\"1\",\"hostName\":\"h\",\"app\":\"A\",\"ipAddr\":\"10.0.0.1\",\"dataCenterInfo\":{\"name\":\"MyOwn\"}}}";

/// How many requests a connection may make.
const REQUESTS: u64 = 1_000;

/// How many bytes follow the last request of a connection, unread.
const UNREAD: usize = 20_000;

/// How many connections all trials make.
pub(crate) const CONNECTIONS: u64 = 8;

/// Two clients at once are answered by two workers, though the first answer is held until the second
/// is there.
pub(crate) fn two_at_once<R: Net<Stream = TcpStream>>(
    rt: &R,
    alloc: Global,
    server: SocketAddr,
) -> io::Result<bool> {
    let first = visit(rt, server)?;
    send(&first, APPS)?;
    let second = visit(rt, server)?;
    send(&second, APPS)?;
    Ok(hears(alloc, &second, 200) && hears(alloc, &first, 200))
}

/// A request that comes byte by byte is answered.
pub(crate) fn byte_by_byte<R: Net<Stream = TcpStream>>(
    rt: &R,
    alloc: Global,
    server: SocketAddr,
) -> io::Result<bool> {
    let stream = visit(rt, server)?;
    for byte in APPS {
        send(&stream, &[*byte])?;
    }
    Ok(hears(alloc, &stream, 200))
}

/// A connection that ends inside a head is answered by the refusal of what came.
pub(crate) fn half_a_head<R: Net<Stream = TcpStream>>(
    rt: &R,
    alloc: Global,
    server: SocketAddr,
) -> io::Result<bool> {
    let stream = visit(rt, server)?;
    send(&stream, HALF_HEAD)?;
    stream.shutdown(Shutdown::Write)?;
    Ok(hears(alloc, &stream, 400) && is_at_end(&stream))
}

/// The reply to a connection's last request comes whole, though more was sent behind it than is read,
/// and the connection ends behind it.
pub(crate) fn unread_behind<R: Net<Stream = TcpStream>>(
    rt: &R,
    alloc: Global,
    server: SocketAddr,
) -> io::Result<bool> {
    let stream = visit(rt, server)?;
    let mut bytes = Vec::from_slice(alloc, LAST_APPS)?;
    bytes.resize(LAST_APPS.len() + UNREAD, b'x')?;
    send(&stream, bytes.as_slice())?;
    Ok(hears(alloc, &stream, 200) && is_at_end(&stream))
}

/// A connection may make so many requests, and ends behind the last.
pub(crate) fn many_requests<R: Net<Stream = TcpStream>>(
    rt: &R,
    alloc: Global,
    server: SocketAddr,
) -> io::Result<bool> {
    let stream = visit(rt, server)?;
    for _ in 0..REQUESTS {
        send(&stream, NO_APP)?;
        if !hears(alloc, &stream, 404) {
            return Ok(false);
        }
    }
    Ok(is_at_end(&stream))
}

/// Whether a document of this version or a later one was found.
fn is_since(looked: Looked, version: u64) -> bool {
    match looked {
        Looked::Doc(doc) => doc.version >= version,
        Looked::Miss | Looked::Shut => false,
    }
}

/// Whether a seat sees the document of all apps at last, at this version or a later one.
fn sees<J: Naming, R: rt::Clock>(rt: &R, seat: &mut Seat<J>, version: u64) -> bool {
    let key = apps();
    for _ in 0..LOOKS {
        if is_since(seat.look(&key), version) {
            return true;
        }
        nap(rt);
    }
    false
}

/// A registration is seen by a look, once the timed workers have published: the document of all apps
/// was asked for before, so they publish it, and anew with the registration.
pub(crate) fn seen_in_time<J: Naming, R: Net<Stream = TcpStream> + rt::Clock>(
    rt: &R,
    alloc: Global,
    server: SocketAddr,
    seat: &mut Seat<J>,
) -> io::Result<bool> {
    if !sees(rt, seat, 0) {
        return Ok(false);
    }
    let stream = visit(rt, server)?;
    send(&stream, REGISTRATION)?;
    Ok(hears(alloc, &stream, 204) && sees(rt, seat, 1))
}

/// What was published is served while another thread has the desk's lock.
pub(crate) fn served_beside_the_lock<J: Naming, R: Net<Stream = TcpStream> + Wait>(
    rt: &R,
    alloc: Global,
    server: SocketAddr,
    desk: &Mutex<Desk<J>>,
) -> io::Result<bool> {
    let stream = visit(rt, server)?;
    let guard = desk.lock(rt);
    let heard = send(&stream, APPS).is_ok() && hears(alloc, &stream, 200);
    MutexGuard::unlock(guard);
    Ok(heard)
}
