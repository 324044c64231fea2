//! A client of the command `serve` that turns the clock by which the program serves.
ghost use Rattle.std.specs.Prelude.{◌≡◌, ◌⊎◌};
ghost use Rattle.disco_values.specs.declared.query.Query.TheVariants.{Apps, Delta};

use crate::client::{BEAT, hears, send, visit};
use crate::dial::{Dial, START};
use crate::trials::REGISTRATION;
use disco_http::{Counted, Reader, Writer};
use disco_message::Limits;
use disco_reconcile::{Fetch, HttpFetch};
use disco_values::{Cert, DocKey, Form, Query};
use std::alloc::{AllocError, Global};
use std::io;
use std::net::{Net, SocketAddr, TcpStream};
use std::rt::Clock;
use std::thread::sleep;
use std::time::Duration;

/// Announces a body of a byte more than a server takes.
const TOO_LONG: &[u8] =
    b"POST /eureka/v2/apps/A HTTP/1.1\r\nHost: a\r\nContent-Length: 1048577\r\n\r\n";

/// How many milliseconds are from one round, or one cleaning, to the next.
const PERIOD: u64 = 30_000;

/// How many milliseconds behind a renewal a lease has run out, and leases are let run out.
const LEASE: u64 = 240_000;

/// How many milliseconds a client waits between two looks: longer than the timed workers do.
const NAP_MILLIS: u64 = 100;

/// How often a client looks, at most. It makes two requests each time.
const LOOKS: u64 = 300;

/// Fetches over a connection that other requests are made over, too.
type Fetches<'a> = HttpFetch<Counted<&'a TcpStream>, Counted<&'a TcpStream>>;

/// What a client waits for.
#[derive(Clone, Copy)]
enum Awaited {
    /// A round, by which all apps are published.
    Round,
    /// A cleaning, by which the first change is forgotten.
    Cleaning,
    /// A run that lets the lease of its instance run out.
    Expiry,
}

impl Awaited {
    /// How far the clock is turned between two looks, in milliseconds.
    fn step(self) -> u64 {
        match self {
            Awaited::Round | Awaited::Cleaning => PERIOD,
            Awaited::Expiry => LEASE,
        }
    }
}

/// Fetches over a connection.
fn fetches(alloc: Global, stream: &TcpStream) -> Result<Fetches<'_>, AllocError> {
    let reader = Reader::new(alloc, Counted::new(stream), Limits::of_client())?;
    let writer = Writer::new(alloc, Counted::new(stream))?;
    Ok(HttpFetch::new(alloc, reader, writer))
}

/// Registers the instance, once more where it is there.
fn register(alloc: Global, stream: &TcpStream) -> io::Result<bool> {
    send(stream, REGISTRATION)?;
    Ok(hears(alloc, stream, 204))
}

/// The certificate of the full document of a query, where it has one.
fn cert_of(fetches: &mut Fetches<'_>, query: Query) -> Option<Cert>
    requires { (query ≡ Apps) ⊎ (query ≡ Delta) }
{
    let form = Form::Full;
    match fetches.fetch(&DocKey { query, form }) {
        Ok(fetched) => fetched.cert,
        Err(_) => None,
    }
}

/// Makes one more of so many changes. Whether all apps are then shown as they were before it. The run
/// is the moment of the start.
fn is_published(
    alloc: Global,
    stream: &TcpStream,
    fetches: &mut Fetches<'_>,
    changes: u64,
) -> io::Result<bool> {
    let registered = register(alloc, stream)?;
    let cert = cert_of(fetches, Query::Apps);
    let shown = cert.is_some_and(|cert| cert.run == START && cert.version < changes);
    Ok(registered && shown)
}

/// Makes one more change. Whether a delta then starts behind the first one.
fn is_forgotten(alloc: Global, stream: &TcpStream, fetches: &mut Fetches<'_>) -> io::Result<bool> {
    let registered = register(alloc, stream)?;
    let cert = cert_of(fetches, Query::Delta);
    Ok(registered && cert.is_some_and(|cert| cert.base > 0))
}

/// Renews the instance twice, as often as it does in a minute. Whether it is gone.
fn is_gone(alloc: Global, stream: &TcpStream) -> io::Result<bool> {
    for _ in 0..2 {
        send(stream, BEAT)?;
        if hears(alloc, stream, 404) {
            return Ok(true);
        }
    }
    Ok(false)
}

/// Whether the awaited has come, at the look of this number.
fn has_come(
    alloc: Global,
    stream: &TcpStream,
    fetches: &mut Fetches<'_>,
    awaited: Awaited,
    look: u64,
) -> io::Result<bool> {
    match awaited {
        Awaited::Round => is_published(alloc, stream, fetches, look),
        Awaited::Cleaning => is_forgotten(alloc, stream, fetches),
        Awaited::Expiry => is_gone(alloc, stream),
    }
}

/// Looks over a connection, and turns the clock on, over and over until that has come. Whether it has.
fn sees_by<R: Clock>(
    rt: &R,
    alloc: Global,
    stream: &TcpStream,
    fetches: &mut Fetches<'_>,
    dial: &Dial,
    awaited: Awaited,
) -> io::Result<bool> {
    for look in 1..LOOKS {
        if has_come(alloc, stream, fetches, awaited, look)? {
            return Ok(true);
        }
        dial.turn_on(awaited.step());
        sleep(rt, Duration::from_millis(NAP_MILLIS));
    }
    Ok(false)
}

fn sees_over<R: Clock>(
    rt: &R,
    alloc: Global,
    stream: &TcpStream,
    dial: &Dial,
    awaited: Awaited,
) -> io::Result<bool> {
    let mut fetches = fetches(alloc, stream)?;
    sees_by(rt, alloc, stream, &mut fetches, dial, awaited)
}

/// Turns the clock on over and over until that has come. Whether it has.
fn sees<R: Net<Stream = TcpStream> + Clock>(
    rt: &R,
    alloc: Global,
    server: SocketAddr,
    dial: &Dial,
    awaited: Awaited,
) -> io::Result<bool> {
    let stream = visit(rt, server)?;
    sees_over(rt, alloc, &stream, dial, awaited)
}

/// Whether a body that is too long for a server is refused before it comes.
fn is_too_long<R: Net<Stream = TcpStream>>(
    rt: &R,
    alloc: Global,
    server: SocketAddr,
) -> io::Result<bool> {
    let stream = visit(rt, server)?;
    send(&stream, TOO_LONG)?;
    Ok(hears(alloc, &stream, 413))
}

/// Makes four connections. Whether the program takes bodies as a server does, and publishes, forgets
/// changes and lets leases run out by the clock.
pub(crate) fn sees_all<R: Net<Stream = TcpStream> + Clock>(
    rt: &R,
    alloc: Global,
    server: SocketAddr,
    dial: &Dial,
) -> io::Result<bool> {
    let refused = is_too_long(rt, alloc, server)?;
    let published = sees(rt, alloc, server, dial, Awaited::Round)?;
    let forgotten = sees(rt, alloc, server, dial, Awaited::Cleaning)?;
    let gone = sees(rt, alloc, server, dial, Awaited::Expiry)?;
    Ok(refused && published && forgotten && gone)
}
