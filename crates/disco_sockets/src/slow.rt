//! Clients that send slowly, or nothing.
use crate::bare_server::WORKERS;
use crate::client::{BEAT, hears, is_at_end, send, visit};
use std::alloc::Global;
use std::net::{Net, SocketAddr, TcpListener, TcpStream};
use std::sync::atomic::{AtomicBool, Ordering};
use std::thread::{Threads, join, sleep};
use std::time::{Duration, Instant};
use std::{io, rt};

/// The front of a head.
const HALF: &[u8] = b"PUT /eureka/v2/apps/A/1 HTTP/1.1\r\nHost: a\r\nX-";

/// The rest of it.
const REST: &[u8] = b"A: b\r\nContent-Length: 0\r\n\r\n";

/// A head whose body is still to come.
const HEAD: &[u8] = b"PUT /eureka/v2/apps/A/1 HTTP/1.1\r\nHost: a\r\nContent-Length: 10000\r\n\r\n";

/// How many clients send byte by byte.
const SLOW: usize = 24;

/// How many milliseconds are between two bytes of each.
const DRIP_MILLIS: u64 = 10;

/// How often each sends a byte, at most.
const DRIPS: u64 = 2_000;

/// How many milliseconds a body has at least, which is longer than a head has.
const BODY_MILLIS: u128 = 1_500;

/// How many milliseconds a client waits beside them, at most.
const MOST_MILLIS: u128 = 3_600;

/// How many milliseconds a client is silent.
const SILENT_MILLIS: u64 = 300;

/// Connections to the server over each of which this was sent.
fn visits<R: Net<Stream = TcpStream>>(
    rt: &R,
    alloc: Global,
    server: SocketAddr,
    count: usize,
    bytes: &[u8],
) -> io::Result<Vec<TcpStream>> {
    let mut streams = Vec::new(alloc);
    for _ in 0..count {
        let stream = visit(rt, server)?;
        send(&stream, bytes)?;
        streams.push(stream)?;
    }
    Ok(streams)
}

/// Another client is answered while half of a request came from more clients than there are workers,
/// and these are answered when the rest comes.
pub(crate) fn are_answered_late<R: Net<Stream = TcpStream> + rt::Clock>(
    rt: &R,
    alloc: Global,
    server: SocketAddr,
) -> io::Result<bool> {
    let halves = visits(rt, alloc, server, 2 * WORKERS, HALF)?;
    sleep(rt, Duration::from_millis(SILENT_MILLIS));
    let another = visit(rt, server)?;
    send(&another, BEAT)?;
    let mut well = hears(alloc, &another, 204);
    for stream in &halves {
        let answered = send(stream, REST).is_ok() && hears(alloc, stream, 204);
        well = well && answered;
    }
    Ok(well)
}

/// Sends a byte over each connection again and again, until it is told to end.
fn drip<R: rt::Clock>(rt: &R, streams: &[TcpStream], ended: &AtomicBool) {
    for _ in 0..DRIPS {
        if ended.load(Ordering::SeqCst) {
            return;
        }
        for stream in streams {
            let _ = send(stream, b"x");
        }
        sleep(rt, Duration::from_millis(DRIP_MILLIS));
    }
}

/// Whether a client is answered in time behind many that send byte by byte, behind this.
fn is_let_in<R: Net<Listener = TcpListener, Stream = TcpStream> + Threads + rt::Clock + Sync>(
    rt: &R,
    alloc: Global,
    server: SocketAddr,
    bytes: &[u8],
) -> io::Result<bool> {
    let slow = visits(rt, alloc, server, SLOW, bytes)?;
    let (slow, ended) = (slow.as_slice(), AtomicBool::new(false));
    let ended = &ended;
    let (_, answered) = join(
        rt,
        move || drip(rt, slow, ended),
        move || {
            let answered = is_answered_in_time(rt, alloc, server);
            ended.store(true, Ordering::SeqCst);
            answered
        },
    );
    answered
}

/// Whether a new client is answered in time.
fn is_answered_in_time<R: Net<Stream = TcpStream> + rt::Clock>(
    rt: &R,
    alloc: Global,
    server: SocketAddr,
) -> io::Result<bool> {
    let begun = Instant::now(rt)?;
    let stream = visit(rt, server)?;
    send(&stream, BEAT)?;
    Ok(hears(alloc, &stream, 204) && begun.elapsed(rt)?.as_millis() <= MOST_MILLIS)
}

/// A connection that sends these bytes and no more lets others in, and is closed, no earlier than after
/// so many milliseconds.
fn is_kept_out<R: Net<Listener = TcpListener, Stream = TcpStream> + Threads + rt::Clock + Sync>(
    rt: &R,
    alloc: Global,
    server: SocketAddr,
    bytes: &[u8],
    least: u128,
) -> io::Result<bool> {
    let start = Instant::now(rt)?;
    let begun = visit(rt, server)?;
    send(&begun, bytes)?;
    let well = is_let_in(rt, alloc, server, bytes)? && is_at_end(&begun);
    Ok(well && start.elapsed(rt)?.as_millis() >= least)
}

/// Clients that send a head or a body byte by byte keep no other one out, and one whose head or body
/// doesn't come to its end in time is closed. A body has more time than a head.
pub(crate) fn are_kept_out<
    R: Net<Listener = TcpListener, Stream = TcpStream> + Threads + rt::Clock + Sync,
>(rt: &R, alloc: Global, server: SocketAddr) -> io::Result<bool> {
    let head = is_kept_out(rt, alloc, server, HALF, 0)?;
    let body = is_kept_out(rt, alloc, server, HEAD, BODY_MILLIS)?;
    Ok(head && body)
}

/// A connection that is silent for a while is served on, and ends when it is silent for longer than it
/// may be.
pub(crate) fn is_kept<R: Net<Stream = TcpStream> + rt::Clock>(
    rt: &R,
    alloc: Global,
    server: SocketAddr,
) -> io::Result<bool> {
    let stream = visit(rt, server)?;
    sleep(rt, Duration::from_millis(SILENT_MILLIS));
    send(&stream, BEAT)?;
    let answered = hears(alloc, &stream, 204);
    let begun = Instant::now(rt)?;
    let ends = is_at_end(&stream);
    Ok(answered && ends && begun.elapsed(rt)?.as_millis() >= u128::from(SILENT_MILLIS))
}

/// Whether each of these hears an answer.
fn all_hear<R: rt::Clock>(rt: &R, alloc: Global, streams: &[TcpStream]) -> bool {
    let mut well = true;
    for stream in streams {
        well = hears(alloc, stream, 204) && well;
        sleep(rt, Duration::from_millis(DRIP_MILLIS));
    }
    well
}

/// Whether each of these is answered, one behind another.
fn all_beat<R: rt::Clock>(rt: &R, alloc: Global, streams: &[TcpStream]) -> bool {
    let mut well = true;
    for stream in streams {
        well = send(stream, BEAT).is_ok() && hears(alloc, stream, 204) && well;
        sleep(rt, Duration::from_millis(DRIP_MILLIS));
    }
    well
}

/// Whether the first of these, which is then the one that is silent longest, ends for a new one, and the
/// others are served on.
fn first_gives_way<R: Net<Stream = TcpStream> + rt::Clock>(
    rt: &R,
    alloc: Global,
    server: SocketAddr,
    streams: &[TcpStream],
) -> io::Result<bool> {
    let [first, rest @ ..] = streams else {
        return Ok(false);
    };
    let served = all_beat(rt, alloc, streams);
    let another = visit(rt, server)?;
    let let_in = send(&another, BEAT).is_ok() && hears(alloc, &another, 204);
    Ok(served && let_in && all_beat(rt, alloc, rest) && is_at_end(first))
}

/// Where as many connections as there may be wait for requests, the one that is silent longest ends for
/// a new one, and the others are served on.
pub(crate) fn gives_way<R: Net<Stream = TcpStream> + rt::Clock>(
    rt: &R,
    alloc: Global,
    server: SocketAddr,
    most: usize,
) -> io::Result<bool> {
    let streams = visits(rt, alloc, server, most, BEAT)?;
    let heard = all_hear(rt, alloc, streams.as_slice());
    let well = first_gives_way(rt, alloc, server, streams.as_slice())?;
    Ok(heard && well)
}
