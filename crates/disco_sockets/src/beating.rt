//! Clients that heartbeat over connections which they keep.
use crate::client::{BEAT, hears, send, visit};
use std::alloc::Global;
use std::net::{Net, SocketAddr, TcpListener, TcpStream};
use std::thread::{Threads, map_vec, sleep};
use std::time::{Duration, Instant};
use std::{io, rt};

/// How many clients there are.
const CLIENTS: u64 = 64;

/// How many heartbeats each makes.
const BEATS: u64 = 3;

/// How many milliseconds are between two heartbeats.
const PERIOD_MILLIS: u64 = 1_000;

/// How many milliseconds a heartbeat takes at most.
const MOST_MILLIS: u128 = 1_000;

/// How often a heartbeat is sent again over a new connection, at most: the one that was kept may have
/// ended.
const TRIES: u64 = 3;

/// Makes a heartbeat over a connection, and over a new one where that has ended. Gives the one back
/// over which it was answered.
fn beat<R: Net<Stream = TcpStream>>(
    rt: &R,
    alloc: Global,
    server: SocketAddr,
    kept: Option<TcpStream>,
) -> io::Result<Option<TcpStream>> {
    let mut line = kept;
    for _ in 0..TRIES {
        let stream = match line {
            Some(stream) => stream,
            None => visit(rt, server)?,
        };
        if send(&stream, BEAT).is_ok() && hears(alloc, &stream, 204) {
            return Ok(Some(stream));
        }
        line = None;
    }
    Ok(None)
}

/// Makes all heartbeats of one client. Whether each was answered in time.
fn beat_often<R: Net<Stream = TcpStream> + rt::Clock>(
    rt: &R,
    alloc: Global,
    server: SocketAddr,
    client: u64,
) -> io::Result<bool> {
    sleep(
        rt,
        Duration::from_millis(client.min(CLIENTS) * (PERIOD_MILLIS / CLIENTS)),
    );
    let mut line = None;
    for _ in 0..BEATS {
        let begun = Instant::now(rt)?;
        line = beat(rt, alloc, server, line)?;
        if line.is_none() || begun.elapsed(rt)?.as_millis() > MOST_MILLIS {
            return Ok(false);
        }
        sleep(rt, Duration::from_millis(PERIOD_MILLIS));
    }
    Ok(true)
}

/// Each client makes its heartbeats, all at once. Whether each was answered in time.
pub(crate) fn all_beat<
    R: Net<Listener = TcpListener, Stream = TcpStream> + Threads + rt::Clock + Sync,
>(rt: &R, alloc: Global, server: SocketAddr) -> io::Result<bool> {
    let mut clients = Vec::new(alloc);
    for client in 0..CLIENTS {
        clients.push(client)?;
    }
    let beaten = map_vec(
        rt,
        clients,
        &|client: u64| { matches!(beat_often(rt, alloc, server, client), Ok(true)) },
    )?;
    Ok(beaten.iter().all(|well| *well))
}
