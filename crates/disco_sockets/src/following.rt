//! The command `follow` of the program, beside a server.
use crate::client::{hears, send, visit};
use disco_http::Counted;
use disco_prog::follow;
use std::alloc::Global;
use std::io;
use std::net::{Ipv4Addr, Net, SocketAddr, TcpListener, TcpStream};
use std::rt::Clock;
use std::time::Instant;

/// Registers an instance, and asks for the connection's end.
const REGISTRATION: &[u8] =
    b"POST /eureka/v2/apps/A HTTP/1.1\r\nHost: a\r\nContent-Type: application/json\r\nContent-Length: 177\r\nConnection: close\r\n\r\n{\"instance\":{\"instanceId\":\"1\",\"hostName\":\"h\",\"app\":\"A\",\"ipAddr\":\"10.0.0.1\",\"status\":\"UP\",\"port\":{\"$\":8080,\"@enabled\":\"true\"},\"vipAddress\":\"v\",\"dataCenterInfo\":{\"name\":\"MyOwn\"}}}";

/// What is written of it in all refreshes as JSON objects, where the server's run is 5.
const TOLD: &[u8] =
    b"{\"changes\":[{\"app\":\"A\",\"change\":\"came\",\"id\":\"1\",\"status\":\"UP\"}],\"run\":5,\"version\":1}\n{\"up\":[{\"host\":\"h\",\"port\":8080}],\"vip\":\"v\"}\n";

/// The words that have the program refresh twice more than a connection makes requests, before a port.
const WORDS: &[&str] = &[
    "follow", "--vip", "v", "--json", "--every", "1", "--times", "1002", "--port",
];

/// The words that have the program refresh twice, with a long pause between them, before a port.
const PAUSED: &[&str] = &[
    "follow", "--vip", "v", "--json", "--every", "2000", "--times", "2", "--port",
];

/// How many milliseconds that pause takes at least.
const PAUSE_MILLIS: u128 = 2_000;

/// Words, and a port behind them.
pub(crate) fn words_on(alloc: Global, words: &[&str], port: u16) -> io::Result<Vec<String>> {
    let mut all = Vec::new(alloc);
    for word in words {
        all.push(String::from_str(alloc, word)?)?;
    }
    all.push(format!(in alloc; "{port}")?)?;
    Ok(all)
}

/// Whether a run has ended with 1, and has written why it had no connection, and nothing else.
pub(crate) fn is_told_why(status: u8, out: &[u8], errors: &[u8], why: &str) -> bool {
    status == 1
        && out.is_empty()
        && errors.starts_with(why.as_bytes())
        && errors.ends_with(b"\ndiscovery: fault 20\n")
}

/// Follows what a server has, as the words and a port say. Whether the instance and its vip are written,
/// once and alone.
fn is_followed<R: Net<Stream = TcpStream> + Clock>(
    rt: &R,
    alloc: Global,
    words: &[&str],
    port: u16,
) -> io::Result<bool> {
    let words = words_on(alloc, words, port)?;
    let (mut out, mut errors) = (Counted::new(Vec::new(alloc)), Counted::new(Vec::new(alloc)));
    let status = follow(rt, alloc, &mut out, &mut errors, words.as_slice());
    Ok(status == 0 && out.inner.as_slice() == TOLD && errors.inner.is_empty())
}

/// Follows with a long pause. Whether it is made.
fn is_paused<R: Net<Stream = TcpStream> + Clock>(
    rt: &R,
    alloc: Global,
    port: u16,
) -> io::Result<bool> {
    let begun = Instant::now(rt)?;
    let followed = is_followed(rt, alloc, PAUSED, port)?;
    Ok(followed && begun.elapsed(rt)?.as_millis() >= PAUSE_MILLIS)
}

/// Registers an instance over one connection, and follows the registry over two others, and with a pause
/// over a fourth. Where the program makes one alone in place of two, the server awaits another one.
pub(crate) fn register_and_follow<R: Net<Stream = TcpStream> + Clock>(
    rt: &R,
    alloc: Global,
    server: SocketAddr,
) -> io::Result<bool> {
    let stream = visit(rt, server)?;
    send(&stream, REGISTRATION)?;
    let registered = hears(alloc, &stream, 204);
    let followed = is_followed(rt, alloc, WORDS, server.port())?;
    if !followed {
        let _ = visit(rt, server);
    }
    let paused = is_paused(rt, alloc, server.port())?;
    Ok(registered && followed && paused)
}

/// A port that nobody listens on.
fn free_port<R: Net<Listener = TcpListener, Stream = TcpStream>>(rt: &R) -> io::Result<u16> {
    let listener = TcpListener::bind(rt, SocketAddr::from((Ipv4Addr::LOCALHOST, 0)))?;
    Ok(listener.local_addr()?.port())
}

/// Where nobody listens the program says so and ends with 1.
pub(crate) fn is_refused<R: Net<Listener = TcpListener, Stream = TcpStream> + Clock>(
    rt: &R,
    alloc: Global,
) -> io::Result<bool> {
    let port = free_port(rt)?;
    let words = words_on(alloc, WORDS, port)?;
    let why = format!(in alloc; "discovery: no connection to 127.0.0.1:{port}: ")?;
    let (mut out, mut errors) = (Counted::new(Vec::new(alloc)), Counted::new(Vec::new(alloc)));
    let status = follow(rt, alloc, &mut out, &mut errors, words.as_slice());
    let (out, errors) = (out.inner.as_slice(), errors.inner.as_slice());
    Ok(is_told_why(status, out, errors, why.as_str()))
}
