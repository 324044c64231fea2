//! The command `serve` of the program, on ports of this host.
ghost use Rattle.disco_press.specs.Openings.{Opens};

use crate::client::{LAST_APPS, hears, is_at_end, send, visit};
use crate::dial::{Dial, Turned};
use crate::following::{is_told_why, register_and_follow, words_on};
use crate::naps::{LOOKS, nap};
use crate::turning::sees_all;
use disco_http::Counted;
use disco_press::{Naming, Opening};
use disco_prog::{run, serve_by};
use std::alloc::Global;
use std::io;
use std::io::Write;
use std::net::{Ipv4Addr, Net, SocketAddr, TcpListener, TcpStream};
use std::rt::Clock;
use std::sync::Wait;
use std::sync::atomic::{AtomicBool, Ordering};
use std::thread::{Threads, join};

/// The output of the program. Tells another thread that a line is whole.
#[derive(Drop)]
struct Heard<'a> {
    bytes: Vec<u8>,
    whole: &'a AtomicBool,
}

impl Write for Heard<'_> {
    fn write(&mut self, buf: &[u8]) -> io::Result<usize> {
        let taken = self.bytes.write(buf)?;
        if self.bytes.as_slice().ends_with(b"\n") {
            self.whole.store(true, Ordering::SeqCst);
        }
        Ok(taken)
    }

    fn flush(&mut self) -> io::Result<()> {
        Ok(())
    }
}

/// The address of a port of this host.
fn address(port: u16) -> SocketAddr {
    SocketAddr::from((Ipv4Addr::LOCALHOST, port))
}

/// The words that have the program serve one connection, before a port.
const ONCE: &[&str] = &["serve", "--connections", "1", "--port"];

/// The same for four connections in the run 5.
const IN_RUN_5: &[&str] = &["serve", "--run", "5", "--connections", "4", "--port"];

/// The same for four connections.
const FOUR_TIMES: &[&str] = &["serve", "--connections", "4", "--port"];

/// A client of the program while it serves.
#[derive(Clone, Copy)]
pub(crate) enum Guest<'a> {
    /// Asks once, over one connection.
    Asks,
    /// Registers over one connection, and follows over three others.
    Follows,
    /// Turns the clock by which the program serves, over four connections.
    Turns(&'a Dial),
}

impl Guest<'_> {
    /// The words that have the program serve the guest, before a port.
    fn words(self) -> &'static [&'static str] {
        match self {
            Guest::Asks => ONCE,
            Guest::Follows => IN_RUN_5,
            Guest::Turns(_) => FOUR_TIMES,
        }
    }
}

/// Makes one request. Whether it is answered, and the connection ends.
fn ask<R: Net<Stream = TcpStream>>(rt: &R, alloc: Global, port: u16) -> io::Result<bool> {
    let stream = visit(rt, address(port))?;
    send(&stream, LAST_APPS)?;
    Ok(hears(alloc, &stream, 200) && is_at_end(&stream))
}

/// Waits until the program has said that it listens. Whether it has.
fn is_listening<R: Clock>(rt: &R, whole: &AtomicBool) -> bool {
    for _ in 0..LOOKS {
        if whole.load(Ordering::SeqCst) {
            return true;
        }
        nap(rt);
    }
    false
}

/// Visits the program once it has said that it listens. Whether all is as it has to be.
fn visit_program<R: Net<Stream = TcpStream> + Clock>(
    rt: &R,
    alloc: Global,
    guest: Guest<'_>,
    port: u16,
    whole: &AtomicBool,
) -> io::Result<bool> {
    if !is_listening(rt, whole) {
        return Ok(false);
    }
    match guest {
        Guest::Asks => ask(rt, alloc, port),
        Guest::Follows => register_and_follow(rt, alloc, address(port)),
        Guest::Turns(dial) => sees_all(rt, alloc, address(port), dial),
    }
}

/// Runs the program on the words, beside a guest. Whether it says where it listens and nothing else,
/// serves the guest, and ends with 0 behind the guest's connections.
fn serve_guest<J: Naming + Send + Sync, R>(
    rt: &R,
    alloc: Global,
    opening: Opening,
    guest: Guest<'_>,
    port: u16,
    words: &[String],
) -> io::Result<bool>
where
    R: Net<Listener = TcpListener, Stream = TcpStream> + Threads + Wait + Clock + Sync,
    requires opening { Opens J.list J.name J.parts opening }
{
    let whole = AtomicBool::new(false);
    let whole = &whole;
    let line = format!(in alloc; "listening 127.0.0.1:{port}\n")?;
    let said = line.as_bytes();
    let (served, asked) = join(
        rt,
        move ||
            requires { Opens J.list J.name J.parts opening }
        {
            let bytes = Vec::new(alloc);
            let (mut input, mut out) = (
                Counted::new(io::empty()),
                Counted::new(Heard { bytes, whole }),
            );
            let mut errors = Counted::new(Vec::new(alloc));
            let status = match guest {
                Guest::Asks | Guest::Follows => run::<J, R, _, _, _>(
                    rt,
                    alloc,
                    opening,
                    &mut input,
                    &mut out,
                    &mut errors,
                    words,
                ),
                Guest::Turns(dial) => serve_by::<J, R, _, _, _>(
                    rt,
                    alloc,
                    Ok(Turned::new(dial)),
                    opening,
                    &mut out,
                    &mut errors,
                    words,
                ),
            };
            status == 0 && out.inner.bytes.as_slice() == said && errors.inner.is_empty()
        },
        move || visit_program(rt, alloc, guest, port, whole),
    );
    Ok(served && asked?)
}

/// The program serves a guest on a port that was free just before, and ends.
pub(crate) fn serves<J: Naming + Send + Sync, R>(
    rt: &R,
    alloc: Global,
    opening: Opening,
    guest: Guest<'_>,
) -> io::Result<bool>
where
    R: Net<Listener = TcpListener, Stream = TcpStream> + Threads + Wait + Clock + Sync,
    requires opening { Opens J.list J.name J.parts opening }
{
    let listener = TcpListener::bind(rt, address(0))?;
    let port = listener.local_addr()?.port();
    drop(listener);
    let words = words_on(alloc, guest.words(), port)?;
    serve_guest::<J, R>(rt, alloc, opening, guest, port, words.as_slice())
}

/// On a port that another listens on, the program says so and ends with 1.
fn is_refused_on<J: Naming + Send + Sync, R>(
    rt: &R,
    alloc: Global,
    opening: Opening,
    port: u16,
) -> io::Result<bool>
where
    R: Net<Listener = TcpListener, Stream = TcpStream> + Threads + Wait + Clock + Sync,
    requires opening { Opens J.list J.name J.parts opening }
{
    let words = words_on(alloc, ONCE, port)?;
    let why = format!(in alloc; "discovery: no listening on 127.0.0.1:{port}: ")?;
    let (mut input, mut out) = (Counted::new(io::empty()), Counted::new(Vec::new(alloc)));
    let mut errors = Counted::new(Vec::new(alloc));
    let status = run::<J, R, _, _, _>(
        rt,
        alloc,
        opening,
        &mut input,
        &mut out,
        &mut errors,
        words.as_slice(),
    );
    let (out, errors) = (out.inner.as_slice(), errors.inner.as_slice());
    Ok(is_told_why(status, out, errors, why.as_str()))
}

/// The same of a port that is listened on meanwhile.
pub(crate) fn is_refused<J: Naming + Send + Sync, R>(
    rt: &R,
    alloc: Global,
    opening: Opening,
) -> io::Result<bool>
where
    R: Net<Listener = TcpListener, Stream = TcpStream> + Threads + Wait + Clock + Sync,
    requires opening { Opens J.list J.name J.parts opening }
{
    let listener = TcpListener::bind(rt, address(0))?;
    let port = listener.local_addr()?.port();
    is_refused_on::<J, R>(rt, alloc, opening, port)
}
