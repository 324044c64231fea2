//! Runs a server and its trials at once.
ghost use Rattle.disco_press.specs.Openings.{Opens};

use crate::holding::Holding;
use crate::trials;
use crate::trials::CONNECTIONS;
use disco_message::Limits;
use disco_press::{Desk, Naming, Opening, Seat, open};
use disco_server::{start, timers};
use disco_trials::{Ticks, told};
use disco_values::{Fault, Settings};
use std::alloc::Global;
use std::net::{Net, SocketAddr, TcpListener, TcpStream};
use std::sync::atomic::{AtomicBool, Ordering};
use std::sync::{Mutex, Wait};
use std::thread::{Threads, join};
use std::{io, rt};

/// How far each moment is from the one before, in milliseconds: as far as two rounds are, so that
/// each time that the clock is asked the next round is due.
const STEP: u64 = 30_000;

/// Two workers, and one seat for the trials.
const SEATS: usize = 3;

/// All trials of a server, one after another.
fn try_all<J: Naming, R: Net<Stream = TcpStream> + Wait + rt::Clock + Print>(
    rt: &R,
    alloc: Global,
    server: SocketAddr,
    desk: &Mutex<Desk<J>>,
    seat: &mut Seat<J>,
) -> io::Result<bool> {
    let all = [
        told(
            rt,
            "two clients at once",
            trials::two_at_once(rt, alloc, server),
        )?,
        told(rt, "byte by byte", trials::byte_by_byte(rt, alloc, server))?,
        told(rt, "half a head", trials::half_a_head(rt, alloc, server))?,
        told(
            rt,
            "unread behind the last request",
            trials::unread_behind(rt, alloc, server),
        )?,
        told(
            rt,
            "as many requests as there may be",
            trials::many_requests(rt, alloc, server),
        )?,
        told(
            rt,
            "seen in time",
            trials::seen_in_time(rt, alloc, server, seat),
        )?,
        told(
            rt,
            "served beside the lock",
            trials::served_beside_the_lock(rt, alloc, server, desk),
        )?,
    ];
    Ok(all.iter().all(|well| *well))
}

/// The server, its timed workers and the trials, at once.
fn serve_and_try<J, R>(
    rt: &R,
    alloc: Global,
    listener: TcpListener,
    desk: &Mutex<Desk<J>>,
    seats: Vec<Seat<J>>,
    seat: Seat<J>,
) -> io::Result<bool>
where
    J: Naming + Send + Sync,
    R: Threads + Wait + rt::Clock + Net<Listener = TcpListener, Stream = TcpStream> + Print + Sync,
{
    let server = listener.local_addr()?;
    let limits = Limits::of_server();
    let (gate, stop) = (Holding::new(), AtomicBool::new(false));
    let (limits, gate, stop) = (&limits, &gate, &stop);
    let (served, (timed, tried)) = join(
        rt,
        move || {
            start(
                rt,
                alloc,
                listener,
                desk,
                seats,
                limits,
                CONNECTIONS,
                Ticks::new(STEP),
                gate,
            )
        },
        move || join(
            rt,
            move || timers(rt, desk, Ticks::new(STEP), stop),
            move || {
                let mut seat = seat;
                let tried = try_all(rt, alloc, server, desk, &mut seat);
                stop.store(true, Ordering::SeqCst);
                tried
            },
        ),
    );
    let well = served.is_ok() && timed.is_ok() && gate.was_kept();
    Ok(told::<R, Fault>(rt, "all workers ended well", Ok(well))? && tried?)
}

/// Tries a server over a new desk, and tells whether all is as it has to be.
pub(crate) fn run<J: Naming + Send + Sync, R>(rt: &R, opening: Opening) -> io::Result<bool>
where
    R: Threads + Wait + rt::Clock + Net<Listener = TcpListener, Stream = TcpStream>,
    R: AllocGlobal + Print + Sync,
    requires opening { Opens J.list J.name J.parts opening }
{
    let alloc = rt.alloc();
    let listener = TcpListener::bind(rt, "127.0.0.1:0")?;
    let Ok((desk, mut seats)) = open::<J, R>(rt, alloc, &Settings::standard(), SEATS, opening)
    else {
        return told(rt, "a desk", Err(Fault::OutOfMemory));
    };
    let desk = Mutex::new(desk);
    let tried = match seats.pop() {
        Some(seat) => serve_and_try(rt, alloc, listener, &desk, seats, seat),
        None => Ok(false),
    };
    desk.into_inner().close(rt);
    tried
}
