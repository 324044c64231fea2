//! Tries a running server over sockets of this host, with two workers and the timed ones, whose clock
//! it turns by hand. Tries what the program's commands do and write. Then it tries the connections of a
//! server: more clients than workers, clients that send slowly or nothing, and accepts that fail. The
//! four workers of that server answer each request with 204, and wait for shorter times than those of
//! `serve`. Last it tries a client that doesn't read a long reply.
//!
//! It prints the name of each trial with its result, and ends with status 1 where one fails.
#![tactic(auto)]

mod accepts;
mod bare_server;
mod beating;
mod client;
mod crowds;
mod dial;
mod fleets;
mod following;
mod holding;
mod naps;
mod program;
mod serving;
mod slow;
mod timed;
mod trials;
mod turning;
mod unread;

use crowds::Crowd;
use dial::Dial;
use disco_press::Opening;
use disco_trials::{compared, is_told};
use program::Guest;
use std::alloc::Global;
use std::marker::Brand;
use std::net::{Net, TcpListener, TcpStream};
use std::process::ExitCode;
use std::sync::Wait;
use std::thread::Threads;
use std::{io, rt};

/// A running server, and its timed workers at their periods.
fn try_server<R>(rt: &R, alloc: Global) -> bool
where
    R: Threads + Wait + rt::Clock + Net<Listener = TcpListener, Stream = TcpStream>,
    R: AllocGlobal + Print + Sync,
{
    let server = matches!(serving::run::<Brand, R>(rt, Opening::new()), Ok(true));
    let timed = timed::run::<Brand, R>(rt, alloc, Opening::new());
    let timed = compared(rt, "timed workers at their periods", &timed::WANTED, timed);
    server && matches!(timed, Ok(true))
}

/// What the program's commands say.
fn try_commands<R>(rt: &R, alloc: Global) -> bool
where
    R: Net<Listener = TcpListener, Stream = TcpStream> + Threads + Wait + rt::Clock + Print + Sync,
{
    let serves = program::serves::<Brand, R>(rt, alloc, Opening::new(), Guest::Asks);
    let serves = is_told(rt, "the program serves a connection", serves);
    let followed = program::serves::<Brand, R>(rt, alloc, Opening::new(), Guest::Follows);
    let followed = is_told(rt, "the program follows a server", followed);
    let dial = Dial::new();
    let turned = program::serves::<Brand, R>(rt, alloc, Opening::new(), Guest::Turns(&dial));
    let turned = is_told(rt, "the program serves by a clock", turned);
    let unreached = following::is_refused(rt, alloc);
    let unreached = is_told(rt, "the program follows where nobody listens", unreached);
    let refused = program::is_refused::<Brand, R>(rt, alloc, Opening::new());
    let refused = is_told(rt, "the program on a port that is taken", refused);
    serves && followed && turned && unreached && refused
}

/// What is said of copies that are not the registry.
fn try_fleet<R: Print>(rt: &R, alloc: Global) -> io::Result<bool> {
    let said = String::from_str(alloc, fleets::SAID)?;
    compared(
        rt,
        "copies that are not the registry",
        &said,
        fleets::say(alloc),
    )
}

/// More clients than workers, slow ones, and accepts that fail.
fn try_crowds<R>(rt: &R, alloc: Global) -> bool
where
    R: Net<Listener = TcpListener, Stream = TcpStream> + Threads + Wait + rt::Clock + Print + Sync,
{
    let beats = crowds::run(rt, alloc, Crowd::Beats);
    let beats = is_told(rt, "64 clients that heartbeat", beats);
    let halves = crowds::run(rt, alloc, Crowd::Halves);
    let halves = is_told(rt, "requests that had begun to come", halves);
    let drips = crowds::run(rt, alloc, Crowd::Drips);
    let drips = is_told(rt, "heads and bodies that come byte by byte", drips);
    let silence = crowds::run(rt, alloc, Crowd::Silence);
    let silence = is_told(rt, "a silent connection of a free server", silence);
    let many = crowds::run(rt, alloc, Crowd::Many);
    let many = is_told(rt, "one connection more than may be open", many);
    let accepts = is_told(rt, "accepts that fail", accepts::are_told_apart(rt, alloc));
    let unread = is_told(
        rt,
        "a long reply that isn't read",
        unread::is_bounded(rt, alloc),
    );
    beats && halves && drips && silence && many && accepts && unread
}

fn main(rt: HostRuntime) -> ExitCode {
    let alloc = rt.alloc();
    let server = try_server(&rt, alloc);
    let commands = try_commands(&rt, alloc);
    let fleet = matches!(try_fleet(&rt, alloc), Ok(true));
    let crowds = try_crowds(&rt, alloc);
    if server && commands && fleet && crowds {
        ExitCode::SUCCESS
    } else {
        ExitCode::FAILURE
    }
}
