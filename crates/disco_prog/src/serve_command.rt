//! The command `serve`.
ghost use Rattle.std.specs.Prelude.{◌≡◌, [], IfErr, IfOk, OnOk, map, string_bytes};
ghost use Rattle.std.specs.Io.KnownBytes.{Appends};
ghost use Rattle.clap.specs.Words.{found_of, rows_of};
ghost use Rattle.disco_options.specs.Ending.{EndsBy};
ghost use Rattle.disco_options.specs.Options.{faults_of};
ghost use Rattle.disco_press.specs.Openings.{Opens};
ghost use Rattle.disco_prog.specs.Serving.{IsServicePlan, IsServingFault, SaysListening, SaysWhy, Tells, listening_line};

use crate::service::Service;
use clap::ArgMatches;
use disco_http::{Sink, write_all};
use disco_message::Limits;
use disco_options::{
    MOST_OPEN, MOST_PORT, MOST_WORKERS, OPEN, Subcommand, WORKERS, count, number_given, read_words,
    refused, report, report_address, settings_from,
};
use disco_press::{Desk, Naming, Opening, Seat, open};
use disco_server::{Clock, Open, SystemClock, listen, start_timers, start_with};
use disco_values::Fault;
use std::alloc::Global;
use std::net::{Ipv4Addr, Net, SocketAddr, TcpListener, TcpStream};
use std::sync::atomic::{AtomicBool, Ordering};
use std::sync::{Mutex, Wait};
use std::thread::{Scope, Threads};
use std::{io, rt, thread};

/// What the words of `serve` name; the run is `run` where they name none.
fn service_from(matches: &ArgMatches<'_>, run: u64) -> Service
    ensures { IsServicePlan run (rows_of (found_of matches.now)) result }
{
    Service {
        settings: settings_from(matches, run),
        port: count(matches, "port", MOST_PORT, 1) as u16,
        workers: count(matches, "workers", MOST_WORKERS, WORKERS) as usize,
        connections: number_given(matches, "connections").unwrap_or(0),
        slots: count(matches, "open", MOST_OPEN, OPEN) as usize,
    }
}

/// Writes that it listens, in one write where the host takes it whole. Gives the output back.
fn say<'o, W: Sink>(alloc: Global, port: u16, out: &'o mut W) -> Result<&'o mut W, Fault>
    ensures said { IfOk result (λ said. Tells W.contents out.entry said (listening_line port)) }
    ensures failed { IfErr result IsServingFault }
{
    let line = format!(in alloc; "listening 127.0.0.1:{port}\n")?;
    write_all(out, line.as_bytes())?;
    Ok(out)
}

/// Serves connections beside the timed workers until so many have ended. It says that it does once all
/// threads are there: where the host refuses one of them, nothing is said and none is served. Gives the
/// output back.
fn serve_in<'s, 'o, E, J: Naming + Send + Sync + 's, R, C: Clock + Copy + Send + 's, W: Sink>(
    scope: &'s Scope<'s, E>,
    rt: &'s R,
    alloc: Global,
    service: &Service,
    clock: C,
    listener: TcpListener,
    desk: &'s Mutex<Desk<J>>,
    seats: Vec<Seat<J>>,
    stop: &'s AtomicBool,
    out: &'o mut W,
) -> Result<&'o mut W, Fault>
where
    R: Net<Listener = TcpListener, Stream = TcpStream> + Threads + Wait + rt::Clock + Sync + 's,
    ensures said { IfOk result (λ said. Tells W.contents out.entry said (listening_line service.entry.now.port)) }
    ensures failed { IfErr result IsServingFault }
{
    let port = service.port;
    start_timers(scope, rt, desk, clock, stop)?;
    let served = start_with(
        rt,
        alloc,
        listener,
        desk,
        seats,
        &Limits::of_server(),
        service.connections,
        service.slots,
        clock,
        &Open,
        move || say(alloc, port, out),
    );
    stop.store(true, Ordering::SeqCst);
    served
}

/// Serves connections beside the timed workers until so many have ended, and says so at the start.
fn run<J: Naming + Send + Sync, R, C: Clock + Copy + Send, W: Sink>(
    rt: &R,
    alloc: Global,
    service: &Service,
    clock: C,
    listener: TcpListener,
    desk: &Mutex<Desk<J>>,
    seats: Vec<Seat<J>>,
    out: &mut W,
) -> Result<(), Fault>
where
    R: Net<Listener = TcpListener, Stream = TcpStream> + Threads + Wait + rt::Clock + Sync,
    ensures said { OnOk result (Appends (W.contents out.old) (W.contents out.new) (listening_line service.now.port)) }
    ensures failed { IfErr result IsServingFault }
{
    let stop = AtomicBool::new(false);
    let stop = &stop;
    let served = thread::scope(thread::scope_env(), rt, move |scope| {
        serve_in(
            scope, rt, alloc, service, clock, listener, desk, seats, stop, out,
        )
    });
    match served {
        Ok(out) => {
            // The proof reads here what was written.
            let _ = &*out;
            Ok(())
        }
        Err(fault) => Err(fault),
    }
}

/// Opens a desk that keeps a reserve of memory, and serves connections over it.
fn open_and_serve<J: Naming + Send + Sync, R, C: Clock + Copy + Send, W: Sink>(
    rt: &R,
    alloc: Global,
    service: &Service,
    clock: C,
    listener: TcpListener,
    opening: Opening,
    out: &mut W,
) -> Result<(), Fault>
where
    R: Net<Listener = TcpListener, Stream = TcpStream> + Threads + Wait + rt::Clock + Sync,
    requires opening { Opens J.list J.name J.parts opening }
    ensures said { OnOk result (Appends (W.contents out.old) (W.contents out.new) (listening_line service.now.port)) }
    ensures failed { IfErr result IsServingFault }
{
    let (mut desk, seats) = open::<J, R>(rt, alloc, &service.settings, service.workers, opening)?;
    // The desk takes later what is lacking of it.
    let _kept = desk.keep_reserve();
    let desk = Mutex::new(desk);
    let served = run(rt, alloc, service, clock, listener, &desk, seats, out);
    desk.into_inner().close(rt);
    served
}

/// Runs the command `serve` on the words behind the program's name, and gives the exit status.
///
/// It listens on a port of 127.0.0.1, writes `listening 127.0.0.1:PORT` to `out` once all its threads
/// are there, and serves connections until so many have ended, which is never where none are named.
/// Where the words name no run, it is the moment at which `serve` is called, in milliseconds since 1970.
/// The status is 0 then, and where help was asked for. It is 2 for words that are refused, with a
/// message on `errors`. Else it is 1, with the line `discovery: fault N` on `errors`, and in front of it
/// why where the host's clock can't be read and where the host refuses the port.
pub fn serve<J: Naming + Send + Sync, R, W: Sink, E: Sink>(
    rt: &R,
    alloc: Global,
    opening: Opening,
    out: &mut W,
    errors: &mut E,
    words: &[String],
) -> u8
where
    R: Net<Listener = TcpListener, Stream = TcpStream> + Threads + Wait + rt::Clock + Sync,
    requires opening { Opens J.list J.name J.parts opening }
    ensures ends { EndsBy E.contents E.failed (faults_of Subcommand.Serve (map string_bytes words.now)) result out.old out.new errors.old errors.new }
    // Words with no fault are `serve` with options: 0 says that the line which these ask for was written.
    ensures listening { faults_of Subcommand.Serve (map string_bytes words.now) ≡ [] → result ≡ 0
        → SaysListening (map string_bytes words.now) (W.contents out.old) (W.contents out.new) }
    ensures failed { faults_of Subcommand.Serve (map string_bytes words.now) ≡ [] → result ≡ 1
        → SaysWhy (E.contents errors.old) (E.contents errors.new) (E.failed errors.old) (E.failed errors.new) }
{
    let clock = SystemClock::started(rt);
    serve_by::<J, R, SystemClock<&R>, W, E>(rt, alloc, clock, opening, out, errors, words)
}

/// Runs the command `serve` as [`serve`] does, by the clock of its caller, or ends with 1 where there
/// is none. Where the words name no run, it is the moment that the clock says first.
pub fn serve_by<J: Naming + Send + Sync, R, C: Clock + Copy + Send, W: Sink, E: Sink>(
    rt: &R,
    alloc: Global,
    clock: io::Result<C>,
    opening: Opening,
    out: &mut W,
    errors: &mut E,
    words: &[String],
) -> u8
where
    R: Net<Listener = TcpListener, Stream = TcpStream> + Threads + Wait + rt::Clock + Sync,
    requires opening { Opens J.list J.name J.parts opening }
    ensures ends { EndsBy E.contents E.failed (faults_of Subcommand.Serve (map string_bytes words.now)) result out.old out.new errors.old errors.new }
    ensures listening { faults_of Subcommand.Serve (map string_bytes words.now) ≡ [] → result ≡ 0
        → SaysListening (map string_bytes words.now) (W.contents out.old) (W.contents out.new) }
    ensures failed { faults_of Subcommand.Serve (map string_bytes words.now) ≡ [] → result ≡ 1
        → SaysWhy (E.contents errors.old) (E.contents errors.new) (E.failed errors.old) (E.failed errors.new) }
{
    let matches = match read_words(alloc, Subcommand::Serve, words) {
        Ok(matches) => matches,
        Err(error) => return refused(alloc, &error, out, errors),
    };
    let mut clock = match clock {
        Ok(clock) => clock,
        Err(error) => {
            return report_address(alloc, "no reading of", &"the host's clock", &error, errors);
        }
    };
    let service = service_from(&matches, clock.now());
    let listener = match listen(rt, service.port) {
        Ok(listener) => listener,
        Err(error) => {
            let address = SocketAddr::from((Ipv4Addr::LOCALHOST, service.port));
            return report_address(alloc, "no listening on", &address, &error, errors);
        }
    };
    match open_and_serve::<J, R, C, W>(rt, alloc, &service, clock, listener, opening, out) {
        Ok(()) => 0,
        Err(fault) => report(&fault, errors),
    }
}
