//! The command `fleet`.
ghost use Rattle.std.specs.Prelude.{◌≡◌, ◌+◌, false, IfSome, map, string_bytes};
ghost use Rattle.clap.specs.Words.{found_of, rows_of};
ghost use Rattle.disco_prog.specs.Fleets.{IsFleetPlan, faults_of_fleet, faults_of_restart, is_last_run};
ghost use Rattle.disco_options.specs.Ending.{EndsBy};

mod following;
mod line;
mod plan;
mod registering;
mod running;
mod showing;

use clap::ArgMatches;
use disco_http::{Sink, write_all};
use disco_options::{
    MOST_THREADS, Subcommand, count, flag_given, read_words, refused, report, settings_from,
};
use disco_press::Opening;
use disco_values::{Fault, MOST_INSTANCES, Settings};
use following::followers;
use plan::Plan;
use running::{Turn, run};
pub use showing::lines_of;
use std::alloc::Global;
use std::marker::Brand;
use std::net::{Net, TcpListener, TcpStream};
use std::rt::Clock;
use std::sync::Wait;
use std::thread::Threads;

/// What the words of `fleet` name.
fn plan_from(matches: &ArgMatches<'_>) -> Plan
    ensures { IsFleetPlan (rows_of (found_of matches.now)) result }
{
    Plan {
        settings: settings_from(matches, 0),
        writers: count(matches, "writers", MOST_THREADS, 1),
        clients: count(matches, "clients", MOST_THREADS, 1),
        instances: count(matches, "instances", MOST_INSTANCES, 1),
        certified: flag_given(matches, "certified"),
        restart: flag_given(matches, "restart"),
    }
}

/// The settings of the next run, if a restart is asked for.
fn restarted(plan: &Plan) -> Option<Settings>
    requires { is_last_run plan.now.restart plan.now.settings.run ≡ false }
    ensures { IfSome result (λ s. s.run ≡ plan.now.settings.run + 1) }
{
    if !plan.restart {
        return None;
    }
    let mut settings = plan.settings;
    settings.run += 1;
    Some(settings)
}

/// Runs the server once, and for a restart once more, with the next run.
fn run_all<R, W: Sink>(rt: &R, alloc: Global, plan: &Plan, out: &mut W) -> Result<(), Fault>
where
    R: Net<Listener = TcpListener, Stream = TcpStream> + Threads + Wait + Clock + Sync,
    requires { is_last_run plan.now.restart plan.now.settings.run ≡ false }
{
    let restarted = restarted(plan);
    let clients = followers(alloc, plan)?;
    let clients = run::<Brand, R, W>(
        rt,
        alloc,
        plan,
        Turn::First,
        &plan.settings,
        Opening::new(),
        clients,
        out,
    )?;
    if let Some(settings) = restarted {
        run::<Brand, R, W>(
            rt,
            alloc,
            plan,
            Turn::Again,
            &settings,
            Opening::new(),
            clients,
            out,
        )?;
    }
    Ok(())
}

/// Writes that there is no run to restart in, and gives the status. A message that can't be written is
/// dropped.
fn refuse_restart<E: Sink>(errors: &mut E) -> u8
    ensures { result ≡ 2 }
{
    let _ = write_all(
        errors,
        b"error: there is no run after 18446744073709551615 for '--restart'\n",
    );
    2
}

/// Does what a plan says, and gives the exit status. A restart in the last run that there is, is
/// refused.
fn carry_out<R, W: Sink, E: Sink>(
    rt: &R,
    alloc: Global,
    plan: &Plan,
    out: &mut W,
    errors: &mut E,
) -> u8
where
    R: Net<Listener = TcpListener, Stream = TcpStream> + Threads + Wait + Clock + Sync,
    ensures { EndsBy E.contents E.failed (faults_of_restart (is_last_run plan.now.restart plan.now.settings.run)) result out.old out.new errors.old errors.new }
{
    if plan.restart && plan.settings.run == u64::MAX {
        return refuse_restart(errors);
    }
    match run_all(rt, alloc, plan, out) {
        Ok(()) => 0,
        Err(fault) => report(&fault, errors),
    }
}

/// Runs the command `fleet` on the words behind the program's name, and gives the exit status.
///
/// A server with a worker for each client listens on a free port of 127.0.0.1. While writers
/// register the instances, each client refreshes five times and three rounds are published. After
/// one more round and one more refresh it writes `fleet N HASH` to `out`, and of each client
/// whether its copy has exactly the registry's records: `client I yes` or `client I no`. With
/// `--certified` the clients go by certificates.
///
/// With `--restart` the server then ends, and another one begins with the next run and no instances.
/// Each client keeps its copy and goes on over a new connection. The writers register all instances
/// again, one round is published, each client refreshes once, and the same lines are written.
///
/// The status is 0 then, and where help was asked for. It is 2 for words that are refused, and for
/// `--restart` in the last run, 2^64 - 1, with a message on `errors`. Else it is 1, with the line
/// `discovery: fault N` on `errors`.
pub fn fleet<R, W: Sink, E: Sink>(
    rt: &R,
    alloc: Global,
    out: &mut W,
    errors: &mut E,
    words: &[String],
) -> u8
where
    R: Net<Listener = TcpListener, Stream = TcpStream> + Threads + Wait + Clock + Sync,
    ensures { EndsBy E.contents E.failed (faults_of_fleet (map string_bytes words.now)) result out.old out.new errors.old errors.new }
{
    match read_words(alloc, Subcommand::Fleet, words) {
        Ok(matches) => carry_out(rt, alloc, &plan_from(&matches), out, errors),
        Err(error) => refused(alloc, &error, out, errors),
    }
}
