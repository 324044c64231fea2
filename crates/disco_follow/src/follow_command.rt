//! The command `follow`.
ghost use Rattle.std.specs.Prelude.{◌≡◌, [], IfOk, OnOk, map, string_bytes};
ghost use Rattle.clap.specs.Words.{found_of, rows_of};
ghost use Rattle.disco_follow.specs.Following.{IsFollowPlan, Tells, TellsFor, address_in, form_in, vip_in};
ghost use Rattle.disco_options.specs.Ending.{EndsBy};
ghost use Rattle.disco_options.specs.Options.{faults_of};

use crate::line::{Line, connect_thrice};
use crate::pace::Pace;
use crate::plan::Plan;
use crate::refreshes::follow_client;
use crate::wanted::Wanted;
use clap::ArgMatches;
use disco_http::Sink;
use disco_options::{
    MOST_PORT, PAUSE, Subcommand, count, flag_given, number_given, read_words, refused, report,
    report_address, text_given,
};
use disco_reconcile::Client;
use disco_values::{Fault, Form, Text};
use std::alloc::{AllocError, Global};
use std::net::{Net, TcpStream};
use std::rt::Clock;

/// The form that is asked for.
fn form_from(matches: &ArgMatches<'_>) -> Form
    ensures { result ≡ form_in (rows_of (found_of matches.now)) }
{
    if flag_given(matches, "compact") {
        Form::Compact
    } else {
        Form::Full
    }
}

/// The vip that is asked for.
fn vip_from(alloc: Global, matches: &ArgMatches<'_>) -> Result<Option<Text>, AllocError>
    ensures { IfOk result (λ v. v ≡ vip_in (rows_of (found_of matches.now))) }
{
    match text_given(matches, "vip") {
        Some(vip) => Ok(Some(Text::new(alloc, vip)?)),
        None => Ok(None),
    }
}

/// The address of the server: the one that is given, or 127.0.0.1 with the port that is given.
fn address_from(alloc: Global, matches: &ArgMatches<'_>) -> Result<Text, AllocError>
    ensures { IfOk result (λ a. a ≡ address_in (rows_of (found_of matches.now))) }
{
    match text_given(matches, "server") {
        Some(server) => Text::new(alloc, server),
        None => {
            let port = count(matches, "port", MOST_PORT, 1);
            Ok(Text::from_string(format!(in alloc; "127.0.0.1:{port}")?))
        }
    }
}

/// What the words of `follow` name.
fn plan_from(alloc: Global, matches: &ArgMatches<'_>) -> Result<Plan, AllocError>
    ensures { IfOk result (IsFollowPlan (rows_of (found_of matches.now))) }
{
    let address = address_from(alloc, matches)?;
    let wanted = Wanted {
        vip: vip_from(alloc, matches)?,
        json: flag_given(matches, "json"),
    };
    Ok(Plan {
        address,
        wanted,
        form: form_from(matches),
        pause: count(matches, "every", u64::MAX, PAUSE),
        times: number_given(matches, "times").unwrap_or(0),
    })
}

/// Refreshes a certified client by a fetcher, and writes what changes.
fn tell<R, W: Sink>(
    rt: &R,
    alloc: Global,
    plan: &Plan,
    line: Line<'_, R>,
    out: &mut W,
) -> Result<(), Fault>
where
    R: Net<Stream = TcpStream> + Clock,
    requires { line ≡ 0 }
    ensures { OnOk result (Tells plan.now.wanted plan.now.form plan.now.times (W.contents out.old) (W.contents out.new)) }
{
    let mut client = Client::certified(alloc, line, plan.form);
    follow_client(
        rt,
        alloc,
        &mut client,
        &plan.wanted,
        plan.times,
        plan.pause,
        out,
    )
}

/// Follows the registry behind a connection to the server.
fn follow_over<R, W: Sink>(
    rt: &R,
    alloc: Global,
    plan: &Plan,
    streams: (TcpStream, TcpStream, TcpStream),
    out: &mut W,
) -> Result<(), Fault>
where
    R: Net<Stream = TcpStream> + Clock,
    ensures { OnOk result (Tells plan.now.wanted plan.now.form plan.now.times (W.contents out.old) (W.contents out.new)) }
{
    let pace = Pace::new();
    let line = Line::new(rt, alloc, plan.address.as_str(), &pace, streams)?;
    tell(rt, alloc, plan, line, out)
}

/// Follows the registry that the words name, and gives the exit status.
fn carry_out<R, W: Sink, E: Sink>(
    rt: &R,
    alloc: Global,
    plan: &Plan,
    out: &mut W,
    errors: &mut E,
) -> u8
where
    R: Net<Stream = TcpStream> + Clock,
    ensures ends { EndsBy E.contents E.failed [] result out.old out.new errors.old errors.new }
    ensures told { result ≡ 0 → Tells plan.now.wanted plan.now.form plan.now.times (W.contents out.old) (W.contents out.new) }
{
    let address = plan.address.as_str();
    let streams = match connect_thrice(rt, address) {
        Ok(streams) => streams,
        Err(error) => {
            return report_address(alloc, "no connection to", &address, &error, errors);
        }
    };
    match follow_over(rt, alloc, plan, streams, out) {
        Ok(()) => 0,
        Err(fault) => report(&fault, errors),
    }
}

/// Runs the command `follow` on the words behind the program's name, and gives the exit status.
///
/// A certified client refreshes its copy of the registry of the server that listens at an address, or
/// at a port of 127.0.0.1, again and again, with a pause between two refreshes. What changed is written
/// to `out`: `copy RUN VERSION` with each instance that came (`+APP/ID=STATUS`), changed
/// (`~APP/ID=STATUS`) or went (`-APP/ID`); with `--vip V` a line `vip V` with the host and port of each
/// instance that is UP under it; and `fault N` for a refresh that is refused, after which it goes on,
/// over another connection where the one before has ended. Names are percent-encoded in these lines.
/// With `--json` each line is a JSON object, with names as they are.
///
/// The status is 0 where all refreshes that were asked for have been made, and where help was asked
/// for. It is 2 for words that are refused, with a message on `errors`. Else it is 1, with the line
/// `discovery: fault N` on `errors`: where the server's name isn't found or the host refuses the first
/// connection, and in front of the line why, where a line can't be written, and for want of memory.
pub fn follow<R, W: Sink, E: Sink>(
    rt: &R,
    alloc: Global,
    out: &mut W,
    errors: &mut E,
    words: &[String],
) -> u8
where
    R: Net<Stream = TcpStream> + Clock,
    ensures ends { EndsBy E.contents E.failed (faults_of Subcommand.Follow (map string_bytes words.now)) result out.old out.new errors.old errors.new }

    // Words with no fault are `follow` with options: 0 says that all that these ask for was told.
    ensures told { faults_of Subcommand.Follow (map string_bytes words.now) ≡ [] → result ≡ 0
        → TellsFor (map string_bytes words.now) (W.contents out.old) (W.contents out.new) }
{
    let matches = match read_words(alloc, Subcommand::Follow, words) {
        Ok(matches) => matches,
        Err(error) => return refused(alloc, &error, out, errors),
    };
    match plan_from(alloc, &matches) {
        Ok(plan) => carry_out(rt, alloc, &plan, out, errors),
        Err(AllocError) => report(&Fault::OutOfMemory, errors),
    }
}
