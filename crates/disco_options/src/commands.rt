//! Reads the words of a command line.
ghost use Rattle.std.specs.Prelude.{◌≡◌, [], ◌∷◌, IfOk, map, string_bytes};
ghost use Rattle.std.specs.Option.{option_map_or};
ghost use Rattle.clap.specs.Words.{FailsBy, HasKind, app_of, found_of, rows_of, with_subcommand};
ghost use Rattle.disco_options.specs.Options.{AreMatches, app_for, faults_between, faults_of, faults_of_options, faults_of_others};
ghost use Rattle.disco_options.specs.Options.{fleet_app, follow_app, matches_for, program_app, replay_app, serve_app, server_faults};

use crate::limits::{
    MOST_OPEN, MOST_PORT, MOST_THREADS, MOST_WORKERS, bounds_and_default, most_port, most_threads,
    open, pause, workers,
};
use crate::options::{flag, needed, number, text, text_given, with_settings};
use crate::subcommand::Subcommand;
use clap::error::ErrorKind;
use clap::{ArgMatches, Command, Error};
use disco_values::{MOST_INSTANCES, most_instances};
use std::alloc::{AllocError, Global};

fn replay_command<'a>(alloc: Global) -> Result<Command<'a>, AllocError>
    ensures { IfOk result (λ c. app_of c ≡ replay_app) }
{
    let command = Command::new(alloc, "replay").about(
        "Answers the events of standard input, one a line",
    );
    with_settings(
        alloc,
        command,
        "The number of the server's run [default: 0]",
    )
}

fn serve_command<'a>(alloc: Global) -> Result<Command<'a>, AllocError>
    ensures { IfOk result (λ c. app_of c ≡ serve_app) }
{
    let port = most_port!(up_to, "The port of 127.0.0.1 to listen on");
    let workers = workers!(bounds_and_default, "How many requests are answered at once");
    let open = open!(
        bounds_and_default,
        "How many connections are open at once; for one more the one silent longest ends"
    );
    let connections = "After how many connections the server ends; 0 is no end [default: 0]";
    let run =
        "The number of the server's run, greater than that of each earlier one [default: the moment of the start, in milliseconds]";
    let command = Command::new(alloc, "serve")
        .about("Serves Eureka's REST operations at /eureka/v2")
        .arg(needed(number(alloc, "port", "P", 1, MOST_PORT, port)))?
        .arg(number(alloc, "workers", "N", 1, MOST_WORKERS, workers))?
        .arg(number(alloc, "connections", "N", 0, u64::MAX, connections))?
        .arg(number(alloc, "open", "N", 1, MOST_OPEN, open))?;
    with_settings(alloc, command, run)
}

fn follow_command<'a>(alloc: Global) -> Result<Command<'a>, AllocError>
    ensures { IfOk result (λ c. app_of c ≡ follow_app) }
{
    let port = most_port!(up_to, "The port of 127.0.0.1 at which the server listens");
    let server = "The server's host, by name or address, and its port, in place of '--port'";
    let vip = "Tells where the instances are reached that are UP under this vip address, too";
    let compact = "Fetches compact documents";
    let json = "Writes a JSON object a line";
    let every = pause!(
        by_default,
        "The pause between two refreshes, in milliseconds"
    );
    let times = "How many refreshes are made; 0 is no end [default: 0]";
    Command::new(alloc, "follow")
        .about("Keeps a certified copy of a server's registry, and tells what changes in it")
        .arg(number(alloc, "port", "P", 1, MOST_PORT, port))?
        .arg(text(alloc, "server", "HOST:PORT", server))?
        .arg(text(alloc, "vip", "VIP", vip))?
        .arg(flag(alloc, "compact", compact))?
        .arg(flag(alloc, "json", json))?
        .arg(number(alloc, "every", "MS", 1, u64::MAX, every))?
        .arg(number(alloc, "times", "N", 0, u64::MAX, times))
}

fn fleet_command<'a>(alloc: Global) -> Result<Command<'a>, AllocError>
    ensures { IfOk result (λ c. app_of c ≡ fleet_app) }
{
    let writers = most_threads!(up_to, "How many threads register");
    let clients = most_threads!(up_to, "How many clients keep a copy");
    let instances = most_instances!(up_to, "How many instances are registered");
    let run = "The number of the server's run [default: 0]";
    let certified = "Lets the clients go by the certificates of documents";
    let restart = "Starts the server again in the next run, and shows all once more";
    Command::new(alloc, "fleet")
        .about("Shows writers, a server and clients at work in one process")
        .arg(needed(number(alloc, "writers", "W", 1, MOST_THREADS, writers)))?
        .arg(needed(number(alloc, "clients", "C", 1, MOST_THREADS, clients)))?
        .arg(needed(number(alloc, "instances", "N", 1, MOST_INSTANCES, instances)))?
        .arg(number(alloc, "run", "N", 0, u64::MAX, run))?
        .arg(flag(alloc, "certified", certified))?
        .arg(flag(alloc, "restart", restart))
}

fn command_of<'a>(alloc: Global, subcommand: Subcommand) -> Result<Command<'a>, AllocError>
    ensures { IfOk result (λ c. app_of c ≡ app_for subcommand) }
{
    match subcommand {
        Subcommand::Replay => replay_command(alloc),
        Subcommand::Serve => serve_command(alloc),
        Subcommand::Fleet => fleet_command(alloc),
        Subcommand::Follow => follow_command(alloc),
    }
}

/// The program's command with that of a word.
fn with<'a>(
    alloc: Global,
    program: Command<'a>,
    subcommand: Subcommand,
) -> Result<Command<'a>, AllocError>
    ensures { IfOk result (λ c. app_of c ≡ with_subcommand (app_of program.entry) (app_for subcommand).top) }
{
    let command = command_of(alloc, subcommand)?;
    program.subcommand(command)
}

fn program_command<'a>(alloc: Global) -> Result<Command<'a>, AllocError>
    ensures { IfOk result (λ c. app_of c ≡ program_app) }
{
    let program = Command::new(alloc, "discovery")
        .bin_name("discovery")?
        .about("A registry of instances, after Netflix Eureka")
        .no_binary_name(true)
        .subcommand_required(true);
    let program = with(alloc, program, Subcommand::Serve)?;
    let program = with(alloc, program, Subcommand::Follow)?;
    let program = with(alloc, program, Subcommand::Replay)?;
    with(alloc, program, Subcommand::Fleet)
}

/// The name that help shows for a command.
fn shown(subcommand: Subcommand) -> &'static str {
    match subcommand {
        Subcommand::Replay => "discovery replay",
        Subcommand::Serve => "discovery serve",
        Subcommand::Fleet => "discovery fleet",
        Subcommand::Follow => "discovery follow",
    }
}

/// What is wrong with words that name a server to follow: by its port or by its address, and by one
/// of them alone.
fn server_fault(matches: &ArgMatches<'_>) -> Option<(ErrorKind, &'static str)>
    ensures { option_map_or (λ fault. fault.0 ∷ []) result [] ≡ server_faults (rows_of (found_of matches.now)) }
{
    match (text_given(matches, "port"), text_given(matches, "server")) {
        (Some(_), Some(_)) => Some((
            ErrorKind::ArgumentConflict,
            "the argument '--port <P>' cannot be used with '--server <HOST:PORT>'",
        )),
        (None, None) => Some((
            ErrorKind::MissingRequiredArgument,
            "the following required arguments were not provided:\n  <--port <P>|--server <HOST:PORT>>",
        )),
        _ => None,
    }
}

/// What is wrong with a command's options together, where each by itself is right.
fn fault_between(
    subcommand: Subcommand,
    matches: &ArgMatches<'_>,
) -> Option<(ErrorKind, &'static str)>
    ensures { option_map_or (λ fault. fault.0 ∷ []) result [] ≡ faults_between subcommand (rows_of (found_of matches.now)) }
{
    match subcommand {
        Subcommand::Follow => server_fault(matches),
        _ => None,
    }
}

/// The options, if they go together.
fn checked<'a>(
    command: &mut Command<'a>,
    subcommand: Subcommand,
    matches: ArgMatches<'a>,
) -> Result<ArgMatches<'a>, Error>
    ensures matches { IfOk result (λ m. m ≡ matches.entry) }
    ensures faults { FailsBy (faults_between subcommand (rows_of (found_of matches.entry))) result }
{
    match fault_between(subcommand, &matches) {
        Some((kind, text)) => Err(command.error(kind, text)?),
        None => Ok(matches),
    }
}

/// The options in the words behind a command's word.
fn read_options<'a>(
    alloc: Global,
    subcommand: Subcommand,
    words: &'a [String],
) -> Result<ArgMatches<'a>, Error>
    ensures matches { IfOk result (λ m. rows_of (found_of m) ≡ matches_for subcommand (map string_bytes words.entry.now)) }
    ensures faults { FailsBy (faults_of_options subcommand (map string_bytes words.entry.now)) result }
{
    let mut command = command_of(alloc, subcommand)?
        .bin_name(shown(subcommand))?
        .no_binary_name(true);
    match command.try_get_matches_from_mut(words) {
        Ok(matches) => checked(&mut command, subcommand, matches),
        Err(error) => Err(error),
    }
}

/// What words that don't begin with the command's word are answered with: help, or what is wrong
/// with them.
fn refusal<'a>(alloc: Global, words: &'a [String]) -> Result<Error, AllocError>
    ensures { IfOk result (HasKind (faults_of_others (map string_bytes words.entry.now))) }
{
    let mut command = program_command(alloc)?;
    match command.try_get_matches_from_mut(words) {
        Ok(_) => command.error(ErrorKind::MissingSubcommand, "a command is missing"),
        Err(error) => Ok(error),
    }
}

/// The options that the words behind the program's name give a command, whose own word has to be the
/// first.
///
/// # Errors
///
/// Other words are refused, or ask for help. The error has the kind of a fault of the words, or the
/// kind `OutOfMemory`.
pub fn read_words<'a>(
    alloc: Global,
    subcommand: Subcommand,
    words: &'a [String],
) -> Result<ArgMatches<'a>, Error>
    ensures matches { IfOk result (λ m. AreMatches subcommand (map string_bytes words.entry.now) (rows_of (found_of m))) }
    ensures faults { FailsBy (faults_of subcommand (map string_bytes words.entry.now)) result }
{
    match subcommand.options(words) {
        Some(options) => read_options(alloc, subcommand, options),
        None => Err(refusal(alloc, words)?),
    }
}
