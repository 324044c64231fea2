//! Options of commands.
ghost use Rattle.std.specs.Prelude.{◌≡◌, ◌<◌, ◌≤◌, IfOk, false, option_map, true};
ghost use Rattle.clap.specs.Words.{app_of, found_of, rows_of, rule_of};
ghost use Rattle.disco_options.specs.Options.{flag_given, flag_rule, number_given, number_rule, text_given, text_rule, within, with_settings};

use clap::builder::ValueParser;
use clap::{Arg, ArgAction, ArgMatches, Command};
use disco_values::{
    MOST_ENTRIES, MOST_INSTANCES, MOST_QUEUE, MOST_VERSIONS, most_entries, most_instances,
    most_queue, most_versions, retention,
};
use std::alloc::{AllocError, Global};

/// An option that is a number.
pub(crate) fn number<'a>(
    alloc: Global,
    name: &'a str,
    unit: &'a str,
    least: u64,
    most: u64,
    help: &'a str,
) -> Arg<'a>
    ensures rule { rule_of result ≡ number_rule name.entry.now least most }
    ensures local { result.global ≡ false }
{
    Arg::new(alloc, name)
        .long(name)
        .value_name(unit)
        .action(ArgAction::Set)
        .value_parser(ValueParser::unsigned(least, most))
        .help(help)
}

/// An option that is a text.
pub(crate) fn text<'a>(alloc: Global, name: &'a str, unit: &'a str, help: &'a str) -> Arg<'a>
    ensures rule { rule_of result ≡ text_rule name.entry.now }
    ensures local { result.global ≡ false }
{
    Arg::new(alloc, name)
        .long(name)
        .value_name(unit)
        .action(ArgAction::Set)
        .help(help)
}

/// An option that has to be given.
pub(crate) fn needed<'a>(arg: Arg<'a>) -> Arg<'a>
    ensures rule { rule_of result ≡ record (rule_of arg.entry) { required = true } }
    ensures local { result.global ≡ arg.entry.global }
{
    arg.required(true)
}

/// An option that is given or not.
pub(crate) fn flag<'a>(alloc: Global, name: &'a str, help: &'a str) -> Arg<'a>
    ensures rule { rule_of result ≡ flag_rule name.entry.now }
    ensures local { result.global ≡ false }
{
    Arg::new(alloc, name)
        .long(name)
        .action(ArgAction::SetTrue)
        .help(help)
}

/// A command with the options that settings have; `run` is the help for that of the run.
pub(crate) fn with_settings<'a>(
    alloc: Global,
    command: Command<'a>,
    run: &'a str,
) -> Result<Command<'a>, AllocError>
    ensures { IfOk result (λ c. app_of c ≡ with_settings (app_of command.entry)) }
{
    let versions = most_versions!(most_by_default, "How many versions there are at most");
    let instances = most_instances!(most_by_default, "How many instances are held at most");
    let queue = most_queue!(most_by_default, "How many recent changes are kept at most");
    let entries = most_entries!(
        most_by_default,
        "How many documents the cache keeps, and keys a round has, at most"
    );
    let retention = retention!(
        by_default,
        "How long a recent change is kept, in milliseconds"
    );
    command
        .arg(number(alloc, "versions", "N", 1, MOST_VERSIONS, versions))?
        .arg(number(alloc, "instances", "N", 1, MOST_INSTANCES, instances))?
        .arg(number(alloc, "queue", "N", 1, MOST_QUEUE, queue))?
        .arg(number(alloc, "entries", "N", 1, MOST_ENTRIES, entries))?
        .arg(number(alloc, "retention", "MS", 0, u64::MAX, retention))?
        .arg(flag(alloc, "no-delta", "Serves no deltas"))?
        .arg(number(alloc, "run", "N", 0, u64::MAX, run))
}

/// The number given for a name.
pub fn number_given(matches: &ArgMatches<'_>, name: &str) -> Option<u64>
    ensures { result ≡ number_given name.now (rows_of (found_of matches.now)) }
{
    matches.get_one::<u64>(name)
}

/// The text given for a name.
pub fn text_given<'a>(matches: &ArgMatches<'a>, name: &str) -> Option<&'a str>
    ensures { option_map (λ t. t.now) result ≡ text_given name.now (rows_of (found_of matches.now)) }
{
    matches.get_str(name)
}

/// Whether a flag is given.
pub fn flag_given(matches: &ArgMatches<'_>, name: &str) -> bool
    ensures { result ≡ flag_given name.now (rows_of (found_of matches.now)) }
{
    matches.get_one::<bool>(name).unwrap_or(false)
}

/// The number given for a name, from 1 to `most`; `otherwise` where none is. Words with a number out
/// of range were refused before.
pub fn count(matches: &ArgMatches<'_>, name: &str, most: u64, otherwise: u64) -> u64
    requires least { 0 < otherwise }
    requires most { otherwise ≤ most }
    ensures value { result ≡ within most otherwise (number_given name.now (rows_of (found_of matches.now))) }
    ensures above { 0 < result }
    ensures limit { result ≤ most }
{
    match number_given(matches, name) {
        Some(given) if 0 < given && given <= most => given,
        _ => otherwise,
    }
}
