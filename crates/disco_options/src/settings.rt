//! Reads settings from the words of a command line.
ghost use Rattle.std.specs.Prelude.{◌≡◌, ◌≤◌, [], IfErr, IfOk, OnOk, map, string_bytes};
ghost use Rattle.clap.specs.Words.{FailsBy, found_of, rows_of};
ghost use Rattle.disco_options.specs.Faults.{IsStatusAmong};
ghost use Rattle.disco_options.specs.Options.{AreGiven, NamedBy, faults_of, verb_of};

use crate::commands::read_words;
use crate::faults::status_of;
use crate::options::{count, flag_given, number_given};
use crate::subcommand::Subcommand;
use clap::{ArgMatches, Error};
use disco_values::{MOST_ENTRIES, MOST_INSTANCES, MOST_QUEUE, MOST_VERSIONS, RETENTION, Settings};
use std::alloc::Global;

/// The settings that are given, with defaults for the others; that of the run is `run`.
pub fn settings_from(matches: &ArgMatches<'_>, run: u64) -> Settings
    ensures { AreGiven run (rows_of (found_of matches.now)) result }
{
    Settings {
        run: number_given(matches, "run").unwrap_or(run),
        versions: count(matches, "versions", MOST_VERSIONS, MOST_VERSIONS),
        instances: count(matches, "instances", MOST_INSTANCES, MOST_INSTANCES),
        queue: count(matches, "queue", MOST_QUEUE, MOST_QUEUE),
        entries: count(matches, "entries", MOST_ENTRIES, MOST_ENTRIES),
        retention: number_given(matches, "retention").unwrap_or(RETENTION),
        delta: !flag_given(matches, "no-delta"),
    }
}

/// The settings of words that begin with a command's word; the run is `run` where they name none.
///
/// # Errors
///
/// An error whose kind is that of a fault of the words, or `OutOfMemory`.
pub fn read_settings<'a>(
    alloc: Global,
    subcommand: Subcommand,
    words: &'a [String],
    run: u64,
) -> Result<Settings, Error>
    ensures settings { IfOk result (NamedBy subcommand (map string_bytes words.entry.now) run) }
    ensures faults { FailsBy (faults_of subcommand (map string_bytes words.entry.now)) result }
{
    let matches = read_words(alloc, subcommand, words)?;
    Ok(settings_from(&matches, run))
}

/// The settings of the words behind the program's name: `replay` or `serve`, and then `--versions N`,
/// `--instances N`, `--queue N`, `--entries N`, `--retention MS`, `--no-delta`, `--run N`, or `fleet`
/// and its `--instances N` and `--run N`. An option that isn't given has its default, and that of the
/// run is `run`.
///
/// # Errors
///
/// The program's exit status: 0 where help was asked for, 1 for want of memory, 2 for words that
/// are refused.
pub fn settings_of<'a>(alloc: Global, words: &'a [String], run: u64) -> Result<Settings, u8>
    ensures settings { IfOk result (NamedBy (verb_of (map string_bytes words.entry.now)) (map string_bytes words.entry.now) run) }
    ensures ok_only_without_fault { OnOk result (faults_of (verb_of (map string_bytes words.entry.now))
        (map string_bytes words.entry.now) ≡ []) }
    ensures status { IfErr result (λ status. status ≤ 2) }
    ensures kind { IfErr result (IsStatusAmong (faults_of (verb_of (map string_bytes words.entry.now)) (map string_bytes words.entry.now))) }
{
    match read_settings(alloc, Subcommand::of(words), words, run) {
        Ok(settings) => Ok(settings),
        Err(error) => Err(status_of(&error)),
    }
}
